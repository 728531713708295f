// What comes of a scan file.
ghost use Rattle.std.specs.Prelude.{◌≡◌, ◌+◌, ◌*◌, ◌≤◌, IfOk, Some, vec_len, Ok, Err};
ghost use Rattle.plots.specs.Printed.{surveyed_text, outcome_text, printed};
ghost use Rattle.plots.specs.declared.outcome.PlotError.TheVariants.{Refused, OutOfMemory};
ghost use Rattle.refusal.specs.declared.Layer.TheVariants.{Sheet};
ghost use Rattle.refusal.specs.declared.Report.{Report};
ghost use Rattle.scan.specs.Reading.{report_of, scan_answer};

use crate::survey::survey;
use entry::{Entry, Whole};
use refusal::{Layer, Refusal, Report};
use scan::ScanFault;
use std::alloc::{AllocError, Global};
use std::fmt;

// The sides of a sheet, and the sum of all its levels.
#[derive(Clone, Copy, Debug)]
struct Surveyed {
    width: usize,
    height: usize,
    total: u32,
}

impl fmt::Display for Surveyed {
    ghost output = { λ x. Some (surveyed_text x) };

    fn fmt<W: fmt::Write>(&self, f: &mut fmt::Formatter<W>) -> fmt::Result {
        let width = self.width;
        let height = self.height;
        let total = self.total;
        write!(f, "sheet {width} {height}\ntotal {total}")
    }
}

// What comes of a scan file, as it is printed: a sheet, or why the scan is refused.
#[derive(Clone, Copy, Debug)]
pub(crate) struct Outcome {
    answer: Result<Surveyed, Report>,
}

impl fmt::Display for Outcome {
    ghost output = { λ x. Some (outcome_text x.answer) };

    fn fmt<W: fmt::Write>(&self, f: &mut fmt::Formatter<W>) -> fmt::Result {
        match self.answer {
            Ok(surveyed) => write!(f, "{surveyed}"),
            Err(report) => write!(f, "{report}"),
        }
    }
}

// Why there is no sheet.
#[derive(Clone, Copy, Debug)]
enum PlotError {
    Refused(Report),
    OutOfMemory(AllocError),
}

impl From<ScanFault> for PlotError {
    ghost from_gives = { λ fault error. error ≡ Refused (report_of fault) };

    fn from(fault: ScanFault) -> PlotError {
        PlotError::Refused(fault.into())
    }
}

impl From<Refusal> for PlotError {
    ghost from_gives = { λ refusal error. error ≡ Refused (record { refusal = refusal; place = 0; layer = Sheet }) };

    // What lays and questions a sheet refuses with the reason alone.
    fn from(refusal: Refusal) -> PlotError {
        PlotError::Refused(Report {
            refusal,
            place: 0,
            layer: Layer::Sheet,
        })
    }
}

impl From<AllocError> for PlotError {
    ghost from_gives = { λ error given. given ≡ OutOfMemory error };

    fn from(error: AllocError) -> PlotError {
        PlotError::OutOfMemory(error)
    }
}

// Entries for the table of a sheet of these two sides. Two numbers, as its only caller has them and needs them next.
fn table_memory(heap: Global, width: usize, height: usize) -> Result<Vec<Whole>, AllocError>
    requires { (width ≤ 4096) × (height ≤ 4096) }
    ensures { IfOk result (λ v. vec_len v ≡ (width + 1) * (height + 1)) }
{
    vec![in heap; Whole::zero(); (width + 1) * (height + 1)]
}

// A good scan is filled into a sheet; what the reader refuses comes out as a report.
fn survey_scan(heap: Global, bytes: &[u8]) -> Result<Surveyed, PlotError>
    ensures surveyed { IfOk result (λ s. outcome_text (Ok s) ≡ printed (scan_answer bytes.now)) }
    ensures refused { (report : Report) → result ≡ Err (Refused report) → outcome_text (Err report) ≡ printed (scan_answer bytes.now) }
{
    let scan = scan::read(bytes)?;
    let mut memory = table_memory(heap, scan.width, scan.height)?;
    let total = survey(scan.width, scan.height, scan.levels, memory.as_mut_slice())?;
    Ok(Surveyed {
        width: scan.width,
        height: scan.height,
        total,
    })
}

// What is printed of a scan file. Where memory cannot be had nothing is.
pub(crate) fn outcome_of(heap: Global, bytes: &[u8]) -> Result<Outcome, AllocError>
    ensures { IfOk result (λ o. outcome_text o.answer ≡ printed (scan_answer bytes.now)) }
{
    let answer = match survey_scan(heap, bytes) {
        Ok(surveyed) => Ok(surveyed),
        Err(PlotError::Refused(report)) => Err(report),
        Err(PlotError::OutOfMemory(error)) => return Err(error),
    };
    Ok(Outcome { answer })
}
