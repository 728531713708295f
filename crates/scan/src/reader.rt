// The scan file as a whole: two magic bytes, three numbers, and the levels.
ghost use Rattle.std.specs.Prelude.{◌≡◌, ◌+◌, ◌≤◌, IfOk};
ghost use Rattle.scan.specs.Format.{ReadsBack};
ghost use Rattle.scan.specs.Reading.{read_answer, image_of, side_answer, maxval_answer, levels_answer, header_answer, scan_answer};

use crate::cursor::Cursor;
use crate::fault::ScanFault;
use crate::numeral::Numeral;
use refusal::Refusal;

// The longest side of a scan.
const MAX_SIDE: usize = 4096;

// A scan: its sides, and its levels row after row, lent from the file.
#[derive(Clone, Copy)]
pub struct Scan<'a> {
    pub width: usize,
    pub height: usize,
    pub levels: &'a [u8],
}

impl<'a> Cursor<'a> {
    // A width or a height.
    fn side(self) -> Result<Numeral, ScanFault>
        ensures answer { read_answer (λ n. n) result ≡ side_answer self.entry.bytes.now self.entry.at }
        ensures within { IfOk result (λ n. n.value ≤ 4096) }
    {
        let side = self.number()?;
        side.ensure(1 <= side.value && side.value <= MAX_SIDE, Refusal::ScanSide)
    }

    // The largest level, which has to be 255.
    fn maxval(self) -> Result<Numeral, ScanFault>
        ensures { read_answer (λ n. n) result ≡ maxval_answer self.entry.bytes.now self.entry.at }
    {
        let maxval = self.number()?;
        maxval.ensure(maxval.value == 255, Refusal::Maxval)
    }

    // The scan whose levels begin after the byte here. Two numbers: this crate knows no frame.
    fn levels(self, width: usize, height: usize) -> Result<Scan<'a>, ScanFault>
        requires { (width ≤ 4096) × (height ≤ 4096) }
        ensures { read_answer image_of result ≡ levels_answer self.entry.bytes.now width height (self.entry.at + 1) }
    {
        let count = width * height;
        let rest = self.rest_after();
        if rest.len() < count {
            return Err(ScanFault {
                refusal: Refusal::TooFewLevels,
                place: self.bytes.len(),
            });
        }
        Ok(Scan {
            width,
            height,
            levels: &rest[..count],
        })
    }

    // The scan whose header goes on here, after the magic bytes.
    fn header(self) -> Result<Scan<'a>, ScanFault>
        ensures { read_answer image_of result ≡ header_answer self.entry.bytes.now self.entry.at }
    {
        let bytes = self.bytes;
        let width = self.side()?;
        let height = Cursor {
            bytes,
            at: width.after,
        }
        .side()?;
        let maxval = Cursor {
            bytes,
            at: height.after,
        }
        .maxval()?;
        Cursor {
            bytes,
            at: maxval.after,
        }
        .levels(width.value, height.value)
    }
}

// Carries the law of the format to the contract of `read`; no code runs.
fn format_law()
    ensures { ReadsBack }
{}

// Reads a scan, or answers the first fault from the front of the file.
pub fn read(bytes: &[u8]) -> Result<Scan<'_>, ScanFault>
    ensures answer { read_answer image_of result ≡ scan_answer bytes.now }
    ensures law { ReadsBack }
{
    format_law();
    let [b'P', b'5', rest @ ..] = bytes else {
        return Err(ScanFault {
            refusal: Refusal::NotP5,
            place: 0,
        });
    };
    let start = Cursor {
        bytes,
        at: bytes.len() - rest.len(),
    };
    start.header()
}
