// How the reader refuses.
ghost use Rattle.std.specs.Prelude.{◌≡◌};

use refusal::{Layer, Refusal, Report};

// A reason, and the offset in the file at which it was met.
#[derive(Clone, Copy, PartialEq, Eq, Debug)]
pub struct ScanFault {
    pub refusal: Refusal,
    pub place: usize,
}

impl From<ScanFault> for Report {
    ghost use Rattle.scan.specs.Reading.{report_of};

    ghost from_gives = { λ fault report. report ≡ report_of fault };

    fn from(fault: ScanFault) -> Report {
        Report {
            refusal: fault.refusal,
            place: fault.place,
            layer: Layer::Reader,
        }
    }
}
