// A number of the header.
ghost use Rattle.std.specs.Prelude.{◌≡◌, true, IfOk};
ghost use Rattle.refusal.specs.Answers.{accepted, ensuring, number_of};
ghost use Rattle.scan.specs.Reading.{read_answer};

use crate::fault::ScanFault;
use refusal::Refusal;

// A number, where its first digit stands, and where the byte after its last one.
#[derive(Clone, Copy)]
pub(crate) struct Numeral {
    pub value: usize,
    pub first: usize,
    pub after: usize,
}

impl Numeral {
    // The number where it passes its test, and else the refusal at its first digit.
    pub(crate) fn ensure(self, passes: bool, refusal: Refusal) -> Result<Numeral, ScanFault>
        ensures answer { read_answer (λ n. n) result ≡ ensuring passes (number_of refusal) self.first (accepted self) }
        ensures passed { IfOk result (λ n. (passes ≡ true) × (n ≡ self)) }
    {
        if passes {
            Ok(self)
        } else {
            Err(ScanFault {
                refusal,
                place: self.first,
            })
        }
    }
}
