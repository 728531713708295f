// The tallies: sums that are read as numbers of 32 bits.
ghost use Rattle.std.proofs.Common.{rules};

use crate::amount::Amount;
use crate::kind::tally::Tally;
use crate::kind::wide::WideTally;
use crate::kinds::{Ink, Narrow, Whole};
use crate::word::Word;

impl Tally for Narrow {
    fn value(self) -> u32 {
        u32::from(self.value)
    }
}

impl<A: Amount> Tally for Word<u32, A> {
    fn value(self) -> u32 {
        self.value
    }
}

// Each of these owes a fact of its own.
impl WideTally for Whole {
    ghost spacious = { Prim.search rules };
}

impl WideTally for Ink {
    ghost spacious = { Prim.search rules };
}
