// Entries that are read as numbers of 32 bits.
ghost use Rattle.std.specs.Prelude.{◌≡◌};

use crate::kind::entry::Entry;
use crate::kind::modular::Modular;

// The narrow tally and all sums in words of 32 bits: the whole tally and the ink count among them.
pub trait Tally: Modular {
    fn value(self) -> u32
        ensures { result ≡ Self.Modular.number self };
}
