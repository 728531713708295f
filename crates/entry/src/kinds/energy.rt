// An energy is read as a number of 64 bits.
ghost use Rattle.std.specs.Prelude.{◌≡◌};

use crate::kinds::Energy;

impl Energy {
    pub fn value(self) -> u64
        ensures { result ≡ self.value }
    {
        self.value
    }
}
