// Entries with weights.
ghost use Rattle.std.specs.Prelude.{◌≡◌};
ghost use Rattle.entry.specs.Taken.{taken};

use crate::kind::entry::Entry;

// A kind whose entries can be taken a number of times.
pub trait Weighable: Entry {
    // The entry joined with itself `w` times over, or for a `w` below 0 its inverse `-w` times.
    fn times(self, w: i8) -> Self
        ensures { result ≡ taken Self.Entry w self };
}
