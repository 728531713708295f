// A pair of kinds is a kind.
ghost use Rattle.entry.specs.Kinds.{pair};
ghost use Rattle.std.proofs.Common.{rules};

use crate::kind::entry::Entry;
use crate::kind::weighable::Weighable;

// Two kinds of entry, part by part.
#[derive(Clone, Copy, PartialEq, Eq, Debug)]
pub struct Pair<A, B> {
    pub first: A,
    pub second: B,
}

impl<A: Entry, B: Entry> Entry for Pair<A, B> {
    ghost neutral = { (pair A.Entry B.Entry).neutral };

    ghost joined = { (pair A.Entry B.Entry).joined };

    ghost inverted = { (pair A.Entry B.Entry).inverted };

    ghost lifted = { (pair A.Entry B.Entry).lifted };

    ghost associative = { Prim.search rules };

    ghost commutative = { Prim.search rules };

    ghost identity = { Prim.search rules };

    ghost inverses = { Prim.search rules };

    fn zero() -> Pair<A, B> {
        Pair {
            first: A::zero(),
            second: B::zero(),
        }
    }

    fn join(self, other: Pair<A, B>) -> Pair<A, B> {
        Pair {
            first: self.first.join(other.first),
            second: self.second.join(other.second),
        }
    }

    fn inverse(self) -> Pair<A, B> {
        Pair {
            first: self.first.inverse(),
            second: self.second.inverse(),
        }
    }

    fn lift(level: u8) -> Pair<A, B> {
        Pair {
            first: A::lift(level),
            second: B::lift(level),
        }
    }
}

impl<A: Weighable, B: Weighable> Weighable for Pair<A, B> {
    fn times(self, w: i8) -> Pair<A, B> {
        Pair {
            first: self.first.times(w),
            second: self.second.times(w),
        }
    }
}
