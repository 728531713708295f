// The parity: words of 64 bits with exclusive or.
ghost use Rattle.entry.specs.Kinds.{parity};
ghost use Rattle.entry.specs.Xor.{parity_group};

use crate::kind::entry::Entry;
use crate::kind::weighable::Weighable;
use crate::kinds::Parity;
use crate::word::Word;

// Level g flips bit g / 4, which it shares with three others.
pub struct Flip;

impl Entry for Parity {
    ghost neutral = { parity.neutral };

    ghost joined = { parity.joined };

    ghost inverted = { parity.inverted };

    ghost lifted = { parity.lifted };

    ghost associative = { parity_group.associative };

    ghost commutative = { parity_group.commutative };

    ghost identity = { parity_group.identity };

    ghost inverses = { parity_group.inverses };

    fn zero() -> Parity {
        Word::of(0)
    }

    fn join(self, other: Parity) -> Parity {
        Word::of(self.value ^ other.value)
    }

    fn inverse(self) -> Parity {
        self
    }

    fn lift(level: u8) -> Parity {
        Word::of(1 << (level / 4))
    }
}

impl Weighable for Parity {
    // An entry and itself cancel, so only the lowest bit of `w` counts.
    fn times(self, w: i8) -> Parity {
        if w.cast_unsigned() % 2 == 0 {
            Parity::zero()
        } else {
            self
        }
    }
}
