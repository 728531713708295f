// Sums: words that levels add their amounts to, modulo 2 ^ bits.
ghost use mir.Val.{bits};
ghost use Rattle.entry.specs.Kinds.{sums};
ghost use Rattle.entry.specs.Machine.{words_of};
ghost use Rattle.entry.specs.NumberLaws.{numbers_laws};
ghost use Rattle.entry.specs.WordGroup.{sums_group};
ghost use Rattle.std.proofs.Common.{lt_of_lt_of_le};

use crate::amount::Amount;
use crate::kind::entry::Entry;
use crate::kind::modular::Modular;
use crate::kind::weighable::Weighable;
use crate::unsigned::Unsigned;
use crate::word::Word;

impl<U: Unsigned, A: Amount> Entry for Word<U, A> {
    ghost neutral = { (sums (words_of U.Unsigned) A.amount).neutral };

    ghost joined = { (sums (words_of U.Unsigned) A.amount).joined };

    ghost inverted = { (sums (words_of U.Unsigned) A.amount).inverted };

    ghost lifted = { (sums (words_of U.Unsigned) A.amount).lifted };

    ghost associative = { (sums_group (words_of U.Unsigned.own) A.amount).associative };

    ghost commutative = { (sums_group (words_of U.Unsigned.own) A.amount).commutative };

    ghost identity = { (sums_group (words_of U.Unsigned.own) A.amount).identity };

    ghost inverses = { (sums_group (words_of U.Unsigned.own) A.amount).inverses };

    fn zero() -> Word<U, A> {
        Word::of(U::from_u16(0))
    }

    fn join(self, other: Word<U, A>) -> Word<U, A> {
        Word::of(self.value.wrapping_add(other.value))
    }

    fn inverse(self) -> Word<U, A> {
        Word::of(self.value.wrapping_neg())
    }

    fn lift(level: u8) -> Word<U, A> {
        Word::of(U::from_u16(A::amount(level)))
    }
}

impl<U: Unsigned, A: Amount> Weighable for Word<U, A> {
    // The product with the bits of `w`, which takes the word `w` times with no loop.
    fn times(self, w: i8) -> Word<U, A> {
        Word::of(self.value.wrapping_mul(U::from_i8(w)))
    }
}

impl<U: Unsigned, A: Amount> Modular for Word<U, A> {
    ghost bits = { bits U.width };

    ghost number = { λ w. U.number w.value };

    ghost amount = { A.amount };

    ghost most = { A.amount 255 };

    ghost empty = { (numbers_laws (words_of {R = A} U.Unsigned.own) A.amount (A.amount 255) A.bounded (lt_of_lt_of_le A.short U.roomy)).empty };

    ghost adds = { (numbers_laws (words_of {R = A} U.Unsigned.own) A.amount (A.amount 255) A.bounded (lt_of_lt_of_le A.short U.roomy)).adds };

    ghost counts = { (numbers_laws (words_of {R = A} U.Unsigned.own) A.amount (A.amount 255) A.bounded (lt_of_lt_of_le A.short U.roomy)).counts };

    ghost bounded = { A.bounded };

    fn limit() -> usize {
        U::largest() / usize::from(A::amount(255))
    }
}
