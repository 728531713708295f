// Words of numbers.
ghost use Rattle.std.specs.Prelude.{◌≡◌, ◌^◌, ◌<◌, ⊤};
ghost use mir.Val.{bits};

use crate::unsigned::Unsigned;
use std::alloc::AllocError;
use std::marker::PhantomData;

// A word of the machine; `R` is the rule for what a level does to it.
#[derive_where(PartialEq, Eq; U)]
pub struct Word<U: Unsigned, R> {
    pub(crate) value: U,
    #[derive_where(skip)]
    rule: PhantomData<R>,
    ghost fits: { U.number value < 2 ^ bits U.width },
}

impl<U: Unsigned, R> Word<U, R> {
    ghost use Rattle.std.specs.Prelude.{ℕ, ◌%◌};
    ghost use Rattle.entry.specs.Machine.{words_of};
    ghost use Rattle.entry.specs.Words.{word};

    // The word of each number that leaves `value` modulo 2 ^ bits.
    pub(crate) fn of(value: U) -> Word<U, R>
        requires { U.number value < 2 ^ bits U.width }
        ensures { (n : ℕ) → U.number value ≡ n % 2 ^ bits U.width → result ≡ word (words_of U.Unsigned) n }
    {
        Word {
            value,
            rule: PhantomData,
        }
    }
}

// By hand, since no derive copies a ghost field that reads a member of `U` (tried).
impl<U: Unsigned, R> Copy for Word<U, R> {}

impl<U: Unsigned, R> Clone for Word<U, R> {
    ghost is_clone = { λ x y. y ≡ x };

    ghost is_infallible = { λ _. ⊤ };

    fn clone(&self) -> Result<Word<U, R>, AllocError> {
        Ok(Word::of(self.value))
    }
}
