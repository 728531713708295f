// The text of a word for whoever debugs, under the name of its kind: the kinds are names of one struct, which no derive knows.
ghost use Rattle.std.specs.Prelude.{◌≡◌, ℕ, ◌<◌, ◌↔◌, IsTrue};

use crate::amount::{Amount, Level, Pixel, Square};
use crate::kinds::Parity;
use crate::unsigned::Unsigned;
use crate::word::Word;
use std::fmt;
use std::fmt::Debug;

// What an ink count shows of itself. It is printed under its own name, so it has that of the whole tally; as a word of level sums it would be printed by the `impl` below from within itself, which the check does not prove alone.
#[derive(Clone, Copy, Debug)]
struct Whole<U> {
    value: U,
}

// Whether two rules count every level alike.
fn is_alike<A: Amount, B: Amount>() -> bool
    ensures { IsTrue result ↔ ((g : ℕ) → g < 256 → A.amount g ≡ B.amount g) }
{
    for level in 0..=255 {
        if A::amount(level) != B::amount(level) {
            return false;
        }
    }
    true
}

impl<U: Unsigned + Debug, R> Word<U, R> {
    fn debug_as<W: fmt::Write>(&self, name: &str, f: &mut fmt::Formatter<W>) -> fmt::Result {
        f.debug_struct(name).field("value", &self.value).finish()
    }
}

// A kind is the size of its words and what a level counts, whatever its rule is called. A sum that is no kind has the name of the struct.
impl<U: Unsigned + Debug, A: Amount> Debug for Word<U, A> {
    fn fmt<W: fmt::Write>(&self, f: &mut fmt::Formatter<W>) -> fmt::Result {
        // by the largest number of 16, 32 and 64 bits
        match U::largest() {
            0xFFFF if is_alike::<A, Level>() => self.debug_as("Narrow", f),
            0xFFFF_FFFF if is_alike::<A, Level>() => self.debug_as("Whole", f),
            // an ink count is a whole tally of ink pixels
            0xFFFF_FFFF if is_alike::<A, Pixel>() => f
                .debug_struct("Ink")
                .field("tally", &Whole { value: self.value })
                .finish(),
            0xFFFF_FFFF_FFFF_FFFF if is_alike::<A, Square>() => self.debug_as("Energy", f),
            _ => f
                .debug_struct("Word")
                .field("value", &self.value)
                .finish_non_exhaustive(),
        }
    }
}

impl Debug for Parity {
    fn fmt<W: fmt::Write>(&self, f: &mut fmt::Formatter<W>) -> fmt::Result {
        self.debug_as("Parity", f)
    }
}
