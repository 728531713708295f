// Entries that are numbers.
ghost use Rattle.std.specs.Prelude.{◌≡◌, ℕ, ◌+◌, ◌%◌, ◌^◌, ◌<◌, ◌≤◌};
ghost use Rattle.entry.specs.Sums.{limit_of};

use crate::kind::entry::Entry;

// A kind whose entries are numbers modulo 2 ^ bits. Joining adds them, and a level counts its amount, which is `most` at the most.
pub trait Modular: Entry {
    ghost bits: { ℕ };

    ghost number: { Self → ℕ };

    ghost amount: { ℕ → ℕ };

    ghost most: { ℕ };

    // How many levels can be joined before their sum may no longer fit.
    fn limit() -> usize
        ensures { result ≡ limit_of bits most };

    ghost empty: { number Self.Entry.neutral ≡ 0 };

    ghost adds: { (x y : Self) → number (Self.Entry.joined x y) ≡ (number x + number y) % 2 ^ bits };

    ghost counts: { (g : ℕ) → g < 256 → number (Self.Entry.lifted g) ≡ amount g };

    ghost bounded: { (g : ℕ) → g < 256 → amount g ≤ most };
}
