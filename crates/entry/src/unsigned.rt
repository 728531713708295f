// The machine's unsigned words.
ghost use Rattle.std.specs.Prelude.{◌≡◌, ℕ, ◌+◌, ◌-◌, ◌*◌, ◌%◌, ◌^◌, ◌≤◌};
ghost use Rattle.std.specs.Int.{Width, cast_unsigned};
ghost use mir.Val.{bits};

// Each machine type has these methods as its own, so each has its impl.
mod bits16;
mod bits32;
mod bits64;

// An unsigned word of the machine, of 16 bits or more. Its arithmetic wraps.
pub trait Unsigned: Copy {
    ghost width: { Width };

    // The number in a word, and the word that is made of a number. Each undoes the other, so words of one number are one word.
    ghost number: { Self → ℕ };

    ghost make: { ℕ → Self };

    ghost made: { (u : Self) → make (number u) ≡ u };

    ghost holds: { (n : ℕ) → number (make n) ≡ n };

    fn from_u16(n: u16) -> Self
        ensures { number result ≡ n % 2 ^ bits width };

    // The bits of a signed number, widened with its sign.
    fn from_i8(w: i8) -> Self
        ensures { number result ≡ cast_unsigned width w };

    fn wrapping_add(self, other: Self) -> Self
        ensures { number result ≡ (number self + number other) % 2 ^ bits width };

    fn wrapping_mul(self, other: Self) -> Self
        ensures { number result ≡ (number self * number other) % 2 ^ bits width };

    fn wrapping_neg(self) -> Self
        ensures { number result ≡ (2 ^ bits width - number self) % 2 ^ bits width };

    // The largest number that a word holds.
    fn largest() -> usize
        ensures { result ≡ 2 ^ bits width - 1 };

    // What a level counts fits.
    ghost roomy: { 2 ^ 16 ≤ 2 ^ bits width };
}
