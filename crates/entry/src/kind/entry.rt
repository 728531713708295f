// What a kind of entry is.
ghost use Rattle.std.specs.Prelude.{◌≡◌, ℕ};

// A kind of entry: a commutative group, with an entry for each level of a pixel.
pub trait Entry: Copy {
    ghost neutral: { Self };

    ghost joined: { Self → Self → Self };

    ghost inverted: { Self → Self };

    ghost lifted: { ℕ → Self };

    fn zero() -> Self
        ensures { result ≡ neutral };

    fn join(self, other: Self) -> Self
        ensures { result ≡ joined self other };

    fn inverse(self) -> Self
        ensures { result ≡ inverted self };

    // The entry of a pixel of that level.
    fn lift(level: u8) -> Self
        ensures { result ≡ lifted level };

    ghost associative: { (x y z : Self) → joined (joined x y) z ≡ joined x (joined y z) };

    ghost commutative: { (x y : Self) → joined x y ≡ joined y x };

    ghost identity: { (x : Self) → joined x neutral ≡ x };

    ghost inverses: { (x : Self) → joined x (inverted x) ≡ neutral };
}
