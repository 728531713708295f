// What a level counts.
ghost use Rattle.std.specs.Prelude.{◌≡◌, ℕ, ◌*◌, ◌^◌, ◌<◌, ◌≤◌, min};
ghost use Rattle.std.proofs.Common.{rules, arith};

// A rule for what a level counts. No level counts more than 255 does.
pub trait Amount {
    ghost amount: { ℕ → ℕ };

    fn amount(level: u8) -> u16
        ensures { result ≡ amount level };

    ghost bounded: { (g : ℕ) → g < 256 → amount g ≤ amount 255 };

    ghost short: { amount 255 < 2 ^ 16 };

    ghost positive: { 0 < amount 255 };
}

// A level counts itself.
pub struct Level;

// A level counts its square.
pub struct Square;

// Every level but 0 counts one, as a pixel of ink.
pub struct Pixel;

impl Amount for Level {
    ghost amount = { λ g. g };

    fn amount(level: u8) -> u16 {
        level.into()
    }

    ghost bounded = { λ g h. omega arith };

    ghost short = { omega arith };

    ghost positive = { omega arith };
}

impl Amount for Square {
    ghost amount = { λ g. g * g };

    fn amount(level: u8) -> u16 {
        u16::from(level) * u16::from(level)
    }

    ghost bounded = { Prim.search rules };

    ghost short = { omega arith };

    ghost positive = { omega arith };
}

impl Amount for Pixel {
    ghost amount = { λ g. min g 1 };

    fn amount(level: u8) -> u16 {
        u16::from(level.min(1))
    }

    ghost bounded = { λ g h. omega arith };

    ghost short = { omega arith };

    ghost positive = { omega arith };
}
