ghost use Rattle.std.proofs.Common.{lit≤};
ghost use Rattle.std.specs.Int.{w32};
ghost use Rattle.entry.specs.Machine.{machine};

use crate::unsigned::Unsigned;

impl Unsigned for u32 {
    ghost width = { (machine w32).width };

    ghost number = { (machine w32).number };

    ghost make = { (machine w32).make };

    ghost made = { (machine w32).made };

    ghost holds = { (machine w32).holds };

    fn from_u16(n: u16) -> u32 {
        u32::from(n)
    }

    fn from_i8(w: i8) -> u32 {
        i32::from(w).cast_unsigned()
    }

    fn wrapping_add(self, other: u32) -> u32 {
        self.wrapping_add(other)
    }

    fn wrapping_mul(self, other: u32) -> u32 {
        self.wrapping_mul(other)
    }

    fn wrapping_neg(self) -> u32 {
        self.wrapping_neg()
    }

    fn largest() -> usize {
        // there is no From between these two
        u32::MAX as usize
    }

    ghost roomy = { lit≤ tt };
}
