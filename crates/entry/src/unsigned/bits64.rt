ghost use Rattle.std.proofs.Common.{lit≤};
ghost use Rattle.std.specs.Int.{w64};
ghost use Rattle.entry.specs.Machine.{machine};

use crate::unsigned::Unsigned;

impl Unsigned for u64 {
    ghost width = { (machine w64).width };

    ghost number = { (machine w64).number };

    ghost make = { (machine w64).make };

    ghost made = { (machine w64).made };

    ghost holds = { (machine w64).holds };

    fn from_u16(n: u16) -> u64 {
        u64::from(n)
    }

    fn from_i8(w: i8) -> u64 {
        i64::from(w).cast_unsigned()
    }

    fn wrapping_add(self, other: u64) -> u64 {
        self.wrapping_add(other)
    }

    fn wrapping_mul(self, other: u64) -> u64 {
        self.wrapping_mul(other)
    }

    fn wrapping_neg(self) -> u64 {
        self.wrapping_neg()
    }

    fn largest() -> usize {
        // there is no From between these two
        u64::MAX as usize
    }

    ghost roomy = { lit≤ tt };
}
