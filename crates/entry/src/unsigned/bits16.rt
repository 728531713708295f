ghost use Rattle.std.proofs.Common.{lit≤};
ghost use Rattle.std.specs.Int.{w16};
ghost use Rattle.entry.specs.Machine.{machine};

use crate::unsigned::Unsigned;

impl Unsigned for u16 {
    ghost width = { (machine w16).width };

    ghost number = { (machine w16).number };

    ghost make = { (machine w16).make };

    ghost made = { (machine w16).made };

    ghost holds = { (machine w16).holds };

    fn from_u16(n: u16) -> u16 {
        n
    }

    fn from_i8(w: i8) -> u16 {
        i16::from(w).cast_unsigned()
    }

    fn wrapping_add(self, other: u16) -> u16 {
        self.wrapping_add(other)
    }

    fn wrapping_mul(self, other: u16) -> u16 {
        self.wrapping_mul(other)
    }

    fn wrapping_neg(self) -> u16 {
        self.wrapping_neg()
    }

    fn largest() -> usize {
        usize::from(u16::MAX)
    }

    ghost roomy = { lit≤ tt };
}
