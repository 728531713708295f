// The kinds, and what each does with its words.
mod debug;
pub mod energy;
pub mod pair;
pub mod parity;
pub mod sum;
pub mod tallies;

use crate::amount::{Level, Pixel, Square};
use crate::kinds::parity::Flip;
use crate::word::Word;

// The narrow tally: a level counts itself, modulo 2 ^ 16.
pub type Narrow = Word<u16, Level>;

// The whole tally: a level counts itself, modulo 2 ^ 32.
pub type Whole = Word<u32, Level>;

// The ink count: every level but 0 counts one, modulo 2 ^ 32.
pub type Ink = Word<u32, Pixel>;

// The energy: a level counts its square, modulo 2 ^ 64.
pub type Energy = Word<u64, Square>;

// The parity: each of 64 bits says whether its four levels came an odd number of times.
pub type Parity = Word<u64, Flip>;
