// The reader of a scan file: binary PGM with levels of 8 bits. `docs/SCAN.md` has the format.
#![tactic(auto)]

mod cursor;
mod digits;
mod fault;
mod gap;
mod numeral;
mod reader;

pub use fault::ScanFault;
pub use reader::{Scan, read};
