// What a kind of entry is, and what some kinds can do besides.
pub mod entry;
pub mod modular;
pub mod tally;
pub mod weighable;
pub mod wide;
