// `plots` reads a scan file from standard input, and prints the sides of the sheet or why the scan is refused.
#![tactic(auto)]

mod input;
mod outcome;
mod survey;
#[cfg(test)]
mod tests;

use input::fill;
use outcome::outcome_of;
use std::io;

// As much of the input as the program reads, into fixed memory.
const MAX_INPUT: usize = 16_384;

fn main(rt: HostRuntime) -> io::Result<()> {
    let mut buffer = [0; MAX_INPUT];
    let length = fill(&mut rt.stdin(), &mut buffer)?;
    let outcome = outcome_of(rt.alloc(), &buffer[..length])?;
    println!(rt; "{outcome}")
}
