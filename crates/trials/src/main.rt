// Lays random edits on small sheets of every kind, and compares every entry of the table with a page that is kept beside the sheet.
#![tactic(auto)]

use beside::{Compared, Kind, Levels, Random, trials};
use std::io;

fn main(rt: HostRuntime) -> io::Result<()> {
    let mut random = Random::new(Levels::Any);
    // each line is written as soon as its kind is done
    for kind in Kind::ALL {
        let tally = trials(rt.alloc(), &mut random, Compared::Sums, kind)?;
        println!(rt; "{tally}")?;
    }
    Ok(())
}
