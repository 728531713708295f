// Lays random edits on small sheets of every kind, asks every question of such sheets and filters them, and compares all answers with what is counted pixel by pixel on a page that is kept beside the sheet.
#![tactic(auto)]

mod asked;
mod direct;
mod drawn;
mod filtered;
mod pages;
mod rectangles;
mod score;
mod shape;

use asked::{Asked, Asker};
use beside::{Compared, Kind, Levels, Random, trials};
use entry::{Energy, Ink, Narrow, Pair, Whole};
use std::alloc::AllocGlobal;
use std::io;

fn print_score<E: Asked>(
    rt: &(impl Print + AllocGlobal),
    sheets: &str,
    asker: &mut Asker,
) -> io::Result<()> {
    let score = asker.ask_sheets::<E>(rt.alloc())?;
    println!(rt; "questions on {sheets}: {score}")
}

fn main(rt: HostRuntime) -> io::Result<()> {
    let mut random = Random::new(Levels::HalfBlank);
    // each line is written as soon as its kind is done
    for kind in Kind::ALL {
        let tally = trials(rt.alloc(), &mut random, Compared::Answers, kind)?;
        println!(rt; "{tally}")?;
    }
    let mut asker = Asker::new(random);
    print_score::<Narrow>(&rt, "narrow sheets", &mut asker)?;
    print_score::<Whole>(&rt, "whole sheets", &mut asker)?;
    print_score::<Ink>(&rt, "ink sheets", &mut asker)?;
    print_score::<Pair<Whole, Energy>>(&rt, "sheets of pairs", &mut asker)
}
