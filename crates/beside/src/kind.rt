// The kinds of entry that are tried.
ghost use Rattle.std.specs.Prelude.{Some};
ghost use Rattle.beside.specs.Lines.{kind_name};

use std::fmt;

// A kind of entry; the pair is that of whole tally and energy.
#[derive(Clone, Copy, PartialEq, Eq, Debug)]
pub enum Kind {
    Narrow,
    Whole,
    Ink,
    Energy,
    Parity,
    Pair,
}

impl Kind {
    // Each of them, in the order in which they are tried.
    pub const ALL: [Kind; 6] = [
        Kind::Narrow,
        Kind::Whole,
        Kind::Ink,
        Kind::Energy,
        Kind::Parity,
        Kind::Pair,
    ];
}

impl fmt::Display for Kind {
    ghost output = { λ x. Some (kind_name x) };

    fn fmt<W: fmt::Write>(&self, f: &mut fmt::Formatter<W>) -> fmt::Result {
        match self {
            Kind::Narrow => write!(f, "narrow"),
            Kind::Whole => write!(f, "whole"),
            Kind::Ink => write!(f, "ink"),
            Kind::Energy => write!(f, "energy"),
            Kind::Parity => write!(f, "parity"),
            Kind::Pair => write!(f, "pair"),
        }
    }
}
