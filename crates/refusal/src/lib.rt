// Why a call is refused: one number for each reason, and the line that a program prints of it.
#![tactic(auto)]

ghost use Rattle.std.specs.Prelude.{◌≡◌, Some};
ghost use Rattle.refusal.specs.Answers.{number_of, layer_name, report_line};

use std::fmt;

// The reasons, by the party that meets them. A new one is a line here and its line in `number_of`.
#[derive(Clone, Copy, PartialEq, Eq, Debug)]
pub enum Refusal {
    // the scan
    NotP5 = 1,
    HeaderByte = 2,
    ScanSide = 3,
    Maxval = 4,
    TooFewLevels = 5,
    // whoever provides memory
    SheetSide = 11,
    TableTooShort = 12,
    ListTooShort = 13,
    // whoever edits or questions a sheet
    OffSheet = 21,
    PatchLength = 22,
    RowLength = 23,
    AllRowsFed = 24,
    NarrowTotal = 25,
    // whoever writes recipes
    Offsets = 31,
    NoPlace = 32,
    NoRectangle = 33,
    Load = 34,
    Share = 35,
    Symbol = 36,
    // whoever runs `plots`
    PlanSide = 37,
}

impl Refusal {
    pub fn number(self) -> u8
        ensures { result ≡ number_of self }
    {
        // an enum that holds nothing is read as its number
        self as u8
    }
}

// The part of the program that met the refusal. Data, since the line that is printed names it.
#[derive(Clone, Copy, PartialEq, Eq, Debug)]
pub enum Layer {
    Reader,
    Sheet,
    Job,
}

impl fmt::Display for Layer {
    ghost output = { λ x. Some (layer_name x) };

    fn fmt<W: fmt::Write>(&self, f: &mut fmt::Formatter<W>) -> fmt::Result {
        match self {
            Layer::Reader => write!(f, "reader"),
            Layer::Sheet => write!(f, "sheet"),
            Layer::Job => write!(f, "job"),
        }
    }
}

// A refusal as it arrives at the program.
#[derive(Clone, Copy, PartialEq, Eq, Debug)]
pub struct Report {
    pub refusal: Refusal,
    pub place: usize,
    pub layer: Layer,
}

impl fmt::Display for Report {
    ghost output = { λ x. Some (report_line x) };

    fn fmt<W: fmt::Write>(&self, f: &mut fmt::Formatter<W>) -> fmt::Result {
        let number = self.refusal.number();
        let place = self.place;
        let layer = self.layer;
        write!(f, "refused {number} {place} {layer}")
    }
}
