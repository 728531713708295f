// One sheet after another, each with many edits.
ghost use Rattle.std.specs.Prelude.{◌≡◌, IfOk, Some};
ghost use Rattle.beside.specs.Lines.{compared_name, kind_line, tally_line};

use crate::kind::Kind;
use crate::random::Random;
use crate::size::SIDE;
use crate::watched::{ENTRIES, Edited, Watched};
use entry::{Energy, Entry, Ink, Narrow, Pair, Parity, Whole};
use refusal::Refusal;
use sheet::Rectangle;
use std::alloc::{AllocError, Global};
use std::fmt;

const SHEETS: usize = 40;

const EDITS: usize = 100;

// What is compared: the sums of a table and its account alone, or the answers of the edits as well. Data, since the line that is printed names it.
#[derive(Clone, Copy, PartialEq, Eq, Debug)]
pub enum Compared {
    Sums,
    Answers,
}

impl fmt::Display for Compared {
    ghost output = { λ x. Some (compared_name x) };

    fn fmt<W: fmt::Write>(&self, f: &mut fmt::Formatter<W>) -> fmt::Result {
        match self {
            Compared::Sums => write!(f, "sums"),
            Compared::Answers => write!(f, "answers"),
        }
    }
}

impl Compared {
    // What counts as the answer of an edit: where answers are compared, what it is to be; else what the sheet answered, which nothing else looks at then.
    fn counted(self, edited: Edited) -> Result<usize, Refusal> {
        match self {
            Compared::Sums => edited.answer,
            Compared::Answers => edited.wanted,
        }
    }
}

// What was done, and what was found. The counts wrap rather than ask for a bound; no run comes near it.
#[derive(Clone, Copy, Debug)]
struct Counts {
    edits: usize,
    refused: usize,
    comparisons: usize,
    different: usize,
}

impl Counts {
    fn note(&mut self, same: bool) {
        self.comparisons = self.comparisons.wrapping_add(1);
        if !same {
            self.different = self.different.wrapping_add(1);
        }
    }

    fn note_edit(&mut self, edited: Edited, compared: Compared) {
        self.edits = self.edits.wrapping_add(1);
        if compared.counted(edited).is_err() {
            self.refused = self.refused.wrapping_add(1);
        }
        if compared == Compared::Answers {
            self.note(edited.answer == edited.wanted);
        }
    }

    // Compares every entry of the table with the levels left of it and above it.
    fn note_sums<E: Entry + PartialEq>(&mut self, watched: &Watched<'_, E>) {
        // no side is longer than that, and where the compiler sees it, it unrolls the loops over the pixels
        for bottom in 0..watched.page.size.height.min(SIDE) {
            self.note_row(watched, bottom);
        }
    }

    fn note_row<E: Entry + PartialEq>(&mut self, watched: &Watched<'_, E>, bottom: usize) {
        for right in 0..watched.page.size.width.min(SIDE) {
            let rect = Rectangle {
                left: 0,
                top: 0,
                right,
                bottom,
            };
            self.note(watched.sheet.sum(rect) == Ok(watched.page.joined(rect)));
        }
    }

    // One sheet with many edits, and its account at the end. The random numbers go on from sheet to sheet, so they are no part of the counts.
    fn sheet<E: Entry + PartialEq>(
        &mut self,
        memory: &mut [E],
        random: &mut Random,
        compared: Compared,
    ) {
        let mut watched = Watched::grow(memory, random);
        // the account of the sheet, kept beside it: of the edits that are laid, which no iterator counts
        let mut edits: u64 = 0;
        let mut laid: u64 = 0;
        for _ in 0..EDITS {
            let edited = watched.edit(random);
            self.note_edit(edited, compared);
            if let Ok(n) = compared.counted(edited) {
                edits = edits.wrapping_add(1);
                // there is no From between these two
                laid = laid.wrapping_add(n as u64);
            }
            self.note_sums(&watched);
        }
        let Watched { sheet, page: _ } = watched;
        self.note(sheet.file() == (edits, laid));
    }
}

// The counts of many sheets.
#[derive(Clone, Copy, Debug)]
pub struct Tally {
    pub compared: Compared,
    counts: Counts,
}

impl fmt::Display for Tally {
    ghost output = { λ x. Some (tally_line x) };

    fn fmt<W: fmt::Write>(&self, f: &mut fmt::Formatter<W>) -> fmt::Result {
        let compared = self.compared;
        let Counts {
            edits,
            refused,
            comparisons,
            different,
        } = self.counts;
        write!(
            f,
            "{edits} edits, {refused} refused, {comparisons} {compared} compared, {different} different"
        )
    }
}

// Many sheets of one type of entry.
fn trials_of<E: Entry + PartialEq>(
    heap: Global,
    random: &mut Random,
    compared: Compared,
) -> Result<Tally, AllocError>
    ensures { IfOk result (λ t. t.compared ≡ compared) }
{
    let mut memory = vec![in heap; E::zero(); ENTRIES]?;
    let mut counts = Counts {
        edits: 0,
        refused: 0,
        comparisons: 0,
        different: 0,
    };
    for _ in 0..SHEETS {
        counts.sheet(memory.as_mut_slice(), random, compared);
    }
    Ok(Tally { compared, counts })
}

// The counts of many sheets of one kind, with its name.
#[derive(Clone, Copy, Debug)]
pub struct KindTally {
    pub kind: Kind,
    pub tally: Tally,
}

impl fmt::Display for KindTally {
    ghost output = { λ x. Some (kind_line x) };

    fn fmt<W: fmt::Write>(&self, f: &mut fmt::Formatter<W>) -> fmt::Result {
        let KindTally { kind, tally } = *self;
        write!(f, "{kind}: {tally}")
    }
}

// Many sheets of one kind. Whoever wants all kinds calls it for each, and has the counts of each as soon as it is done.
pub fn trials(
    heap: Global,
    random: &mut Random,
    compared: Compared,
    kind: Kind,
) -> Result<KindTally, AllocError>
    ensures { IfOk result (λ t. (t.kind ≡ kind) × (t.tally.compared ≡ compared)) }
{
    let tally = match kind {
        Kind::Narrow => trials_of::<Narrow>(heap, random, compared)?,
        Kind::Whole => trials_of::<Whole>(heap, random, compared)?,
        Kind::Ink => trials_of::<Ink>(heap, random, compared)?,
        Kind::Energy => trials_of::<Energy>(heap, random, compared)?,
        Kind::Parity => trials_of::<Parity>(heap, random, compared)?,
        Kind::Pair => trials_of::<Pair<Whole, Energy>>(heap, random, compared)?,
    };
    Ok(KindTally { kind, tally })
}
