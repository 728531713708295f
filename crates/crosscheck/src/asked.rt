// Sheets of each kind, with edits laid on them, and every question asked of them many times.
use crate::filtered::ask_filter;
use crate::pages::ask_page;
use crate::rectangles::ask_laterals;
use crate::score::Score;
use beside::{ENTRIES, Random, Watched};
use entry::{Energy, Entry, Ink, Narrow, Pair, Whole};
use questions::{mean, spread, total};
use std::alloc::{AllocError, Global};

const SHEETS: usize = 200;

const QUESTIONS: usize = 20;

// Draws the questions, and keeps the score of their answers.
#[derive(Drop)]
pub(crate) struct Asker {
    pub(crate) random: Random,
    pub(crate) score: Score,
}

// A kind of sheet, and what can be asked of it.
pub(crate) trait Asked: Entry {
    fn ask(watched: &Watched<'_, Self>, asker: &mut Asker);
}

impl Asked for Narrow {
    fn ask(watched: &Watched<'_, Narrow>, asker: &mut Asker) {
        let table = watched.sheet.table();
        asker.ask_rectangle(
            &watched.page,
            |r| total(&table, r),
            |counted| counted.levels,
        );
    }
}

impl Asked for Whole {
    fn ask(watched: &Watched<'_, Whole>, asker: &mut Asker) {
        let table = watched.sheet.table();
        asker.ask_rectangle(
            &watched.page,
            |r| total(&table, r),
            |counted| counted.levels,
        );
        ask_laterals(watched, |counted| counted.levels, asker);
        asker.ask_rectangle(&watched.page, |r| mean(&table, r), |counted| counted.mean());
        ask_page(watched, asker);
    }
}

impl Asked for Ink {
    fn ask(watched: &Watched<'_, Ink>, asker: &mut Asker) {
        let table = watched.sheet.table();
        asker.ask_rectangle(&watched.page, |r| total(&table, r), |counted| counted.ink);
        ask_laterals(watched, |counted| counted.ink, asker);
        ask_filter(watched, asker);
    }
}

impl Asked for Pair<Whole, Energy> {
    fn ask(watched: &Watched<'_, Pair<Whole, Energy>>, asker: &mut Asker) {
        let table = watched.sheet.table();
        asker.ask_rectangle(
            &watched.page,
            |r| spread(&table, r),
            |counted| counted.spread(),
        );
    }
}

impl Asker {
    pub(crate) fn new(random: Random) -> Asker {
        Asker {
            random,
            score: Score::new(),
        }
    }

    // One sheet, with an edit before each question.
    fn ask_sheet<E: Asked>(&mut self, memory: &mut [E]) {
        let mut watched = Watched::grow(memory, &mut self.random);
        for _ in 0..QUESTIONS {
            watched.edit(&mut self.random);
            E::ask(&watched, self);
        }
        let Watched { sheet, page: _ } = watched;
        let _ = sheet.file();
    }

    // Many sheets of one kind, and their score.
    pub(crate) fn ask_sheets<E: Asked>(&mut self, heap: Global) -> Result<Score, AllocError> {
        self.score = Score::new();
        let mut memory = vec![in heap; E::zero(); ENTRIES]?;
        for _ in 0..SHEETS {
            self.ask_sheet(memory.as_mut_slice());
        }
        Ok(self.score)
    }
}
