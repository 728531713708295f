// A sheet, and the page that it is to show. What is drawn at random is not promised; that a refused edit leaves the page is, by each.
ghost use Rattle.std.specs.Prelude.{◌≡◌, ◌≤◌, length, OnErr};
ghost use Rattle.sheet.specs.Sheet.{finished, filed, Patched, Wiped};

use crate::page::Page;
use crate::pixels::Pixels;
use crate::random::Random;
use entry::Entry;
use refusal::Refusal;
use sheet::{Finished, Growing, Rectangle, begin};

// Room for the table of a sheet, and some more.
pub const ENTRIES: usize = 90;

// The level of rows that are not fed.
const REST: u8 = 200;

pub struct Watched<'a, E> {
    pub sheet: Finished<'a, E>,
    pub page: Page,
}

// What an edit is to answer, which is how many pixels it lays, and what the sheet answered.
#[derive(Clone, Copy, Debug)]
pub struct Edited {
    pub wanted: Result<usize, Refusal>,
    pub answer: Result<usize, Refusal>,
}

impl<'a, E: Entry> Watched<'a, E> {
    // A sheet with some rows fed and the rest of one level. Rows of another length are refused, and left out of the page.
    pub fn grow(memory: &'a mut [E], random: &mut Random) -> Watched<'a, E>
        ensures width { 81 ≤ length memory.old → (finished result.sheet).width ≡ result.page.size.width }
        ensures height { 81 ≤ length memory.old → (finished result.sheet).height ≡ result.page.size.height }
        ensures account { filed (finished result.sheet) ≡ (0, 0) }
    {
        let size = random.size();
        let mut page = Page::new(size, REST);
        let mut growing: Growing<'a, E> = begin(memory, size.width, size.height);
        for y in 0..random.below(size.height + 1) {
            let row = random.levels();
            let short = random.below(size.width);
            let _ = growing.feed(&row[..short]);
            let _ = growing.feed(&row[..size.width]);
            page.lay_row(y, row);
        }
        Watched {
            sheet: growing.finish(REST),
            page,
        }
    }

    // One random edit. Where it is to be refused, the page stays.
    pub fn edit(&mut self, random: &mut Random) -> Edited
        ensures { OnErr result.wanted (self.new.page ≡ self.old.page) }
    {
        let rect = random.rectangle(self.page.size);
        if random.below(3) == 0 {
            return self.wipe(rect, random.level());
        }
        let levels: [u8; 64] = random.levels();
        // one in nine has a level too many
        let count = Pixels::of(rect).count() + random.below(9) / 8;
        // one that is turned by two columns or more, and has no pixels, comes with as many levels as there are
        let given = if rect.left > rect.right + 1 {
            64
        } else {
            count.min(64)
        };
        self.patch(rect, &levels[..given])
    }

    fn wipe(&mut self, rect: Rectangle, level: u8) -> Edited
        ensures page { OnErr result.wanted (self.new.page ≡ self.old.page) }
        ensures answer { Wiped E.Entry (finished self.old.sheet) rect level result.answer (finished self.new.sheet) }
    {
        let wanted = self.page.size.count(rect);
        if wanted.is_ok() {
            self.page.wipe(rect, level);
        }
        Edited {
            wanted,
            answer: self.sheet.wipe(rect, level),
        }
    }

    fn patch(&mut self, rect: Rectangle, levels: &[u8]) -> Edited
        ensures page { OnErr result.wanted (self.new.page ≡ self.old.page) }
        ensures answer { Patched E.Entry (finished self.old.sheet) rect levels.now result.answer (finished self.new.sheet) }
    {
        let wanted = match self.page.size.count(rect) {
            Ok(n) if n != levels.len() => Err(Refusal::PatchLength),
            counted => counted,
        };
        if wanted == Ok(levels.len()) {
            self.page.patch(rect, levels);
        }
        Edited {
            wanted,
            answer: self.sheet.patch(rect, levels),
        }
    }
}
