// A finished sheet: edits and filing. Each call promises that the memory is the one that was lent.
ghost use Rattle.std.specs.Prelude.{◌≡◌, ℕ, ◌+◌, ◌<◌, true};
ghost use Rattle.sheet.specs.Fill.{Reaches, level_at};
ghost use Rattle.sheet.specs.Page.{area, capped, on_sheet};
ghost use Rattle.sheet.specs.Sheet.{finished, filed, Edited, Patched, Wiped};

use crate::fill::Fill;
use crate::rectangle::Rectangle;
use crate::state::Finished;
use crate::whole::rewrite;
use entry::Entry;
use refusal::Refusal;

// Counts an edit of `n` pixels.
fn count(edits: &mut u64, laid: &mut u64, n: usize)
    ensures edits { edits.new ≡ capped (edits.old + 1) }
    ensures laid { laid.new ≡ capped (laid.old + n) }
{
    *edits = edits.saturating_add(1);
    // there is no From between these two
    *laid = laid.saturating_add(n as u64);
}

impl<'a, E: Entry> Finished<'a, E> {
    // Lays levels over a rectangle of the sheet, and counts the edit.
    fn lay(&mut self, rect: Rectangle, fill: Fill<'_>, n: usize)
        requires on { on_sheet self.old.frame.width self.old.frame.height rect ≡ true }
        requires reaches { (n : ℕ) → n < area rect → Reaches fill n }
        requires pixels { n ≡ area rect }
        ensures memory { self.new.table.ghost_name ≡ self.old.table.ghost_name }
        ensures edited { Edited E.Entry (finished self.old) rect (level_at fill.entry) (finished self.new) }
    {
        let Finished {
            table,
            frame,
            edits,
            laid,
        } = self;
        rewrite(table, *frame, rect, fill);
        count(edits, laid, n);
    }

    // Lays the levels, row after row, over a rectangle, and answers how many there are.
    pub fn patch(&mut self, rect: Rectangle, levels: &[u8]) -> Result<usize, Refusal>
        ensures memory { self.new.table.ghost_name ≡ self.old.table.ghost_name }
        ensures patched { Patched E.Entry (finished self.old) rect levels.now result (finished self.new) }
    {
        let n = rect.area_on(self.frame)?;
        if levels.len() != n {
            return Err(Refusal::PatchLength);
        }
        self.lay(rect, Fill::Each(levels), n);
        Ok(n)
    }

    // Lays one level over a rectangle, and answers how many pixels it has.
    pub fn wipe(&mut self, rect: Rectangle, level: u8) -> Result<usize, Refusal>
        ensures memory { self.new.table.ghost_name ≡ self.old.table.ghost_name }
        ensures wiped { Wiped E.Entry (finished self.old) rect level result (finished self.new) }
    {
        let n = rect.area_on(self.frame)?;
        let fill: Fill<'static> = Fill::All(level);
        self.lay(rect, fill, n);
        Ok(n)
    }

    // Ends the sheet, and answers its two counts, edits first.
    pub fn file(self) -> (u64, u64)
        ensures answer { result ≡ filed (finished self.entry) }
        ensures memory { self.exit.0.now ≡ self.entry.table.now }
    {
        let Finished {
            table: _,
            frame: _,
            edits,
            laid,
        } = self;
        (edits, laid)
    }
}
