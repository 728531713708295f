// A sheet while it grows.
ghost use Rattle.std.specs.Prelude.{◌≡◌};
ghost use Rattle.sheet.specs.Sheet.{growing, finished, Begun, Fed, Ended};

use crate::frame::Frame;
use crate::state::{Finished, Growing};
use crate::whole::{lay_blank, lay_next, lay_rest};
use entry::Entry;
use refusal::Refusal;

// A growing sheet over the lent memory. Where it does not fit, the 0 by 0 sheet, and nothing is written. Width and height are two numbers, since they may be no frame.
pub fn begin<'a, E: Entry>(memory: &'a mut [E], width: usize, height: usize) -> Growing<'a, E>
    ensures { Begun E.Entry memory.old width height (growing result) }
{
    let Ok(frame) = Frame::fitting(width, height, memory.len()) else {
        return Growing {
            table: memory,
            frame: Frame::NONE,
            fed: 0,
        };
    };
    lay_blank(memory, frame);
    Growing {
        table: memory,
        frame,
        fed: 0,
    }
}

impl<'a, E: Entry> Growing<'a, E> {
    // Lays the next row, and answers how many are laid.
    pub fn feed(&mut self, row: &[u8]) -> Result<usize, Refusal>
        ensures fed { Fed E.Entry (growing self.old) row.now result (growing self.new) }
        ensures memory { self.new.table.ghost_name ≡ self.old.table.ghost_name }
    {
        let Growing { table, frame, fed } = self;
        if row.len() != frame.width {
            return Err(Refusal::RowLength);
        }
        let y = *fed;
        if y >= frame.height {
            return Err(Refusal::AllRowsFed);
        }
        lay_next(table, *frame, y, row);
        *fed = y + 1;
        Ok(y + 1)
    }

    // Lays one level over all rows not fed.
    pub fn finish(self, level: u8) -> Finished<'a, E>
        ensures { Ended E.Entry (growing self.entry) level (finished result) }
    {
        let Growing { table, frame, fed } = self;
        lay_rest(table, frame, fed, level);
        Finished {
            table,
            frame,
            edits: 0,
            laid: 0,
        }
    }
}
