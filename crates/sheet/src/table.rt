// A finished table, lent to be read.
ghost use Rattle.std.specs.Prelude.{length};
ghost use Rattle.sheet.specs.Frame.{HasRoom};

use crate::frame::Frame;

// The entries of a finished sheet, or of memory that holds its table. A table of height 0 has no entries.
#[derive(Drop)]
pub struct Table<'a, E> {
    pub entries: &'a [E],
    pub frame: Frame,
    ghost held: { HasRoom frame (length entries.now) },
}
