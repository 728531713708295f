// A sheet while it grows and once it is finished: two types, so that code that asks or edits too early does not compile.
ghost use Rattle.std.specs.Prelude.{◌≤◌, length};
ghost use Rattle.sheet.specs.Frame.{HasRoom};

use crate::frame::Frame;

// A sheet whose first `fed` rows are laid.
pub struct Growing<'a, E> {
    pub(crate) table: &'a mut [E],
    pub(crate) frame: Frame,
    pub(crate) fed: usize,
    ghost held: { HasRoom frame (length table.now) },
    ghost within: { fed ≤ frame.height },
}

// A sheet with all its rows laid.
pub struct Finished<'a, E> {
    pub(crate) table: &'a mut [E],
    pub(crate) frame: Frame,
    pub(crate) edits: u64,
    pub(crate) laid: u64,
    ghost held: { HasRoom frame (length table.now) },
}
