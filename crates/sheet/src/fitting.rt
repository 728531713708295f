// Which sheets fit into which memory. The public calls take width and height as two numbers, since they have to refuse those that are no frame.
ghost use Rattle.std.specs.Prelude.{◌≡◌};
ghost use Rattle.refusal.specs.Answers.{told};
ghost use Rattle.sheet.specs.Frame.{Fitted};
ghost use Rattle.sheet.specs.Page.{fits_answer, side};

use crate::frame::Frame;
use refusal::Refusal;

// The longest side of a sheet.
const MAX_SIDE: usize = 4096;

fn is_side(n: usize) -> bool
    ensures { result ≡ side n }
{
    n >= 1 && n <= MAX_SIDE
}

// Whether a sheet of this size fits into so many entries.
pub fn fits(width: usize, height: usize, entries: usize) -> Result<(), Refusal>
    ensures { told result ≡ fits_answer width height entries }
{
    if !is_side(width) || !is_side(height) {
        return Err(Refusal::SheetSide);
    }
    if (width + 1) * (height + 1) > entries {
        return Err(Refusal::TableTooShort);
    }
    Ok(())
}

impl Frame {
    // The size of the sheet that has no table.
    pub(crate) const NONE: Frame = Frame {
        width: 0,
        height: 0,
    };

    // This size, if the table of such a sheet fits into so many entries.
    pub(crate) fn fitting(width: usize, height: usize, entries: usize) -> Result<Frame, Refusal>
        ensures { Fitted width height entries result }
    {
        fits(width, height, entries)?;
        Ok(Frame { width, height })
    }
}
