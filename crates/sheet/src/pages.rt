// Whole pages, laid into lent memory.
ghost use Rattle.sheet.specs.PageTable.{PageLaid};

use crate::frame::Frame;
use crate::whole::lay_all;
use entry::Entry;
use refusal::Refusal;

// Lays a page of `width` by `height` levels into memory, as its table, and answers how many levels it has. Two numbers, since it has to refuse those that are no frame.
pub fn lay_page<E: Entry>(
    memory: &mut [E],
    width: usize,
    height: usize,
    levels: &[u8],
) -> Result<usize, Refusal>
    ensures { PageLaid E.Entry memory.old width height levels.now result memory.new }
{
    let frame = Frame::fitting(width, height, memory.len())?;
    let n = width * height;
    if levels.len() < n {
        return Err(Refusal::ListTooShort);
    }
    lay_all(memory, frame, levels);
    Ok(n)
}
