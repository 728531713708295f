// The whole table of a sheet. The table and its frame are two parameters: as one struct, each of these functions would have to promise that the frame and the memory stay the same.
ghost use Rattle.std.specs.Prelude.{◌≡◌, ℕ, ◌+◌, ◌-◌, ◌*◌, ◌<◌, ◌≤◌, true, length};
ghost use Rattle.sheet.specs.Fill.{Reaches, level_at};
ghost use Rattle.sheet.specs.Frame.{HasRoom, all_columns};
ghost use Rattle.sheet.specs.Page.{area, on_sheet, overlaid, with_rest, with_row};
ghost use Rattle.sheet.specs.PageTable.{PageTable};
ghost use Rattle.sheet.specs.Sheet.{Blank, Carried, Laid, Renewed};

use crate::fill::Fill;
use crate::frame::Frame;
use crate::passes::{add_rows, rewrite_rows};
use crate::rectangle::Rectangle;
use crate::rows::{Sign, clear, rewrite_row};
use crate::span::Span;
use entry::Entry;

// Makes a table with no rows laid.
pub(crate) fn lay_blank<E: Entry>(table: &mut [E], frame: Frame)
    requires some { 0 < frame.height }
    requires room { HasRoom frame (length table.old) }
    ensures { Blank E.Entry frame.width frame.height table.old table.new }
{
    let entries = (frame.width + 1) * (frame.height + 1);
    clear(&mut table[0..entries]);
}

// Lays the levels, row after row, into these page rows.
fn lay_rows<E: Entry>(table: &mut [E], frame: Frame, rows: Span, fill: Fill<'_>)
    requires room { HasRoom frame (length table.old) }
    requires order { (rows.start ≤ rows.end) × (rows.end ≤ frame.height) }
    requires reaches { (n : ℕ) → n < frame.width * (rows.end - rows.start) → Reaches fill n }
    ensures { Laid E.Entry frame.width (all_columns frame) rows fill.entry table.old table.new }
{
    let columns = Span {
        start: 0,
        end: frame.width,
    };
    rewrite_rows(table, frame, columns, rows, fill);
}

// Lays page row `y`, after those above it.
pub(crate) fn lay_next<E: Entry>(table: &mut [E], frame: Frame, y: usize, row: &[u8])
    requires room { HasRoom frame (length table.old) }
    requires width { length row.now ≡ frame.width }
    requires within { y < frame.height }
    ensures { Renewed E.Entry frame.width frame.height y (y + 1) (with_row y row.now) table.old table.new }
{
    let width = frame.width;
    let columns = Span {
        start: 0,
        end: width,
    };
    rewrite_row(table, width + 1, y, columns, Fill::Each(row), 0);
}

// Lays one level over the page rows from `y` on.
pub(crate) fn lay_rest<E: Entry>(table: &mut [E], frame: Frame, y: usize, level: u8)
    requires room { HasRoom frame (length table.old) }
    requires within { y ≤ frame.height }
    ensures { Renewed E.Entry frame.width frame.height y frame.height (with_rest y level) table.old table.new }
{
    let rows = Span {
        start: y,
        end: frame.height,
    };
    let fill: Fill<'static> = Fill::All(level);
    lay_rows(table, frame, rows, fill);
}

// Lays a whole page, whose levels are listed row after row.
pub(crate) fn lay_all<E: Entry>(table: &mut [E], frame: Frame, levels: &[u8])
    requires some { 0 < frame.height }
    requires room { HasRoom frame (length table.old) }
    requires enough { frame.width * frame.height ≤ length levels.now }
    ensures { PageTable E.Entry frame.width frame.height frame.height levels.now table.old table.new }
{
    lay_blank(table, frame);
    let rows = Span {
        start: 0,
        end: frame.height,
    };
    lay_rows(table, frame, rows, Fill::Each(levels));
}

// Joins the rectangle's last table row or its inverse to the rows below, right of the rectangle's left side.
fn carry<E: Entry>(table: &mut [E], frame: Frame, rect: Rectangle, sign: Sign)
    requires on { on_sheet frame.width frame.height rect ≡ true }
    requires room { HasRoom frame (length table.old) }
    ensures { Carried E.Entry frame.width frame.height rect sign table.old table.new }
{
    add_rows(
        table,
        frame.width + 1,
        rect.left + 1,
        rect.bottom + 2,
        frame.height + 1,
        rect.bottom + 1,
        sign,
    );
}

// Lays levels over a rectangle, and so renews every entry right of its left side and below its top.
pub(crate) fn rewrite<E: Entry>(table: &mut [E], frame: Frame, rect: Rectangle, fill: Fill<'_>)
    requires on { on_sheet frame.width frame.height rect ≡ true }
    requires room { HasRoom frame (length table.old) }
    requires reaches { (n : ℕ) → n < area rect → Reaches fill n }
    ensures { Renewed E.Entry frame.width frame.height frame.height frame.height (overlaid rect (level_at fill.entry)) table.old table.new }
{
    carry(table, frame, rect, Sign::Minus);
    let columns = Span {
        start: rect.left,
        end: rect.right + 1,
    };
    let rows = Span {
        start: rect.top,
        end: rect.bottom + 1,
    };
    rewrite_rows(table, frame, columns, rows, fill);
    carry(table, frame, rect, Sign::Plus);
}
