// Many rows of a table. The table and its size are two parameters, as in the rows; that columns are within it is asked by each for its own.
ghost use Rattle.std.specs.Prelude.{ℕ, ◌+◌, ◌-◌, ◌*◌, ◌<◌, ◌≤◌, length};
ghost use Rattle.sheet.specs.Fill.{Reaches};
ghost use Rattle.sheet.specs.Sheet.{Laid, OnTable};
ghost use Rattle.sheet.specs.Table.{Added};

use crate::fill::Fill;
use crate::frame::Frame;
use crate::rows::{Sign, add_row, rewrite_row};
use crate::span::Span;
use entry::Entry;

// Joins row `base` or its inverse to each table row from `top` on and above `bottom`, from column `left` on.
pub(crate) fn add_rows<E: Entry>(
    table: &mut [E],
    stride: usize,
    left: usize,
    top: usize,
    bottom: usize,
    base: usize,
    sign: Sign,
)
    requires room { (stride * bottom ≤ length table.old) × (left ≤ stride) }
    requires order { (base < top) × (top ≤ bottom) }
    ensures { Added E.Entry stride table.old left top bottom base sign table.new }
{
    // by number: each row is written beside another of the same table, and no iterator lends both
    for y in top..bottom {
        add_row(table, stride, left, y, base, sign);
    }
}

// Lays levels, row after row, into these columns and page rows, and shifts what stands right of them.
pub(crate) fn rewrite_rows<E: Entry>(
    table: &mut [E],
    frame: Frame,
    columns: Span,
    rows: Span,
    fill: Fill<'_>,
)
    requires order { rows.start ≤ rows.end }
    requires on { (rows.start < rows.end → OnTable frame.width frame.height columns rows (length table.old)) }
    requires reaches { (n : ℕ) → n < (columns.end - columns.start) * (rows.end - rows.start) → Reaches fill n }
    ensures { Laid E.Entry frame.width columns rows fill.entry table.old table.new }
{
    let stride = frame.width + 1;
    // by number: each row is written beside another of the same table, and no iterator lends both
    for y in rows.start..rows.end {
        let first = (y - rows.start) * (columns.end - columns.start);
        rewrite_row(table, stride, y, columns, fill, first);
    }
}
