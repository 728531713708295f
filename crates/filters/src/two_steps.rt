// One step after the other, with the table of the page between them in lent memory.
ghost use Rattle.std.specs.Prelude.{◌≡◌};
ghost use Rattle.filters.specs.Steps.{TwoSteps};
ghost use Rattle.sheet.specs.Sheet.{table_size};
ghost use Rattle.sheet.specs.View.{of_table};

use crate::step::Step;
use crate::stepped::draw_step;
use entry::Ink;
use raster::Offsets;
use refusal::Refusal;
use sheet::{Frame, Table, lay_page};

// How many entries the table of a sheet of that size takes.
fn table_size(frame: Frame) -> usize
    ensures { result ≡ table_size frame.width frame.height }
{
    if frame.height == 0 {
        return 0;
    }
    (frame.width + 1) * (frame.height + 1)
}

// Draws the page that two steps give, and answers how many pixels it has.
pub(crate) fn draw_two_steps(
    first: Step,
    second: Step,
    table: &Table<'_, Ink>,
    element: &[Offsets],
    between: &mut [Ink],
    page: &mut [u8],
) -> Result<usize, Refusal>
    ensures { of_table table.now (TwoSteps first second) element.now result between.old between.new page.old page.new }
{
    if between.len() < table_size(table.frame) {
        return Err(Refusal::TableTooShort);
    }
    let n = draw_step(first, table, element, page)?;
    if table.frame.height == 0 {
        return Ok(n);
    }
    lay_page(between, table.frame.width, table.frame.height, &page[0..n])?;
    let middle = Table::of(between, table.frame.width, table.frame.height)?;
    draw_step(second, &middle, element, page)
}
