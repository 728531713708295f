// The median of a window.
ghost use Rattle.std.specs.Prelude.{◌≡◌};
ghost use Rattle.entry.specs.Kinds.{ink};
ghost use Rattle.entry.specs.Numbers.{ink_numbers};
ghost use Rattle.filters.specs.Laws.{FilterLaws};
ghost use Rattle.filters.specs.Steps.{majority, MedianLaw};
ghost use Rattle.raster.specs.Drawn.{Pictured};
ghost use Rattle.raster.specs.Region.{window_byte};
ghost use Rattle.sheet.specs.View.{of_table};

use crate::laws::{filter_laws, median_law};
use entry::Ink;
use raster::{Neighbourhood, Window, draw_windowed};
use refusal::Refusal;
use sheet::Table;

// Ink where more than half of the window is.
fn majority_of(about: Neighbourhood) -> u8
    ensures { result ≡ majority about.level about.total about.count }
{
    // there is no From between these two
    u8::from(about.count < 2 * about.total as usize)
}

// Draws ink where more than half of the pixels of the window are ink, and answers how many pixels there are.
pub fn median(table: &Table<'_, Ink>, window: Window, page: &mut [u8]) -> Result<usize, Refusal>
    ensures page { Pictured table.now.frame (of_table table.now (window_byte ink ink_numbers majority) window) result page.old page.new }
    ensures law { MedianLaw }
    ensures laws { FilterLaws }
{
    median_law();
    filter_laws();
    draw_windowed(table, window, majority_of, page)
}
