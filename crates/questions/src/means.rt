// Means of rectangles and windows.
ghost use Rattle.std.specs.Prelude.{◌≡◌};
ghost use Rattle.entry.specs.Kinds.{whole};
ghost use Rattle.entry.specs.Numbers.{whole_numbers};
ghost use Rattle.questions.specs.Means.{mean_answer, mean_byte, rounded_mean, MeanLaw};
ghost use Rattle.questions.specs.Windows.{RuleLaw};
ghost use Rattle.raster.specs.Drawn.{Pictured};
ghost use Rattle.raster.specs.Region.{window_byte};
ghost use Rattle.refusal.specs.Answers.{told};
ghost use Rattle.sheet.specs.View.{of_table};

use crate::totals::total_laws;
use entry::{Tally, Whole};
use raster::{Neighbourhood, Window, draw_windowed, regions_are_exact};
use refusal::Refusal;
use sheet::{Rectangle, Table};

// The mean of `n` levels with this total, to the nearest whole level, halves upwards. Of no levels it is 0.
fn rounded_mean(total: u32, n: usize) -> u64
    ensures { result ≡ rounded_mean total n }
{
    // there is no From between usize and u64
    let count = n as u64;
    (u64::from(total) + count / 2)
        .checked_div(count)
        .unwrap_or(0)
}

// What means are on the table of any page; no code runs.
fn mean_law()
    ensures { MeanLaw }
{
    total_laws::<Whole>();
}

// The mean level of a rectangle.
pub fn mean(table: &Table<'_, Whole>, rect: Rectangle) -> Result<u64, Refusal>
    ensures answer { told result ≡ of_table table.now mean_answer rect }
    ensures law { MeanLaw }
{
    mean_law();
    let n = table.area(rect)?;
    let total = table.sum(rect)?.value();
    Ok(rounded_mean(total, n))
}

// The mean of the window, which is a byte on every page.
fn mean_level(about: Neighbourhood) -> u8
    ensures { result ≡ mean_byte about.level about.total about.count }
{
    u8::try_from(rounded_mean(about.total, about.count)).unwrap_or(u8::MAX)
}

// What the mean page is on the table of any page; no code runs.
fn mean_page_law()
    ensures { RuleLaw mean_byte (λ level total count. rounded_mean total count) }
{
    regions_are_exact::<Whole>();
}

// Draws the mean level of each pixel's window, and answers how many pixels there are.
pub fn mean_page(
    table: &Table<'_, Whole>,
    window: Window,
    page: &mut [u8],
) -> Result<usize, Refusal>
    ensures page { Pictured table.now.frame (of_table table.now (window_byte whole whole_numbers mean_byte) window) result page.old page.new }
    ensures law { RuleLaw mean_byte (λ level total count. rounded_mean total count) }
{
    mean_page_law();
    draw_windowed(table, window, mean_level, page)
}
