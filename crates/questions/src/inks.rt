// Ink pages of grey sheets: 1 for ink, 0 for paper.
ghost use Rattle.std.specs.Prelude.{◌≡◌, ℕ, ◌*◌, ◌≤◌, length};
ghost use Rattle.entry.specs.Kinds.{whole};
ghost use Rattle.entry.specs.Numbers.{whole_numbers};
ghost use Rattle.questions.specs.Inks.{fixed_ink, share_answer, share_ink};
ghost use Rattle.questions.specs.Windows.{RuleLaw};
ghost use Rattle.raster.specs.Drawn.{Drawn, Pictured};
ghost use Rattle.raster.specs.Region.{point, window_byte};
ghost use Rattle.sheet.specs.View.{of_table};

use entry::Whole;
use raster::{Neighbourhood, POINT, Window, draw_windowed, regions_are_exact, room, sides};
use refusal::Refusal;
use sheet::Table;

// What this rule is given on the table of any page; no code runs. Each rule has its law on a contract of its own.
fn fixed_ink_law()
    ensures { (t : ℕ) → RuleLaw (fixed_ink t) (fixed_ink t) }
{
    regions_are_exact::<Whole>();
}

// Draws ink where the level is below the threshold, and answers how many pixels there are.
pub fn fixed_ink(table: &Table<'_, Whole>, threshold: u8, page: &mut [u8]) -> Result<usize, Refusal>
    ensures page { Pictured table.now.frame (of_table table.now (window_byte whole whole_numbers (fixed_ink threshold)) point) result page.old page.new }
    ensures law { (t : ℕ) → RuleLaw (fixed_ink t) (fixed_ink t) }
{
    fixed_ink_law();
    let below = move |about: Neighbourhood| u8::from(about.level < u32::from(threshold));
    draw_windowed(table, POINT, below, page)
}

// What `count` pixels of this level have together, in hundredths.
fn hundredfold(level: u32, count: usize) -> u64
    requires { count ≤ 16777216 }
    ensures { result ≡ level * count * 100 }
{
    // there is no From between usize and u64
    u64::from(level) * count as u64 * 100
}

// Ink where the level lies so many percent below the mean of the window.
fn darker(about: Neighbourhood, percent: u8) -> u8
    ensures { result ≡ share_ink percent about.level about.total about.count }
{
    let share = u64::from(100u8.saturating_sub(percent));
    u8::from(hundredfold(about.level, about.count) < u64::from(about.total) * share)
}

// What a rule is given on the table of any page; no code runs.
fn share_ink_law()
    ensures { (p : ℕ) → RuleLaw (share_ink p) (share_ink p) }
{
    regions_are_exact::<Whole>();
}

// Draws ink where the level lies `percent` or more below the mean of the window, and answers how many pixels there are.
pub fn share_ink(
    table: &Table<'_, Whole>,
    window: Window,
    percent: u8,
    page: &mut [u8],
) -> Result<usize, Refusal>
    ensures page { Drawn (share_answer percent table.now.frame.width table.now.frame.height (length page.old)) table.now.frame.width table.now.frame.height (of_table table.now (window_byte whole whole_numbers (share_ink percent)) window) result page.old page.new }
    ensures law { (p : ℕ) → RuleLaw (share_ink p) (share_ink p) }
{
    share_ink_law();
    let (width, height) = sides(table.frame);
    room(width, height, page)?;
    if percent > 100 {
        return Err(Refusal::Share);
    }
    draw_windowed(table, window, move |about| darker(about, percent), page)
}
