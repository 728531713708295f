// Pages whose bytes are fixed by a pixel and the window about it.
ghost use Rattle.std.specs.Prelude.{◌≡◌, ℕ};
ghost use Rattle.raster.specs.Drawn.{Pictured};
ghost use Rattle.raster.specs.Region.{cut_area_at, cut_sum_at, point, window_byte, window_offsets, WindowLaw};
ghost use Rattle.sheet.specs.View.{of_table};

use crate::drawing::{draw, sides};
use crate::laws::window_law;
use crate::neighbourhood::Neighbourhood;
use crate::offsets::{Offsets, Window};
use crate::region::cut_at;
use entry::{Entry, Modular, Tally, WideTally};
use refusal::Refusal;
use sheet::Table;

// The window of a pixel alone.
pub const POINT: Window = Window {
    left: 0,
    right: 0,
    up: 0,
    down: 0,
};

// The level of pixel (x, y), and what its window has on the sheet.
pub fn neighbourhood_at<T: WideTally>(
    table: &Table<'_, T>,
    window: Window,
    x: u16,
    y: u16,
) -> Neighbourhood
    ensures level { result.level ≡ T.Modular.number (of_table table.now (cut_sum_at T.Entry) (window_offsets point) x y) }
    ensures total { result.total ≡ T.Modular.number (of_table table.now (cut_sum_at T.Entry) (window_offsets window) x y) }
    ensures count { result.count ≡ cut_area_at table.now.frame.width table.now.frame.height (window_offsets window) x y }
    ensures law { WindowLaw T.Entry T.Modular.own }
{
    window_law::<T>();
    let pixel = cut_at(table, Offsets::from(POINT), x, y);
    let about = cut_at(table, Offsets::from(window), x, y);
    Neighbourhood {
        level: pixel.sum.value(),
        total: about.sum.value(),
        count: about.area,
    }
}

// Draws what a rule gives each pixel, by its level and its window, and answers how many pixels there are.
pub fn draw_windowed<T: WideTally, F: Fn(Neighbourhood) -> u8>(
    table: &Table<'_, T>,
    window: Window,
    rule: F,
    page: &mut [u8],
) -> Result<usize, Refusal>
    ghost shade: { (level total count : ℕ) → ℕ }
    requires callable { F.IsAlwaysCallable rule }
    requires gives { (about : Neighbourhood) (r : ℕ) → F.post rule about r → r ≡ shade about.level about.total about.count }
    ensures { Pictured table.now.frame (of_table table.now (window_byte T.Entry T.Modular.own shade) window) result page.old page.new }
{
    let (width, height) = sides(table.frame);
    draw(
        width,
        height,
        |x, y| rule(neighbourhood_at(table, window, x, y)),
        page,
    )
}
