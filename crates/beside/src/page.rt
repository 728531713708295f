// The levels of a small sheet, kept one by one.
ghost use Rattle.std.specs.Prelude.{◌≡◌, ◌≢◌, ℕ, ◌<◌, ◌⊎◌, length, All};

use crate::pixels::Pixels;
use crate::size::{SIDE, Size};
use entry::Entry;
use sheet::Rectangle;

// Fixed memory: 8 by 8 levels, whatever the size.
#[derive(Clone, Copy, PartialEq, Eq, Debug)]
pub struct Page {
    pub size: Size,
    levels: [[u8; SIDE]; SIDE],
    ghost rows: { length levels ≡ 8 },
    ghost columns: { All (λ row. length row ≡ 8) levels },
}

impl Page {
    ghost use Rattle.beside.specs.Page.{level_at};

    // A page of one level.
    pub fn new(size: Size, level: u8) -> Page
        ensures size { result.size ≡ size }
        ensures levels { (x y : ℕ) → x < 8 → y < 8 → level_at result x y ≡ level }
    {
        Page {
            size,
            levels: [[level; SIDE]; SIDE],
        }
    }

    // The level of a pixel, or 0 far off the page.
    pub fn level(&self, x: usize, y: usize) -> u8
        ensures { result ≡ level_at self.now x y }
    {
        if y < SIDE && x < SIDE {
            self.levels[y][x]
        } else {
            0
        }
    }

    pub fn lay(&mut self, x: usize, y: usize, level: u8)
        ensures size { self.new.size ≡ self.old.size }
        ensures laid { x < 8 → y < 8 → level_at self.new x y ≡ level }
        ensures kept { (i j : ℕ) → (i ≢ x) ⊎ (j ≢ y) → level_at self.new i j ≡ level_at self.old i j }
    {
        if x < SIDE && y < SIDE {
            self.levels[y][x] = level;
        }
    }

    pub(crate) fn lay_row(&mut self, y: usize, row: [u8; SIDE])
        ensures { self.new.size ≡ self.old.size }
    {
        if y < SIDE {
            self.levels[y] = row;
        }
    }

    // Lays one level over a rectangle.
    pub(crate) fn wipe(&mut self, rect: Rectangle, level: u8) {
        for (x, y) in Pixels::of(rect) {
            self.lay(x, y, level);
        }
    }

    // Lays levels over a rectangle, row after row.
    pub(crate) fn patch(&mut self, rect: Rectangle, levels: &[u8]) {
        for ((x, y), level) in Pixels::of(rect).zip(levels) {
            self.lay(x, y, *level);
        }
    }

    // The lifted levels of a rectangle, joined one by one.
    pub(crate) fn joined<E: Entry>(&self, rect: Rectangle) -> E {
        let mut sum = E::zero();
        for y in rect.top..=rect.bottom {
            sum = self.join_row(sum, y, rect.left, rect.right);
        }
        sum
    }

    fn join_row<E: Entry>(&self, start: E, y: usize, left: usize, right: usize) -> E {
        let mut sum = start;
        for x in left..=right {
            sum = sum.join(E::lift(self.level(x, y)));
        }
        sum
    }
}
