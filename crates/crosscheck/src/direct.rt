// What pixels have together, counted one by one on the page.
use crate::shape::is_between;
use beside::Page;
use raster::Window;
use sheet::Rectangle;

// Some pixels: how many, how many of them are ink, the sum of their levels and of the squares of these.
#[derive(Clone, Copy)]
pub(crate) struct Counted {
    pub(crate) pixels: u64,
    pub(crate) ink: u32,
    pub(crate) levels: u32,
    squares: u64,
}

impl Counted {
    fn none() -> Counted {
        Counted {
            pixels: 0,
            ink: 0,
            levels: 0,
            squares: 0,
        }
    }

    fn with(self, level: u8) -> Counted {
        let square = u64::from(level).wrapping_mul(u64::from(level));
        Counted {
            pixels: self.pixels.wrapping_add(1),
            ink: self.ink.wrapping_add(u32::from(level.min(1))),
            levels: self.levels.wrapping_add(u32::from(level)),
            squares: self.squares.wrapping_add(square),
        }
    }

    // The pixels of a rectangle.
    pub(crate) fn of(page: &Page, rect: Rectangle) -> Counted {
        let end = rect.right.saturating_add(1);
        (rect.top..rect.bottom.saturating_add(1)).fold(Counted::none(), |counted, y| {
            (rect.left..end).fold(counted, |counted, x| counted.with(page.level(x, y)))
        })
    }

    // The pixels on the page that lie in the window of (x, y).
    pub(crate) fn about(page: &Page, window: Window, x: usize, y: usize) -> Counted {
        (0..page.size.height)
            .filter(|&j| is_between(y, -i16::from(window.up), i16::from(window.down), j))
            .fold(
                Counted::none(),
                |counted, j| counted.with_near(page, window, x, j),
            )
    }

    // The pixels of row `j` too whose columns lie in the window of column `x`.
    fn with_near(self, page: &Page, window: Window, x: usize, j: usize) -> Counted {
        (0..page.size.width)
            .filter(|&i| is_between(x, -i16::from(window.left), i16::from(window.right), i))
            .fold(self, |counted, i| counted.with(page.level(i, j)))
    }

    // The mean to the nearest whole level, halves upwards.
    pub(crate) fn mean(self) -> u64 {
        let twice = u64::from(self.levels)
            .wrapping_mul(2)
            .wrapping_add(self.pixels);
        twice.checked_div(self.pixels.wrapping_mul(2)).unwrap_or(0)
    }

    pub(crate) fn spread(self) -> u64 {
        let levels = u64::from(self.levels);
        self.pixels
            .wrapping_mul(self.squares)
            .wrapping_sub(levels.wrapping_mul(levels))
    }
}
