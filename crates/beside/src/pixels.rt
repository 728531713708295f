// The pixels of a rectangle, row after row.
ghost use Rattle.std.specs.Prelude.{◌≡◌};
ghost use Rattle.std.specs.Iterator.{YieldsFirst, item_count};
ghost use Rattle.beside.specs.Pixels.{left_of, pixels_of};

use sheet::Rectangle;

// The pixels from `at` on; none where that is none.
#[derive(Debug, Drop)]
pub struct Pixels {
    rect: Rectangle,
    at: Option<(usize, usize)>,
}

impl Pixels {
    // The pixels of a rectangle, as column and row; a turned one has none.
    pub fn of(rect: Rectangle) -> Pixels
        ensures { left_of result ≡ pixels_of rect }
    {
        let some = rect.left <= rect.right && rect.top <= rect.bottom;
        Pixels {
            rect,
            at: some.then_some((rect.left, rect.top)),
        }
    }
}

impl Iterator for Pixels {
    type Item = (usize, usize);

    ghost next_gives = { YieldsFirst left_of };

    ghost remaining = { item_count left_of };

    fn next(&mut self) -> Option<(usize, usize)> {
        let (x, y) = self.at?;
        self.at = if x < self.rect.right {
            Some((x + 1, y))
        } else if y < self.rect.bottom {
            Some((self.rect.left, y + 1))
        } else {
            None
        };
        Some((x, y))
    }
}
