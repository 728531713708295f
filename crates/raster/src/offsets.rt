// Rectangles about a pixel.
ghost use Rattle.std.specs.Prelude.{◌≡◌, pos, negsuc, ◌+ℤ◌, neg_ℤ, ◌≤ℤ◌};
ghost use Rattle.raster.specs.Region.{Near, columns_at, first_above, first_from, reflected, rows_at, span_at, window_offsets};

use sheet::Span;

// At pixel (x, y), the columns x + left to x + right and the rows y + up to y + down.
#[derive(Clone, Copy, PartialEq, Eq, Debug)]
pub struct Offsets {
    pub left: i16,
    pub right: i16,
    pub up: i16,
    pub down: i16,
}

// How far a window reaches from its pixel to each side.
#[derive(Clone, Copy, PartialEq, Eq, Debug)]
pub struct Window {
    pub left: u8,
    pub right: u8,
    pub up: u8,
    pub down: u8,
}

// The first number that is x + from or more.
fn first_from(from: i32, x: u16) -> usize
    requires { Near from }
    ensures { result ≡ first_from (pos x +ℤ from) }
{
    // not below 0, so the cast loses nothing; a try_from would be more to do for each rectangle at each pixel
    (i32::from(x) + from).max(0) as usize
}

// The first number above x + to.
fn first_above(to: i32, x: u16) -> usize
    requires { Near to }
    ensures { result ≡ first_above (pos x +ℤ to) }
{
    // not below 0, as above
    (i32::from(x) + to + 1).max(0) as usize
}

// The numbers from x + from to x + to.
fn span(from: i32, to: i32, x: u16) -> Span
    requires from { Near from }
    requires to { Near to }
    ensures { result ≡ span_at from to x }
{
    Span {
        start: first_from(from, x),
        end: first_above(to, x),
    }
}

// The offset to the other side.
fn opposite(offset: i16) -> i32
    ensures value { result ≡ neg_ℤ offset }
    ensures low { negsuc 32766 ≤ℤ result }
    ensures high { result ≤ℤ pos 32768 }
{
    -i32::from(offset)
}

// Columns and rows have a method each, of one line, since the fields have names of their own.
impl Offsets {
    // The columns of the rectangle at column `x`.
    pub(crate) fn columns(self, x: u16) -> Span
        ensures { result ≡ columns_at self x }
    {
        span(i32::from(self.left), i32::from(self.right), x)
    }

    // The rows of the rectangle at row `y`.
    pub(crate) fn rows(self, y: u16) -> Span
        ensures { result ≡ rows_at self y }
    {
        span(i32::from(self.up), i32::from(self.down), y)
    }

    // The columns whose rectangles cover column `x`.
    pub(crate) fn reflected_columns(self, x: u16) -> Span
        ensures { result ≡ columns_at (reflected self) x }
    {
        span(opposite(self.right), opposite(self.left), x)
    }

    // The rows whose rectangles cover row `y`.
    pub(crate) fn reflected_rows(self, y: u16) -> Span
        ensures { result ≡ rows_at (reflected self) y }
    {
        span(opposite(self.down), opposite(self.up), y)
    }
}

impl From<Window> for Offsets {
    ghost from_gives = { λ window offsets. offsets ≡ window_offsets window };

    fn from(window: Window) -> Offsets {
        Offsets {
            left: -i16::from(window.left),
            right: i16::from(window.right),
            up: -i16::from(window.up),
            down: i16::from(window.down),
        }
    }
}
