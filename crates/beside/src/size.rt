// The size of a small sheet.
ghost use Rattle.std.specs.Prelude.{◌≡◌, ◌-◌, ◌<◌, ◌≤◌};
ghost use Rattle.refusal.specs.Answers.{told};
ghost use Rattle.sheet.specs.Page.{area_answer, on_sheet};
ghost use Rattle.beside.specs.Pixels.{left_of, rows_of};

use crate::pixels::Pixels;
use refusal::Refusal;
use sheet::Rectangle;

// The longest side.
pub const SIDE: usize = 8;

#[derive(Clone, Copy, PartialEq, Eq, Debug)]
pub struct Size {
    pub width: usize,
    pub height: usize,
    ghost some_columns: { 0 < width },
    ghost some_rows: { 0 < height },
    ghost few_columns: { width ≤ 8 },
    ghost few_rows: { height ≤ 8 },
}

impl Size {
    // All pixels of the sheet, row after row.
    pub fn pixels(self) -> Pixels
        ensures { left_of result ≡ rows_of 0 (self.width - 1) 0 self.height }
    {
        Pixels::of(Rectangle {
            left: 0,
            top: 0,
            right: self.width - 1,
            bottom: self.height - 1,
        })
    }

    // Whether a rectangle lies on the sheet, written out, so that the sheet's own test is not what it is compared with.
    fn has(self, rect: Rectangle) -> bool
        ensures { result ≡ on_sheet self.width self.height rect }
    {
        rect.left <= rect.right
            && rect.top <= rect.bottom
            && rect.right < self.width
            && rect.bottom < self.height
    }

    // How many pixels a rectangle has, counted one by one, if it is on the sheet.
    pub fn count(self, rect: Rectangle) -> Result<usize, Refusal>
        ensures { told result ≡ area_answer self.width self.height rect }
    {
        if !self.has(rect) {
            return Err(Refusal::OffSheet);
        }
        Ok(Pixels::of(rect).count())
    }
}
