// Rectangles of a sheet.
ghost use Rattle.std.specs.Prelude.{◌≡◌, ◌<◌, true, IfOk};
ghost use Rattle.refusal.specs.Answers.{told};
ghost use Rattle.sheet.specs.Page.{area, area_answer, on_sheet};

use crate::frame::Frame;
use refusal::Refusal;

// The columns left to right and the rows top to bottom, ends included.
#[derive(Clone, Copy, PartialEq, Eq, Debug)]
pub struct Rectangle {
    pub left: usize,
    pub top: usize,
    pub right: usize,
    pub bottom: usize,
}

impl Rectangle {
    // Whether it lies on a sheet of that size, and is not turned. Two numbers, as its definition takes them.
    pub fn is_on(self, width: usize, height: usize) -> bool
        ensures { result ≡ on_sheet width height self }
    {
        self.left <= self.right
            && self.top <= self.bottom
            && self.right < width
            && self.bottom < height
    }

    // How many pixels it has, if it lies on the sheet.
    pub(crate) fn area_on(self, frame: Frame) -> Result<usize, Refusal>
        ensures answer { told result ≡ area_answer frame.width frame.height self }
        ensures area { IfOk result (λ n. n ≡ area self) }
        ensures on { IfOk result (λ n. on_sheet frame.width frame.height self ≡ true) }
    {
        if !self.is_on(frame.width, frame.height) {
            return Err(Refusal::OffSheet);
        }
        Ok(self.area())
    }

    // How many pixels it has.
    fn area(self) -> usize
        requires { on_sheet 4096 4096 self ≡ true }
        ensures { result ≡ area self }
    {
        (self.right + 1 - self.left) * (self.bottom + 1 - self.top)
    }
}
