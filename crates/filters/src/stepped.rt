// One step on an ink sheet, pixel by pixel.
ghost use Rattle.std.specs.Prelude.{◌≡◌, length};
ghost use Rattle.filters.specs.Steps.{settled, settles, step_answer, step_byte};
ghost use Rattle.raster.specs.Drawn.{Drawn, Pictured};
ghost use Rattle.sheet.specs.View.{of_table};

use crate::step::Step;
use entry::{Ink, Tally};
use raster::{Offsets, cut_at, draw, reflected_cut_at, room, sides};
use refusal::Refusal;
use sheet::Table;

// A step by an element, on a sheet.
#[derive(Drop)]
struct Stepped<'a, 'b, 'c> {
    step: Step,
    table: &'a Table<'b, Ink>,
    element: &'c [Offsets],
}

impl<'a, 'b, 'c> Stepped<'a, 'b, 'c> {
    // Whether one rectangle settles the pixel: in an erosion one that is not all ink, in a dilation one that is seen from ink.
    fn settles(&self, offsets: Offsets, x: u16, y: u16) -> bool
        ensures { result ≡ of_table self.now.table.now (settles self.now.step) offsets x y }
    {
        match self.step {
            Step::Erode => {
                let cut = cut_at(self.table, offsets, x, y);
                // there is no From between these two
                cut.sum.value() as usize != cut.area
            }
            Step::Dilate => {
                let cut = reflected_cut_at(self.table, offsets, x, y);
                cut.sum.value() > 0
            }
        }
    }

    // Whether one of the rectangles does.
    fn is_settled(&self, x: u16, y: u16) -> bool
        ensures { result ≡ of_table self.now.table.now (settled self.now.step) self.now.element.now x y }
    {
        self.element
            .iter()
            .any(|offsets| self.settles(*offsets, x, y))
    }

    // The byte that the step gives a pixel.
    fn byte(&self, x: u16, y: u16) -> u8
        ensures { result ≡ of_table self.now.table.now (step_byte self.now.step) self.now.element.now x y }
    {
        let settled = self.is_settled(x, y);
        match self.step {
            Step::Erode => u8::from(!settled),
            Step::Dilate => u8::from(settled),
        }
    }

    fn draw(&self, page: &mut [u8]) -> Result<usize, Refusal>
        ensures { Pictured self.now.table.now.frame (of_table self.now.table.now (step_byte self.now.step) self.now.element.now) result page.old page.new }
    {
        let (width, height) = sides(self.table.frame);
        draw(width, height, |x, y| self.byte(x, y), page)
    }
}

// Draws the page that a step gives, if the element has a rectangle, and answers how many pixels the page has.
pub(crate) fn draw_step(
    step: Step,
    table: &Table<'_, Ink>,
    element: &[Offsets],
    page: &mut [u8],
) -> Result<usize, Refusal>
    ensures { Drawn (step_answer table.now.frame.width table.now.frame.height (length page.old) element.now) table.now.frame.width table.now.frame.height (of_table table.now (step_byte step) element.now) result page.old page.new }
{
    let (width, height) = sides(table.frame);
    room(width, height, page)?;
    if element.is_empty() {
        return Err(Refusal::NoRectangle);
    }
    let stepped = Stepped {
        step,
        table,
        element,
    };
    stepped.draw(page)
}
