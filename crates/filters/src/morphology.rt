// Erosion, dilation, opening and closing by a structuring element. Each is a name for one call with its steps.
ghost use Rattle.std.specs.Prelude.{length};
ghost use Rattle.filters.specs.Laws.{FilterLaws};
ghost use Rattle.filters.specs.Steps.{step_answer, step_byte, StepLaw, TwoStepLaw, TwoSteps};
ghost use Rattle.filters.specs.declared.step.Step.TheVariants.{Erode, Dilate};
ghost use Rattle.raster.specs.Drawn.{Drawn};
ghost use Rattle.recipe.specs.Recipe.{rectangles_of};
ghost use Rattle.sheet.specs.View.{of_table};

use crate::laws::{filter_laws, step_law, two_step_law};
use crate::step::Step;
use crate::stepped::draw_step;
use crate::two_steps::draw_two_steps;
use entry::Ink;
use recipe::Element;
use refusal::Refusal;
use sheet::Table;

// Draws ink where every element pixel on the sheet is ink, and answers how many pixels there are.
pub fn erosion(table: &Table<'_, Ink>, element: &Element, page: &mut [u8]) -> Result<usize, Refusal>
    ensures page { Drawn (step_answer table.now.frame.width table.now.frame.height (length page.old) (rectangles_of element.now)) table.now.frame.width table.now.frame.height (of_table table.now (step_byte Erode) (rectangles_of element.now)) result page.old page.new }
    ensures law { StepLaw }
    ensures laws { FilterLaws }
{
    step_law();
    filter_laws();
    draw_step(Step::Erode, table, element.rectangles(), page)
}

// Draws ink where some ink pixel has the pixel among its element pixels, and answers how many pixels there are.
pub fn dilation(
    table: &Table<'_, Ink>,
    element: &Element,
    page: &mut [u8],
) -> Result<usize, Refusal>
    ensures page { Drawn (step_answer table.now.frame.width table.now.frame.height (length page.old) (rectangles_of element.now)) table.now.frame.width table.now.frame.height (of_table table.now (step_byte Dilate) (rectangles_of element.now)) result page.old page.new }
    ensures law { StepLaw }
    ensures laws { FilterLaws }
{
    step_law();
    filter_laws();
    draw_step(Step::Dilate, table, element.rectangles(), page)
}

// Erodes and then dilates. The second memory holds the table of the page between the two steps at the end.
pub fn opening(
    table: &Table<'_, Ink>,
    element: &Element,
    between: &mut [Ink],
    page: &mut [u8],
) -> Result<usize, Refusal>
    ensures steps { of_table table.now (TwoSteps Erode Dilate) (rectangles_of element.now) result between.old between.new page.old page.new }
    ensures law { TwoStepLaw }
    ensures laws { FilterLaws }
{
    two_step_law();
    filter_laws();
    let first = Step::Erode;
    let second = Step::Dilate;
    draw_two_steps(first, second, table, element.rectangles(), between, page)
}

// Dilates and then erodes. The second memory holds the table of the page between the two steps at the end.
pub fn closing(
    table: &Table<'_, Ink>,
    element: &Element,
    between: &mut [Ink],
    page: &mut [u8],
) -> Result<usize, Refusal>
    ensures steps { of_table table.now (TwoSteps Dilate Erode) (rectangles_of element.now) result between.old between.new page.old page.new }
    ensures law { TwoStepLaw }
    ensures laws { FilterLaws }
{
    two_step_law();
    filter_laws();
    let first = Step::Dilate;
    let second = Step::Erode;
    draw_two_steps(first, second, table, element.rectangles(), between, page)
}
