// The laws of the filters, on contracts; no code runs. A law stands on the contract of each public call that it speaks of.
ghost use Rattle.filters.specs.Laws.{FilterLaws};
ghost use Rattle.filters.specs.Steps.{MedianLaw, StepLaw, TwoStepLaw};

use entry::Ink;
use entry::laws::sums_are_exact;
use raster::regions_are_exact;

// What holds of the filters on all pages.
pub(crate) fn filter_laws()
    ensures { FilterLaws }
{}

// The median is that of the pixels.
pub(crate) fn median_law()
    ensures { MedianLaw }
{
    regions_are_exact::<Ink>();
}

// A step is that of the pixels.
pub(crate) fn step_law()
    ensures { StepLaw }
{
    regions_are_exact::<Ink>();
    sums_are_exact();
}

// Two steps are those of the pixels.
pub(crate) fn two_step_law()
    ensures { TwoStepLaw }
{
    step_law();
}
