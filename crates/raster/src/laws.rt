// The laws of regions and windows on contracts; no code runs. A law stands on the contract of each public call that it speaks of.
ghost use Rattle.raster.specs.Region.{RegionLaw, WindowLaw};

use entry::{Entry, Modular, WideTally};

// What cut rectangles have, on the table of any levels.
pub(crate) fn region_law<E: Entry>()
    ensures { RegionLaw E.Entry }
{}

// What windows have, on the table of any page.
pub(crate) fn window_law<T: WideTally>()
    ensures { WindowLaw T.Entry T.Modular.own }
{}

// What a region or a window has from corners of the table is what its pixels on the sheet have.
pub fn regions_are_exact<T: WideTally>()
    ensures regions { RegionLaw T.Entry }
    ensures windows { WindowLaw T.Entry T.Modular.own }
{
    region_law::<T>();
    window_law::<T>();
}
