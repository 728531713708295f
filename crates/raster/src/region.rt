// What a rectangle about a pixel has on the sheet.
ghost use Rattle.std.specs.Prelude.{◌≡◌};
ghost use Rattle.raster.specs.Region.{cut_area_at, cut_sum_at, reflected, RegionLaw};
ghost use Rattle.sheet.specs.Cut.{cut_area, cut_sum};
ghost use Rattle.sheet.specs.View.{of_table};

use crate::cut::Cut;
use crate::laws::region_law;
use crate::offsets::Offsets;
use entry::Entry;
use sheet::{Span, Table};

// What these columns and rows have on the sheet.
fn cut<E: Entry>(table: &Table<'_, E>, columns: Span, rows: Span) -> Cut<E>
    ensures sum { result.sum ≡ of_table table.now (cut_sum E.Entry) columns rows }
    ensures area { result.area ≡ cut_area table.now.frame.width table.now.frame.height columns rows }
{
    Cut {
        sum: table.cut_sum(columns, rows),
        area: table.cut_area(columns, rows),
    }
}

// The rectangle of these offsets at pixel (x, y), cut at the frame.
pub fn cut_at<E: Entry>(table: &Table<'_, E>, offsets: Offsets, x: u16, y: u16) -> Cut<E>
    ensures sum { result.sum ≡ of_table table.now (cut_sum_at E.Entry) offsets x y }
    ensures area { result.area ≡ cut_area_at table.now.frame.width table.now.frame.height offsets x y }
    ensures law { RegionLaw E.Entry }
{
    region_law::<E>();
    cut(table, offsets.columns(x), offsets.rows(y))
}

// The pixels whose rectangles of these offsets cover pixel (x, y), cut at the frame.
pub fn reflected_cut_at<E: Entry>(table: &Table<'_, E>, offsets: Offsets, x: u16, y: u16) -> Cut<E>
    ensures sum { result.sum ≡ of_table table.now (cut_sum_at E.Entry) (reflected offsets) x y }
    ensures area { result.area ≡ cut_area_at table.now.frame.width table.now.frame.height (reflected offsets) x y }
    ensures law { RegionLaw E.Entry }
{
    region_law::<E>();
    cut(
        table,
        offsets.reflected_columns(x),
        offsets.reflected_rows(y),
    )
}
