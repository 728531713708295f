// Totals of each row and each column of a rectangle.
ghost use Rattle.std.specs.Prelude.{◌≡◌, ℕ, ◌+◌, ◌<◌, ◌≤◌, true, length, slice_index};
ghost use Rattle.questions.specs.Laterals.{strip_columns, strip_count, strip_rows, strip_total, LateralLaw, LateralsLaid};
ghost use Rattle.raster.specs.Drawn.{laid};
ghost use Rattle.sheet.specs.Page.{on_sheet};
ghost use Rattle.sheet.specs.View.{of_table};

use entry::{Entry, Modular, Tally, WideTally};
use refusal::Refusal;
use sheet::{Rectangle, Span, Table};

// The strips that a rectangle is cut into: its rows or its columns. Data and not a closure, since contracts speak of it.
#[derive(Clone, Copy)]
enum Strips {
    Rows,
    Columns,
}

// A rectangle that lies on the largest sheet, cut into strips.
#[derive(Clone, Copy)]
struct Stripped {
    strips: Strips,
    rect: Rectangle,
    ghost on: { on_sheet 4096 4096 rect ≡ true },
}

impl Stripped {
    fn count(self) -> usize
        ensures count { result ≡ strip_count self.strips self.rect }
        ensures few { result ≤ 4096 }
    {
        match self.strips {
            Strips::Rows => self.rect.bottom + 1 - self.rect.top,
            Strips::Columns => self.rect.right + 1 - self.rect.left,
        }
    }

    // The columns of strip `i`.
    fn columns(self, i: usize) -> Span
        requires { i < 4096 }
        ensures { result ≡ strip_columns self.strips self.rect i }
    {
        match self.strips {
            Strips::Rows => Span {
                start: self.rect.left,
                end: self.rect.right + 1,
            },
            Strips::Columns => Span {
                start: self.rect.left + i,
                end: self.rect.left + i + 1,
            },
        }
    }

    // The rows of strip `i`.
    fn rows(self, i: usize) -> Span
        requires { i < 4096 }
        ensures { result ≡ strip_rows self.strips self.rect i }
    {
        match self.strips {
            Strips::Rows => Span {
                start: self.rect.top + i,
                end: self.rect.top + i + 1,
            },
            Strips::Columns => Span {
                start: self.rect.top,
                end: self.rect.bottom + 1,
            },
        }
    }
}

// Makes each number the total of its strip.
fn total_strips<T: WideTally>(table: &Table<'_, T>, stripped: Stripped, totals: &mut [u32])
    requires { length totals.old ≤ 4096 }
    ensures { (i : ℕ) → i < length totals.old → slice_index totals.new i ≡ of_table table.now (strip_total T.Entry T.Modular.own) stripped.strips stripped.rect i }
{
    for (i, total) in totals.iter_mut().enumerate() {
        *total = table.cut_sum(stripped.columns(i), stripped.rows(i)).value();
    }
}

// Writes the total of each strip to the front of the list.
fn lay_totals<T: WideTally>(table: &Table<'_, T>, stripped: Stripped, totals: &mut [u32])
    requires { strip_count stripped.strips stripped.rect ≤ length totals.old }
    ensures { totals.new ≡ laid (of_table table.now (strip_total T.Entry T.Modular.own) stripped.strips stripped.rect) (strip_count stripped.strips stripped.rect) totals.old }
{
    let count = stripped.count();
    total_strips(table, stripped, &mut totals[0..count]);
}

// What lateral totals are on the table of any page; no code runs.
fn lateral_law<T: WideTally>()
    ensures { LateralLaw T.Entry T.Modular.own }
{}

// Writes the total of each row and of each column of a rectangle, each to the front of its list, and answers how many numbers these are.
pub fn lateral_totals<T: WideTally>(
    table: &Table<'_, T>,
    rect: Rectangle,
    rows: &mut [u32],
    columns: &mut [u32],
) -> Result<usize, Refusal>
    ensures lists { of_table table.now (LateralsLaid T.Entry T.Modular.own) rect result rows.old columns.old rows.new columns.new }
    ensures law { LateralLaw T.Entry T.Modular.own }
{
    lateral_law::<T>();
    if !rect.is_on(table.frame.width, table.frame.height) {
        return Err(Refusal::OffSheet);
    }
    let by_rows = Stripped {
        strips: Strips::Rows,
        rect,
    };
    let by_columns = Stripped {
        strips: Strips::Columns,
        rect,
    };
    let row_count = by_rows.count();
    let column_count = by_columns.count();
    if rows.len() < row_count || columns.len() < column_count {
        return Err(Refusal::ListTooShort);
    }
    lay_totals(table, by_rows, rows);
    lay_totals(table, by_columns, columns);
    Ok(row_count + column_count)
}
