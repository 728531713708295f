// The total of a rectangle.
ghost use Rattle.std.specs.Prelude.{◌≡◌};
ghost use Rattle.questions.specs.Totals.{total_answer, TotalLaw};
ghost use Rattle.refusal.specs.Answers.{told};
ghost use Rattle.sheet.specs.Run.{RunsAgree};
ghost use Rattle.sheet.specs.View.{of_table};

use entry::{Modular, Tally};
use refusal::Refusal;
use sheet::{Rectangle, Table};

// What totals are on the table of any levels, and what tables are after any run; no code runs.
pub(crate) fn total_laws<T: Tally>()
    ensures law { TotalLaw T.Entry T.Modular.own }
    ensures runs { RunsAgree T.Entry }
{}

// The sum of a rectangle as a number: of its levels on narrow and whole sheets, of its ink pixels on ink sheets.
pub fn total<T: Tally>(table: &Table<'_, T>, rect: Rectangle) -> Result<u32, Refusal>
    ensures answer { told result ≡ of_table table.now (total_answer T.Entry T.Modular.own) rect }
    ensures law { TotalLaw T.Entry T.Modular.own }
    ensures runs { RunsAgree T.Entry }
{
    total_laws::<T>();
    if table.area(rect)? > T::limit() {
        return Err(Refusal::NarrowTotal);
    }
    Ok(table.sum(rect)?.value())
}
