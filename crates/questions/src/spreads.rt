// How widely the levels of a rectangle spread.
ghost use Rattle.std.specs.Prelude.{◌≡◌};
ghost use Rattle.questions.specs.Spreads.{spread_answer, spread_of, SpreadLaw};
ghost use Rattle.refusal.specs.Answers.{told};
ghost use Rattle.sheet.specs.Sheet.{SumLaw};
ghost use Rattle.sheet.specs.View.{of_table};

use entry::laws::sums_are_exact;
use entry::{Energy, Entry, Pair, Tally, Whole};
use refusal::Refusal;
use sheet::{Rectangle, Table};

// `n` times the sum of the squares, less the square of the sum. It stops at 0 and at the top of 64 bits, which no page reaches.
fn spread_of(n: usize, energy: u64, total: u32) -> u64
    ensures { result ≡ spread_of n energy total }
{
    // there is no From between usize and u128
    let squares = n as u128 * u128::from(energy);
    let square = u128::from(total) * u128::from(total);
    u64::try_from(squares.saturating_sub(square)).unwrap_or(u64::MAX)
}

// What sums are on the table of any levels; no code runs. The sheet promises it only where `sum` is called, and the law of spreads is shown without a call.
fn sum_law<E: Entry>()
    ensures { SumLaw E.Entry }
{}

// What spreads are on the table of any page; no code runs.
fn spread_law()
    ensures { SpreadLaw }
{
    sums_are_exact();
    sum_law::<Pair<Whole, Energy>>();
}

// The number of pixels of a rectangle times the sum of their squared levels, less the square of the sum of their levels.
pub fn spread(table: &Table<'_, Pair<Whole, Energy>>, rect: Rectangle) -> Result<u64, Refusal>
    ensures answer { told result ≡ of_table table.now spread_answer rect }
    ensures law { SpreadLaw }
{
    spread_law();
    let n = table.area(rect)?;
    let sums = table.sum(rect)?;
    Ok(spread_of(n, sums.second.value(), sums.first.value()))
}
