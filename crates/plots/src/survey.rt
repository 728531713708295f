// What the program does with a scan.
ghost use Rattle.std.specs.Prelude.{◌≡◌, length};
ghost use Rattle.plots.specs.Printed.{survey_answer};
ghost use Rattle.refusal.specs.Answers.{told};

use entry::Whole;
use questions::total;
use refusal::Refusal;
use sheet::{Rectangle, Table, lay_page};

// Fills the table of a sheet in `memory`, and adds up all its levels. The parts of a scan come one by one: of a slice in a struct the proof does not know at the end that its bytes fit.
pub(crate) fn survey(
    width: usize,
    height: usize,
    levels: &[u8],
    memory: &mut [Whole],
) -> Result<u32, Refusal>
    ensures { told result ≡ survey_answer width height (length memory.old) levels.now }
{
    lay_page(memory, width, height, levels)?;
    let table = Table::of(memory, width, height)?;
    let all = Rectangle {
        left: 0,
        top: 0,
        right: width.saturating_sub(1),
        bottom: height.saturating_sub(1),
    };
    total(&table, all)
}
