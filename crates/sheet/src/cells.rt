// One entry of a table, by its column and row. The list and its stride are two parameters, since those who change the list read it too.
ghost use Rattle.std.specs.Prelude.{◌≡◌, ◌+◌, ◌*◌, ◌<◌, length};
ghost use Rattle.sheet.specs.Table.{cell};

use entry::Entry;

// The entry at column `x` of row `y`, where a row has `stride` entries.
pub(crate) fn read<E: Entry>(table: &[E], stride: usize, x: usize, y: usize) -> E
    requires column { x < stride }
    requires within { y * stride + x < length table.now }
    ensures { result ≡ cell E.Entry stride table.now x y }
{
    table[y * stride + x]
}
