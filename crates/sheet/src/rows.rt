// Rows of entries, and one row of a table. The table and its stride are two parameters: as one struct, each of these functions would have to promise that the stride and the memory stay the same.
ghost use Rattle.std.specs.Prelude.{◌≡◌, ℕ, ◌+◌, ◌-◌, ◌*◌, ◌^◌, ◌<◌, ◌≤◌, length};
ghost use Rattle.sheet.specs.Fill.{Reaches, level_at};
ghost use Rattle.sheet.specs.Table.{cell, entry_at, less, signed, prefix_from, Filled, Rewritten};

use crate::cells::read;
use crate::fill::Fill;
use crate::span::Span;
use entry::Entry;

// Whether an entry is joined as it is, or as its inverse. Data and not a closure, since contracts speak of it.
#[derive(Clone, Copy)]
pub(crate) enum Sign {
    Plus,
    Minus,
}

impl Sign {
    fn of<E: Entry>(self, entry: E) -> E
        ensures { result ≡ signed E.Entry self entry }
    {
        match self {
            Sign::Plus => entry,
            Sign::Minus => entry.inverse(),
        }
    }
}

// Sets every entry to the identity.
pub(crate) fn clear<E: Entry>(row: &mut [E])
    ensures { (i : ℕ) → i < length row.old → entry_at E.Entry row.new i ≡ E.neutral }
{
    for entry in row.iter_mut() {
        *entry = E::zero();
    }
}

// Makes each entry the one above it, joined with `start` and the levels from number `first` on up to its own.
fn accumulate<E: Entry>(row: &mut [E], above: &[E], start: E, fill: Fill<'_>, first: usize)
    requires above { length row.old ≤ length above.now }
    requires numbered { first + length row.old < 2 ^ 64 }
    requires reaches { (n : ℕ) → n < length row.old → Reaches fill (first + n) }
    ensures { (i : ℕ) → i < length row.old → entry_at E.Entry row.new i ≡ E.joined (entry_at E.Entry above.now i) (prefix_from E.Entry start (λ n. E.lifted (level_at fill.entry (first + n))) (i + 1)) }
{
    let mut sum = start;
    // by place: after a zip over iter_mut a proof knows nothing of the row (tried)
    for (x, entry) in row.iter_mut().enumerate() {
        sum = sum.join(E::lift(fill.level(first + x)));
        *entry = above[x].join(sum);
    }
}

// Joins to each entry the one of the other row, or its inverse.
fn add<E: Entry>(row: &mut [E], other: &[E], sign: Sign)
    requires { length row.old ≤ length other.now }
    ensures { (i : ℕ) → i < length row.old → entry_at E.Entry row.new i ≡ E.joined (entry_at E.Entry row.old i) (signed E.Entry sign (entry_at E.Entry other.now i)) }
{
    // by place: after a zip over iter_mut a proof knows nothing of the row (tried)
    for (x, entry) in row.iter_mut().enumerate() {
        *entry = entry.join(sign.of(other[x]));
    }
}

// Joins one entry to each entry.
fn shift<E: Entry>(row: &mut [E], change: E)
    ensures { (i : ℕ) → i < length row.old → entry_at E.Entry row.new i ≡ E.joined (entry_at E.Entry row.old i) change }
{
    for entry in row.iter_mut() {
        *entry = entry.join(change);
    }
}

// Joins row `base` or its inverse to row `y`, from column `left` on.
pub(crate) fn add_row<E: Entry>(
    table: &mut [E],
    stride: usize,
    left: usize,
    y: usize,
    base: usize,
    sign: Sign,
)
    requires room { stride * (y + 1) ≤ length table.old }
    requires order { base < y }
    requires column { left ≤ stride }
    ensures { Filled E.Entry stride table.old y left stride (λ i. E.joined (cell E.Entry stride table.old i y) (signed E.Entry sign (cell E.Entry stride table.old i base))) table.new }
{
    let (upper, lower) = table.split_at_mut(y * stride);
    let from = base * stride + left;
    let end = (base + 1) * stride;
    add(&mut lower[left..stride], &upper[from..end], sign);
}

// Joins one entry to row `y`, from column `left` on.
fn shift_row<E: Entry>(table: &mut [E], stride: usize, left: usize, y: usize, change: E)
    requires room { stride * (y + 1) ≤ length table.old }
    requires column { left ≤ stride }
    ensures { Filled E.Entry stride table.old y left stride (λ i. E.joined (cell E.Entry stride table.old i y) change) table.new }
{
    let (_, lower) = table.split_at_mut(y * stride);
    shift(&mut lower[left..stride], change);
}

// Lays the levels from number `first` on into these columns of page row `y`.
fn rewrite_columns<E: Entry>(
    table: &mut [E],
    stride: usize,
    y: usize,
    columns: Span,
    fill: Fill<'_>,
    first: usize,
)
    requires room { stride * (y + 2) ≤ length table.old }
    requires columns { (columns.start ≤ columns.end) × (columns.end < stride) }
    requires numbered { first + (columns.end - columns.start) < 2 ^ 64 }
    requires reaches { (n : ℕ) → n < columns.end - columns.start → Reaches fill (first + n) }
    ensures { Filled E.Entry stride table.old (y + 1) (columns.start + 1) (columns.end + 1) (λ i. E.joined (cell E.Entry stride table.old i y) (prefix_from E.Entry (less E.Entry (cell E.Entry stride table.old columns.start (y + 1)) (cell E.Entry stride table.old columns.start y)) (λ n. E.lifted (level_at fill.entry (first + n))) (i - columns.start))) table.new }
{
    let before = read(table, stride, columns.start, y);
    let start = read(table, stride, columns.start, y + 1).join(before.inverse());
    let left = columns.start + 1;
    let right = columns.end + 1;
    let from = y * stride + left;
    let end = (y + 1) * stride;
    let (upper, lower) = table.split_at_mut(end);
    accumulate(
        &mut lower[left..right],
        &upper[from..end],
        start,
        fill,
        first,
    );
}

// Lays the levels from number `first` on into these columns of page row `y`, and shifts what stands right of them. Inlined, so that a fed row, which may be short, has a loop for its own kind of fill.
#[inline(always)]
pub(crate) fn rewrite_row<E: Entry>(
    table: &mut [E],
    stride: usize,
    y: usize,
    columns: Span,
    fill: Fill<'_>,
    first: usize,
)
    requires room { stride * (y + 2) ≤ length table.old }
    requires columns { (columns.start < columns.end) × (columns.end < stride) }
    requires numbered { first + (columns.end - columns.start) < 2 ^ 64 }
    requires reaches { (n : ℕ) → n < columns.end - columns.start → Reaches fill (first + n) }
    ensures { Rewritten E.Entry stride table.old columns.start columns.end y (y + 1) (λ i j. E.lifted (level_at fill.entry (first + (i - columns.start)))) table.new }
{
    let old = read(table, stride, columns.end, y + 1);
    rewrite_columns(table, stride, y, columns, fill, first);
    let new = read(table, stride, columns.end, y + 1);
    shift_row(
        table,
        stride,
        columns.end + 1,
        y + 1,
        new.join(old.inverse()),
    );
}
