// What a finished table answers.
ghost use Rattle.std.specs.Prelude.{◌≡◌, ◌+◌, ◌*◌, ◌<◌, ◌≤◌};
ghost use Rattle.refusal.specs.Answers.{told};
ghost use Rattle.sheet.specs.Cut.{cut_area, cut_end, cut_start, cut_sum, CutLaw};
ghost use Rattle.sheet.specs.Page.{area_answer};
ghost use Rattle.sheet.specs.Run.{RunsAgree};
ghost use Rattle.sheet.specs.Sheet.{corners, sum_answer, SumLaw};
ghost use Rattle.sheet.specs.Table.{cell};
ghost use Rattle.sheet.specs.View.{Viewed, of_table};

use crate::cells::read;
use crate::frame::Frame;
use crate::rectangle::Rectangle;
use crate::span::Span;
use crate::state::Finished;
use crate::table::Table;
use entry::Entry;
use refusal::Refusal;

// What sums are on the table of any levels, and after any run; no code runs. A law stands on the contract of each public call that it speaks of.
fn sum_laws<E: Entry>()
    ensures law { SumLaw E.Entry }
    ensures runs { RunsAgree E.Entry }
{}

// What regions cut at the frame have, on the table of any levels; no code runs.
fn cut_law<E: Entry>()
    ensures { CutLaw E.Entry }
{}

// How many pixels so many columns and rows have.
fn pixels(columns: usize, rows: usize) -> usize
    requires columns { columns ≤ 4096 }
    requires rows { rows ≤ 4096 }
    ensures product { result ≡ columns * rows }
    ensures small { result ≤ 16777216 }
{
    columns * rows
}

impl<'a, E: Entry> Table<'a, E> {
    // Looks at lent memory as the table of a sheet of this size. Two numbers, since it has to refuse those that are no frame.
    pub fn of(entries: &'a [E], width: usize, height: usize) -> Result<Table<'a, E>, Refusal>
        ensures { Viewed entries.now width height result }
    {
        let frame = Frame::fitting(width, height, entries.len())?;
        Ok(Table { entries, frame })
    }

    // The entry at column `x` of table row `y`.
    fn corner(&self, x: usize, y: usize) -> E
        requires column { x ≤ self.now.frame.width }
        requires row { y ≤ self.now.frame.height }
        requires some { 0 < self.now.frame.height }
        ensures { result ≡ cell E.Entry (self.now.frame.width + 1) self.now.entries.now x y }
    {
        read(self.entries, self.frame.width + 1, x, y)
    }

    // What lies in these columns and rows, from the four corners where they meet.
    fn corners(&self, columns: Span, rows: Span) -> E
        requires across { (columns.start ≤ columns.end) × (columns.end ≤ self.now.frame.width) }
        requires down { (rows.start ≤ rows.end) × (rows.end ≤ self.now.frame.height) }
        requires some { 0 < self.now.frame.height }
        ensures { result ≡ corners E.Entry (cell E.Entry (self.now.frame.width + 1) self.now.entries.now) columns.start columns.end rows.start rows.end }
    {
        let all = self.corner(columns.end, rows.end);
        let before = self.corner(columns.start, rows.end);
        let above = self.corner(columns.end, rows.start);
        let both = self.corner(columns.start, rows.start);
        all.join(before.inverse()).join(above.inverse()).join(both)
    }

    // How many pixels a rectangle has.
    pub fn area(&self, rect: Rectangle) -> Result<usize, Refusal>
        ensures { told result ≡ area_answer self.now.frame.width self.now.frame.height rect }
    {
        rect.area_on(self.frame)
    }

    // The entry of a rectangle, from the four corners of the table.
    pub fn sum(&self, rect: Rectangle) -> Result<E, Refusal>
        ensures answer { told result ≡ of_table self.now (sum_answer E.Entry) rect }
        ensures law { SumLaw E.Entry }
        ensures runs { RunsAgree E.Entry }
    {
        sum_laws::<E>();
        self.area(rect)?;
        Ok(self.corners(
            Span {
                start: rect.left,
                end: rect.right + 1,
            },
            Span {
                start: rect.top,
                end: rect.bottom + 1,
            },
        ))
    }

    // What these columns and rows have on the sheet.
    fn cut(&self, columns: Span, rows: Span) -> (Span, Span)
        ensures across { (result.0.start ≡ cut_start self.now.frame.width columns) × (result.0.end ≡ cut_end self.now.frame.width columns) }
        ensures down { (result.1.start ≡ cut_start self.now.frame.height rows) × (result.1.end ≡ cut_end self.now.frame.height rows) }
    {
        (columns.cut(self.frame.width), rows.cut(self.frame.height))
    }

    // The entry of these columns and rows, cut at the frame.
    pub fn cut_sum(&self, columns: Span, rows: Span) -> E
        ensures value { result ≡ of_table self.now (cut_sum E.Entry) columns rows }
        ensures law { CutLaw E.Entry }
    {
        cut_law::<E>();
        let (across, down) = self.cut(columns, rows);
        if across.start < across.end && down.start < down.end {
            self.corners(across, down)
        } else {
            E::zero()
        }
    }

    // How many pixels these columns and rows have on the sheet.
    pub fn cut_area(&self, columns: Span, rows: Span) -> usize
        ensures value { result ≡ cut_area self.now.frame.width self.now.frame.height columns rows }
        ensures small { result ≤ 16777216 }
        ensures law { CutLaw E.Entry }
    {
        cut_law::<E>();
        let (across, down) = self.cut(columns, rows);
        pixels(across.end - across.start, down.end - down.start)
    }
}

impl<'a, E: Entry> Finished<'a, E> {
    // The table of the sheet.
    pub fn table(&self) -> Table<'_, E>
        ensures entries { result.entries.now ≡ self.now.table.now }
        ensures frame { result.frame ≡ self.now.frame }
    {
        Table {
            entries: self.table,
            frame: self.frame,
        }
    }

    // The entry of a rectangle, from the four corners of the table.
    pub fn sum(&self, rect: Rectangle) -> Result<E, Refusal>
        ensures answer { told result ≡ sum_answer E.Entry self.now.frame.width self.now.frame.height self.now.table.now rect }
        ensures law { SumLaw E.Entry }
        ensures runs { RunsAgree E.Entry }
    {
        self.table().sum(rect)
    }
}
