// Questions on a rectangle.
use crate::asked::Asker;
use crate::direct::Counted;
use crate::drawn::Room;
use beside::{Page, SIDE, Size, Watched};
use entry::WideTally;
use questions::lateral_totals;
use refusal::Refusal;
use sheet::Rectangle;

impl Asker {
    // Asks about a rectangle; `value` works the answer out from its pixels.
    pub(crate) fn ask_rectangle<
        A: Copy + PartialEq,
        Q: Fn(Rectangle) -> Result<A, Refusal>,
        V: Fn(Counted) -> A,
    >(&mut self, page: &Page, ask: Q, value: V)
        requires ask { Q.IsAlwaysCallable ask }
        requires value { V.IsAlwaysCallable value }
    {
        let rect = self.random.rectangle(page.size);
        let value = value(Counted::of(page, rect));
        let wanted = page.size.count(rect).map(|_| value);
        self.score.compare(ask(rect), wanted);
    }
}

// What lies in a list before it is written.
const BEFORE: u32 = 777;

// How many strips there are from one place to another, both among them.
fn strips(from: usize, to: usize) -> usize {
    to.saturating_add(1).saturating_sub(from)
}

// A list with what `measure` takes from the first strips in front.
fn strip_totals<S: Fn(usize) -> Rectangle, M: Fn(Counted) -> u32>(
    page: &Page,
    count: usize,
    strip: S,
    measure: &M,
) -> [u32; SIDE]
    requires strips { S.IsAlwaysCallable strip }
    requires measures { M.IsAlwaysCallable measure.now }
{
    let mut list = [BEFORE; SIDE];
    for (n, total) in list.iter_mut().enumerate().take(count) {
        *total = measure(Counted::of(page, strip(n)));
    }
    list
}

fn lateral_answer(
    size: Size,
    rect: Rectangle,
    rows: Room,
    columns: Room,
) -> Result<usize, Refusal> {
    match size.count(rect) {
        Ok(_) if rows.is_short() || columns.is_short() => Err(Refusal::ListTooShort),
        Ok(_) => Ok(rows.needed.wrapping_add(columns.needed)),
        refused => refused,
    }
}

// Asks for the totals, row by row and column by column, of what `measure` takes from the pixels.
pub(crate) fn ask_laterals<T: WideTally, M: Fn(Counted) -> u32>(
    watched: &Watched<'_, T>,
    measure: M,
    asker: &mut Asker,
)
    requires { M.IsAlwaysCallable measure }
{
    let page = &watched.page;
    let rect = asker.random.rectangle(page.size);
    let row_count = strips(rect.top, rect.bottom);
    let rows = Room {
        needed: row_count,
        given: asker.random.below(9).max(row_count).min(SIDE),
    };
    let columns = Room {
        needed: strips(rect.left, rect.right),
        given: asker.random.below(9).min(SIDE),
    };
    let mut drawn_rows = [BEFORE; SIDE];
    let mut drawn_columns = [BEFORE; SIDE];
    let answer = lateral_totals(
        &watched.sheet.table(),
        rect,
        &mut drawn_rows[..rows.given],
        &mut drawn_columns[..columns.given],
    );
    let wanted = lateral_answer(page.size, rect, rows, columns);
    let most = if wanted.is_ok() { SIDE } else { 0 };
    let row = |n: usize| {
        let y = rect.top.wrapping_add(n);
        Rectangle {
            top: y,
            bottom: y,
            ..rect
        }
    };
    let column = |n: usize| {
        let x = rect.left.wrapping_add(n);
        Rectangle {
            left: x,
            right: x,
            ..rect
        }
    };
    let row_totals = strip_totals(page, rows.needed.min(most), row, &measure);
    let column_totals = strip_totals(page, columns.needed.min(most), column, &measure);
    asker.score.note(
        wanted.is_err(),
        answer == wanted && drawn_rows == row_totals && drawn_columns == column_totals,
    );
}
