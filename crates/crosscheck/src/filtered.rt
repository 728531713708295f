// Filters on ink sheets.
use crate::asked::Asker;
use crate::drawn::{BEFORE, ROOM, Room, bytes_of};
use crate::pages::any_window;
use crate::shape::{Shape, dilated, eroded, ink_of, majority};
use beside::{Page, Random, Watched};
use entry::{Entry, Ink};
use filters::{closing, dilation, erosion, median, opening};
use raster::Window;
use refusal::Refusal;
use sheet::{Rectangle, Table};

// Room for the table of a page of 8 by 8 levels, and some more.
const ENTRIES: usize = 84;

// The level of the entries that lie in the memory of a table before it is laid.
const BLANK: u8 = 9;

// A filter that is drawn at random: data, since its answer is worked out beside it.
#[derive(Clone, Copy)]
enum Filter {
    Median(Window),
    Erosion,
    Dilation,
    Opening,
    Closing,
}

impl Filter {
    fn any(random: &mut Random) -> Filter {
        match random.below(5) {
            0 => Filter::Median(any_window(random)),
            1 => Filter::Erosion,
            2 => Filter::Dilation,
            3 => Filter::Opening,
            _ => Filter::Closing,
        }
    }

    fn has_two_steps(self) -> bool {
        matches!(self, Filter::Opening | Filter::Closing)
    }

    fn ask(
        self,
        table: &Table<'_, Ink>,
        shape: &Shape,
        between: &mut [Ink],
        page: &mut [u8],
    ) -> Result<usize, Refusal> {
        let element = shape.element();
        match self {
            Filter::Median(window) => median(table, window, page),
            Filter::Erosion => erosion(table, &element, page),
            Filter::Dilation => dilation(table, &element, page),
            Filter::Opening => opening(table, &element, between, page),
            Filter::Closing => closing(table, &element, between, page),
        }
    }

    // The answer, with that memory for the page and for the table between two steps.
    fn answer(self, page: Room, between: Room, shape: &Shape) -> Result<usize, Refusal> {
        if self.has_two_steps() && between.is_short() {
            return Err(Refusal::TableTooShort);
        }
        if page.is_short() {
            return Err(Refusal::ListTooShort);
        }
        match self {
            Filter::Median(_) => Ok(page.needed),
            _ if shape.is_empty() => Err(Refusal::NoRectangle),
            _ => Ok(page.needed),
        }
    }

    // The page between two steps, or the page as it is.
    fn between(self, ink: &Page, shape: &Shape) -> Page {
        match self {
            Filter::Opening => eroded(ink, shape),
            Filter::Closing => dilated(ink, shape),
            _ => *ink,
        }
    }

    fn after(self, page: &Page, between: &Page, shape: &Shape) -> Page {
        match self {
            Filter::Median(window) => majority(page, window),
            Filter::Erosion | Filter::Closing => eroded(between, shape),
            Filter::Dilation | Filter::Opening => dilated(between, shape),
        }
    }
}

// Whether the table has one more ink pixel at each ink pixel of the page.
fn holds(table: &Table<'_, Ink>, ink: &Page) -> bool {
    ink.size.pixels().all(|(x, y)| {
        let pixel = Rectangle {
            left: x,
            top: y,
            right: x,
            bottom: y,
        };
        table.sum(pixel) == Ok(Ink::lift(ink.level(x, y)))
    })
}

// Whether the second memory holds the table of that page, or is as it was where that is none.
fn between_holds(between: &[Ink; ENTRIES], laid: Option<Page>, needed: usize) -> bool {
    let blank = Ink::lift(BLANK);
    match laid {
        None => between.iter().all(|entry| *entry == blank),
        Some(ink) => {
            between.iter().skip(needed).all(|entry| *entry == blank)
                && Table::of(between, ink.size.width, ink.size.height).is_ok_and(|table| holds(
                    &table, &ink,
                ))
        }
    }
}

// One filter, worked out on the page beside the sheet.
pub(crate) fn ask_filter(watched: &Watched<'_, Ink>, asker: &mut Asker) {
    let page = &watched.page;
    let filter = Filter::any(&mut asker.random);
    let shape = Shape::any(&mut asker.random);
    let (width, height) = (page.size.width, page.size.height);
    let bytes = Room::any(width * height, ROOM, &mut asker.random);
    let entries = Room::any((width + 1) * (height + 1), ENTRIES, &mut asker.random);
    let mut drawn = [BEFORE; ROOM];
    let mut between = [Ink::lift(BLANK); ENTRIES];
    let answer = filter.ask(
        &watched.sheet.table(),
        &shape,
        &mut between[..entries.given],
        &mut drawn[..bytes.given],
    );
    let wanted = filter.answer(bytes, entries, &shape);
    let middle = filter.between(&ink_of(page), &shape);
    let after = wanted
        .is_ok()
        .then_some(filter.after(page, &middle, &shape));
    let laid = (filter.has_two_steps() && wanted.is_ok()).then_some(middle);
    let same = answer == wanted
        && drawn == bytes_of(after)
        && between_holds(&between, laid, entries.needed);
    asker.score.note(wanted.is_err(), same);
}
