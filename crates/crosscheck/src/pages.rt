// Questions that fill a page of bytes.
use crate::asked::Asker;
use crate::direct::Counted;
use crate::drawn::{BEFORE, ROOM, Room, bytes_of, page_of};
use beside::{Page, Random, Watched};
use entry::Whole;
use questions::{fixed_ink, mean_page, share_ink};
use raster::{POINT, Window};
use refusal::Refusal;
use sheet::Table;

// A question that is drawn at random: data, since its answer is worked out beside it.
#[derive(Clone, Copy)]
enum PageQuestion {
    Mean(Window),
    Fixed(u8),
    Share(Window, u8),
}

pub(crate) fn any_window(random: &mut Random) -> Window {
    Window {
        left: random.byte_below(5),
        right: random.byte_below(5),
        up: random.byte_below(5),
        down: random.byte_below(5),
    }
}

impl PageQuestion {
    fn any(random: &mut Random) -> PageQuestion {
        let window = any_window(random);
        match random.below(3) {
            0 => PageQuestion::Mean(window),
            1 => PageQuestion::Fixed(random.level()),
            _ => PageQuestion::Share(window, random.byte_below(110)),
        }
    }

    fn ask(self, table: &Table<'_, Whole>, page: &mut [u8]) -> Result<usize, Refusal> {
        match self {
            PageQuestion::Mean(window) => mean_page(table, window, page),
            PageQuestion::Fixed(threshold) => fixed_ink(table, threshold, page),
            PageQuestion::Share(window, percent) => share_ink(table, window, percent, page),
        }
    }

    fn window(self) -> Window {
        match self {
            PageQuestion::Mean(window) | PageQuestion::Share(window, _) => window,
            PageQuestion::Fixed(_) => POINT,
        }
    }

    fn answer(self, room: Room) -> Result<usize, Refusal> {
        if room.is_short() {
            return Err(Refusal::ListTooShort);
        }
        match self {
            PageQuestion::Share(_, 101..) => Err(Refusal::Share),
            _ => Ok(room.needed),
        }
    }

    // The byte of a pixel.
    fn byte(self, page: &Page, x: usize, y: usize) -> u8 {
        let level = page.level(x, y);
        let about = Counted::about(page, self.window(), x, y);
        match self {
            // a mean of levels is one
            PageQuestion::Mean(_) => u8::try_from(about.mean()).unwrap_or(u8::MAX),
            PageQuestion::Fixed(threshold) => u8::from(level < threshold),
            PageQuestion::Share(_, percent) => {
                let rest = 100u64.saturating_sub(u64::from(percent));
                let own = u64::from(level)
                    .wrapping_mul(about.pixels)
                    .wrapping_mul(100);
                u8::from(own < u64::from(about.levels).wrapping_mul(rest))
            }
        }
    }
}

// Asks one question, and works it out on the page beside the sheet.
pub(crate) fn ask_page(watched: &Watched<'_, Whole>, asker: &mut Asker) {
    let page = &watched.page;
    let question = PageQuestion::any(&mut asker.random);
    let room = Room::any(page.size.width * page.size.height, ROOM, &mut asker.random);
    let mut drawn = [BEFORE; ROOM];
    let answer = question.ask(&watched.sheet.table(), &mut drawn[..room.given]);
    let wanted = question.answer(room);
    let after = wanted
        .is_ok()
        .then(|| page_of(page.size, |x, y| question.byte(page, x, y)));
    asker.score.note(
        wanted.is_err(),
        answer == wanted && drawn == bytes_of(after),
    );
}
