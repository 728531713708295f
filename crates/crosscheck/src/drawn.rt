// Pages of bytes, as filters and questions draw them.
ghost use Rattle.std.specs.Prelude.{◌≤◌};

use beside::{Page, Random, Size};

// Room for a page of 8 by 8 bytes, and some more.
pub(crate) const ROOM: usize = 72;

// What lies in the memory of a page before it is drawn.
pub(crate) const BEFORE: u8 = 77;

// How much memory a call needs, and how much it is given.
#[derive(Clone, Copy)]
pub(crate) struct Room {
    pub(crate) needed: usize,
    pub(crate) given: usize,
}

impl Room {
    // At most so much; one time in eight it is too short.
    pub(crate) fn any(needed: usize, most: usize, random: &mut Random) -> Room
        ensures { result.given ≤ most }
    {
        let given = needed.wrapping_add(random.below(8)).wrapping_sub(1);
        Room {
            needed,
            given: given.min(most),
        }
    }

    pub(crate) fn is_short(self) -> bool {
        self.given < self.needed
    }
}

// A page of that size with the level of each pixel.
pub(crate) fn page_of<F: Fn(usize, usize) -> u8>(size: Size, level: F) -> Page
    requires { F.IsAlwaysCallable level }
{
    let mut page = Page::new(size, 0);
    for (x, y) in size.pixels() {
        page.lay(x, y, level(x, y));
    }
    page
}

// Memory with the levels of a page in front, or as it was before where no page is drawn.
pub(crate) fn bytes_of(drawn: Option<Page>) -> [u8; ROOM] {
    let mut bytes = [BEFORE; ROOM];
    let Some(page) = drawn else {
        return bytes;
    };
    for (byte, (x, y)) in bytes.iter_mut().zip(page.size.pixels()) {
        *byte = page.level(x, y);
    }
    bytes
}
