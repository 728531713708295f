// Ink pages and elements, pixel by pixel.
use crate::direct::Counted;
use crate::drawn::page_of;
use beside::{Page, Random, Size};
use raster::{Offsets, Window};
use recipe::{Element, Placed};

const MOST: usize = 3;

// The rectangles of an element, three at the most, kept beside it in fixed memory.
#[derive(Clone, Copy)]
pub(crate) struct Shape {
    rectangles: [Option<Offsets>; MOST],
}

// A number from -3 to 3.
fn offset(random: &mut Random) -> i16 {
    i16::from(random.byte_below(7)) - 3
}

fn any_offsets(random: &mut Random) -> Offsets {
    let left = offset(random);
    let up = offset(random);
    Offsets {
        left,
        right: left.max(offset(random)),
        up,
        down: up.max(offset(random)),
    }
}

// Whether i lies from x + from to x + to.
pub(crate) fn is_between(x: usize, from: i16, to: i16, i: usize) -> bool {
    let far = i.wrapping_sub(x).cast_signed();
    isize::from(from) <= far && far <= isize::from(to)
}

impl Shape {
    // None, one, two or three rectangles.
    pub(crate) fn any(random: &mut Random) -> Shape {
        let mut rectangles = [None; MOST];
        for rectangle in rectangles.iter_mut() {
            *rectangle = Some(any_offsets(random));
        }
        let count = random.below(MOST + 1);
        rectangles[count..].fill(None);
        Shape { rectangles }
    }

    pub(crate) fn is_empty(&self) -> bool {
        self.rectangles.iter().all(|rectangle| rectangle.is_none())
    }

    pub(crate) fn element(&self) -> Element {
        let mut element = Element::new();
        for offsets in self.rectangles.iter().flatten() {
            let _ = element.add(*offsets);
        }
        element
    }

    // Whether (i, j) is an element pixel of (x, y).
    fn reaches(&self, x: usize, y: usize, i: usize, j: usize) -> bool {
        self.rectangles.iter().any(|rectangle| {
            rectangle.is_some_and(|o| is_between(x, o.left, o.right, i)
                && is_between(y, o.up, o.down, j))
        })
    }
}

// The ink of a page: 1 where the level is not 0.
pub(crate) fn ink_of(page: &Page) -> Page {
    page_of(page.size, |x, y| page.level(x, y).min(1))
}

// Ink where every element pixel on the page is ink.
pub(crate) fn eroded(ink: &Page, shape: &Shape) -> Page {
    let Size { width, height } = ink.size;
    page_of(ink.size, |x, y| {
        let all = (0..height).all(|j| {
            (0..width).all(|i| ink.level(i, j) != 0 || !shape.reaches(x, y, i, j))
        });
        u8::from(all)
    })
}

// Ink where some ink pixel has (x, y) among its element pixels.
pub(crate) fn dilated(ink: &Page, shape: &Shape) -> Page {
    let Size { width, height } = ink.size;
    page_of(ink.size, |x, y| {
        let any = (0..height).any(|j| {
            (0..width).any(|i| ink.level(i, j) != 0 && shape.reaches(i, j, x, y))
        });
        u8::from(any)
    })
}

// Ink where more than half of the pixels of the window are ink.
pub(crate) fn majority(page: &Page, window: Window) -> Page {
    page_of(page.size, |x, y| {
        let about = Counted::about(page, window, x, y);
        let ink = u64::from(about.ink);
        u8::from(ink > about.pixels.wrapping_sub(ink))
    })
}
