// Filters on small pages, and on the sheet that has none.
use crate::majority::median;
use crate::morphology::{closing, dilation, erosion, opening};
use entry::{Entry, Ink};
use raster::{Offsets, Window};
use recipe::Element;
use refusal::Refusal;
use sheet::{Table, begin, lay_page};
use std::test::Fail;

const INK: [u8; 25] = [
    9, 0, 0, 0, 9, 0, 9, 0, 9, 0, 0, 0, 9, 0, 0, 0, 0, 9, 0, 0, 0, 0, 0, 0, 0,
];

// Two pixels to the right, and the one below that.
const AWAY: Offsets = Offsets {
    left: 2,
    right: 2,
    up: 0,
    down: 1,
};

const BEFORE: u8 = 7;

fn of_one(offsets: Offsets) -> Element {
    let mut element = Element::new();
    let _ = element.add(offsets);
    element
}

// Where ink is, a row to a line; the last byte lies past the page.
const DILATED: [u8; 26] = [
    0, 0, 1, 0, 0, 0, 0, 1, 1, 0, 0, 0, 0, 1, 1, 0, 0, 0, 0, 1, 0, 0, 0, 0, 1, BEFORE,
];

const ERODED: [u8; 26] = [
    0, 0, 0, 1, 1, 0, 0, 0, 1, 1, 1, 0, 0, 1, 1, 0, 0, 0, 1, 1, 0, 0, 0, 1, 1, BEFORE,
];

const OPENED: [u8; 26] = [
    0, 0, 0, 0, 0, 0, 0, 0, 0, 0, 0, 0, 1, 0, 0, 0, 0, 1, 0, 0, 0, 0, 0, 0, 0, BEFORE,
];

#[test]
fn element_off_its_pixel(rt: HostRuntime) -> Result<(), Fail> {
    let mut memory = [Ink::zero(); 36];
    assert_eq!(rt; lay_page(&mut memory, 5, 5, &INK), Ok(25));
    let table = Table::of(&memory, 5, 5)?;
    let element = of_one(AWAY);
    let mut page = [BEFORE; 26];
    assert_eq!(rt; dilation(&table, &element, &mut page), Ok(25));
    assert_eq!(rt; page, DILATED);
    assert_eq!(rt; erosion(&table, &element, &mut page), Ok(25));
    assert_eq!(rt; page, ERODED);
    let mut between = [Ink::lift(9); 37];
    assert_eq!(rt; opening(&table, &element, &mut between, &mut page), Ok(25));
    assert_eq!(rt; page, OPENED);
    // the table of the eroded page, and what lay past it
    let mut middle = [Ink::lift(9); 37];
    assert_eq!(rt; lay_page(&mut middle, 5, 5, &ERODED[0..25]), Ok(25));
    assert_eq!(rt; between, middle);
    Ok(())
}

// Two pixels with one between them: closing fills it, opening leaves neither.
#[test]
fn gap_in_a_line(rt: HostRuntime) -> Result<(), Fail> {
    let mut memory = [Ink::zero(); 12];
    assert_eq!(rt; lay_page(&mut memory, 5, 1, &[0, 1, 0, 1, 0]), Ok(5));
    let table = Table::of(&memory, 5, 1)?;
    let element = of_one(Offsets {
        left: -1,
        right: 1,
        up: 0,
        down: 0,
    });
    let mut between = [Ink::zero(); 12];
    let mut page = [BEFORE; 5];
    assert_eq!(rt; closing(&table, &element, &mut between, &mut page), Ok(5));
    assert_eq!(rt; page, [1, 1, 1, 1, 1]);
    assert_eq!(rt; opening(&table, &element, &mut between, &mut page), Ok(5));
    assert_eq!(rt; page, [0, 0, 0, 0, 0]);
    Ok(())
}

const ABOUT: Window = Window {
    left: 1,
    right: 1,
    up: 1,
    down: 1,
};

// Half of each window is ink, which is not more than half.
#[test]
fn half_is_blank(rt: HostRuntime) -> Result<(), Fail> {
    let mut memory = [Ink::zero(); 9];
    assert_eq!(rt; lay_page(&mut memory, 2, 2, &[1, 1, 0, 0]), Ok(4));
    let table = Table::of(&memory, 2, 2)?;
    let mut page = [BEFORE; 5];
    assert_eq!(rt; median(&table, ABOUT, &mut page), Ok(4));
    assert_eq!(rt; page, [0, 0, 0, 0, BEFORE]);
    let no_rows = Window {
        up: 0,
        down: 0,
        ..ABOUT
    };
    assert_eq!(rt; median(&table, no_rows, &mut page), Ok(4));
    assert_eq!(rt; page, [1, 1, 0, 0, BEFORE]);
    Ok(())
}

// The second memory, the page, the element: the first that is wrong is named, and neither memory is changed.
#[test]
fn refusals(rt: HostRuntime) -> Result<(), Fail> {
    let mut memory = [Ink::zero(); 9];
    assert_eq!(rt; lay_page(&mut memory, 2, 2, &[1, 1, 0, 0]), Ok(4));
    let table = Table::of(&memory, 2, 2)?;
    let empty = Element::new();
    let mut between = [Ink::lift(9); 9];
    let mut page = [BEFORE; 4];
    let short = &mut page[0..3];
    assert_eq!(rt;
        opening(&table, &empty, &mut between[0..8], short),
        Err(Refusal::TableTooShort)
    );
    assert_eq!(rt;
        closing(&table, &empty, &mut between, short),
        Err(Refusal::ListTooShort)
    );
    assert_eq!(rt; median(&table, ABOUT, short), Err(Refusal::ListTooShort));
    assert_eq!(rt; dilation(&table, &empty, short), Err(Refusal::ListTooShort));
    assert_eq!(rt;
        erosion(&table, &empty, &mut page),
        Err(Refusal::NoRectangle)
    );
    assert_eq!(rt;
        opening(&table, &empty, &mut between, &mut page),
        Err(Refusal::NoRectangle)
    );
    assert_eq!(rt; (between, page), ([Ink::lift(9); 9], [BEFORE; 4]));
    Ok(())
}

#[test]
fn no_sheet(rt: HostRuntime) {
    let mut memory = [Ink::zero(); 3];
    let sheet = begin(&mut memory, 5, 5).finish(0);
    let table = sheet.table();
    let element = of_one(AWAY);
    let mut between = [Ink::lift(9); 1];
    let mut page = [BEFORE; 1];
    let answers = [
        median(&table, ABOUT, &mut page),
        erosion(&table, &element, &mut page),
        dilation(&table, &element, &mut page[0..0]),
        opening(&table, &element, &mut between[0..0], &mut page),
        closing(&table, &element, &mut between, &mut page),
    ];
    let empty = erosion(&table, &Element::new(), &mut page);
    assert_eq!(rt; sheet.file(), (0, 0));
    assert_eq!(rt; answers, [Ok(0); 5]);
    assert_eq!(rt; empty, Err(Refusal::NoRectangle));
    assert_eq!(rt; (between, page), ([Ink::lift(9); 1], [BEFORE; 1]));
}
