// Questions on small pages, and on the sheet that has none.
use crate::inks::{fixed_ink, share_ink};
use crate::laterals::lateral_totals;
use crate::means::{mean, mean_page};
use crate::spreads::spread;
use crate::totals::total;
use entry::{Energy, Entry, Ink, Narrow, Pair, Tally, Whole};
use raster::Window;
use refusal::Refusal;
use sheet::{Rectangle, Table, begin, lay_page};
use std::test::Fail;

const PAGE: [u8; 12] = [10, 20, 30, 40, 50, 60, 70, 80, 90, 100, 110, 120];

const INNER: Rectangle = Rectangle {
    left: 1,
    top: 1,
    right: 2,
    bottom: 2,
};

#[test]
fn levels_and_ink(rt: HostRuntime) -> Result<(), Fail> {
    let mut memory = [Whole::zero(); 20];
    assert_eq!(rt; lay_page(&mut memory, 4, 3, &PAGE), Ok(12));
    let table = Table::of(&memory, 4, 3)?;
    assert_eq!(rt; total(&table, INNER), Ok(340));
    assert_eq!(rt;
        total(&table, Rectangle { right: 4, ..INNER }),
        Err(Refusal::OffSheet)
    );
    let mut memory = [Ink::zero(); 20];
    assert_eq!(rt; lay_page(&mut memory, 4, 3, &PAGE), Ok(12));
    assert_eq!(rt; total(&Table::of(&memory, 4, 3)?, INNER), Ok(4));
    Ok(())
}

#[test]
fn narrow_limit(rt: HostRuntime) -> Result<(), Fail> {
    let mut memory = [Narrow::zero(); 602];
    assert_eq!(rt; lay_page(&mut memory, 300, 1, &[255; 300]), Ok(300));
    let table = Table::of(&memory, 300, 1)?;
    let part = Rectangle {
        left: 100,
        top: 0,
        right: 299,
        bottom: 0,
    };
    assert_eq!(rt; total(&table, part), Ok(51_000));
    assert_eq!(rt; total(&table, Rectangle { left: 43, ..part }), Ok(65_535));
    assert_eq!(rt;
        total(&table, Rectangle { left: 42, ..part }),
        Err(Refusal::NarrowTotal)
    );
    Ok(())
}

const ABOUT: Window = Window {
    left: 1,
    right: 1,
    up: 1,
    down: 1,
};

#[test]
fn means(rt: HostRuntime) -> Result<(), Fail> {
    let mut memory = [Whole::zero(); 20];
    assert_eq!(rt; lay_page(&mut memory, 4, 3, &PAGE), Ok(12));
    let table = Table::of(&memory, 4, 3)?;
    let corner = Rectangle {
        left: 0,
        top: 0,
        ..INNER
    };
    assert_eq!(rt; mean(&table, corner), Ok(60));
    // 35 with nothing dropped, and 15 from 10 and 20
    let upper = Rectangle {
        right: 1,
        bottom: 1,
        ..corner
    };
    assert_eq!(rt; mean(&table, upper), Ok(35));
    assert_eq!(rt; mean(&table, Rectangle { bottom: 0, ..upper }), Ok(15));
    let mut page = [7; 13];
    assert_eq!(rt; mean_page(&table, ABOUT, &mut page), Ok(12));
    assert_eq!(rt; page, [35, 40, 50, 55, 55, 60, 70, 75, 75, 80, 90, 95, 7]);
    Ok(())
}

#[test]
fn inks(rt: HostRuntime) -> Result<(), Fail> {
    let mut memory = [Whole::zero(); 20];
    assert_eq!(rt; lay_page(&mut memory, 4, 3, &PAGE), Ok(12));
    let table = Table::of(&memory, 4, 3)?;
    let mut page = [7; 13];
    assert_eq!(rt; fixed_ink(&table, 60, &mut page), Ok(12));
    assert_eq!(rt; page, [1, 1, 1, 1, 1, 0, 0, 0, 0, 0, 0, 0, 7]);
    assert_eq!(rt; share_ink(&table, ABOUT, 20, &mut page), Ok(12));
    assert_eq!(rt; page, [1, 1, 1, 1, 0, 0, 0, 0, 0, 0, 0, 0, 7]);
    assert_eq!(rt;
        share_ink(&table, ABOUT, 101, &mut page),
        Err(Refusal::Share)
    );
    assert_eq!(rt;
        share_ink(&table, ABOUT, 101, &mut page[0..11]),
        Err(Refusal::ListTooShort)
    );
    Ok(())
}

#[test]
fn spreads(rt: HostRuntime) -> Result<(), Fail> {
    let mut memory = [Pair::<Whole, Energy>::zero(); 20];
    assert_eq!(rt; lay_page(&mut memory, 4, 3, &PAGE), Ok(12));
    let first_two = Rectangle {
        left: 0,
        top: 0,
        right: 1,
        bottom: 0,
    };
    assert_eq!(rt; spread(&Table::of(&memory, 4, 3)?, first_two), Ok(100));
    Ok(())
}

// On the 0 by 0 sheet every rectangle is off the sheet, and a page has no bytes.
#[test]
fn no_sheet(rt: HostRuntime) {
    let mut memory = [Whole::lift(9); 3];
    let sheet = begin(&mut memory, 4, 3).finish(0);
    let table = sheet.table();
    let mut page = [7; 2];
    let mut rows = [7; 2];
    let mut columns = [7; 2];
    let answers = (
        lateral_totals(&table, INNER, &mut rows, &mut columns),
        mean(&table, INNER),
        mean_page(&table, ABOUT, &mut page),
        fixed_ink(&table, 255, &mut page),
        share_ink(&table, ABOUT, 100, &mut page[0..0]),
    );
    assert_eq!(rt; sheet.file(), (0, 0));
    assert_eq!(rt; answers.0, Err(Refusal::OffSheet));
    assert_eq!(rt; answers.1, Err(Refusal::OffSheet));
    assert_eq!(rt; (answers.2, answers.3, answers.4), (Ok(0), Ok(0), Ok(0)));
    assert_eq!(rt; (page, rows, columns), ([7, 7], [7, 7], [7, 7]));
}
