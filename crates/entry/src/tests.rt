// Examples of each kind.
ghost use Rattle.std.specs.Prelude.{min};
ghost use Rattle.std.proofs.Common.{arith};

use crate::amount::{Amount, Level, Pixel, Square};
use crate::kind::entry::Entry;
use crate::kind::tally::Tally;
use crate::kind::weighable::Weighable;
use crate::kinds::pair::Pair;
use crate::kinds::{Energy, Ink, Narrow, Parity, Whole};
use crate::word::Word;
use std::fmt::Debug;
use std::process::Abort;
use std::test::Fail;

fn inverse_of_zero<E: Entry + PartialEq + Debug>(rt: &impl Abort) {
    assert_eq!(rt; E::zero().inverse(), E::zero());
}

// `times` against joining one by one, for every weight.
fn times_is_repeated<E: Weighable + PartialEq + Debug>(rt: &impl Abort, x: E) {
    let mut copies = E::zero();
    for w in 0..=127i8 {
        assert_eq!(rt; x.times(w), copies);
        assert_eq!(rt; x.times(w.wrapping_neg()), copies.inverse());
        copies = copies.join(x);
    }
    assert_eq!(rt; x.times(-128), copies.inverse());
}

#[test]
fn words_wrap(rt: HostRuntime) {
    assert_eq!(rt; Narrow::of(65_535).join(Narrow::lift(1)), Narrow::zero());
    assert_eq!(rt;
        Whole::of(4_294_967_295).join(Whole::lift(2)),
        Whole::lift(1)
    );
    assert_eq!(rt; Narrow::lift(1).inverse(), Narrow::of(65_535));
    assert_eq!(rt; Energy::lift(255).value(), 65_025);
}

#[test]
fn zero_is_its_own_inverse(rt: HostRuntime) {
    inverse_of_zero::<Narrow>(&rt);
    inverse_of_zero::<Whole>(&rt);
    inverse_of_zero::<Ink>(&rt);
    inverse_of_zero::<Energy>(&rt);
    inverse_of_zero::<Parity>(&rt);
    inverse_of_zero::<Pair<Whole, Energy>>(&rt);
}

#[test]
fn levels(rt: HostRuntime) {
    assert_eq!(rt; Parity::lift(20).join(Parity::lift(10)), Parity::of(36));
    assert_eq!(rt; Parity::lift(255), Parity::of(1 << 63));
    assert_eq!(rt;
        Ink::lift(0).join(Ink::lift(1)).join(Ink::lift(255)).value(),
        2
    );
    let both: Pair<Whole, Energy> = Pair::lift(12);
    assert_eq!(rt; both.first.value(), 12);
    assert_eq!(rt; both.second.value(), 144);
}

#[test]
fn debugged(rt: HostRuntime) -> Result<(), Fail> {
    let narrow = Narrow::lift(5);
    let whole = Whole::lift(5);
    let ink = Ink::lift(5);
    let energy = Energy::lift(5);
    let parity = Parity::lift(5);
    let text = format!(in rt.alloc(); "{narrow:?} {whole:?} {ink:?} {energy:?} {parity:?}")?;
    assert_eq!(rt;
        text.as_str(),
        "Narrow { value: 5 } Whole { value: 5 } Ink { tally: Whole { value: 1 } } Energy { value: 25 } Parity { value: 2 }"
    );
    Ok(())
}

// A level counts itself, but for 255, which counts 254: the rule of no kind.
struct Capped;

impl Amount for Capped {
    ghost amount = { λ g. min g 254 };

    fn amount(level: u8) -> u16 {
        u16::from(level.min(254))
    }

    ghost bounded = { λ g h. omega arith };

    ghost short = { omega arith };

    ghost positive = { omega arith };
}

// The rule of the whole tally under another name.
struct Tallied;

impl Amount for Tallied {
    ghost amount = { λ g. g };

    fn amount(level: u8) -> u16 {
        Level::amount(level)
    }

    ghost bounded = { λ g h. omega arith };

    ghost short = { omega arith };

    ghost positive = { omega arith };
}

#[test]
fn sums_debugged(rt: HostRuntime) -> Result<(), Fail> {
    let squares: Word<u32, Square> = Word::lift(5);
    let large: Word<u64, Level> = Word::lift(5);
    let short: Word<u16, Pixel> = Word::lift(5);
    let capped: Word<u32, Capped> = Word::lift(5);
    let tallied: Word<u32, Tallied> = Word::lift(5);
    let text = format!(in rt.alloc(); "{squares:?} {large:?} {short:?} {capped:?} {tallied:?}")?;
    assert_eq!(rt;
        text.as_str(),
        "Word { value: 25, .. } Word { value: 5, .. } Word { value: 1, .. } Word { value: 5, .. } Whole { value: 5 }"
    );
    Ok(())
}

#[test]
fn weights(rt: HostRuntime) {
    assert_eq!(rt; Narrow::lift(255).times(127).value(), 32_385);
    assert_eq!(rt; Narrow::lift(255).times(-128).value(), 32_896);
    assert_eq!(rt; Whole::lift(255).times(-128).value(), 4_294_934_656);
    assert_eq!(rt; Ink::lift(9).times(-128).value(), 4_294_967_168);
    assert_eq!(rt;
        Energy::lift(255).times(-1).value(),
        18_446_744_073_709_486_591
    );
    assert_eq!(rt; Parity::lift(7).times(-127), Parity::lift(7));
    assert_eq!(rt; Parity::lift(7).times(-128), Parity::zero());
}

#[test]
fn weights_are_repetition(rt: HostRuntime) {
    times_is_repeated(&rt, Narrow::lift(200));
    times_is_repeated(&rt, Whole::lift(200));
    times_is_repeated(&rt, Ink::lift(200));
    times_is_repeated(&rt, Energy::lift(200));
    times_is_repeated(&rt, Parity::lift(200));
    let both: Pair<Whole, Parity> = Pair::lift(200);
    times_is_repeated(&rt, both);
}
