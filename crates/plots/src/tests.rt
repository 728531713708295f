// Scan files, good, odd and damaged, and what the program prints of them.
ghost use Rattle.std.specs.Prelude.{◌≤◌};

use super::MAX_INPUT;
use super::input::fill;
use super::outcome::outcome_of;
use std::alloc::AllocGlobal;
use std::process::Abort;
use std::test::*;

const GOOD: [(&[u8], &str); 8] = [
    (b"P5\n2 1\n255\nab", "sheet 2 1\ntotal 195"),
    (b"P5 00002 00001 00255 ab", "sheet 2 1\ntotal 195"),
    (b"P5\t2\x0b1\x0c255\rab", "sheet 2 1\ntotal 195"),
    (
        b"P5 # one\n2 # two\n1 # three\n255 ab",
        "sheet 2 1\ntotal 195",
    ),
    (b"P5 # one\n# two\n\n#\n2 1 255 ab", "sheet 2 1\ntotal 195"),
    (b"P5 2 1 255 #b", "sheet 2 1\ntotal 133"),
    (b"P5 2 1 255 \n\n", "sheet 2 1\ntotal 20"),
    (b"P5 2 1 255 ab, and more", "sheet 2 1\ntotal 195"),
];

const DAMAGED: [(&[u8], &str); 24] = [
    (b"", "refused 1 0 reader"),
    (b"P", "refused 1 0 reader"),
    (b"P6 2 1 255 ab", "refused 1 0 reader"),
    (b"p5 2 1 255 ab", "refused 1 0 reader"),
    (b"P5", "refused 2 2 reader"),
    (b"P52 1 255 ab", "refused 2 2 reader"),
    (b"P5#a\n2 1 255 ab", "refused 2 2 reader"),
    (b"P5 2#a\n1 255 ab", "refused 2 4 reader"),
    (b"P5 #a", "refused 2 5 reader"),
    (b"P5 x", "refused 2 3 reader"),
    (b"P5 -2 1 255 ab", "refused 2 3 reader"),
    (b"P5 000002 1 255 ab", "refused 2 8 reader"),
    (b"P5 2 1x255 ab", "refused 2 6 reader"),
    (b"P5 2 1 255", "refused 2 10 reader"),
    (b"P5 2 1 255#ab", "refused 2 10 reader"),
    (b"P5 0", "refused 2 4 reader"),
    (b"P5 0x", "refused 2 4 reader"),
    (b"P5 0 x", "refused 3 3 reader"),
    (b"P5 2 00000 ", "refused 3 5 reader"),
    (b"P5 2 4097 ", "refused 3 5 reader"),
    (b"P5 2 1 254 ab", "refused 4 7 reader"),
    (b"P5 2 1 99999 ", "refused 4 7 reader"),
    (b"P5 2 1 255 a", "refused 5 12 reader"),
    (b"P5 4096 4096 255 a", "refused 5 18 reader"),
];

fn prints(rt: &(impl Abort + AllocGlobal), file: &[u8], line: &str) -> Result<(), Fail> {
    let outcome = outcome_of(rt.alloc(), file)?;
    let text = format!(in rt.alloc(); "{outcome}")?;
    assert_eq!(rt; text.as_str(), line);
    Ok(())
}

fn each_prints(rt: &(impl Abort + AllocGlobal), files: &[(&[u8], &str)]) -> Result<(), Fail> {
    for (file, line) in files {
        prints(rt, file, line)?;
    }
    Ok(())
}

#[test]
fn good_files(rt: HostRuntime) -> Result<(), Fail> {
    each_prints(&rt, &GOOD)
}

#[test]
fn damaged_files(rt: HostRuntime) -> Result<(), Fail> {
    each_prints(&rt, &DAMAGED)
}

// A file of 16,385 bytes whose header, with a long comment, ends at `from`.
fn long_file(from: usize) -> [u8; 16_385]
    requires { (100 ≤ from) × (from ≤ 200) }
{
    let mut file = [b'x'; 16_385];
    file[0..4].copy_from_slice(b"P5 #");
    file[from - 13..from].copy_from_slice(b"\n127 128 255\n");
    file
}

// What the program prints of an input that may be longer than what it reads.
fn prints_of_input(
    rt: &(impl Abort + AllocGlobal),
    mut input: &[u8],
    line: &str,
) -> Result<(), Fail> {
    let mut buffer = [0; MAX_INPUT];
    let length = fill(&mut input, &mut buffer)?;
    prints(rt, &buffer[0..length], line)
}

#[test]
fn longest_input(rt: HostRuntime) -> Result<(), Fail> {
    // 127 by 128 levels, with 128 bytes before them, are 16,384 bytes
    let fits = long_file(128);
    prints_of_input(&rt, &fits[0..16_383], "refused 5 16383 reader")?;
    prints_of_input(&rt, &fits[0..16_384], "sheet 127 128\ntotal 1950720")?;
    prints_of_input(&rt, &fits, "sheet 127 128\ntotal 1950720")?;
    // the last level of this file is not read
    let over = long_file(129);
    prints_of_input(&rt, &over, "refused 5 16384 reader")?;
    prints(&rt, &over, "sheet 127 128\ntotal 1950720")
}
