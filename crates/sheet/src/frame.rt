// How large a sheet is.
ghost use Rattle.std.specs.Prelude.{◌<◌, ◌≤◌};

// The columns and rows of a sheet. The sheet that has no table is 0 by 0.
#[derive(Clone, Copy, PartialEq, Eq, Debug)]
pub struct Frame {
    pub width: usize,
    pub height: usize,
    ghost wide: { width ≤ 4096 },
    ghost tall: { height ≤ 4096 },
    ghost broad: { (0 < height → 0 < width) },
}
