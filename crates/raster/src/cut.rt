ghost use Rattle.std.specs.Prelude.{◌≤◌};

// A rectangle about a pixel, cut at the frame: its entry, and how many pixels it has.
#[derive(Drop)]
pub struct Cut<E> {
    pub sum: E,
    pub area: usize,
    ghost few: { area ≤ 16777216 },
}
