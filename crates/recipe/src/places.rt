ghost use Rattle.std.specs.Prelude.{◌≤◌};

// Sixteen places, the first `placed` of which are taken: fixed memory, with no heap.
#[derive(Drop)]
pub struct Recipe<R> {
    pub(crate) places: [R; 16],
    pub(crate) placed: usize,
    ghost few: { placed ≤ 16 },
}
