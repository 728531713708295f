ghost use Rattle.std.specs.Prelude.{◌≤◌};

// What a window question knows of a pixel: its own level, and the total and the number of those pixels of its window that are on the sheet.
#[derive(Clone, Copy)]
pub struct Neighbourhood {
    pub level: u32,
    pub total: u32,
    pub count: usize,
    ghost few: { count ≤ 16777216 },
}
