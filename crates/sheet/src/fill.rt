// The levels that an edit lays.
ghost use Rattle.std.specs.Prelude.{◌≡◌};
ghost use Rattle.sheet.specs.Fill.{Reaches, level_at};

// A level for each pixel of a rectangle, row after row, or one level for all of them. Data and not a closure, since contracts speak of it. Where a part of it is laid, the number of its first level stands beside it: cut to that part, each contract would have to say how its numbers are those of the whole.
#[derive(Clone, Copy)]
pub(crate) enum Fill<'a> {
    Each(&'a [u8]),
    All(u8),
}

impl Fill<'_> {
    // The level of pixel `n`.
    pub(crate) fn level(self, n: usize) -> u8
        requires { Reaches self n }
        ensures { result ≡ level_at self.entry n }
    {
        match self {
            Fill::Each(levels) => levels[n],
            Fill::All(level) => level,
        }
    }
}
