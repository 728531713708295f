// Columns or rows of a sheet, cut at its frame.
ghost use Rattle.std.specs.Prelude.{◌≡◌};
ghost use Rattle.sheet.specs.Cut.{cut_start, cut_end};

// The numbers from `start` on and below `end`; none where it is turned, so who needs it in order asks for that.
#[derive(Clone, Copy, PartialEq, Eq, Debug)]
pub struct Span {
    pub start: usize,
    pub end: usize,
}

impl Span {
    // The part below `size`.
    pub(crate) fn cut(self, size: usize) -> Span
        ensures start { result.start ≡ cut_start size self }
        ensures end { result.end ≡ cut_end size self }
    {
        let end = self.end.min(size);
        Span {
            start: self.start.min(end),
            end,
        }
    }
}
