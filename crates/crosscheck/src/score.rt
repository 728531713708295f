// How many questions were asked, and how they were answered. The counts wrap rather than ask for a bound; no run comes near it. The trials of edits count two things more and print them in words of their own, so one type for both would be no plainer.
use refusal::Refusal;
use std::fmt;

#[derive(Clone, Copy)]
pub(crate) struct Score {
    asked: usize,
    refused: usize,
    different: usize,
}

impl Score {
    pub(crate) fn new() -> Score {
        Score {
            asked: 0,
            refused: 0,
            different: 0,
        }
    }

    // One question, whether it was refused, and whether its answer is the one that was worked out beside it.
    pub(crate) fn note(&mut self, refused: bool, same: bool) {
        self.asked = self.asked.wrapping_add(1);
        if refused {
            self.refused = self.refused.wrapping_add(1);
        }
        if !same {
            self.different = self.different.wrapping_add(1);
        }
    }

    pub(crate) fn compare<A: Copy + PartialEq>(
        &mut self,
        answer: Result<A, Refusal>,
        wanted: Result<A, Refusal>,
    ) {
        self.note(wanted.is_err(), answer == wanted);
    }
}

impl fmt::Display for Score {
    fn fmt<W: fmt::Write>(&self, f: &mut fmt::Formatter<W>) -> fmt::Result {
        let Score {
            asked,
            refused,
            different,
        } = *self;
        write!(f, "{asked} asked, {refused} refused, {different} different")
    }
}
