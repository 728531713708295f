// White space and comments, which stand before each number.
ghost use Rattle.std.specs.Prelude.{◌≡◌, ◌≤◌, length};
ghost use Rattle.scan.specs.Reading.{white, next_state, gap_length};
ghost use Rattle.scan.specs.declared.gap.GapState.TheVariants.{Start};

// Where the reader stands in a gap, as data that the contract speaks of: before its first byte, after a white byte, or in a comment.
#[derive(Clone, Copy)]
pub(crate) enum GapState {
    Start,
    White,
    Comment,
}

pub(crate) fn is_white(b: u8) -> bool
    ensures { result ≡ white b }
{
    matches!(b, 9..=13 | b' ')
}

impl GapState {
    // The state after one byte more, or none where the byte ends the gap.
    fn next(self, b: u8) -> Option<GapState>
        ensures { result ≡ next_state self b }
    {
        match self {
            GapState::Comment if b != b'\n' => Some(GapState::Comment),
            GapState::Comment => Some(GapState::White),
            _ if is_white(b) => Some(GapState::White),
            GapState::White if b == b'#' => Some(GapState::Comment),
            _ => None,
        }
    }
}

// How many bytes of white space and comments come first. A loop, since a fold would carry the same state and stop as early, and be no plainer.
pub(crate) fn gap_length(bytes: &[u8]) -> usize
    ensures count { result ≡ gap_length Start bytes.now }
    ensures within { result ≤ length bytes.now }
{
    let mut state = GapState::Start;
    for (i, b) in bytes.iter().enumerate() {
        match state.next(*b) {
            Some(next) => state = next,
            None => return i,
        }
    }
    bytes.len()
}
