// The trials of one kind, which take memory.
use crate::kind::Kind;
use crate::random::{Levels, Random};
use crate::trial::{Compared, trials};
use std::test::*;

#[test]
fn narrow_sheets(rt: HostRuntime) -> Result<(), Fail> {
    let mut random = Random::new(Levels::Any);
    let tally = trials(rt.alloc(), &mut random, Compared::Sums, Kind::Narrow)?;
    let line = format!(in rt.alloc(); "{tally}")?;
    assert_eq!(rt;
        line.as_str(),
        "narrow: 4000 edits, 582 refused, 76040 sums compared, 0 different"
    );
    Ok(())
}
