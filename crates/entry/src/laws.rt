// The laws of the kinds on contracts, so that each is owed for each kind.
ghost use Rattle.std.specs.Prelude.{◌≡◌, ◌*◌, ◌≤◌};
ghost use Rattle.entry.specs.Exactness.{Exact};
ghost use Rattle.entry.specs.Group.{Group};
ghost use Rattle.entry.specs.Kinds.{narrow, whole, ink, energy, parity, pair};
ghost use Rattle.entry.specs.Numbers.{narrow_numbers, whole_numbers, ink_numbers, energy_numbers};
ghost use Rattle.entry.specs.Sums.{limit_of};

use crate::kind::entry::Entry;
use crate::kind::modular::Modular;
use crate::kinds::pair::Pair;
use crate::kinds::{Energy, Ink, Narrow, Parity, Whole};

// The four laws of a kind; no code runs.
fn group_law<E: Entry>()
    ensures { Group E.Entry }
{}

// Every kind is a commutative group, and so is a pair of any two.
pub fn kinds_are_groups<A: Entry, B: Entry>()
    ensures narrow { Group narrow }
    ensures whole { Group whole }
    ensures ink { Group ink }
    ensures energy { Group energy }
    ensures parity { Group parity }
    ensures pair { Group (pair A.Entry B.Entry) }
{
    group_law::<Narrow>();
    group_law::<Whole>();
    group_law::<Ink>();
    group_law::<Energy>();
    group_law::<Parity>();
    group_law::<Pair<A, B>>();
}

// When the number of joined levels is their plain sum; no code runs.
fn exact_law<M: Modular>()
    ensures { Exact M.Entry M.Modular.own }
{}

// Joined levels have their plain sum, up to each kind's limit: 257 levels in 16 bits, and more than the largest sheet has in the other words.
pub fn sums_are_exact()
    ensures narrow { Exact narrow narrow_numbers }
    ensures whole { Exact whole whole_numbers }
    ensures ink { Exact ink ink_numbers }
    ensures energy { Exact energy energy_numbers }
    ensures narrow_limit { limit_of 16 255 ≡ 257 }
    ensures sheet_fits { (4096 * 4096 ≤ limit_of 32 255) × ((4096 * 4096 ≤ limit_of 32 1) × (4096 * 4096 ≤ limit_of 64 65025)) }
{
    exact_law::<Narrow>();
    exact_law::<Whole>();
    exact_law::<Ink>();
    exact_law::<Energy>();
}
