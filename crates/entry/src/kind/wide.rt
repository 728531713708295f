// Tallies that no sheet can overflow.
ghost use Rattle.std.specs.Prelude.{◌*◌, ◌≤◌};
ghost use Rattle.entry.specs.Sums.{limit_of};

use crate::kind::modular::Modular;
use crate::kind::tally::Tally;

// A tally whose words add up the largest sheet, 4,096 by 4,096 pixels, with no wrap: the whole tally and the ink count.
pub trait WideTally: Tally + Modular {
    ghost spacious: { 4096 * 4096 ≤ limit_of Self.Modular.bits Self.Modular.most };
}
