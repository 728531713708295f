// Which offsets a recipe takes.
ghost use Rattle.std.specs.Prelude.{◌≡◌};
ghost use Rattle.recipe.specs.Offsets.{in_reach, lawful};

use raster::Offsets;

// From -255 to 255, and not turned.
fn in_reach(from: i16, to: i16) -> bool
    ensures { result ≡ in_reach from to }
{
    -255 <= from && from <= to && to <= 255
}

pub(crate) fn is_lawful(offsets: Offsets) -> bool
    ensures { result ≡ lawful offsets }
{
    in_reach(offsets.left, offsets.right) && in_reach(offsets.up, offsets.down)
}
