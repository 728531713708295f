// How recipes are written.
ghost use Rattle.std.specs.Prelude.{◌≡◌, ◌+◌, [], pos};
ghost use Rattle.raster.specs.declared.offsets.Offsets.{Offsets as Around};
ghost use Rattle.recipe.specs.Offsets.{lawful};
ghost use Rattle.recipe.specs.Recipe.{add_answer, count_of, rectangles_of, replace_answer, Placed as PlacedAt};

use crate::offsets::is_lawful;
use crate::places::Recipe;
use raster::Offsets;
use refusal::Refusal;

// How many places a recipe has.
const PLACES: usize = 16;

// What stands at a place: a rectangle about a pixel, with a weight or without.
pub trait Placed: Copy {
    ghost around: { Self → Around };

    ghost filler: { Self };

    // What stands at a place that is not taken.
    fn blank() -> Self
        ensures { result ≡ filler };

    fn offsets(self) -> Offsets
        ensures { result ≡ around self };
}

impl Placed for Offsets {
    ghost around = { λ o. o };

    ghost filler = { record { left = pos 0; right = pos 0; up = pos 0; down = pos 0 } };

    fn blank() -> Offsets {
        Offsets {
            left: 0,
            right: 0,
            up: 0,
            down: 0,
        }
    }

    fn offsets(self) -> Offsets {
        self
    }
}

// A structuring element.
pub type Element = Recipe<Offsets>;

impl<R: Placed> Recipe<R> {
    pub fn new() -> Recipe<R>
        ensures { (count_of result ≡ 0) × (rectangles_of result ≡ []) }
    {
        Recipe {
            places: [R::blank(); PLACES],
            placed: 0,
        }
    }

    // One rectangle more. Answers how many are placed.
    pub fn add(&mut self, rectangle: R) -> Result<usize, Refusal>
        ensures { PlacedAt (add_answer (lawful (R.around rectangle)) (count_of self.old)) (count_of self.old) (count_of self.old + 1) rectangle self.old result self.new }
    {
        if !is_lawful(rectangle.offsets()) {
            return Err(Refusal::Offsets);
        }
        let place = self.placed;
        if place >= PLACES {
            return Err(Refusal::NoPlace);
        }
        self.places[place] = rectangle;
        self.placed = place + 1;
        Ok(place + 1)
    }

    // Another rectangle at a place, from 0, that is taken. Answers how many are placed.
    pub fn replace(&mut self, place: usize, rectangle: R) -> Result<usize, Refusal>
        ensures { PlacedAt (replace_answer (lawful (R.around rectangle)) place (count_of self.old)) place (count_of self.old) rectangle self.old result self.new }
    {
        if !is_lawful(rectangle.offsets()) {
            return Err(Refusal::Offsets);
        }
        if place >= self.placed {
            return Err(Refusal::NoPlace);
        }
        self.places[place] = rectangle;
        Ok(self.placed)
    }

    // The rectangles, in the order of their places.
    pub fn rectangles(&self) -> &[R]
        ensures { result.now ≡ rectangles_of self.now }
    {
        let places = &self.places[..];
        &places[0..self.placed]
    }
}
