// Numbers that look random, the same at every run.
ghost use Rattle.std.specs.Prelude.{◌≡◌, ◌<◌, ◌≤◌, min};
ghost use Rattle.beside.specs.Numbers.{number_below, stepped, level_by, stepped_by};

use crate::size::{SIDE, Size};
use sheet::Rectangle;

// Which levels are drawn. Data, since a public function would have to ask of a closure that it may be called.
#[derive(Clone, Copy, PartialEq, Eq, Debug)]
pub enum Levels {
    Any,
    // half of them are 0, so that ink and paper are both common
    HalfBlank,
}

#[derive(Debug, Drop)]
pub struct Random {
    state: usize,
    pub levels: Levels,
}

impl Random {
    pub fn new(levels: Levels) -> Random
        ensures { result.levels ≡ levels }
    {
        Random {
            state: 88_172_645_463_325_252,
            levels,
        }
    }

    // A number below `end`, or 0 where that is 0.
    pub fn below(&mut self, end: usize) -> usize
        ensures number { result ≡ number_below self.old end }
        ensures within { 0 < end → result < end }
        ensures next { self.new ≡ stepped self.old }
    {
        let mut x = self.state;
        x ^= x << 13;
        x ^= x >> 7;
        x ^= x << 17;
        self.state = x;
        (x >> 11).checked_rem(end).unwrap_or(0)
    }

    // A byte below `end`, which counts for no more than 256, or 0 where that is 0.
    pub fn byte_below(&mut self, end: usize) -> u8
        ensures number { result ≡ number_below self.old (min end 256) }
        ensures within { 0 < end → result < end }
        ensures next { self.new ≡ stepped self.old }
    {
        u8::try_from(self.below(end.min(256))).unwrap_or(0)
    }

    pub fn level(&mut self) -> u8
        ensures level { result ≡ level_by self.old.levels self.old }
        ensures next { self.new ≡ stepped_by self.old.levels self.old }
    {
        if self.levels == Levels::HalfBlank && self.below(2) == 0 {
            return 0;
        }
        self.byte_below(256)
    }

    pub(crate) fn levels<const N: usize>(&mut self) -> [u8; N] {
        let mut levels = [0; N];
        for level in levels.iter_mut() {
            *level = self.level();
        }
        levels
    }

    pub(crate) fn size(&mut self) -> Size {
        Size {
            width: self.below(SIDE) + 1,
            height: self.below(SIDE) + 1,
        }
    }

    // A rectangle of a sheet of that size; one in eight is wider by a column or turned, and so may be off the sheet.
    pub fn rectangle(&mut self, size: Size) -> Rectangle
        ensures columns { (result.left < size.width) × (result.right ≤ size.width) }
        ensures rows { (result.top ≤ result.bottom) × (result.bottom < size.height) }
    {
        let left = self.below(size.width);
        let top = self.below(size.height);
        let right = left + self.below(size.width - left);
        let bottom = top + self.below(size.height - top);
        let rect = Rectangle {
            left,
            top,
            right,
            bottom,
        };
        match self.below(16) {
            0 => Rectangle {
                right: right + 1,
                ..rect
            },
            1 => Rectangle {
                left: right,
                right: left,
                ..rect
            },
            _ => rect,
        }
    }
}
