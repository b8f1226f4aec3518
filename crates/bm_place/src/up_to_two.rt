// The different numbers of a list, up to two: on how many racks a block is, and whether two
// storages hold it.
ghost use Rattle.std.specs.Prelude.{◌≡◌};
ghost use Rattle.bm_place.specs.UpToTwo as numbers;

use std::cmp::Ordering;

/// The different numbers so far. Of two the lesser comes first.
#[derive(Clone, Copy)]
pub enum UpToTwo {
    Nothing,
    One(u32),
    Two(u32, u32),
    More,
}

impl UpToTwo {
    /// As `self`, with one more number, which may be among them.
    pub fn with(&self, number: u32) -> UpToTwo
        ensures { result ≡ numbers.with_number self.now number }
    {
        match self {
            UpToTwo::Nothing => UpToTwo::One(number),
            UpToTwo::One(one) => match number.cmp(one) {
                Ordering::Less => UpToTwo::Two(number, *one),
                Ordering::Equal => UpToTwo::One(*one),
                Ordering::Greater => UpToTwo::Two(*one, number),
            },
            UpToTwo::Two(low, high) => match (number.cmp(low), number.cmp(high)) {
                (Ordering::Equal, _) => *self,
                (Ordering::Greater, Ordering::Equal) => *self,
                _ => UpToTwo::More,
            },
            UpToTwo::More => UpToTwo::More,
        }
    }

    /// Whether there is exactly one number.
    pub fn is_one(&self) -> bool
        ensures { result ≡ numbers.is_one self.now }
    {
        matches!(self, UpToTwo::One(_))
    }

    /// Whether there are exactly two numbers.
    pub fn are_two(&self) -> bool
        ensures { result ≡ numbers.are_two self.now }
    {
        matches!(self, UpToTwo::Two(_, _))
    }
}
