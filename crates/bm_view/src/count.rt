//! A count that is limited by memory alone.
ghost use Rattle.std.specs.Prelude.{◌≡◌, ◌+◌, ◌<◌, ◌↔◌, IfOk, IsTrue};

use std::alloc::{AllocError, Global};
use std::marker::Model;

/// The number of proposals so far. A contract sees the number, which has no upper limit.
#[derive(Drop)]
pub struct Count {
    /// The number modulo 2^64.
    low: u64,
    /// One byte for each overflow of `low`: none in practice, and then it takes no memory.
    turns: Vec<u8>,
}

impl Model for Count {
    ghost use Rattle.std.specs.Prelude.{ℕ, ◌+◌, ◌*◌, ◌^◌, vec_len};

    ghost Value = { ℕ };

    ghost view = { λ c. c.low + 2 ^ 64 * vec_len c.turns };
}

impl Count {
    pub fn one(alloc: Global) -> Count
        ensures { result ≡ 1 }
    {
        Count {
            low: 1,
            turns: Vec::new(alloc),
        }
    }

    pub fn copy(&self) -> Result<Count, AllocError>
        ensures { IfOk result (λ c. c ≡ self.now) }
    {
        Ok(Count {
            low: self.low,
            turns: self.turns.clone()?,
        })
    }

    /// The next number. It takes memory once in 2^64 numbers.
    pub fn next(&self) -> Result<Count, AllocError>
        ensures { IfOk result (λ c. c ≡ self.now + 1) }
    {
        let mut turns = self.turns.clone()?;
        if self.low < u64::MAX {
            return Ok(Count {
                low: self.low + 1,
                turns,
            });
        }
        turns.push(0)?;
        Ok(Count { low: 0, turns })
    }

    pub fn is_below(&self, other: &Count) -> bool
        ensures { IsTrue result ↔ (self.now < other.now) }
    {
        let (low, other_low) = (self.low, other.low);
        let (turns, other_turns) = (self.turns.len(), other.turns.len());
        if turns == other_turns {
            return low < other_low;
        }
        turns < other_turns
    }
}
