// Pseudorandom numbers, the same in each run of one seed.
ghost use Rattle.std.specs.Prelude.{◌<◌};

use rand::RngExt;
use rand_pcg::Pcg32;

/// The stream of the demonstration program of PCG, whose seed is 42.
const STREAM: u64 = 54;

/// The generator PCG-XSH-RR 64/32.
#[derive(Drop)]
pub struct Dice {
    words: Pcg32,
}

impl Dice {
    pub fn new(seed: u64) -> Dice {
        Dice {
            words: Pcg32::new(seed, STREAM),
        }
    }

    /// A number below `count`.
    pub fn draw_below(&mut self, count: u32) -> u32
        requires { 0 < count }
        ensures { result < count }
    {
        self.words.random_range(0..count)
    }
}
