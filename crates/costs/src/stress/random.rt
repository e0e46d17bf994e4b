//! Deterministic random numbers.
ghost use Rattle.std.specs.Prelude.{◌<◌};

use rand_core::Rng;
use rand_pcg::Pcg32;

/// Numbers that a seed and a stream determine.
#[derive(Drop)]
pub struct Random(Pcg32);

impl Random {
    /// Makes the generator of a seed and a stream.
    pub fn new(seed: u64, stream: u64) -> Random {
        Random(Pcg32::new(seed, stream))
    }

    /// Returns a random number below the bound.
    pub fn below(&mut self, bound: u64) -> u64
        requires { 0 < bound }
        ensures { result < bound }
    {
        u64::from(self.0.next_u32()) % bound
    }
}
