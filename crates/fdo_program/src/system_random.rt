ghost use Rattle.std.specs.Prelude.{◌≡◌};

use crate::faults::Faults;
use fdo_ports::{Failed, Random};
use std::random::RandomSource;

/// Random bytes of the system. It doesn't tell its draws.
#[derive(Debug, Drop)]
pub struct SystemRandom<R> {
    system: R,
    faults: Faults,
}

impl<R: RandomSource> SystemRandom<R> {
    /// No draw failed yet.
    pub fn new(system: R) -> SystemRandom<R>
        ensures system { result.system ≡ system }
        ensures faults { result.faults.count ≡ 0 }
    {
        SystemRandom {
            system,
            faults: Faults::new(),
        }
    }
}

impl<R: RandomSource> Random for SystemRandom<R> {
    ghost use Rattle.std.specs.Prelude.{None};

    ghost draws = { λ _. None };

    ghost faults = { λ r. r.faults.count };

    fn draw16(&mut self) -> Result<[u8; 16], Failed> {
        let mut draw = [0; 16];
        match self.system.fill_bytes(&mut draw) {
            Ok(()) => Ok(draw),
            Err(_) => Err(self.faults.raise()),
        }
    }
}
