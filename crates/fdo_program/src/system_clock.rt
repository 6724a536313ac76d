ghost use Rattle.std.specs.Prelude.{◌≡◌};

use crate::faults::Faults;
use fdo_ports::{Clock, Failed};
use std::time::{Clock as TimeSource, SystemTime, UNIX_EPOCH};

/// The clock of the system. It doesn't tell its seconds.
#[derive(Debug, Drop)]
pub struct SystemClock<R> {
    system: R,
    faults: Faults,
}

impl<R: TimeSource> SystemClock<R> {
    /// No call failed yet.
    pub fn new(system: R) -> SystemClock<R>
        ensures system { result.system ≡ system }
        ensures faults { result.faults.count ≡ 0 }
    {
        SystemClock {
            system,
            faults: Faults::new(),
        }
    }
}

impl<R: TimeSource> Clock for SystemClock<R> {
    ghost use Rattle.std.specs.Prelude.{None};

    ghost answered = { λ _. None };

    ghost faults = { λ c. c.faults.count };

    fn now(&mut self) -> Result<u64, Failed> {
        match seconds(&self.system) {
            Some(seconds) => Ok(seconds),
            None => Err(self.faults.raise()),
        }
    }
}

/// The present second, where the system tells it and it is not before 1970.
fn seconds<R: TimeSource>(system: &R) -> Option<u64> {
    let now = SystemTime::now(system).ok()?;
    Some(now.duration_since(UNIX_EPOCH).ok()?.as_secs())
}
