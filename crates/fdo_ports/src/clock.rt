ghost use Rattle.std.specs.Prelude.{ℕ, List, Option};
ghost use Rattle.fdo_ports.specs.Count.{Counts};
ghost use Rattle.port_base.specs.Told.{Answers};

use crate::failed::Failed;

/// A clock of whole seconds.
pub trait Clock {
    /// The seconds answered so far, where the object tells them.
    ghost answered: { Self → Option (List ℕ) };

    /// How many calls have failed, at most 2^64 - 1.
    ghost faults: { Self → ℕ };

    /// The present second, counted from 1970-01-01 00:00:00 UTC.
    fn now(&mut self) -> Result<u64, Failed>
        ensures answered { Answers (answered self.old) (answered self.new) result }
        ensures faults { Counts (faults self.old) (faults self.new) result };
}
