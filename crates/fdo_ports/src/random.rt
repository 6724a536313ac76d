ghost use Rattle.std.specs.Prelude.{ℕ, List, Option};
ghost use Rattle.fdo_ports.specs.Count.{Counts};
ghost use Rattle.port_base.specs.Told.{Answers};

use crate::failed::Failed;

/// A source of random draws of 16 bytes.
pub trait Random {
    /// The draws given so far, where the object tells them.
    ghost draws: { Self → Option (List (List ℕ)) };

    /// How many draws have failed, at most 2^64 - 1.
    ghost faults: { Self → ℕ };

    /// Draws the next 16 bytes.
    fn draw16(&mut self) -> Result<[u8; 16], Failed>
        ensures drawn { Answers (draws self.old) (draws self.new) result }
        ensures faults { Counts (faults self.old) (faults self.new) result };
}
