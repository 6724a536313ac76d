ghost use Rattle.std.specs.Prelude.{◌≡◌};
ghost use Rattle.disk_port.specs.Slots.{change_after, generation_after};

use crate::side::Side;

/// What has to be known of a file of two slots for its next change.
#[derive(Clone, Copy, Debug, PartialEq, Eq)]
pub struct NextChange {
    /// The slot that doesn't count, which is written next; the first where none does.
    pub side: Side,
    /// The generation that it gets.
    pub generation: u64,
    /// Whether its gate stands in the file and is closed.
    pub shut: bool,
    /// Whether the other slot's gate does.
    pub other_shut: bool,
}

impl NextChange {
    /// The one after it, where it is made.
    pub fn after(self) -> NextChange
        ensures { result ≡ change_after self }
    {
        NextChange {
            side: self.side.other(),
            generation: generation_after(self.generation),
            shut: self.other_shut,
            other_shut: false,
        }
    }
}

/// The generation after one: 0 after 2^64 - 1.
pub fn generation_after(generation: u64) -> u64
    ensures { result ≡ generation_after generation }
{
    if generation == u64::MAX {
        0
    } else {
        generation + 1
    }
}
