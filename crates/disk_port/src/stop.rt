ghost use Rattle.std.specs.Prelude.{◌≡◌};
ghost use Rattle.disk_port.specs.Picked.{has_come};
ghost use Rattle.disk_port.specs.Turn.{nearer, turn_of, stop_in, goes_unless};

use crate::bytes::Bytes;
use crate::stops::Pick;

/// Whether a disk in memory is to be stopped.
#[derive(Debug, Drop)]
pub enum Stop {
    /// It isn't.
    Absent,
    /// At the call with this number from now on, from 1, and what it is to leave.
    In(u64, Pick),
    /// It was, and these bytes were left.
    Come(Pick, Bytes),
}

/// What comes of a call.
#[derive(Clone, Copy, Debug)]
pub enum Turn {
    /// It is done.
    Goes,
    /// It is done, but no sync, fails, and no other is done after it.
    Stops(Pick),
    /// It is not done.
    Fails,
}

impl Stop {
    /// A stop at this call from now on; none at 0.
    pub fn new(call: u64, pick: Pick) -> Stop
        ensures { result ≡ stop_in call pick }
    {
        if call == 0 {
            Stop::Absent
        } else {
            Stop::In(call, pick)
        }
    }

    /// What comes of the next call, which is to fail by its number or not, and one call less to the stop.
    pub fn turn(&mut self, fails: bool) -> Turn
        ensures turn { result ≡ turn_of self.old fails }
        ensures stop { self.new ≡ nearer self.old }
    {
        let (turn, left) = match self {
            Stop::Absent => (goes_unless(fails), None),
            Stop::In(calls, pick) if *calls <= 1 => (Turn::Stops(*pick), None),
            Stop::In(calls, pick) => (goes_unless(fails), Some(Stop::In(*calls - 1, *pick))),
            Stop::Come(_, _) => (Turn::Fails, None),
        };
        if let Some(stop) = left {
            *self = stop;
        }
        turn
    }

    /// Whether it was.
    pub fn has_come(&self) -> bool
        ensures { result ≡ has_come self.now }
    {
        match self {
            Stop::Come(_, _) => true,
            _ => false,
        }
    }
}

fn goes_unless(fails: bool) -> Turn
    ensures { result ≡ goes_unless fails }
{
    if fails { Turn::Fails } else { Turn::Goes }
}
