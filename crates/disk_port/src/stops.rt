ghost use Rattle.std.specs.Prelude.{◌≡◌};

use crate::disk::Disk;

/// What a stop leaves of the writes since the last sync.
#[derive(Clone, Copy, Debug, PartialEq, Eq)]
pub enum Pick {
    /// Nothing.
    None,
    /// All.
    All,
    /// This byte in the place of each that was written.
    Byte(u8),
}

/// A disk that can be stopped.
pub trait Stops: Disk {
    /// Makes the `call`-th call from now on, counted from 1, take effect without a sync and fail, and every later call
    /// fail. 0 takes back a stop that has not come.
    fn stop_at(&mut self, call: u64, pick: Pick)
        ensures told { Self.told self.new ≡ Self.told self.old }
        ensures faults { Self.faults self.new ≡ Self.faults self.old }
        ensures object { Self.object self.new ≡ Self.object self.old };
}

/// A disk that is lent.
impl<D: Stops> Stops for &mut D {
    fn stop_at(&mut self, call: u64, pick: Pick) {
        (**self).stop_at(call, pick)
    }
}
