ghost use Rattle.std.specs.Prelude.{◌≡◌, ◌<◌, ℕ, Option, length};
ghost use Rattle.fdo_ports.specs.Count.{Counts};
ghost use Rattle.disk_port.specs.Story.{Story};
ghost use Rattle.disk_port.specs.Told.{Told, Writes, Syncs, ReadsAt, TellsLength};

use fdo_ports::Failed;

/// One file on a disk, whose power may go at any moment.
pub trait Disk {
    /// The bytes that stood on it at first and the writes and syncs since, where the object tells them.
    ghost told: { Self → Option Story };

    /// How many calls have failed, at most 2^64 - 1.
    ghost faults: { Self → ℕ };

    /// Which object it is, where it is lent.
    ghost object: { Self → ℕ };

    /// Copies bytes from offset `at` on to the front of `into`, as many as stand there and fit, and says how many.
    fn read_at(&mut self, at: u64, into: &mut [u8]) -> Result<usize, Failed>
        ensures bytes { ReadsAt at into.old into.new result (told self.old) }
        ensures told { told self.new ≡ told self.old }
        ensures faults { Counts (faults self.old) (faults self.new) result }
        ensures object { object self.new ≡ object self.old };

    /// Writes a piece at offset `at`. Bytes between the old end and `at` are 0 then.
    fn write_at(&mut self, at: u64, piece: &[u8]) -> Result<(), Failed>
        requires { 0 < length piece.now }
        ensures told { Told (Writes at piece.now result) (told self.old) (told self.new) }
        ensures faults { Counts (faults self.old) (faults self.new) result }
        ensures object { object self.new ≡ object self.old };

    /// Makes what is read the only bytes that a crash leaves.
    fn sync(&mut self) -> Result<(), Failed>
        ensures told { Told (Syncs result) (told self.old) (told self.new) }
        ensures faults { Counts (faults self.old) (faults self.new) result }
        ensures object { object self.new ≡ object self.old };

    /// The number of bytes.
    fn len(&mut self) -> Result<u64, Failed>
        ensures length { TellsLength result (told self.old) }
        ensures told { told self.new ≡ told self.old }
        ensures faults { Counts (faults self.old) (faults self.new) result }
        ensures object { object self.new ≡ object self.old };
}

/// A disk that is lent.
impl<D: Disk> Disk for &mut D {
    ghost told = { λ d. D.told d.now };

    ghost faults = { λ d. D.faults d.now };

    ghost object = { λ d. d.ghost_name };

    fn read_at(&mut self, at: u64, into: &mut [u8]) -> Result<usize, Failed> {
        (**self).read_at(at, into)
    }

    fn write_at(&mut self, at: u64, piece: &[u8]) -> Result<(), Failed> {
        (**self).write_at(at, piece)
    }

    fn sync(&mut self) -> Result<(), Failed> {
        (**self).sync()
    }

    fn len(&mut self) -> Result<u64, Failed> {
        (**self).len()
    }
}
