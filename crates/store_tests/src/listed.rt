//! A disk that writes its calls down.
ghost use Rattle.std.specs.Prelude.{◌≡◌};

use disk_port::Disk;
use fdo_ports::Failed;

/// A call of a disk.
#[derive(Clone, Copy, Debug, PartialEq, Eq)]
pub(crate) enum Call {
    Length,
    /// So many bytes from an offset on.
    Read(u64, usize),
    /// So many bytes at an offset, of which the first is this one.
    Write(u64, usize, u8),
    Sync,
}

/// A disk and its calls, as far as there was memory for them.
#[derive(Drop)]
pub(crate) struct Listed<D: Disk> {
    disk: D,
    calls: Vec<Call>,
}

impl<D: Disk> Listed<D> {
    pub(crate) fn new(disk: D, calls: Vec<Call>) -> Listed<D> {
        Listed { disk, calls }
    }

    pub(crate) fn calls(&self) -> &[Call] {
        self.calls.as_slice()
    }

    pub(crate) fn inner(&self) -> &D {
        &self.disk
    }

    fn note(&mut self, call: Call)
        ensures { self.new.disk ≡ self.old.disk }
    {
        let _listed = self.calls.push(call);
    }
}

impl<D: Disk> Disk for Listed<D> {
    ghost told = { λ l. D.told l.disk };

    ghost faults = { λ l. D.faults l.disk };

    ghost object = { λ l. D.object l.disk };

    fn read_at(&mut self, at: u64, into: &mut [u8]) -> Result<usize, Failed> {
        self.note(Call::Read(at, into.len()));
        self.disk.read_at(at, into)
    }

    fn write_at(&mut self, at: u64, piece: &[u8]) -> Result<(), Failed> {
        self.note(Call::Write(at, piece.len(), piece[0]));
        self.disk.write_at(at, piece)
    }

    fn sync(&mut self) -> Result<(), Failed> {
        self.note(Call::Sync);
        self.disk.sync()
    }

    fn len(&mut self) -> Result<u64, Failed> {
        self.note(Call::Length);
        self.disk.len()
    }
}
