ghost use Rattle.std.specs.Prelude.{◌≡◌, ◌≤◌, length, IfOk};
ghost use Rattle.port_base.specs.Count.{Rises};

use disk_port::Disk;
use fdo_ports::Failed;
use std::fs::{File, Files, OpenOptions};
use std::io;
use std::os::unix::fs::{FileExt, OpenOptionsExt};

/// A file as a disk. It is opened at the first call, and made where it is absent, for its owner alone; its folder is synced then,
/// so that its name lasts too. It does not tell its bytes.
#[derive(Drop)]
pub struct FileDisk<'r, R> {
    system: &'r R,
    folder: &'r str,
    path: &'r str,
    file: Option<File>,
    faults: u64,
}

impl<'r, R: Files<File = File>> FileDisk<'r, R> {
    /// The file at a path, which stands in a folder.
    pub fn new(system: &'r R, folder: &'r str, path: &'r str) -> FileDisk<'r, R>
        ensures { result.faults ≡ 0 }
    {
        FileDisk {
            system,
            folder,
            path,
            file: None,
            faults: 0,
        }
    }

    fn read_from(&mut self, at: u64, into: &mut [u8]) -> io::Result<usize>
        ensures within { IfOk result (λ n. n ≤ length into.new) }
        ensures faults { self.new.faults ≡ self.old.faults }
    {
        let file = opened(&mut self.file, self.system, self.folder, self.path)?;
        read_front(file, at, into)
    }

    fn write_to(&mut self, at: u64, piece: &[u8]) -> io::Result<()>
        ensures { self.new.faults ≡ self.old.faults }
    {
        let file = opened(&mut self.file, self.system, self.folder, self.path)?;
        file.write_all_at(piece, at)
    }

    fn sync_file(&mut self) -> io::Result<()>
        ensures { self.new.faults ≡ self.old.faults }
    {
        let file = opened(&mut self.file, self.system, self.folder, self.path)?;
        file.sync_all()
    }

    fn length(&mut self) -> io::Result<u64>
        ensures { self.new.faults ≡ self.old.faults }
    {
        let file = opened(&mut self.file, self.system, self.folder, self.path)?;
        Ok(file.metadata()?.len())
    }

    /// A call failed. The count stands still at 2^64 - 1.
    fn raise(&mut self) -> Failed
        ensures { Rises self.old.faults self.new.faults }
    {
        self.faults = self.faults.saturating_add(1);
        Failed
    }
}

/// The open file.
fn opened<'f, R: Files<File = File>>(
    file: &'f mut Option<File>,
    system: &R,
    folder: &str,
    path: &str,
) -> io::Result<&'f File> {
    if file.is_none() {
        *file = Some(open(system, folder, path)?);
    }
    match file {
        Some(file) => Ok(file),
        None => Err(io::Error::from(io::ErrorKind::NotFound)),
    }
}

/// Opens a file, or makes it, and syncs the folder.
fn open<R: Files<File = File>>(system: &R, folder: &str, path: &str) -> io::Result<File> {
    let file = OpenOptions::new()
        .read(true)
        .write(true)
        .create(true)
        .mode(0o600)
        .open(system, path)?;
    File::open(system, folder)?.sync_all()?;
    Ok(file)
}

/// Reads from an offset until the buffer is full or the file ends.
fn read_front(file: &File, at: u64, into: &mut [u8]) -> io::Result<usize>
    ensures { IfOk result (λ n. n ≤ length into.new) }
{
    let mut count = 0;
    while count < into.len() {
        let taken = file.read_at(into.split_at_mut(count).1, at.wrapping_add(count as u64))?;
        if taken == 0 {
            return Ok(count);
        }
        count += taken;
    }
    Ok(count)
}

impl<'r, R: Files<File = File>> Disk for FileDisk<'r, R> {
    ghost use Rattle.std.specs.Prelude.{None};

    ghost told = { λ _. None };

    ghost faults = { λ d. d.faults };

    ghost object = { λ _. 0 };

    fn read_at(&mut self, at: u64, into: &mut [u8]) -> Result<usize, Failed> {
        match self.read_from(at, into) {
            Ok(count) => Ok(count),
            Err(_) => Err(self.raise()),
        }
    }

    fn write_at(&mut self, at: u64, piece: &[u8]) -> Result<(), Failed> {
        match self.write_to(at, piece) {
            Ok(()) => Ok(()),
            Err(_) => Err(self.raise()),
        }
    }

    fn sync(&mut self) -> Result<(), Failed> {
        match self.sync_file() {
            Ok(()) => Ok(()),
            Err(_) => Err(self.raise()),
        }
    }

    fn len(&mut self) -> Result<u64, Failed> {
        match self.length() {
            Ok(length) => Ok(length),
            Err(_) => Err(self.raise()),
        }
    }
}
