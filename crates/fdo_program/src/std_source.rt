ghost use Rattle.std.specs.Prelude.{◌≡◌};

use crate::faults::Faults;
use fdo_ports::{Channel, Failed, Source};
use std::io::Read;

/// A reader of std as a source, as standard input is. It doesn't tell its bytes.
#[derive(Debug, Drop)]
pub struct StdSource<R> {
    reader: R,
    faults: Faults,
}

impl<R: Read> StdSource<R> {
    /// No read failed yet.
    pub fn new(reader: R) -> StdSource<R>
        ensures reader { result.reader ≡ reader }
        ensures faults { result.faults.count ≡ 0 }
    {
        StdSource {
            reader,
            faults: Faults::new(),
        }
    }
}

impl<R: Read> Channel for StdSource<R> {
    ghost use Rattle.std.specs.Prelude.{None};

    ghost left = { λ _. None };

    ghost written = { λ _. None };

    ghost read_faults = { λ s. s.faults.count };

    ghost write_faults = { λ _. 0 };
}

impl<R: Read> Source for StdSource<R> {
    ghost use Rattle.std.specs.Prelude.{None};
    ghost use Rattle.std.specs.Io.KnownBytes.{ReadConsumes};
    ghost use Rattle.fdo_ports.specs.Count.{Counts};
    ghost use Rattle.fdo_ports.specs.Told.{Reads};

    /// Where std knows what the reader has left, these bytes are passed on, and none are lost.
    fn read(&mut self, into: &mut [u8]) -> Result<usize, Failed>
        ensures passes { ReadConsumes (R.remaining self.old.reader) (R.remaining self.new.reader) result into.new }
        ensures bytes { Reads None None into.new result }
        ensures faults { Counts self.old.faults.count self.new.faults.count result }
    {
        match self.reader.read(into) {
            Ok(count) => Ok(count),
            Err(_) => Err(self.faults.raise()),
        }
    }
}
