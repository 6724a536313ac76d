ghost use Rattle.std.specs.Prelude.{◌≡◌};

use crate::faults::Faults;
use fdo_ports::{Channel, Failed, Sink};
use std::io::Write;

/// A writer of std as a sink, as standard output is. It doesn't tell its bytes. A writer that keeps bytes back has
/// to be flushed by whoever made it; std's standard output keeps none.
#[derive(Debug, Drop)]
pub struct StdSink<W> {
    writer: W,
    faults: Faults,
}

impl<W: Write> StdSink<W> {
    /// No write failed yet.
    pub fn new(writer: W) -> StdSink<W>
        ensures writer { result.writer ≡ writer }
        ensures faults { result.faults.count ≡ 0 }
    {
        StdSink {
            writer,
            faults: Faults::new(),
        }
    }
}

impl<W: Write> Channel for StdSink<W> {
    ghost use Rattle.std.specs.Prelude.{None};

    ghost left = { λ _. None };

    ghost written = { λ _. None };

    ghost read_faults = { λ _. 0 };

    ghost write_faults = { λ s. s.faults.count };
}

impl<W: Write> Sink for StdSink<W> {
    ghost use Rattle.std.specs.Prelude.{None};
    ghost use Rattle.std.specs.Io.KnownBytes.{WriteAppends};
    ghost use Rattle.fdo_ports.specs.Count.{Counts};
    ghost use Rattle.fdo_ports.specs.Told.{Writes};

    /// Where std knows what the writer holds, it grows by the bytes taken, and by none at a failure. A writer that
    /// takes nothing has failed.
    fn write_some(&mut self, piece: &[u8]) -> Result<usize, Failed>
        ensures passes { WriteAppends (W.contents self.old.writer) (W.contents self.new.writer) result piece.now }
        ensures bytes { Writes None None piece.now result }
        ensures faults { Counts self.old.faults.count self.new.faults.count result }
    {
        match self.writer.write(piece) {
            Ok(count) if count > 0 => Ok(count),
            _ => Err(self.faults.raise()),
        }
    }
}
