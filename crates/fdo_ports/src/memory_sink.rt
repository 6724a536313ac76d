ghost use Rattle.std.specs.Prelude.{◌≡◌, ◌<◌, length, IsTrue, IsErr, IfOk, OnErr, is_err, false};
ghost use Rattle.fdo_ports.specs.Count.{Counts};
ghost use Rattle.fdo_ports.specs.Told.{Writes};

use crate::channel::Channel;
use crate::failed::Failed;
use crate::sink::Sink;
use port_base::Calls;

/// A sink that keeps what was written. Where it finds no memory for a piece, the write fails.
#[derive(Debug, Drop)]
pub struct MemorySink {
    content: Vec<u8>,
    calls: Calls,
}

impl MemorySink {
    ghost use Rattle.fdo_ports.specs.MemoryObjects.{bytes_written, sink_calls};
    ghost use Rattle.port_base.specs.Scheduled.{no_calls};

    /// What counts as written before, and the numbers, from 1, of the writes that fail.
    pub fn new(content: Vec<u8>, fail: Vec<u64>) -> MemorySink
        ensures written { bytes_written result ≡ content.items }
        ensures calls { sink_calls result ≡ no_calls fail }
    {
        MemorySink {
            content,
            calls: Calls::new(fail),
        }
    }

    /// What was written, beginning with the content that it was made with.
    pub fn written(&self) -> &[u8]
        ensures { result.now ≡ bytes_written self.now }
    {
        self.content.as_slice()
    }
}

impl Channel for MemorySink {
    ghost use Rattle.std.specs.Prelude.{Some, None};
    ghost use Rattle.fdo_ports.specs.MemoryObjects.{bytes_written, sink_calls};
    ghost use Rattle.port_base.specs.Scheduled.{faults_of};

    ghost left = { λ _. None };

    ghost written = { λ s. Some (bytes_written s) };

    ghost read_faults = { λ _. 0 };

    ghost write_faults = { λ s. faults_of (sink_calls s) };
}

impl Sink for MemorySink {
    ghost use Rattle.std.specs.Prelude.{Some};
    ghost use Rattle.fdo_ports.specs.MemoryObjects.{bytes_written, sink_calls, IsFull};
    ghost use Rattle.port_base.specs.Scheduled.{fails_next, after_call, faults_of};

    fn write_some(&mut self, piece: &[u8]) -> Result<usize, Failed>
        requires { 0 < length piece.now }
        ensures bytes { Writes (Some (bytes_written self.old)) (Some (bytes_written self.new)) piece.now result }
        ensures faults { Counts (faults_of (sink_calls self.old)) (faults_of (sink_calls self.new)) result }
        ensures whole { IfOk result (λ n. n ≡ length piece.now) }
        // it fails where its number is listed, and else only where memory was wanted and refused
        ensures fails { IsTrue (fails_next (sink_calls self.old)) → IsErr result }
        ensures full { OnErr result (fails_next (sink_calls self.old) ≡ false → IsFull self.old (length piece.now)) }
        ensures calls { sink_calls self.new ≡ after_call (sink_calls self.old) (is_err result) }
    {
        if self.calls.fails() {
            return Err(Failed);
        }
        if self.content.extend_from_slice(piece).is_err() {
            self.calls.raise();
            return Err(Failed);
        }
        Ok(piece.len())
    }
}
