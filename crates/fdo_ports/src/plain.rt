ghost use Rattle.std.specs.Prelude.{◌≡◌, ◌<◌, Ok, length, min, drop, IfOk};
ghost use Rattle.fdo_ports.specs.Told.{Reads};

use crate::channel::Channel;
use crate::failed::Failed;
use crate::memory_source::copy_front;
use crate::sink::Sink;
use crate::source::Source;

/// A source that never fails. Its count of faults is 0.
#[derive(Debug, Drop)]
pub struct PlainSource {
    content: Vec<u8>,
    given: usize,
}

impl PlainSource {
    ghost use Rattle.fdo_ports.specs.MemoryObjects.{plain_left};

    /// The bytes to be read.
    pub fn new(content: Vec<u8>) -> PlainSource
        ensures { plain_left result ≡ content.items }
    {
        PlainSource { content, given: 0 }
    }
}

impl Channel for PlainSource {
    ghost use Rattle.std.specs.Prelude.{Some, None};
    ghost use Rattle.fdo_ports.specs.MemoryObjects.{plain_left};

    ghost left = { λ s. Some (plain_left s) };

    ghost written = { λ _. None };

    ghost read_faults = { λ _. 0 };

    ghost write_faults = { λ _. 0 };
}

impl Source for PlainSource {
    ghost use Rattle.std.specs.Prelude.{Some};
    ghost use Rattle.fdo_ports.specs.MemoryObjects.{plain_left};

    fn read(&mut self, into: &mut [u8]) -> Result<usize, Failed>
        requires { 0 < length into.old }
        ensures bytes { Reads (Some (plain_left self.old)) (Some (plain_left self.new)) into.new result }
        ensures never_fails { result ≡ Ok (min (length into.old) (length (plain_left self.old))) }
        ensures others { IfOk result (λ n. drop n into.new ≡ drop n into.old) }
    {
        if self.given >= self.content.len() {
            return Ok(0);
        }
        let count = copy_front(into, self.content.as_slice().split_at(self.given).1);
        self.given += count;
        Ok(count)
    }
}

/// A sink that takes each piece whole and never fails. It keeps no byte and tells nothing; its count is 0.
#[derive(Clone, Copy, Debug)]
pub struct PlainSink;

impl PlainSink {
    /// A sink that has taken nothing.
    pub fn new() -> PlainSink {
        PlainSink
    }
}

impl Channel for PlainSink {
    ghost use Rattle.std.specs.Prelude.{None};

    ghost left = { λ _. None };

    ghost written = { λ _. None };

    ghost read_faults = { λ _. 0 };

    ghost write_faults = { λ _. 0 };
}

impl Sink for PlainSink {
    fn write_some(&mut self, piece: &[u8]) -> Result<usize, Failed>
        ensures never_fails { result ≡ Ok (length piece.now) }
    {
        Ok(piece.len())
    }
}
