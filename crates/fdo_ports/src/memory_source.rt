ghost use Rattle.std.specs.Prelude.{◌≡◌, ◌<◌, length, min, take, drop, ◌++◌, MatchResult, is_err};
ghost use Rattle.fdo_ports.specs.Count.{Counts};
ghost use Rattle.fdo_ports.specs.Told.{Reads};

use crate::channel::Channel;
use crate::failed::Failed;
use crate::source::Source;
use port_base::Calls;

/// A source whose bytes stand in memory, in pieces: one read gives bytes of one piece alone.
#[derive(Debug, Drop)]
pub struct MemorySource {
    pieces: Vec<Vec<u8>>,
    piece: usize,
    at: usize,
    calls: Calls,
}

impl MemorySource {
    ghost use Rattle.fdo_ports.specs.MemoryObjects.{bytes_left, joined, pieces_left, filled, source_calls};
    ghost use Rattle.port_base.specs.Scheduled.{no_calls};

    /// The pieces in order, of which empty ones are passed over, and the numbers, from 1, of the reads that fail.
    pub fn new(content: Vec<Vec<u8>>, fail: Vec<u64>) -> MemorySource
        ensures left { bytes_left result ≡ joined content.items }
        ensures pieces { pieces_left result ≡ filled content.items }
        ensures calls { source_calls result ≡ no_calls fail }
    {
        MemorySource {
            pieces: content,
            piece: 0,
            at: 0,
            calls: Calls::new(fail),
        }
    }
}

impl Channel for MemorySource {
    ghost use Rattle.std.specs.Prelude.{Some, None};
    ghost use Rattle.fdo_ports.specs.MemoryObjects.{bytes_left, source_calls};
    ghost use Rattle.port_base.specs.Scheduled.{faults_of};

    ghost left = { λ s. Some (bytes_left s) };

    ghost written = { λ _. None };

    ghost read_faults = { λ s. faults_of (source_calls s) };

    ghost write_faults = { λ _. 0 };
}

impl Source for MemorySource {
    ghost use Rattle.std.specs.Prelude.{Some};
    ghost use Rattle.fdo_ports.specs.MemoryObjects.{bytes_left, pieces_left, TakesFront, source_calls};
    ghost use Rattle.port_base.specs.Scheduled.{fails_next, after_call, faults_of};

    fn read(&mut self, into: &mut [u8]) -> Result<usize, Failed>
        requires { 0 < length into.old }
        ensures bytes { Reads (Some (bytes_left self.old)) (Some (bytes_left self.new)) into.new result }
        ensures faults { Counts (faults_of (source_calls self.old)) (faults_of (source_calls self.new)) result }
        ensures pieces { MatchResult result (λ n. TakesFront (pieces_left self.old) (length into.old) n (pieces_left self.new)) (λ _. pieces_left self.new ≡ pieces_left self.old) }
        ensures others { MatchResult result (λ n. drop n into.new ≡ drop n into.old) (λ _. into.new ≡ into.old) }
        ensures fails { is_err result ≡ fails_next (source_calls self.old) }
        ensures calls { source_calls self.new ≡ after_call (source_calls self.old) (is_err result) }
    {
        if self.calls.fails() {
            return Err(Failed);
        }
        while self.piece < self.pieces.len() {
            let piece = &self.pieces[self.piece];
            if self.at < piece.len() {
                let count = copy_front(into, piece.as_slice().split_at(self.at).1);
                self.at += count;
                return Ok(count);
            }
            self.piece += 1;
            self.at = 0;
        }
        Ok(0)
    }
}

/// Copies as many bytes from the front of `from` to the front of `into` as both have, and says how many.
pub(crate) fn copy_front(into: &mut [u8], from: &[u8]) -> usize
    ensures count { result ≡ min (length into.old) (length from.now) }
    ensures bytes { into.new ≡ take result from.now ++ drop result into.old }
    ensures others { drop result into.new ≡ drop result into.old }
{
    let count = into.len().min(from.len());
    into[..count].copy_from_slice(from.split_at(count).0);
    count
}
