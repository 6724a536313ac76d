ghost use Rattle.std.specs.Prelude.{◌≡◌, ◌<◌, length};
ghost use Rattle.fdo_ports.specs.Count.{Counts};
ghost use Rattle.fdo_ports.specs.Told.{Writes, WritesAll};

use crate::channel::Channel;
use crate::failed::Failed;

/// A stream that bytes are written to.
pub trait Sink: Channel {
    /// Writes the first bytes of `piece`, one at least, and says how many. One that takes nothing has failed.
    fn write_some(&mut self, piece: &[u8]) -> Result<usize, Failed>
        requires { 0 < length piece.now }
        ensures bytes { Writes (Self.written self.old) (Self.written self.new) piece.now result }
        ensures faults { Counts (Self.write_faults self.old) (Self.write_faults self.new) result }
        ensures same_left { Self.left self.new ≡ Self.left self.old }
        ensures same_read_faults { Self.read_faults self.new ≡ Self.read_faults self.old };
}

/// Writes all bytes, in as many pieces as the sink takes. A sink that failed has taken a part of them from the
/// front, and lacks some at the end.
#[tactic(auto, using(crate::proofs::Grown::grown_part, crate::proofs::Grown::grown_whole))]
pub fn write_all<K: Sink>(sink: &mut K, bytes: &[u8]) -> Result<(), Failed>
    ensures bytes { WritesAll (K.Channel.written sink.old) (K.Channel.written sink.new) bytes.now result }
    ensures faults { Counts (K.Channel.write_faults sink.old) (K.Channel.write_faults sink.new) result }
    ensures same_left { K.Channel.left sink.new ≡ K.Channel.left sink.old }
    ensures same_read_faults { K.Channel.read_faults sink.new ≡ K.Channel.read_faults sink.old }
{
    let mut done = 0;
    while done < bytes.len() {
        match sink.write_some(bytes.split_at(done).1) {
            Ok(count) => done += count,
            Err(failed) => return Err(failed),
        }
    }
    Ok(())
}
