ghost use Rattle.std.specs.Prelude.{◌≡◌, ◌<◌, length};
ghost use Rattle.fdo_ports.specs.Count.{Counts};
ghost use Rattle.fdo_ports.specs.Told.{Reads};

use crate::channel::Channel;
use crate::failed::Failed;

/// A stream of bytes to be read.
pub trait Source: Channel {
    /// Reads the next bytes into the front of `into` and says how many; 0 means the end.
    fn read(&mut self, into: &mut [u8]) -> Result<usize, Failed>
        requires { 0 < length into.old }
        ensures bytes { Reads (Self.left self.old) (Self.left self.new) into.new result }
        ensures faults { Counts (Self.read_faults self.old) (Self.read_faults self.new) result }
        ensures same_written { Self.written self.new ≡ Self.written self.old }
        ensures same_write_faults { Self.write_faults self.new ≡ Self.write_faults self.old };
}
