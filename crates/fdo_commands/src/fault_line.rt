ghost use Rattle.std.specs.Prelude.{◌≡◌, ◌≤◌, ◌++◌, length, codes};
ghost use Rattle.fdo_ports.specs.Stream.{OnlyWritten, stream};
ghost use Rattle.fdo_commands.specs.Answering.{fault_line as line_of};
ghost use Rattle.fdo_commands.specs.Ending.{EndsWith, wrong_input};

use arrayvec::ArrayString;
use fdo_msgs::Object;
use fdo_ports::{Sink, write_all};
use itoa::Buffer;

/// Writes the last line of a command that ended with a fault. Where the output fails, the line lacks something at
/// its end, and the status of the command stays.
pub(crate) fn end_with<O: Sink>(output: &mut O, line: &[u8])
    ensures line { EndsWith (stream O.Channel output.old) (stream O.Channel output.new) line.now }
    ensures output { OnlyWritten (stream O.Channel output.old) (stream O.Channel output.new) }
{
    let _ = write_all(output, line);
}

/// The same for an input that is not of the command's form, at this byte.
pub(crate) fn end_with_place<O: Sink>(output: &mut O, place: usize)
    ensures line { EndsWith (stream O.Channel output.old) (stream O.Channel output.new) (wrong_input place) }
    ensures output { OnlyWritten (stream O.Channel output.old) (stream O.Channel output.new) }
{
    let mut number = Buffer::new();
    let line = wrong_input_line(number.format(place));
    end_with(output, line.as_str().as_bytes());
}

/// That line, with the place's digits.
fn wrong_input_line(digits: &str) -> ArrayString<40>
    requires { length digits.now ≤ 20 }
    ensures { result.bytes ≡ codes "fault input " ++ digits.now ++ codes "\n" }
{
    let mut line = ArrayString::new();
    line.push_str("fault input ");
    line.push_str(digits);
    line.push_str("\n");
    line
}

/// The last line of a command for which an object of the environment failed.
pub(crate) fn object_line(object: Object) -> &'static [u8]
    ensures { result.now ≡ line_of object }
{
    match object {
        Object::Signer => b"fault signer\n",
        Object::Random => b"fault random\n",
        Object::Clock => b"fault clock\n",
        Object::Disk => b"fault disk\n",
        Object::Shut => b"fault disk\n",
    }
}
