ghost use Rattle.std.specs.Prelude.{◌≡◌};
ghost use Rattle.fdo_ports.specs.Stream.{OnlyRead, OnlyWritten, stream};
ghost use Rattle.fdo_commands.specs.Answering.{role, stage};
ghost use Rattle.fdo_commands.specs.Ending.{AnswersBytes, Ends, lent};

use crate::answers::{Stop, answer_all};
use crate::fault_line::{end_with, end_with_place, object_line};
use crate::input::read_input;
use crate::lines::{LinesFault, read_lines};
use crate::status::Status;
use crate::texts::end_unread;
use fdo_msgs::Handler;
use fdo_ports::{Sink, Source};
use std::alloc::Global;

/// Reads messages, a line each, and prints the role's answers to them, a line each.
pub(crate) fn step<H: Handler, I: Source, O: Sink>(
    alloc: Global,
    handler: &mut H,
    input: &mut I,
    output: &mut O,
) -> Status
    requires { H.ready handler.old }
    ensures ends { Ends (role H.Steps H.GivesUp)
        (lent (H.state handler.old) (stream I.Channel input.old) (stream O.Channel output.old))
        (lent (H.state handler.new) (stream I.Channel input.new) (stream O.Channel output.new)) result }
    ensures ready { H.ready handler.new }
    ensures objects { H.objects handler.new ≡ H.objects handler.old }
    ensures input { OnlyRead (stream I.Channel input.old) (stream I.Channel input.new) }
    ensures output { OnlyWritten (stream O.Channel output.old) (stream O.Channel output.new) }
{
    match read_input(alloc, input) {
        Ok(bytes) => answer_bytes(alloc, handler, bytes.as_slice(), output),
        Err(fault) => end_unread(output, fault),
    }
}

/// Prints the role's answers to the messages that the bytes say, a line each.
fn answer_bytes<H: Handler, O: Sink>(
    alloc: Global,
    handler: &mut H,
    bytes: &[u8],
    output: &mut O,
) -> Status
    requires { H.ready handler.old }
    ensures answers { AnswersBytes (role H.Steps H.GivesUp) bytes.now
        (stage (H.state handler.old) (stream O.Channel output.old))
        (stage (H.state handler.new) (stream O.Channel output.new)) result }
    ensures ready { H.ready handler.new }
    ensures objects { H.objects handler.new ≡ H.objects handler.old }
    ensures output { OnlyWritten (stream O.Channel output.old) (stream O.Channel output.new) }
{
    let packets = match read_lines(alloc, bytes) {
        Ok(packets) => packets,
        Err(LinesFault::Wrong(place)) => {
            end_with_place(output, place);
            return Status::Input;
        }
        Err(LinesFault::NoMemory) => return Status::NoMemory,
    };
    match answer_all(alloc, handler, packets.as_slice(), output) {
        Ok(None) => Status::Done,
        Ok(Some(object)) => {
            end_with(output, object_line(object));
            Status::Outside
        }
        Err(Stop::Write) => Status::Write,
        Err(Stop::NoMemory) => Status::NoMemory,
    }
}
