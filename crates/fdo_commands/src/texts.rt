ghost use Rattle.std.specs.Prelude.{◌≡◌};
ghost use Rattle.fdo_ports.specs.Stream.{OnlyWritten, stream};
ghost use Rattle.fdo_commands.specs.Texts.{InputFails, WritesFound, WritesTold};

use crate::fault_line::{end_with, end_with_place};
use crate::input::InputFault;
use crate::status::Status;
use cbor_core::{Blob, NoMemory};
use fdo_ports::{Sink, write_all};

/// What a command that writes one text for its whole input tells of it.
#[derive(Debug, Drop)]
pub(crate) enum Told {
    /// The text.
    Text(Blob),
    /// The line of a refusal.
    Refused(Blob),
    /// The input is not of the command's form, at this byte.
    Wrong(usize),
}

/// Writes what is told of the input, and says how the command ended.
pub(crate) fn end_found<O: Sink>(output: &mut O, found: Result<Told, NoMemory>) -> Status
    ensures found { WritesFound found (stream O.Channel output.old) (stream O.Channel output.new) result }
    ensures output { OnlyWritten (stream O.Channel output.old) (stream O.Channel output.new) }
{
    match found {
        Ok(told) => end_told(output, told),
        Err(_) => Status::NoMemory,
    }
}

fn end_told<O: Sink>(output: &mut O, told: Told) -> Status
    ensures told { WritesTold told (stream O.Channel output.old) (stream O.Channel output.new) result }
    ensures output { OnlyWritten (stream O.Channel output.old) (stream O.Channel output.new) }
{
    match told {
        Told::Text(text) => match write_all(output, text.as_list()) {
            Ok(()) => Status::Done,
            Err(_) => Status::Write,
        },
        Told::Refused(line) => {
            end_with(output, line.as_list());
            Status::Refused
        }
        Told::Wrong(place) => {
            end_with_place(output, place);
            Status::Input
        }
    }
}

/// Writes the last line for an input that is not read to its end, and says how the command ended.
pub(crate) fn end_unread<O: Sink>(output: &mut O, fault: InputFault) -> Status
    ensures fails { InputFails fault (stream O.Channel output.old) (stream O.Channel output.new) result }
    ensures output { OnlyWritten (stream O.Channel output.old) (stream O.Channel output.new) }
{
    match fault {
        InputFault::Read => {
            end_with(output, b"fault read\n");
            Status::Read
        }
        InputFault::Limit => {
            end_with(output, b"fault limit\n");
            Status::Limit
        }
        InputFault::NoMemory => Status::NoMemory,
    }
}
