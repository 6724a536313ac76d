ghost use Rattle.std.specs.Prelude.{◌≡◌};
ghost use Rattle.fdo_ports.specs.Stream.{OnlyRead, stream};
ghost use Rattle.fdo_commands.specs.Stream.{ReadsInput, InputCounts};

use fdo_ports::Source;
use std::alloc::Global;
use suite_port::MOST_PLAIN;

/// The most bytes that the input of a command has: as many as a text has that is sealed.
pub const MOST_INPUT_BYTES: usize = MOST_PLAIN;

/// Why the input is not read to its end.
#[derive(Clone, Copy, Debug, PartialEq, Eq)]
pub(crate) enum InputFault {
    /// The input failed.
    Read,
    /// It has more than the most bytes.
    Limit,
    NoMemory,
}

/// All bytes of the input to its end, where they are no more than the most.
#[tactic(auto, using(crate::proofs::BytesTaken::took_nothing, crate::proofs::BytesTaken::took_more))]
pub(crate) fn read_input<I: Source>(alloc: Global, input: &mut I) -> Result<Vec<u8>, InputFault>
    ensures bytes { ReadsInput (I.Channel.left input.old) (I.Channel.left input.new) result }
    ensures faults { InputCounts (I.Channel.read_faults input.old) (I.Channel.read_faults input.new) result }
    ensures input { OnlyRead (stream I.Channel input.old) (stream I.Channel input.new) }
{
    let mut all = Vec::new(alloc);
    let mut buffer = [0; 16384];
    while all.len() <= MOST_INPUT_BYTES {
        match input.read(&mut buffer) {
            Ok(0) => return Ok(all),
            Ok(count) => {
                if all.extend_from_slice(buffer.split_at(count).0).is_err() {
                    return Err(InputFault::NoMemory);
                }
            }
            Err(_) => return Err(InputFault::Read),
        }
    }
    Err(InputFault::Limit)
}
