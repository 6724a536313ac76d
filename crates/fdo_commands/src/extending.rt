ghost use Rattle.std.specs.Prelude.{◌≡◌, MatchResult};
ghost use Rattle.suite_port.specs.Keys.{keys};
ghost use Rattle.fdo_ports.specs.Stream.{OnlyRead, OnlyWritten, stream};
ghost use Rattle.fdo_commands.specs.Ending.{lent};
ghost use Rattle.fdo_commands.specs.Extending.{ExtendEnds, Unloaded};
ghost use Rattle.fdo_commands.specs.Outside.{signing};
ghost use Rattle.fdo_commands.specs.Texts.{TextEnds};
ghost use Rattle.fdo_commands.specs.Vouchers.{Extends, ExtendsFront, extending};

use crate::fault_line::end_with;
use crate::input::read_input;
use crate::status::Status;
use crate::texts::{Told, end_found, end_unread};
use crate::vouchers::refused;
use cbor_core::NoMemory;
use fdo_ports::{Sink, Source};
use key_codec::PublicKey;
use std::alloc::Global;
use suite_port::{Suite, SuiteFault};
use voucher_tool::extend_file;

/// Adds an entry for the next owner to a voucher, and writes the longer one's bytes. The private key of the last owner is
/// loaded first.
pub(crate) fn voucher_extend<I: Source, O: Sink, S: Suite>(
    alloc: Global,
    next: &PublicKey,
    private: &[u8],
    input: &mut I,
    output: &mut O,
    suite: &mut S,
) -> Status
    ensures ends { ExtendEnds (signing S.Verifier.verifies S.Signer.algorithm S.Signer.loads S.CertReader.key_in) next.now private.now
        (lent (keys S.Holder suite.old) (stream I.Channel input.old) (stream O.Channel output.old))
        (lent (keys S.Holder suite.new) (stream I.Channel input.new) (stream O.Channel output.new)) result }
    ensures input { OnlyRead (stream I.Channel input.old) (stream I.Channel input.new) }
    ensures output { OnlyWritten (stream O.Channel output.old) (stream O.Channel output.new) }
{
    match suite.load(alloc, private) {
        Ok(_key) => extend_input(alloc, next, input, output, suite),
        Err(fault) => end_unloaded(output, fault),
    }
}

/// Writes the last line for a private key that is not loaded, and says how the command ended.
fn end_unloaded<O: Sink>(output: &mut O, fault: SuiteFault) -> Status
    ensures unloaded { Unloaded fault (stream O.Channel output.old) (stream O.Channel output.new) result }
    ensures output { OnlyWritten (stream O.Channel output.old) (stream O.Channel output.new) }
{
    match fault {
        SuiteFault::NoAlgorithm => {
            end_with(output, b"fault words\n");
            Status::Words
        }
        SuiteFault::Failed => {
            end_with(output, b"fault signer\n");
            Status::Outside
        }
        SuiteFault::NoMemory => Status::NoMemory,
    }
}

fn extend_input<I: Source, O: Sink, S: Suite>(
    alloc: Global,
    next: &PublicKey,
    input: &mut I,
    output: &mut O,
    suite: &mut S,
) -> Status
    ensures ends { TextEnds (extending (signing S.Verifier.verifies S.Signer.algorithm S.Signer.loads S.CertReader.key_in) next.now)
        (lent (keys S.Holder suite.old) (stream I.Channel input.old) (stream O.Channel output.old))
        (lent (keys S.Holder suite.new) (stream I.Channel input.new) (stream O.Channel output.new)) result }
    ensures input { OnlyRead (stream I.Channel input.old) (stream I.Channel input.new) }
    ensures output { OnlyWritten (stream O.Channel output.old) (stream O.Channel output.new) }
{
    match read_input(alloc, input) {
        Ok(bytes) => {
            let found = extend_bytes(alloc, next, suite, bytes.as_slice());
            end_found(output, found)
        }
        Err(fault) => end_unread(output, fault),
    }
}

fn extend_bytes<S: Suite>(
    alloc: Global,
    next: &PublicKey,
    suite: &mut S,
    bytes: &[u8],
) -> Result<Told, NoMemory>
    ensures { MatchResult result
        (λ what. Extends (signing S.Verifier.verifies S.Signer.algorithm S.Signer.loads S.CertReader.key_in) next.now
        (keys S.Holder suite.old) bytes.now what
        (keys S.Holder suite.new))
        (λ _. ExtendsFront (keys S.Holder suite.old) bytes.now
        (keys S.Holder suite.new)) }
{
    match extend_file(alloc, suite, bytes, next) {
        Ok(longer) => Ok(Told::Text(longer)),
        Err(fault) => refused(alloc, fault),
    }
}
