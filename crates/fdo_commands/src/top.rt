ghost use Rattle.std.specs.Prelude.{◌≡◌, IfSome};
ghost use Rattle.fdo_ports.specs.Draw.{drawn};
ghost use Rattle.fdo_ports.specs.Stream.{OnlyRead, OnlyWritten, stream};
ghost use Rattle.suite_port.specs.Keys.{keys};
ghost use Rattle.fdo_rules.specs.Rendezvous.{RvView};
ghost use Rattle.end_checks.specs.Checking.{checking};
ghost use Rattle.rendezvous.specs.Carrying.{rv_view};
ghost use Rattle.rendezvous.specs.RvState.{clocked, outside as rv_outside, rv_state, suited};
ghost use Rattle.fdo_commands.specs.declared.status.Status.TheVariants as status;
ghost use Rattle.fdo_commands.specs.Commands.{Unloadable, command_said};
ghost use Rattle.fdo_commands.specs.Ending.{Ends, lent};
ghost use Rattle.fdo_commands.specs.Outside.{outside, signing};
ghost use Rattle.fdo_commands.specs.Ran.{Outcome, Ran, RanWords, no_view, rendezvous};

use crate::command::Command;
use crate::extending::voucher_extend;
use crate::fault_line::end_with;
use crate::status::Status;
use crate::step::step;
use crate::vouchers::{voucher_check, voucher_show};
use cbor_core::Text;
use fdo_ports::{Clock, Random, Sink, Source};
use rendezvous::{RvHandler, Server};
use std::alloc::Global;
use suite_port::Suite;

/// Runs the command that the words name over these objects of the environment, and says how it ended.
pub fn fdo<I: Source, O: Sink, S: Suite, N: Random, C: Clock>(
    alloc: Global,
    words: &[Text],
    input: &mut I,
    output: &mut O,
    suite: &mut S,
    random: &mut N,
    clock: &mut C,
) -> Status
    // The command that the words name did its work (`Ran`). Where they name none, the status is 2 with its last line, or 7
    // for `voucher extend` with two words more, and nothing is read, loaded or drawn.
    // Messages (`Ends`): with 0 and 11 the whole input was read and is the lines of some messages, and what was written is
    // the lines of the role's answers, each by one step in order; with 11 an answer blames an object, and the last line
    // names the first one blamed. With 3 nothing is answered, and the last line has the place of the first wrong line.
    // With 5 a proper front of the answers' lines was written. With 7 nothing is done, or the first messages are answered.
    // A voucher (`TextEnds`, `ExtendEnds`): with 0 the whole input was read and the text or the longer voucher written,
    // with 5 a proper front of it, with 9 the line of the refusal, with 3 the place of the fault; with 7 nothing. To
    // extend one, PRIVATE is loaded first: with 2 it is no key of the suite, with 11 the signer failed, and nothing is read.
    // With 4 the input failed and with 8 it is too long: there is a last line, and nothing is answered or told.
    // What is asked of the suite, where it tells that: to check, each entry's signature once, in order, up to the first
    // break; to extend, to load PRIVATE once, and then one signature over the new entry, or none where it is refused.
    ensures ran { RanWords (signing S.Verifier.verifies S.Signer.algorithm S.Signer.loads S.CertReader.key_in) words.now
        (outside (stream I.Channel input.old) (stream O.Channel output.old)
        (keys S.Holder suite.old) (drawn N.Random random.old) (clocked C.Clock clock.old))
        (outside (stream I.Channel input.new) (stream O.Channel output.new)
        (keys S.Holder suite.new) (drawn N.Random random.new) (clocked C.Clock clock.new))
        result }
    // Status 2 at words that name a command: its private key is none of the suite's.
    ensures words { result ≡ status.Words → IfSome (command_said words.now) (Unloadable S.Signer.loads) }
    // With 0 no call on any object failed; with 4 a read, with 5 a write, with 11 a draw, the clock or the signer did. The keys that
    // the suite held are held still, nothing is written to the input, and nothing is read from the output.
    ensures outcome { Outcome
        (outside (stream I.Channel input.old) (stream O.Channel output.old)
        (keys S.Holder suite.old) (drawn N.Random random.old) (clocked C.Clock clock.old))
        (outside (stream I.Channel input.new) (stream O.Channel output.new)
        (keys S.Holder suite.new) (drawn N.Random random.new) (clocked C.Clock clock.new))
        result }
{
    match Command::of(alloc, words) {
        Ok(Some(command)) => run(alloc, command, input, output, suite, random, clock),
        Ok(None) => {
            end_with(output, b"fault words\n");
            Status::Words
        }
        Err(_) => Status::NoMemory,
    }
}

/// Runs a command over these objects of the environment.
fn run<I: Source, O: Sink, S: Suite, N: Random, C: Clock>(
    alloc: Global,
    command: Command,
    input: &mut I,
    output: &mut O,
    suite: &mut S,
    random: &mut N,
    clock: &mut C,
) -> Status
    ensures ran { Ran (signing S.Verifier.verifies S.Signer.algorithm S.Signer.loads S.CertReader.key_in) command
        (outside (stream I.Channel input.old) (stream O.Channel output.old)
        (keys S.Holder suite.old) (drawn N.Random random.old) (clocked C.Clock clock.old))
        (outside (stream I.Channel input.new) (stream O.Channel output.new)
        (keys S.Holder suite.new) (drawn N.Random random.new) (clocked C.Clock clock.new))
        result }
    ensures input { OnlyRead (stream I.Channel input.old) (stream I.Channel input.new) }
    ensures output { OnlyWritten (stream O.Channel output.old) (stream O.Channel output.new) }
{
    match command {
        Command::StepRendezvous => { step_rendezvous(alloc, input, output, suite, random, clock) }
        Command::VoucherShow => voucher_show(alloc, input, output),
        Command::VoucherCheck => voucher_check(alloc, input, output, suite),
        Command::VoucherExtend(next, private) => {
            voucher_extend(alloc, &next, private.as_list(), input, output, suite)
        }
    }
}

/// Answers messages, a line each, as the rendezvous server.
fn step_rendezvous<I: Source, O: Sink, S: Suite, N: Random, C: Clock>(
    alloc: Global,
    input: &mut I,
    output: &mut O,
    suite: &mut S,
    random: &mut N,
    clock: &mut C,
) -> Status
    ensures ends { (view : RvView) × Ends (rendezvous (checking S.Verifier.verifies S.Signer.algorithm S.CertReader.key_in))
        (lent (rv_state no_view (rv_outside (drawn N.Random random.old) (clocked C.Clock clock.old)) (suited S.Holder suite.old)) (stream I.Channel input.old) (stream O.Channel output.old))
        (lent (rv_state view (rv_outside (drawn N.Random random.new) (clocked C.Clock clock.new)) (suited S.Holder suite.new)) (stream I.Channel input.new) (stream O.Channel output.new))
        result }
    ensures input { OnlyRead (stream I.Channel input.old) (stream I.Channel input.new) }
    ensures output { OnlyWritten (stream O.Channel output.old) (stream O.Channel output.new) }
{
    let Ok(mut server) = Server::new(alloc) else {
        return Status::NoMemory;
    };
    let ending = serve(alloc, &mut server, input, output, suite, random, clock);
    drop(server);
    ending
}

/// The same with the server.
fn serve<I: Source, O: Sink, S: Suite, N: Random, C: Clock>(
    alloc: Global,
    server: &mut Server,
    input: &mut I,
    output: &mut O,
    suite: &mut S,
    random: &mut N,
    clock: &mut C,
) -> Status
    ensures ends { Ends (rendezvous (checking S.Verifier.verifies S.Signer.algorithm S.CertReader.key_in))
        (lent (rv_state (rv_view server.old) (rv_outside (drawn N.Random random.old) (clocked C.Clock clock.old)) (suited S.Holder suite.old)) (stream I.Channel input.old) (stream O.Channel output.old))
        (lent (rv_state (rv_view server.new) (rv_outside (drawn N.Random random.new) (clocked C.Clock clock.new)) (suited S.Holder suite.new)) (stream I.Channel input.new) (stream O.Channel output.new))
        result }
    ensures input { OnlyRead (stream I.Channel input.old) (stream I.Channel input.new) }
    ensures output { OnlyWritten (stream O.Channel output.old) (stream O.Channel output.new) }
{
    let mut handler = RvHandler {
        server,
        suite,
        random,
        clock,
    };
    let ending = step_handler(alloc, &mut handler, input, output);
    let RvHandler {
        server: _,
        suite: _,
        random: _,
        clock: _,
    } = handler;
    ending
}

/// The same with the server and its objects in one.
fn step_handler<'a, 'b, 'c, 'd, I: Source, O: Sink, S: Suite, N: Random, C: Clock>(
    alloc: Global,
    handler: &mut RvHandler<'a, 'b, 'c, 'd, S, N, C>,
    input: &mut I,
    output: &mut O,
) -> Status
    ensures ends { Ends (rendezvous (checking S.Verifier.verifies S.Signer.algorithm S.CertReader.key_in))
        (lent (rv_state (rv_view handler.old.server.now) (rv_outside (drawn N.Random handler.old.random.now) (clocked C.Clock handler.old.clock.now)) (suited S.Holder handler.old.suite.now)) (stream I.Channel input.old) (stream O.Channel output.old))
        (lent (rv_state (rv_view handler.new.server.now) (rv_outside (drawn N.Random handler.new.random.now) (clocked C.Clock handler.new.clock.now)) (suited S.Holder handler.new.suite.now)) (stream I.Channel input.new) (stream O.Channel output.new))
        result }
    ensures same_server { handler.new.server.ghost_name ≡ handler.old.server.ghost_name }
    ensures same_suite { handler.new.suite.ghost_name ≡ handler.old.suite.ghost_name }
    ensures same_random { handler.new.random.ghost_name ≡ handler.old.random.ghost_name }
    ensures same_clock { handler.new.clock.ghost_name ≡ handler.old.clock.ghost_name }
    ensures input { OnlyRead (stream I.Channel input.old) (stream I.Channel input.new) }
    ensures output { OnlyWritten (stream O.Channel output.old) (stream O.Channel output.new) }
{
    step(alloc, handler, input, output)
}
