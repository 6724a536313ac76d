ghost use Rattle.fdo_ports.specs.Draw.{drawn};
ghost use Rattle.fdo_ports.specs.Stream.{stream};
ghost use Rattle.suite_port.specs.Keys.{keys};
ghost use Rattle.rendezvous.specs.RvState.{clocked};
ghost use Rattle.fdo_commands.specs.Outside.{outside, signing};
ghost use Rattle.fdo_commands.specs.Ran.{Outcome};
ghost use Rattle.fdo_program.specs.OwnRun.{RanProgram};

use crate::own_word::OwnWord;
use cbor_core::Text;
use fdo_commands::{Status, fdo};
use fdo_ports::{Clock, Random, Sink, Source};
use std::alloc::Global;
use suite_port::Suite;

/// Answers the program's own words, and hands all others to the top call.
pub fn answer<I: Source, O: Sink, S: Suite, N: Random, C: Clock>(
    alloc: Global,
    words: &[Text],
    input: &mut I,
    output: &mut O,
    suite: &mut S,
    random: &mut N,
    clock: &mut C,
) -> Status
    // An own word has its text written, whole with 0 and a proper front of it with 5, and nothing is read, loaded or drawn.
    // All other words go to the top call, and what it says (`ran`, `words`) holds.
    ensures ran { RanProgram (signing S.Verifier.verifies S.Signer.algorithm S.Signer.loads S.CertReader.key_in) words.now
        (outside (stream I.Channel input.old) (stream O.Channel output.old)
        (keys S.Holder suite.old) (drawn N.Random random.old) (clocked C.Clock clock.old))
        (outside (stream I.Channel input.new) (stream O.Channel output.new)
        (keys S.Holder suite.new) (drawn N.Random random.new) (clocked C.Clock clock.new))
        result }
    // With 0 no call on any object failed; with 4 a read, with 5 a write, with 11 a draw, the clock or the signer did. The keys that
    // the suite held are held still, nothing is written to the input, and nothing is read from the output.
    ensures outcome { Outcome
        (outside (stream I.Channel input.old) (stream O.Channel output.old)
        (keys S.Holder suite.old) (drawn N.Random random.old) (clocked C.Clock clock.old))
        (outside (stream I.Channel input.new) (stream O.Channel output.new)
        (keys S.Holder suite.new) (drawn N.Random random.new) (clocked C.Clock clock.new))
        result }
{
    match OwnWord::of(words) {
        Some(word) => match word.answer(output) {
            Ok(()) => Status::Done,
            Err(_) => Status::Write,
        },
        None => fdo(alloc, words, input, output, suite, random, clock),
    }
}
