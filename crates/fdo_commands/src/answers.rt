ghost use Rattle.std.specs.Prelude.{◌≡◌, IfOk, drop};
ghost use Rattle.fdo_ports.specs.Stream.{OnlyWritten, stream};
ghost use Rattle.fdo_commands.specs.Answering.{AnswersAll, AnswersOne, StopCounts, role, stage};
ghost use Rattle.fdo_commands.specs.Answering.{blamed as blamed_by, rank as rank_of, sooner as sooner_of};
ghost use Rattle.fdo_commands.specs.Line.{answer_line, packet_line, token_word};

use cbor_core::NoMemory;
use fdo_msgs::{Answer, Cause, Handler, Object, Packet, Token};
use fdo_ports::{Sink, write_all};
use itoa::Buffer;
use std::alloc::Global;

/// Why answering stops before its end.
#[derive(Clone, Copy, Debug, PartialEq, Eq)]
pub(crate) enum Stop {
    Write,
    NoMemory,
}

/// Answers the messages one after another, a line each, and says which object of the environment failed meanwhile; of several
/// the one that the last line names.
pub(crate) fn answer_all<H: Handler, O: Sink>(
    alloc: Global,
    handler: &mut H,
    packets: &[Packet],
    output: &mut O,
) -> Result<Option<Object>, Stop>
    requires { H.ready handler.old }
    ensures answers { AnswersAll (role H.Steps H.GivesUp) packets.now
        (stage (H.state handler.old) (stream O.Channel output.old))
        (stage (H.state handler.new) (stream O.Channel output.new)) result }
    ensures faults { StopCounts (stream O.Channel output.old) (stream O.Channel output.new) result }
    ensures ready { H.ready handler.new }
    ensures objects { H.objects handler.new ≡ H.objects handler.old }
    ensures output { OnlyWritten (stream O.Channel output.old) (stream O.Channel output.new) }
{
    let mut fault = None;
    for packet in packets {
        match answer_one(alloc, handler, packet, output) {
            Ok(one) => fault = sooner(fault, one),
            Err(stop) => return Err(stop),
        }
    }
    Ok(fault)
}

/// The one of two objects that the last line names.
fn sooner(one: Option<Object>, other: Option<Object>) -> Option<Object>
    ensures { result ≡ sooner_of one other }
{
    match (one, other) {
        (None, other) => other,
        (Some(one), None) => Some(one),
        (Some(one), Some(other)) => {
            if rank(other) < rank(one) {
                Some(other)
            } else {
                Some(one)
            }
        }
    }
}

fn rank(object: Object) -> u8
    ensures { result ≡ rank_of object }
{
    match object {
        Object::Signer => 0,
        Object::Random => 1,
        Object::Clock => 2,
        Object::Disk => 3,
        Object::Shut => 4,
    }
}

/// Answers one message, and says which object of the environment failed.
fn answer_one<H: Handler, O: Sink>(
    alloc: Global,
    handler: &mut H,
    packet: &Packet,
    output: &mut O,
) -> Result<Option<Object>, Stop>
    requires { H.ready handler.old }
    ensures answer { AnswersOne (role H.Steps H.GivesUp) packet.now
        (stage (H.state handler.old) (stream O.Channel output.old))
        (stage (H.state handler.new) (stream O.Channel output.new)) result }
    ensures faults { StopCounts (stream O.Channel output.old) (stream O.Channel output.new) result }
    ensures ready { H.ready handler.new }
    ensures objects { H.objects handler.new ≡ H.objects handler.old }
    ensures output { OnlyWritten (stream O.Channel output.old) (stream O.Channel output.new) }
{
    let Ok(answer) = handler.on(alloc, packet) else {
        return Err(Stop::NoMemory);
    };
    let Ok(line) = line_of(alloc, &answer) else {
        return Err(Stop::NoMemory);
    };
    match write_all(output, line.as_slice()) {
        Ok(()) => Ok(blamed(&answer)),
        Err(_) => Err(Stop::Write),
    }
}

fn blamed(answer: &Answer) -> Option<Object>
    ensures { result ≡ blamed_by answer.now }
{
    match answer {
        Answer::Refused {
            reply: _,
            cause: Cause::Outside(object),
        } => Some(*object),
        _ => None,
    }
}

/// What an answer prints.
fn line_of(alloc: Global, answer: &Answer) -> Result<Vec<u8>, NoMemory>
    ensures { IfOk result (λ line. line.items ≡ answer_line answer.now) }
{
    match answer {
        Answer::Reply(reply) => packet_line_of(alloc, reply),
        Answer::Refused { reply, cause: _ } => packet_line_of(alloc, reply),
        Answer::Ended => Ok(Vec::from_slice(alloc, b"ended\n")?),
    }
}

/// A message as a line.
fn packet_line_of(alloc: Global, packet: &Packet) -> Result<Vec<u8>, NoMemory>
    ensures { IfOk result (λ line. line.items ≡ packet_line packet.now) }
{
    let mut kind = Buffer::new();
    let body = hex::encode(alloc, packet.body.as_list())?;
    let mut line = Vec::new(alloc);
    line.extend_from_slice(kind.format(packet.kind).as_bytes())?;
    line.push(b' ')?;
    line.extend_from_slice(word_of(&packet.token))?;
    line.push(b' ')?;
    line.extend_from_slice(body.as_bytes())?;
    line.push(b'\n')?;
    Ok(line)
}

/// The word of a token: without its scheme, or `-` for none.
fn word_of(token: &Option<Token>) -> &[u8]
    ensures { result.now ≡ token_word token.now }
{
    match token {
        Some(token) => without_scheme(token.as_list()),
        None => b"-",
    }
}

fn without_scheme(token: &[u8]) -> &[u8]
    ensures { result.now ≡ drop 7 token.now }
{
    if token.len() < 7 {
        b""
    } else {
        token.split_at(7).1
    }
}
