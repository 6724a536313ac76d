ghost use Rattle.std.specs.Prelude.{◌≡◌, IfOk, IfErr};
ghost use Rattle.fdo_commands.specs.declared.lines.LinesFault.TheVariants.{NoMemory as OutOfMemory};
ghost use Rattle.fdo_commands.specs.Input.{IsInput, ReadsLine, WrongAt};

use crate::line::read_text;
use cbor_core::NoMemory;
use fdo_msgs::{Packet, cut};
use std::alloc::{AllocFailed, Global};

/// Why lines are not read.
#[derive(Clone, Copy, Debug, PartialEq, Eq)]
pub(crate) enum LinesFault {
    /// The first wrong line, by its first byte.
    Wrong(usize),
    NoMemory,
}

impl<T: Drop> From<AllocFailed<T>> for LinesFault {
    ghost from_gives = { λ _ e. e ≡ OutOfMemory };

    fn from(_error: AllocFailed<T>) -> LinesFault {
        LinesFault::NoMemory
    }
}

/// The first line of some bytes.
#[derive(Debug, Drop)]
pub(crate) enum Line<'a> {
    /// It says a message, and these bytes come after it.
    Says(Packet, &'a [u8]),
    /// It says none.
    Wrong,
}

/// The messages that the lines say, all of the bytes.
#[tactic(auto, using(crate::proofs::LineFeeds::more_lines, crate::proofs::LineFeeds::all_lines, crate::proofs::LineFeeds::wrong_line))]
pub(crate) fn read_lines(alloc: Global, bytes: &[u8]) -> Result<Vec<Packet>, LinesFault>
    ensures ok { IfOk result (λ packets. IsInput bytes.now packets.items) }
    ensures err { IfErr result (WrongAt bytes.now) }
{
    let mut packets = Vec::new(alloc);
    let mut rest = bytes;
    while !rest.is_empty() {
        match read_line(alloc, rest) {
            Ok(Line::Says(packet, after)) => {
                packets.push(packet)?;
                rest = after;
            }
            Ok(Line::Wrong) => return Err(LinesFault::Wrong(bytes.len() - rest.len())),
            Err(_) => return Err(LinesFault::NoMemory),
        }
    }
    Ok(packets)
}

fn read_line(alloc: Global, bytes: &[u8]) -> Result<Line<'_>, NoMemory>
    ensures { IfOk result (ReadsLine bytes.now) }
{
    let Some((line, after)) = cut(bytes, b'\n') else {
        return Ok(Line::Wrong);
    };
    match read_text(alloc, line)? {
        Some(packet) => Ok(Line::Says(packet, after)),
        None => Ok(Line::Wrong),
    }
}
