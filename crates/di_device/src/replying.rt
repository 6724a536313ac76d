ghost use Rattle.std.specs.Prelude.{◌≡◌, IfOk};
ghost use Rattle.fdo_rules.specs.Moves.{reply_to};
ghost use Rattle.di_device.specs.Steps.{IsAnswered};

use cbor_core::NoMemory;
use fdo_msgs::{Cause, Packet, Token, error_packet};
use std::alloc::Global;

/// The error message for a cause at a message, with its token, or None for an error message of the other end.
#[tactic(auto, using(crate::proofs::Replies::replied, crate::proofs::Replies::unreplied))]
pub(crate) fn reply_to(
    alloc: Global,
    cause: &Cause,
    packet: &Packet,
) -> Result<Option<Packet>, NoMemory>
    requires answered { IsAnswered cause.now }
    ensures { IfOk result (λ reply. reply ≡ reply_to packet.now cause.now) }
{
    match cause.code(packet.kind) {
        Some(_) => {
            let token = token_of(packet)?;
            Ok(Some(error_packet(alloc, cause, packet.kind, token)?))
        }
        None => Ok(None),
    }
}

/// A message's token.
pub(crate) fn token_of(packet: &Packet) -> Result<Option<Token>, NoMemory>
    ensures { IfOk result (λ token. token ≡ packet.now.token) }
{
    match &packet.token {
        Some(token) => Ok(Some(token.copy()?)),
        None => Ok(None),
    }
}
