ghost use Rattle.std.specs.Prelude.{◌≡◌, IfOk};
ghost use Rattle.fdo_rules.specs.Moves.{reply_to as reply_for, token_after as token_kept};

use cbor_core::NoMemory;
use fdo_msgs::{Cause, Packet, Token, error_packet};
use std::alloc::Global;

/// The error message for a cause at a message, with that message's token; none where the cause has no code.
#[tactic(auto, using(crate::proofs::Replies::reply_is, crate::proofs::Replies::none_is))]
pub(crate) fn reply_to(
    alloc: Global,
    cause: &Cause,
    packet: &Packet,
) -> Result<Option<Packet>, NoMemory>
    ensures { IfOk result (λ reply. reply ≡ reply_for packet.now cause.now) }
{
    match cause.code(packet.kind) {
        Some(_) => {
            let token = copy_token(&packet.token)?;
            Ok(Some(error_packet(alloc, cause, packet.kind, token)?))
        }
        None => Ok(None),
    }
}

/// The token of a session after a message: the message's, or without one the token before.
pub(crate) fn token_after(kept: &Option<Token>, packet: &Packet) -> Result<Option<Token>, NoMemory>
    ensures { IfOk result (λ token. token ≡ token_kept kept.now packet.now) }
{
    match &packet.token {
        Some(token) => Ok(Some(token.copy()?)),
        None => copy_token(kept),
    }
}

/// An equal token.
pub(crate) fn copy_token(token: &Option<Token>) -> Result<Option<Token>, NoMemory>
    ensures { IfOk result (λ copy. copy ≡ token.now) }
{
    match token {
        Some(token) => Ok(Some(token.copy()?)),
        None => Ok(None),
    }
}
