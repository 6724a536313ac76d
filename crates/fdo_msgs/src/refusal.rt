ghost use Rattle.std.specs.Prelude.{◌≡◌, IsSome, IfOk};
ghost use Rattle.fdo_msgs.specs.Cause.{code_of};
ghost use Rattle.fdo_msgs.specs.Refusal.{error_of};

use crate::answer::Answer;
use crate::cause::Cause;
use crate::kind;
use crate::packet::Packet;
use crate::token::Token;
use crate::write::error_body;
use cbor_core::{Item, NoMemory, Text};
use std::alloc::Global;

/// The error message (type 255) for a cause at a message of a type: its code, that type, the code's text, null and 0.
#[tactic(auto, unfolding(crate::specs::Refusal::error_of))]
pub fn error_packet(
    alloc: Global,
    cause: &Cause,
    kind: u8,
    token: Option<Token>,
) -> Result<Packet, NoMemory>
    requires { IsSome (code_of cause.now kind) }
    ensures { IfOk result (λ packet. packet ≡ error_of cause.now kind token) }
{
    let code = cause.code(kind).unwrap();
    let text = Text::from_str(alloc, text(code))?;
    let (stamp, id) = (Item::Simple(22), Item::Uint(0));
    let body = error_body(alloc, code, u64::from(kind), &text, &stamp, &id)?;
    Ok(Packet {
        token,
        kind: kind::ERROR,
        body,
    })
}

/// The refusal of a message of a type, with its error message.
pub fn refuse(
    alloc: Global,
    cause: Cause,
    kind: u8,
    token: Option<Token>,
) -> Result<Answer, NoMemory>
    requires { IsSome (code_of cause kind) }
    ensures { IfOk result (λ answer. answer ≡ Answer.Refused (error_of cause kind token) cause) }
{
    Ok(Answer::Refused {
        reply: error_packet(alloc, &cause, kind, token)?,
        cause,
    })
}

ghost use Rattle.fdo_msgs.specs.Cause.{text_of};

/// What an error message says of a code.
#[tactic(auto, unfolding(crate::specs::Cause::text_of))]
fn text(code: u16) -> &'static str
    ensures { result.now ≡ text_of code }
{
    match code {
        1 => "invalid token",
        2 => "invalid voucher",
        3 => "invalid owner sign body",
        4 => "invalid address",
        5 => "invalid guid",
        6 => "not found",
        100 => "message body",
        101 => "invalid message",
        102 => "credential reuse",
        _ => "internal",
    }
}
