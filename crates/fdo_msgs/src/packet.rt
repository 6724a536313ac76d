ghost use Rattle.std.specs.Prelude.{◌≡◌, IfOk};
ghost use Rattle.fdo_msgs.specs.Said.{kind_of, body_of};

use crate::msg::Msg;
use crate::token::Token;
use crate::write::write_body;
use cbor_core::{Blob, NoMemory};
use std::alloc::Global;

/// A message as it travels: the token of its session, where it has one, its type, and its body
/// (FIDO Device Onboard 1.1, section 4).
#[derive(Debug, Drop)]
pub struct Packet {
    pub token: Option<Token>,
    /// The message type, as 20 for TO0.Hello and 255 for an error.
    pub kind: u8,
    /// The body's CBOR.
    pub body: Blob,
}

impl Packet {
    /// A message whose body is not sealed, as it is sent.
    pub fn of(alloc: Global, token: Option<Token>, message: &Msg) -> Result<Packet, NoMemory>
        ensures { IfOk result (λ packet. packet ≡ record { token = token; kind = kind_of message.now; body = body_of message.now }) }
    {
        Ok(Packet {
            token,
            kind: message.kind(),
            body: write_body(alloc, message)?,
        })
    }
}
