use crate::cause::Cause;
use crate::packet::Packet;

/// What a server answers to a message.
#[derive(Debug, Drop)]
pub enum Answer {
    /// The next message of the protocol.
    Reply(Packet),
    /// The message is refused: `reply` is the error message (type 255), and `cause` says why.
    Refused { reply: Packet, cause: Cause },
    /// The message was an error message of the other end. It has no answer.
    Ended,
}
