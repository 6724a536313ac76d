use crate::cause::Cause;
use crate::packet::Packet;

/// What the last state of a client without a store does with a message.
#[derive(Debug, Drop)]
pub enum Ending<T> {
    /// The protocol is done, with what came of it.
    Done(T),
    /// The message is refused: why, and the error message (type 255) to send. There is none where the message was an
    /// error message of the other end.
    Stopped { cause: Cause, reply: Option<Packet> },
    /// Memory ran out.
    NoMemory,
}
