use crate::cause::Cause;
use crate::packet::Packet;

/// What a state of a client does with a message: the state after it is a type of its own.
#[derive(Debug, Drop)]
pub enum Next<T, R> {
    /// The next state, and the message to send.
    On(T, Packet),
    /// The message is refused: what is handed back, why, and the error message (type 255) to send. There is none where
    /// the message was an error message of the other end, or where no message was taken.
    Stopped {
        rest: R,
        cause: Cause,
        reply: Option<Packet>,
    },
    /// Memory ran out; what is handed back.
    NoMemory(R),
}
