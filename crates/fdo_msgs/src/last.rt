use crate::cause::Cause;
use crate::packet::Packet;

/// What a state of a client over a store does with a message that may end its protocol.
#[derive(Debug, Drop)]
pub enum Last<T, R, D> {
    /// The message was taken: the state after it.
    Done(T),
    /// The message is refused: what is handed back, why, and the error message (type 255) to send. There is none where
    /// the message was an error message of the other end.
    Stopped {
        rest: R,
        cause: Cause,
        reply: Option<Packet>,
    },
    /// The store's disk failed in this call: the store is to be opened again from the disk. The error message is that
    /// of the failed object.
    Reopen {
        disk: D,
        reply: Packet,
    },
    /// Memory ran out; what is handed back.
    NoMemory(R),
}
