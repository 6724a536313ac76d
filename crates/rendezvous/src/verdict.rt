use cbor_core::Blob;
use fdo_msgs::{Cause, Nonce, To1d};
use fdo_rules::{HelloRv, Protocol, Registering};

/// What a message comes to, before anything of the server changes.
#[derive(Debug, Drop)]
pub(crate) enum Verdict {
    /// An error of the other end.
    PeerError,
    /// Refused, at a message of a protocol.
    Refuses(Protocol, Cause),
    /// TO0 begins.
    BeginsTo0 {
        nonce: Nonce,
        /// The draw of the session's token.
        token: [u8; 16],
    },
    /// TO1 begins.
    BeginsTo1 {
        asked: HelloRv,
        /// The public bytes of the device's key.
        leaf: Blob,
        nonce: Nonce,
        /// The draw of the session's token.
        token: [u8; 16],
    },
    /// A registration, with the present second and the seconds that are granted.
    Registers {
        registering: Registering,
        now: u64,
        seconds: u32,
    },
    /// Where the device's owner is.
    Redirects(To1d),
}
