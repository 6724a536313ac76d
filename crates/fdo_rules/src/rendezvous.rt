use crate::parts::OwnerSign;
use cbor_core::Blob;
use fdo_msgs::{Nonce, To1d};
use voucher_chain::Guid;

/// Where an owner is, and the public bytes of its device's key.
#[derive(Debug, Drop)]
pub struct Owned {
    pub to1d: To1d,
    pub leaf: Blob,
}

/// A session of TO1.
#[derive(Debug, Drop)]
pub struct Asked {
    /// NonceTO1Proof.
    pub nonce: Nonce,
    pub guid: Guid,
    /// The public bytes of the device's key.
    pub leaf: Blob,
}

/// What is registered by a TO0.OwnerSign, with the public bytes of the device's key.
#[derive(Debug, Drop)]
pub struct Registering {
    pub sign: OwnerSign,
    pub leaf: Blob,
}

/// The two protocols of a rendezvous server, each with sessions of its own.
#[derive(Clone, Copy, Debug, PartialEq, Eq)]
pub enum Protocol {
    To0,
    To1,
}
