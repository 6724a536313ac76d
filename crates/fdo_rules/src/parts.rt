use cbor_core::Blob;
use cose_envelopes::Sign1;
use fdo_msgs::{HeaderPayload, Nonce, To1d};
use key_codec::{PublicKey, SigInfo};
use service_info::InfoPairs;
use voucher_chain::{Entry, Guid, RvInfo, Voucher};

/// What TO0.OwnerSign says.
#[derive(Debug, Drop)]
pub struct OwnerSign {
    /// The bytes of to0d, which spell the voucher, the seconds and the nonce.
    pub to0d: Blob,
    pub voucher: Voucher,
    /// For how many seconds the owner wants to be registered.
    pub wait: u32,
    /// NonceTO0Sign.
    pub nonce: Nonce,
    pub to1d: To1d,
}

/// What TO1.HelloRV says.
#[derive(Debug, Drop)]
pub struct HelloRv {
    pub guid: Guid,
    pub sig: SigInfo,
}

/// What TO1.ProveToRV says.
#[derive(Debug, Drop)]
pub struct Proof {
    /// NonceTO1Proof.
    pub nonce: Nonce,
    pub guid: Guid,
    pub sign: Sign1,
}

/// What TO2.ProveOVHdr says.
#[derive(Debug, Drop)]
pub struct ProveOvHdr {
    pub payload: HeaderPayload,
    /// NonceTO2ProveDv.
    pub prove_dv: Nonce,
    /// The owner's key.
    pub key: PublicKey,
    pub sign: Sign1,
}

/// What TO2.OVNextEntry says.
#[derive(Debug, Drop)]
pub struct OvNextEntry {
    pub number: u8,
    pub entry: Entry,
}

/// What TO2.SetupDevice says.
#[derive(Debug, Drop)]
pub struct SetupDevice {
    pub rv: RvInfo,
    pub guid: Guid,
    /// NonceTO2SetupDv.
    pub nonce: Nonce,
    /// Owner2Key.
    pub key: PublicKey,
    pub sign: Sign1,
}

/// What TO2.OwnerServiceInfo says.
#[derive(Debug, Drop)]
pub struct OwnerInfo {
    /// Whether the owner has more to send.
    pub more: bool,
    /// Whether this is the owner's last.
    pub done: bool,
    pub pairs: InfoPairs,
}
