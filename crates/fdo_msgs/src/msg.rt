ghost use Rattle.std.specs.Prelude.{◌≡◌};
ghost use Rattle.fdo_msgs.specs.Said.{kind_of};

use crate::kind;
use crate::mfg::MfgInfo;
use crate::to1d::To1d;
use cbor_core::{Blob, Item, Text};
use cose_envelopes::Sign1;
use hash_hmac::{HMac, Hash};
use key_codec::{PublicKey, SigInfo};
use service_info::InfoPairs;
pub use voucher_chain::Guid;
use voucher_chain::{Entry, Header, RvInfo, Voucher};

/// A nonce: 16 random bytes that the other end has to give back.
pub type Nonce = [u8; 16];

/// What a message's body says, one variant for each type. A field `sign` is the envelope of a signed body, whose payload
/// and unprotected header spell the other fields.
#[derive(Debug, Drop)]
pub enum Msg {
    /// DI.AppStart (10): the device begins.
    AppStart(MfgInfo),
    /// DI.SetCredentials (11): the voucher's header.
    SetCredentials(Header),
    /// DI.SetHMAC (12): the HMAC of the header under the device's secret.
    SetHmac(HMac),
    /// DI.Done (13).
    DiDone,
    /// TO0.Hello (20): the owner asks for a nonce.
    Hello,
    /// TO0.HelloAck (21): NonceTO0Sign.
    HelloAck(Nonce),
    /// TO0.OwnerSign (22): the owner registers where its device finds it.
    OwnerSign {
        /// The bytes of to0d, which spell the voucher, the seconds and the nonce.
        to0d: Blob,
        voucher: Voucher,
        /// For how many seconds the owner wants to be registered.
        wait: u32,
        /// NonceTO0Sign.
        nonce: Nonce,
        to1d: To1d,
    },
    /// TO0.AcceptOwner (23): for how many seconds.
    AcceptOwner(u32),
    /// TO1.HelloRV (30): the device asks for its owner.
    HelloRv(Guid, SigInfo),
    /// TO1.HelloRVAck (31): NonceTO1Proof.
    HelloRvAck(Nonce, SigInfo),
    /// TO1.ProveToRV (32): the device proves that it is the one of its voucher.
    ProveToRv {
        /// NonceTO1Proof.
        nonce: Nonce,
        guid: Guid,
        sign: Sign1,
    },
    /// TO1.RVRedirect (33): where the owner is.
    RvRedirect(To1d),
    /// TO2.HelloDevice (60): the device asks for the voucher.
    HelloDevice {
        /// The most bytes of a message that the device takes, or 0.
        max_size: u16,
        guid: Guid,
        /// NonceTO2ProveOV.
        nonce: Nonce,
        /// The key exchange.
        kex: Text,
        /// The cipher suite.
        cipher: i64,
        sig: SigInfo,
    },
    /// TO2.ProveOVHdr (61): the owner shows the voucher's header, under its key.
    ProveOvHdr {
        header: Header,
        /// How many entries the voucher has.
        entries: u8,
        /// The voucher's HMAC.
        hmac: HMac,
        /// The bytes of the HMAC as received.
        hmac_raw: Blob,
        /// NonceTO2ProveOV.
        nonce: Nonce,
        sig: SigInfo,
        /// The owner's half of the key exchange.
        xa: Blob,
        /// The hash of the body of TO2.HelloDevice.
        hello_hash: Hash,
        /// The most bytes of a message that the owner takes, or 0.
        max_size: u16,
        /// NonceTO2ProveDv, in the unprotected header.
        prove_dv: Nonce,
        /// The owner's key, in the unprotected header.
        key: PublicKey,
        sign: Sign1,
    },
    /// TO2.GetOVNextEntry (62): the number of the entry that is asked for.
    GetOvNextEntry(u8),
    /// TO2.OVNextEntry (63): the number of an entry, and the entry.
    OvNextEntry(u8, Entry),
    /// TO2.ProveDevice (64): the device proves that it is the one of the voucher.
    ProveDevice {
        /// NonceTO2ProveDv.
        nonce: Nonce,
        guid: Guid,
        /// The device's half of the key exchange.
        xb: Blob,
        /// NonceTO2SetupDv, in the unprotected header.
        setup_dv: Nonce,
        sign: Sign1,
    },
    /// TO2.SetupDevice (65): what the device's next credential is to have.
    SetupDevice {
        rv: RvInfo,
        guid: Guid,
        /// NonceTO2SetupDv.
        nonce: Nonce,
        /// Owner2Key: the key that signs this, and the device's next owner's.
        key: PublicKey,
        sign: Sign1,
    },
    /// TO2.DeviceServiceInfoReady (66).
    DeviceReady {
        /// The HMAC of the replacement's header. None asks for the credential to be used again.
        hmac: Option<HMac>,
        /// The most bytes of ServiceInfo in a message that the device takes.
        size: Option<u64>,
    },
    /// TO2.OwnerServiceInfoReady (67).
    OwnerReady {
        /// The most bytes of ServiceInfo in a message that the owner takes.
        size: Option<u64>,
    },
    /// TO2.DeviceServiceInfo (68).
    DeviceInfo {
        /// Whether the device has more to send.
        more: bool,
        pairs: InfoPairs,
    },
    /// TO2.OwnerServiceInfo (69).
    OwnerInfo {
        /// Whether the owner has more to send.
        more: bool,
        /// Whether this is the owner's last.
        done: bool,
        pairs: InfoPairs,
    },
    /// TO2.Done (70): NonceTO2ProveDv.
    Done(Nonce),
    /// TO2.Done2 (71): NonceTO2SetupDv.
    Done2(Nonce),
    /// An error (255).
    Error {
        code: u16,
        /// The type of the message that was refused.
        kind: u64,
        text: Text,
        /// When it happened, or null.
        stamp: Item,
        /// A number by which logs name it.
        id: Item,
    },
}

impl Msg {
    /// The message's type.
    pub fn kind(&self) -> u8
        ensures { result ≡ kind_of self.now }
    {
        match self {
            Msg::AppStart(_) => kind::APP_START,
            Msg::SetCredentials(_) => kind::SET_CREDENTIALS,
            Msg::SetHmac(_) => kind::SET_HMAC,
            Msg::DiDone => kind::DI_DONE,
            Msg::Hello => kind::HELLO,
            Msg::HelloAck(_) => kind::HELLO_ACK,
            Msg::OwnerSign { .. } => kind::OWNER_SIGN,
            Msg::AcceptOwner(_) => kind::ACCEPT_OWNER,
            Msg::HelloRv(..) => kind::HELLO_RV,
            Msg::HelloRvAck(..) => kind::HELLO_RV_ACK,
            Msg::ProveToRv { .. } => kind::PROVE_TO_RV,
            Msg::RvRedirect(_) => kind::RV_REDIRECT,
            Msg::HelloDevice { .. } => kind::HELLO_DEVICE,
            Msg::ProveOvHdr { .. } => kind::PROVE_OV_HDR,
            Msg::GetOvNextEntry(_) => kind::GET_OV_NEXT_ENTRY,
            Msg::OvNextEntry(..) => kind::OV_NEXT_ENTRY,
            Msg::ProveDevice { .. } => kind::PROVE_DEVICE,
            Msg::SetupDevice { .. } => kind::SETUP_DEVICE,
            Msg::DeviceReady { .. } => kind::DEVICE_READY,
            Msg::OwnerReady { .. } => kind::OWNER_READY,
            Msg::DeviceInfo { .. } => kind::DEVICE_INFO,
            Msg::OwnerInfo { .. } => kind::OWNER_INFO,
            Msg::Done(_) => kind::DONE,
            Msg::Done2(_) => kind::DONE2,
            Msg::Error { .. } => kind::ERROR,
        }
    }
}
