use cbor_core::Text;
use fdo_msgs::To1d;
use key_codec::SigInfo;

/// What a device offers an owner in TO2 (FIDO Device Onboard 1.1, section 5.5).
#[derive(Debug, Drop)]
pub struct Offer {
    /// The name of the key exchange.
    pub kex: Text,
    /// The number of the cipher suite.
    pub cipher: i64,
    pub sig: SigInfo,
    /// What TO1 told of the owner, where it was run: the owner has to have signed it.
    pub to1d: Option<To1d>,
    /// The most bytes of a message that the device takes, or 0 for 65,535.
    pub max_size: u16,
    /// The most bytes of ServiceInfo in a message that the device takes, at most 65,535, or None for 1,300.
    pub info_size: Option<u64>,
    /// Whether the owner may keep the device's credential as it is.
    pub reuse: bool,
}
