//! Hashes (FIPS 180-4), HMACs (RFC 2104) and the session key of FIDO Device Onboard 1.1. No call allocates.
#![tactic(auto)]

mod bytes;
pub mod hash;
pub mod hashing;
pub mod hmac;
pub mod kind;
pub mod session;

pub use hash::{HMac, Hash};
pub use hashing::hash_of;
pub use hmac::hmac_of;
pub use kind::{HMAC_SHA256, HMAC_SHA384, SHA256, SHA384, length_of};
pub use session::session_key;
