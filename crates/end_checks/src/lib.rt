//! The checks that ends of FIDO Device Onboard 1.1 share: what a body says, signatures, hashes, and a device's key.
#![tactic(auto)]

pub mod bodies;
pub mod hashes;
pub mod leaf;
pub mod made;
pub mod signatures;

pub use bodies::{read_hello, read_hello_rv, read_owner_sign, read_proof};
pub use hashes::is_hash_of;
pub use leaf::leaf_key;
pub use made::{credential_of, hash_by, header_hmac, mac_by};
pub use signatures::{verified, verified_by};
