//! Public keys, hashes and signature information of FIDO Device Onboard 1.1 as CBOR items, both ways.
#![tactic(auto)]

pub mod chain;
mod cose;
pub mod encoding;
pub mod fault;
pub mod hash;
pub mod key;
pub mod kind;
pub mod laws;
mod parts;
pub mod places;
pub mod read;
pub mod sig_info;
pub mod write;

pub use chain::X5Chain;
pub use encoding::Form;
pub use fault::KeyFault;
pub use hash::{hash_item, read_hash, read_hash_part};
pub use key::{CoseKey, KeyBody, PublicKey};
pub use kind::{
    HSS_LMS, LABORATORY, RSA2048RESTR, RSAPKCS, RSAPSS, SECP256R1, SECP384R1, is_key_type,
};
pub use places::{
    find_chain_fault, find_encoded_fault, find_hash_fault, find_key_fault, find_sig_info_fault,
};
pub use read::{read_chain, read_key, read_key_body};
pub use sig_info::{SigInfo, read_sig_info, sig_info_item};
pub use write::{chain_item, key_body_item, key_bytes, key_item};
