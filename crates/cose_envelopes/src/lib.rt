//! The envelopes of COSE (RFC 9052) that FIDO Device Onboard uses: Sign1, Mac0 and Encrypt0, read, written, signed,
//! verified, sealed and opened.
#![tactic(auto)]

pub mod encrypt0;
pub mod fault;
pub mod mac0;
pub mod parts;
pub mod protected;
pub mod sealing;
pub mod sealing_etm;
pub mod sign1;
pub mod signing;
pub mod text;

pub use encrypt0::{Encrypt0, read_encrypt0, write_encrypt0};
pub use fault::CoseFault;
pub use mac0::{Mac0, read_mac0, write_mac0};
pub use parts::is_protected;
pub use sealing::{open, seal};
pub use sealing_etm::{open_etm, seal_etm};
pub use sign1::{Sign1, find_sign1_fault, read_sign1, sign1_item, sign1_part, write_sign1};
pub use signing::{sign, verify};
pub use text::sign1_text;
