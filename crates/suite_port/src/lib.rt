//! The cryptography that the roles of FIDO Device Onboard call through traits: signatures, key agreement, sealing and
//! device certificates, with their laws; and the laboratory suite, which meets them and is not secure.
#![tactic(auto)]

pub mod aead;
mod bytes;
pub mod cert_reader;
pub mod fault;
pub mod holder;
pub mod kex;
mod lab_aead;
mod lab_certificate;
mod lab_kex;
mod lab_key;
mod lab_seal;
pub mod lab_suite;
pub mod signer;
pub mod suite;
pub mod verifier;

pub use aead::{Aead, MOST_PLAIN};
pub use cert_reader::CertReader;
pub use fault::SuiteFault;
pub use holder::Holder;
pub use kex::Kex;
pub use lab_suite::LabSuite;
pub use signer::Signer;
pub use suite::Suite;
pub use verifier::Verifier;
