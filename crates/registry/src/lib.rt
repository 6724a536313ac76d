//! The registry of a rendezvous server (FIDO Device Onboard 1.1, section 5.4): what is registered for a device, and
//! until when.
#![tactic(auto)]

pub mod registry;

pub use registry::{MOST_REGISTRATIONS, RegisterFault, Registration, Registry};
