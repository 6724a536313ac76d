//! The rules of the roles of FIDO Device Onboard 1.1: what a device, an owner, a factory, a rendezvous server and their
//! clients answer to each message.
#![tactic(auto)]

pub mod laws;
pub mod offer;
pub mod parts;
pub mod rendezvous;
pub mod unfit;

pub use laws::{credential_stays, device_waits, owner_refuses, servers_wait, sides_differ};
pub use offer::Offer;
pub use parts::{HelloRv, OvNextEntry, OwnerInfo, OwnerSign, Proof, ProveOvHdr, SetupDevice};
pub use rendezvous::{Asked, Owned, Protocol, Registering};
pub use unfit::Unfit;
