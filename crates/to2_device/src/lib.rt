//! A device's part of TO2, the transfer of ownership (FIDO Device Onboard 1.1, section 5.5): a type for each of its states,
//! which owns the store of the device's credential.
#![tactic(auto)]

pub mod chain_walk;
mod checks;
pub mod device_proved;
mod hearing;
pub mod hello_sent;
pub mod idle;
mod making;
mod proving;
mod replying;
pub mod session;
pub mod walk;
pub mod walked;

pub use chain_walk::ChainWalk;
pub use device_proved::DeviceProved;
pub use fdo_rules::Offer;
pub use hello_sent::HelloSent;
pub use idle::Idle;
pub use walked::Walked;
