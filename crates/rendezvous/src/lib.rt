//! The rendezvous server of FIDO Device Onboard 1.1: where an owner leaves word for its device (TO0), and a device
//! finds its owner (TO1).
#![tactic(auto)]

mod carrying;
mod judging;
pub mod rv_handler;
pub mod server;
mod to0;
mod to0_checks;
mod to1;
mod verdict;

pub use rv_handler::RvHandler;
pub use server::Server;
