//! The credential of a device on a disk, so that a crash at any moment leaves the one from before a change or the one from
//! after it.
#![tactic(auto)]

mod body;
pub mod fault;
pub mod image;
mod loading;
mod parts;
pub mod reserved;
mod slot;
pub mod store;

pub use fault::{ImageFault, OpenFault, ReserveFault};
pub use image::read_image;
pub use store::CredentialStore;
