//! A disk as the program sees it, what a crash at any moment leaves of it, and how to change bytes on it so that a crash
//! leaves them as before or after the change.
#![tactic(auto)]

pub mod bytes;
pub mod disk;
pub mod found;
pub mod gated;
pub mod history;
pub mod kept;
pub mod memory_disk;
pub mod next_change;
mod putting;
pub mod side;
pub mod slots;
pub mod stop;
pub mod stops;

pub use bytes::Bytes;
pub use disk::Disk;
pub use found::Found;
pub use gated::put_gated;
pub use memory_disk::MemoryDisk;
pub use next_change::{NextChange, generation_after};
pub use side::Side;
pub use slots::Slots;
pub use stops::{Pick, Stops};
