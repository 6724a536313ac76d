//! The vouchers of a party on a disk: a journal of snapshots and of records, each of which says one change of the map.
#![tactic(auto)]

mod applying;
mod bodies;
pub mod change;
mod entry;
pub mod fault;
pub mod image;
mod loading;
pub mod map;
mod parts;
mod records;
mod renewing;
mod replaying;
mod size;
mod snapshot;
pub mod store;
pub mod writing;

pub use change::Change;
pub use fault::{ImageFault, OpenFault};
pub use image::read_image;
pub use map::VoucherMap;
pub use store::VoucherStore;
pub use writing::{record_body, snapshot_body};
