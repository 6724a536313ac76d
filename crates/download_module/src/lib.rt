//! A module of ServiceInfo that sends a file to a device, made after the module fdo.download of the FIDO Device Onboard
//! specifications; its messages and their order are our own.
#![tactic(auto)]

pub mod device_module;
pub mod down_fault;
pub mod file;
pub mod receiver;
pub mod receiving;
pub mod send;
pub mod send_fault;
pub mod stage;
mod values;

pub use device_module::DeviceModule;
pub use down_fault::DownFault;
pub use file::File;
pub use receiver::Receiver;
pub use send::{LONGEST_FILE, LONGEST_PIECE, send_pairs};
pub use send_fault::SendFault;
