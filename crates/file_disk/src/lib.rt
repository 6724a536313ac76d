//! A file of the system as a disk.
#![tactic(auto)]

pub mod file_disk;

pub use file_disk::FileDisk;
