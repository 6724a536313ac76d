use crate::chain_walk::ChainWalk;
use crate::device_proved::DeviceProved;
use disk_port::Disk;

/// A device after an entry of the voucher, or after its header.
#[derive(Drop)]
pub enum Walked<D: Disk> {
    /// It has asked for the next entry.
    Chain(ChainWalk<D>),
    /// That was the last one, and it has proved itself.
    Proved(DeviceProved<D>),
}
