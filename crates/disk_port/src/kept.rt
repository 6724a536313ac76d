use crate::bytes::Bytes;

/// A call on a disk in memory that was done.
#[derive(Debug, Drop)]
pub enum Kept {
    /// These bytes were written at this offset.
    Wrote(u64, Bytes),
    /// All was synced.
    Synced,
}
