use voucher_chain::{ChainFault, Guid};

/// Why a party's vouchers are not changed.
#[derive(Clone, Copy, Debug)]
pub enum StoreFault {
    /// The disk failed in this call, and its count of faults rose.
    Disk,
    /// The disk failed in an earlier call on this store.
    Shut,
    /// The voucher's chain does not hold, or can't be made longer.
    Chain(ChainFault),
    /// The voucher's last owner is another one.
    NotOurs,
    /// A voucher of this GUID is kept, under another header or as a candidate.
    Clash(Guid),
    /// A voucher of the same header is kept, with so many entries, which are no fewer.
    Older(u8),
    /// The entry has a candidate, of this GUID.
    Replacing(Guid),
    /// The voucher was sent to another owner.
    Sent,
    /// No entry has the GUID.
    Unknown,
    /// The entry's candidate is another one than was seen: this one, or none.
    Changed(Option<Guid>),
    /// So many entries are kept, and there is no room for the change: the vouchers after it would take so many bytes.
    Full(u32, u64),
    /// The signer failed, and the suite's count of faults rose in this call.
    Failed,
    /// Memory ran out.
    NoMemory,
}
