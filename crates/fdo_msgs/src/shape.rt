/// What a part of a body has to be. The parts of a body are told by a list of these (`shapes`).
#[derive(Clone, Copy, Debug, PartialEq, Eq)]
pub enum Shape {
    /// A number below 2^8, 2^16, 2^32 and 2^64.
    U8,
    U16,
    U32,
    U64,
    /// A number of 64 bits with a sign.
    I64,
    /// True or false.
    Flag,
    Text,
    /// A byte string of 16 bytes: a Guid or a nonce.
    Sixteen,
    /// Any item.
    Any,
    /// Signature information.
    SigInfo,
    /// A hash or an HMAC of any of the four kinds.
    Hash,
    /// The same, or null.
    MaybeHash,
    /// A size below 2^16, or null.
    MaybeSize,
    /// What a device says of itself in DI.AppStart.
    Mfg,
    /// A byte string that holds a voucher's header.
    Header,
    /// A voucher's entry.
    Entry,
    /// Pairs of ServiceInfo.
    Pairs,
}
