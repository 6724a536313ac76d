/// Why bytes are no HTTP message (FIDO Device Onboard 1.1, section 4.3).
#[derive(Clone, Copy, Debug, PartialEq, Eq)]
pub enum HttpFault {
    /// The head is none of HTTP, has more than 64 fields, or has fields that contradict one another.
    BadHead,
    /// Another method or path.
    BadPath,
    /// No length is given.
    NoLength,
    /// The head or the body is longer than this bound.
    TooLong(u64),
    /// The bytes end before the message does.
    CutShort,
    /// A read failed.
    Read,
    /// A write failed.
    Write,
    /// The status of a response is neither 200 nor 500.
    Status(u16),
}
