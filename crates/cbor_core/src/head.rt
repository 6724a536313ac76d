/// The major types 0 to 6 (RFC 8949, section 3.1).
#[derive(Clone, Copy, Debug, PartialEq, Eq)]
pub enum Major {
    Unsigned,
    Negative,
    Bytes,
    Text,
    Array,
    Map,
    Tag,
}

/// Where the argument of a head stands (RFC 8949, section 3): inside the first byte, or in the bytes after it.
#[derive(Clone, Copy, Debug, PartialEq, Eq)]
pub enum Size {
    Inside,
    One,
    Two,
    Four,
    Eight,
    /// Additional information 28 to 30, which is not well-formed.
    Reserved,
    /// Additional information 31: no argument.
    Indefinite,
}

/// What a head says.
#[derive(Clone, Copy, Debug, PartialEq, Eq)]
pub enum Head {
    /// A major type, whether the argument is in its shortest form, and the argument.
    Sized(Major, bool, u64),
    /// A major type with an indefinite length.
    Open(Major),
    /// A simple value (major type 7).
    Simple(u8),
    /// A floating-point number (major type 7).
    Float,
    /// The break, which ends an indefinite length (major type 7).
    Break,
    /// Additional information 28 to 30, or a simple value below 32 in a byte of its own.
    Reserved,
}
