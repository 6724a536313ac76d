use cbor_core::{Blob, Text};

/// A file with its name.
#[derive(Debug, Drop)]
pub struct File {
    /// 1 to 64 letters, digits, `.`, `-` or `_`.
    pub name: Text,
    pub bytes: Blob,
}
