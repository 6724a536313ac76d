ghost use Rattle.std.specs.Prelude.{◌≡◌, IfOk};

use cbor_core::{Blob, NoMemory, Text};

/// What one module says to the other side's module of the same name (FIDO Device Onboard 1.1, section 3.8.2,
/// "ServiceInfoKV").
#[derive(Debug, Drop)]
pub struct Pair {
    /// The module's name, a colon, and the message's.
    pub key: Text,
    /// The bytes of the message's value, which hold one CBOR item.
    pub value: Blob,
}

impl Pair {
    /// An equal pair.
    pub fn copy(&self) -> Result<Pair, NoMemory>
        ensures { IfOk result (λ copy. copy ≡ self.now) }
    {
        Ok(Pair {
            key: self.key.copy()?,
            value: self.value.copy()?,
        })
    }
}
