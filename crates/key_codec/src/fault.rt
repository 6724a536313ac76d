ghost use Rattle.std.specs.Prelude.{◌≡◌};
ghost use Rattle.key_codec.specs.declared.fault.KeyFault.TheVariants.{NoMemory as OutOfMemory};

use cbor_core::NoMemory;
use std::alloc::{AllocError, AllocFailed};

/// Why an item is no key, hash or signature information.
#[derive(Clone, Copy, Debug, PartialEq, Eq)]
pub enum KeyFault {
    /// The item, or the body of a key, is not of its shape, or a number is not one of `i64`.
    BadShape,
    /// A type of key, or a kind of hash, that is not known.
    BadType(i64),
    /// An encoding of a key that is not known.
    BadEncoding(i64),
    /// A hash has so many bytes, and its kind has another length.
    BadLength(usize),
    /// Memory ran out.
    NoMemory,
}

impl From<AllocError> for KeyFault {
    ghost from_gives = { λ _ e. e ≡ OutOfMemory };

    fn from(_error: AllocError) -> KeyFault {
        KeyFault::NoMemory
    }
}

impl<T: Drop> From<AllocFailed<T>> for KeyFault {
    ghost from_gives = { λ _ e. e ≡ OutOfMemory };

    fn from(_error: AllocFailed<T>) -> KeyFault {
        KeyFault::NoMemory
    }
}

impl From<NoMemory> for KeyFault {
    ghost from_gives = { λ _ e. e ≡ OutOfMemory };

    fn from(_error: NoMemory) -> KeyFault {
        KeyFault::NoMemory
    }
}
