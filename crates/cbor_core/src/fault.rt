ghost use Rattle.std.specs.Prelude.{◌≡◌};
ghost use Rattle.cbor_core.specs.declared.fault.CborFault.TheVariants.{NoMemory as OutOfMemory};

use crate::no_memory::NoMemory;
use std::alloc::{AllocError, AllocFailed};

/// Why bytes were not read: the first fault in reading order, with its place. The place is the offset of the first
/// byte of the head at which the fault stands, or the input's length where that head is wholly absent.
#[derive(Clone, Copy, Debug, PartialEq, Eq)]
pub enum CborFault {
    /// A head or a string's content passes the end of the input.
    Truncated(usize),
    /// No well-formed data item goes on like this, or text is not UTF-8.
    Malformed(usize),
    /// An item stands at depth 17. The outermost item has depth 1.
    TooDeep(usize),
    /// A map's key has the deterministic spelling of a key before it.
    Duplicate(usize),
    /// A floating-point number, which FIDO Device Onboard never uses.
    Float(usize),
    /// Well-formed, but not as the core deterministic encoding has it. Only `read_det` answers this.
    NotDeterministic(usize),
    /// Memory ran out.
    NoMemory,
}

impl From<AllocError> for CborFault {
    ghost from_gives = { λ _ e. e ≡ OutOfMemory };

    fn from(_error: AllocError) -> CborFault {
        CborFault::NoMemory
    }
}

impl<T: Drop> From<AllocFailed<T>> for CborFault {
    ghost from_gives = { λ _ e. e ≡ OutOfMemory };

    fn from(_error: AllocFailed<T>) -> CborFault {
        CborFault::NoMemory
    }
}

impl From<NoMemory> for CborFault {
    ghost from_gives = { λ _ e. e ≡ OutOfMemory };

    fn from(_error: NoMemory) -> CborFault {
        CborFault::NoMemory
    }
}
