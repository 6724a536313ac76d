ghost use Rattle.std.specs.Prelude.{◌≡◌};
ghost use Rattle.cose_envelopes.specs.declared.fault.CoseFault.TheVariants.{NoMemory as OutOfMemory};
ghost use Rattle.cose_envelopes.specs.Fault.{IsShape};

use cbor_core::{CborFault, NoMemory};
use std::alloc::{AllocError, AllocFailed};

/// Why an envelope is refused.
#[derive(Clone, Copy, Debug, PartialEq, Eq)]
pub enum CoseFault {
    /// The bytes spell no such envelope. The offset is that of the first fault: of the CBOR, else of the head of the
    /// first part that is not of its form, else of the first byte after the envelope. A fault inside a byte string
    /// has the offset of that string's head.
    BadShape(usize),
    /// The signature is not right.
    NotVerified,
    /// What is sealed does not hold under the key.
    NotOpened,
    /// The suite has no such algorithm, or the envelope names another one. The number is that of the call, for `verify`
    /// that of the envelope, and 0 for `sign`.
    NoAlgorithm(i64),
    /// The signer failed, and the suite's count of faults rose in this call.
    Failed,
    /// Memory ran out.
    NoMemory,
}

impl From<NoMemory> for CoseFault {
    ghost from_gives = { λ _ e. e ≡ OutOfMemory };

    fn from(_error: NoMemory) -> CoseFault {
        CoseFault::NoMemory
    }
}

impl From<AllocError> for CoseFault {
    ghost from_gives = { λ _ e. e ≡ OutOfMemory };

    fn from(_error: AllocError) -> CoseFault {
        CoseFault::NoMemory
    }
}

impl<T: Drop> From<AllocFailed<T>> for CoseFault {
    ghost from_gives = { λ _ e. e ≡ OutOfMemory };

    fn from(_error: AllocFailed<T>) -> CoseFault {
        CoseFault::NoMemory
    }
}

/// A fault of the envelope's CBOR.
pub(crate) fn shape_fault(fault: CborFault) -> CoseFault
    ensures { IsShape fault result }
{
    match fault {
        CborFault::Truncated(place)
        | CborFault::Malformed(place)
        | CborFault::TooDeep(place)
        | CborFault::Duplicate(place)
        | CborFault::Float(place)
        | CborFault::NotDeterministic(place) => CoseFault::BadShape(place),
        CborFault::NoMemory => CoseFault::NoMemory,
    }
}
