ghost use Rattle.std.specs.Prelude.{◌≡◌};
ghost use Rattle.voucher_chain.specs.declared.fault.ChainFault.TheVariants.{NoMemory as OutOfMemory};
ghost use Rattle.voucher_chain.specs.Fault.{IsShape};

use cbor_core::{CborFault, NoMemory};
use std::alloc::{AllocError, AllocFailed};

/// Why a voucher, or a part of one, is refused.
#[derive(Clone, Copy, Debug, PartialEq, Eq)]
pub enum ChainFault {
    /// The bytes are none of the form. The offset is that of the first fault: of the CBOR, else of the head of the first
    /// part that is not of its form, else of the first byte after it. A fault inside a byte string has the offset of that
    /// string's head.
    BadShape(usize),
    /// The hash in the header is not that of the device's certificates, or one of the two is null and the other not.
    BadCertHash,
    /// The entry of this number, from 0, does not hold the hash of the bytes before it.
    BadPrevHash(u8),
    /// The entry does not hold the hash of the header's GUID and DeviceInfo.
    BadInfoHash(u8),
    /// The entry is not signed by the owner before it.
    BadSignature(u8),
    /// A hash of the entry is of an unknown kind, or the suite has no algorithm for its signature.
    NoAlgorithm(u8),
    /// The voucher has more than `MOST_ENTRIES` entries, or would have.
    TooLong,
    /// The voucher does not match the device's credential. No call of this crate answers it.
    NoMatch,
    /// The signer failed, and the suite's count of faults rose in this call.
    Failed,
    /// Memory ran out.
    NoMemory,
}

impl From<NoMemory> for ChainFault {
    ghost from_gives = { λ _ e. e ≡ OutOfMemory };

    fn from(_error: NoMemory) -> ChainFault {
        ChainFault::NoMemory
    }
}

impl From<AllocError> for ChainFault {
    ghost from_gives = { λ _ e. e ≡ OutOfMemory };

    fn from(_error: AllocError) -> ChainFault {
        ChainFault::NoMemory
    }
}

impl<T: Drop> From<AllocFailed<T>> for ChainFault {
    ghost from_gives = { λ _ e. e ≡ OutOfMemory };

    fn from(_error: AllocFailed<T>) -> ChainFault {
        ChainFault::NoMemory
    }
}

/// A fault of the CBOR.
pub(crate) fn shape_fault(fault: CborFault) -> ChainFault
    ensures { IsShape fault result }
{
    match fault {
        CborFault::Truncated(place)
        | CborFault::Malformed(place)
        | CborFault::TooDeep(place)
        | CborFault::Duplicate(place)
        | CborFault::Float(place)
        | CborFault::NotDeterministic(place) => ChainFault::BadShape(place),
        CborFault::NoMemory => ChainFault::NoMemory,
    }
}
