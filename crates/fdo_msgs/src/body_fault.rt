ghost use Rattle.std.specs.Prelude.{◌≡◌, IfOk};
ghost use Rattle.fdo_msgs.specs.declared.body_fault.BodyFault.TheVariants.{NoMemory as OutOfMemory};

use cbor_core::NoMemory;
use std::alloc::{AllocError, AllocFailed};

/// Why a body is not read.
#[derive(Clone, Copy, Debug, PartialEq, Eq)]
pub enum BodyFault {
    /// The bytes are no body of the type; the offset of the first fault.
    Body(usize),
    NoMemory,
}

impl From<NoMemory> for BodyFault {
    ghost from_gives = { λ _ e. e ≡ OutOfMemory };

    fn from(_error: NoMemory) -> BodyFault {
        BodyFault::NoMemory
    }
}

impl From<AllocError> for BodyFault {
    ghost from_gives = { λ _ e. e ≡ OutOfMemory };

    fn from(_error: AllocError) -> BodyFault {
        BodyFault::NoMemory
    }
}

impl<T: Drop> From<AllocFailed<T>> for BodyFault {
    ghost from_gives = { λ _ e. e ≡ OutOfMemory };

    fn from(_error: AllocFailed<T>) -> BodyFault {
        BodyFault::NoMemory
    }
}
