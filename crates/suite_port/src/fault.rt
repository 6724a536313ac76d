ghost use Rattle.std.specs.Prelude.{◌≡◌};
ghost use Rattle.suite_port.specs.declared.fault.SuiteFault.TheVariants.{NoMemory as OutOfMemory};

use std::alloc::{AllocError, AllocFailed};

/// Why a suite gave no answer.
#[derive(Clone, Copy, Debug, PartialEq, Eq)]
pub enum SuiteFault {
    /// The suite has no such algorithm, or the bytes handed in are none of its keys, parts or certificates.
    NoAlgorithm,
    /// The object behind the suite failed, and the suite's count of faults rose in this call. Only `load`, `sign` and
    /// `issue` answer this.
    Failed,
    /// Memory ran out.
    NoMemory,
}

impl From<AllocError> for SuiteFault {
    ghost from_gives = { λ _ e. e ≡ OutOfMemory };

    fn from(_error: AllocError) -> SuiteFault {
        SuiteFault::NoMemory
    }
}

impl<T: Drop> From<AllocFailed<T>> for SuiteFault {
    ghost from_gives = { λ _ e. e ≡ OutOfMemory };

    fn from(_error: AllocFailed<T>) -> SuiteFault {
        SuiteFault::NoMemory
    }
}
