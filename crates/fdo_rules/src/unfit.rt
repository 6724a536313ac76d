ghost use Rattle.std.specs.Prelude.{◌≡◌};
ghost use Rattle.fdo_rules.specs.declared.unfit.Unfit.TheVariants.{NoMemory as OutOfMemory};

use cbor_core::NoMemory;
use fdo_msgs::Cause;
use std::alloc::{AllocError, AllocFailed};

/// Why a message has no answer but a refusal, or none at all.
#[derive(Clone, Copy, Debug, PartialEq, Eq)]
pub enum Unfit {
    /// It is refused.
    For(Cause),
    NoMemory,
}

impl From<NoMemory> for Unfit {
    ghost from_gives = { λ _ e. e ≡ OutOfMemory };

    fn from(_error: NoMemory) -> Unfit {
        Unfit::NoMemory
    }
}

impl From<AllocError> for Unfit {
    ghost from_gives = { λ _ e. e ≡ OutOfMemory };

    fn from(_error: AllocError) -> Unfit {
        Unfit::NoMemory
    }
}

impl<T: Drop> From<AllocFailed<T>> for Unfit {
    ghost from_gives = { λ _ e. e ≡ OutOfMemory };

    fn from(_error: AllocFailed<T>) -> Unfit {
        Unfit::NoMemory
    }
}
