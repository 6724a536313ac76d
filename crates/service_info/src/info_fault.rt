ghost use Rattle.std.specs.Prelude.{◌≡◌};
ghost use Rattle.service_info.specs.declared.info_fault.InfoFault.TheVariants.{NoMemory as OutOfMemory};

use crate::devmod_key::DevmodKey;
use cbor_core::NoMemory;
use std::alloc::{AllocError, AllocFailed};

/// Why ServiceInfo is refused.
#[derive(Clone, Copy, Debug, PartialEq, Eq)]
pub enum InfoFault {
    /// The pair of this place, from 0, passes the size of a message though it stands there alone.
    TooWide(usize),
    /// A key is not a module's name, a colon and a message's.
    BadKey,
    /// The devmod has no value of its type for a key that it needs, the first of these.
    MissingDevmod(DevmodKey),
    /// The names of modules do not fill their places one after another. The number is the first place at which they
    /// differ from that, or how many modules were announced where there are more.
    BadModules(u64),
    /// The other side said that it has more to send, or ends while it says so.
    NotYourTurn,
    /// Memory ran out.
    NoMemory,
}

impl From<NoMemory> for InfoFault {
    ghost from_gives = { λ _ e. e ≡ OutOfMemory };

    fn from(_error: NoMemory) -> InfoFault {
        InfoFault::NoMemory
    }
}

impl From<AllocError> for InfoFault {
    ghost from_gives = { λ _ e. e ≡ OutOfMemory };

    fn from(_error: AllocError) -> InfoFault {
        InfoFault::NoMemory
    }
}

impl<T: Drop> From<AllocFailed<T>> for InfoFault {
    ghost from_gives = { λ _ e. e ≡ OutOfMemory };

    fn from(_error: AllocFailed<T>) -> InfoFault {
        InfoFault::NoMemory
    }
}
