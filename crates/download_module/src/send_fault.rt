ghost use Rattle.std.specs.Prelude.{◌≡◌};
ghost use Rattle.download_module.specs.declared.send_fault.SendFault.TheVariants.{NoMemory as OutOfMemory};

use cbor_core::NoMemory;

/// Why a file is not sent.
#[derive(Clone, Copy, Debug, PartialEq, Eq)]
pub enum SendFault {
    /// Its name is not 1 to 64 letters, digits, `.`, `-` or `_`.
    BadName,
    /// It has so many bytes, more than `LONGEST_FILE`.
    TooLarge(u64),
    /// Memory ran out.
    NoMemory,
}

impl From<NoMemory> for SendFault {
    ghost from_gives = { λ _ e. e ≡ OutOfMemory };

    fn from(_error: NoMemory) -> SendFault {
        SendFault::NoMemory
    }
}
