ghost use Rattle.std.specs.Prelude.{◌≡◌};

use cbor_core::NoMemory;
use std::alloc::AllocError;

/// Why the bytes of a file are not read.
#[derive(Clone, Copy, Debug, PartialEq, Eq)]
pub enum ImageFault {
    /// They stand for nothing: the offset is that of the first fault of the body that counts.
    Foreign(u64),
    /// Memory ran out.
    NoMemory,
}

/// Why a store is not opened.
#[derive(Clone, Copy, Debug, PartialEq, Eq)]
pub enum OpenFault {
    /// The disk failed, and its count of faults rose in this call.
    Disk,
    /// The file stands for nothing: the offset in it is that of the first fault of the body that counts.
    Foreign(u64),
    /// Memory ran out.
    NoMemory,
}

/// Why a credential is not reserved.
#[derive(Clone, Copy, Debug, PartialEq, Eq)]
pub enum ReserveFault {
    /// Its body has so many bytes, which are more than 8,100.
    TooBig(usize),
    /// Memory ran out.
    NoMemory,
}

impl From<NoMemory> for ImageFault {
    ghost use Rattle.credential_store.specs.declared.fault.ImageFault.TheVariants as image;

    ghost from_gives = { λ _ e. e ≡ image.NoMemory };

    fn from(_error: NoMemory) -> ImageFault {
        ImageFault::NoMemory
    }
}

impl From<NoMemory> for ReserveFault {
    ghost use Rattle.credential_store.specs.declared.fault.ReserveFault.TheVariants as reserving;

    ghost from_gives = { λ _ e. e ≡ reserving.NoMemory };

    fn from(_error: NoMemory) -> ReserveFault {
        ReserveFault::NoMemory
    }
}

impl From<AllocError> for ReserveFault {
    ghost use Rattle.credential_store.specs.declared.fault.ReserveFault.TheVariants as reserving;

    ghost from_gives = { λ _ e. e ≡ reserving.NoMemory };

    fn from(_error: AllocError) -> ReserveFault {
        ReserveFault::NoMemory
    }
}
