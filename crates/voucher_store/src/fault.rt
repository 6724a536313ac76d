ghost use Rattle.std.specs.Prelude.{◌≡◌};

use cbor_core::NoMemory;

/// Why the bytes of a file are not read.
#[derive(Clone, Copy, Debug, PartialEq, Eq)]
pub enum ImageFault {
    /// They stand for nothing: the offset is that of the first fault.
    Foreign(u64),
    /// Memory ran out.
    NoMemory,
}

impl From<NoMemory> for ImageFault {
    ghost use Rattle.voucher_store.specs.declared.fault.ImageFault.TheVariants as image;

    ghost from_gives = { λ _ e. e ≡ image.NoMemory };

    fn from(_error: NoMemory) -> ImageFault {
        ImageFault::NoMemory
    }
}

/// Why a store is not opened.
#[derive(Clone, Copy, Debug, PartialEq, Eq)]
pub enum OpenFault {
    /// The disk failed, and its count of faults rose in this call.
    Disk,
    /// The file stands for no vouchers: the offset in it is that of the first fault.
    Foreign(u64),
    /// Memory ran out.
    NoMemory,
}
