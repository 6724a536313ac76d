/// Why a file is refused that a device was sent. Places count the pairs of the module, from 0.
#[derive(Clone, Copy, Debug, PartialEq, Eq)]
pub enum DownFault {
    /// The pair of this place is not the one that is next; or so many pairs came, and the hash is not among them.
    Order(u64),
    /// The value of the pair of this place is not of its form.
    BadValue(u64),
    /// The file is to have so many bytes, which is more than the device takes.
    TooLarge(u64),
    /// So many bytes came, which is more than were announced.
    TooLong(u64),
    /// Fewer bytes came than were announced.
    Cut { said: u64, got: u64 },
    /// The bytes have another SHA-384 hash than was announced.
    HashDiffers { said: [u8; 48], got: [u8; 48] },
}
