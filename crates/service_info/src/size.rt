ghost use Rattle.std.specs.Prelude.{◌≡◌};
ghost use Rattle.service_info.specs.Size.{size_stated};

/// The size of a side that states none, in bytes.
pub const USUAL_SIZE: u64 = 1_300;

/// The least size that counts, in bytes.
pub const LEAST_SIZE: u64 = 256;

/// The greatest size that counts, in bytes.
pub const MOST_SIZE: u64 = 65_535;

/// How many bytes the list of pairs in one message may have, by the size that the other side stated, or by none (FIDO
/// Device Onboard 1.1, section 5.5.7).
pub fn size_of(stated: Option<u64>) -> u64
    ensures { result ≡ size_stated stated }
{
    match stated {
        None => USUAL_SIZE,
        Some(size) => size.max(LEAST_SIZE).min(MOST_SIZE),
    }
}
