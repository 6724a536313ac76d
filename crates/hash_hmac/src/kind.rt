ghost use Rattle.std.specs.Prelude.{◌≡◌};
ghost use Rattle.hash_hmac.specs.Kind.{length_of as length_of_kind};

/// The kind of a SHA-256 hash (FIPS 180-4, section 6.2): 32 bytes.
pub const SHA256: i64 = -16;

/// The kind of a SHA-384 hash (FIPS 180-4, section 6.5): 48 bytes.
pub const SHA384: i64 = -43;

/// The kind of an HMAC by SHA-256 (RFC 2104): 32 bytes.
pub const HMAC_SHA256: i64 = 5;

/// The kind of an HMAC by SHA-384 (RFC 2104): 48 bytes.
pub const HMAC_SHA384: i64 = 6;

/// How many bytes a hash or HMAC of a kind has: 32 or 48. None for a kind that is not known (FIDO Device Onboard
/// 1.1, section 3.3.2).
pub fn length_of(kind: i64) -> Option<u8>
    ensures { result ≡ length_of_kind kind }
{
    match kind {
        SHA256 | HMAC_SHA256 => Some(32),
        SHA384 | HMAC_SHA384 => Some(48),
        _ => None,
    }
}
