ghost use Rattle.std.specs.Prelude.{◌≡◌};
ghost use Rattle.key_codec.specs.Key.{is_key_type as is_known_type};

/// RSA with 2,048 bits and the exponent 65,537.
pub const RSA2048RESTR: i64 = 1;

/// RSA by PKCS 1.
pub const RSAPKCS: i64 = 5;

/// RSA by PSS.
pub const RSAPSS: i64 = 6;

/// The curve P-256.
pub const SECP256R1: i64 = 10;

/// The curve P-384.
pub const SECP384R1: i64 = 11;

/// Keys of the laboratory suite, of our own.
pub const LABORATORY: i64 = 200;

/// Signatures by hash trees (RFC 8554), of our own.
pub const HSS_LMS: i64 = 201;

/// Whether a number is a type of key (FIDO Device Onboard 1.1, "Public Key"), or one of the two of our own.
pub fn is_key_type(kind: i64) -> bool
    ensures { result ≡ is_known_type kind }
{
    matches!(
        kind,
        RSA2048RESTR | RSAPKCS | RSAPSS | SECP256R1 | SECP384R1 | LABORATORY | HSS_LMS
    )
}
