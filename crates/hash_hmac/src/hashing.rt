ghost use Rattle.std.specs.Prelude.{◌≡◌, ◌≢◌, ◌↔◌, ◌++◌, IfSome, IsNone};
ghost use Rattle.std.specs.Option.{option_map};
ghost use Rattle.sha2.specs.Sha256.{sha256};
ghost use Rattle.sha2.specs.Sha512.{sha384};
ghost use Rattle.hash_hmac.specs.Hashing.{hashed};
ghost use Rattle.hash_hmac.specs.Kind.{sha256_kind, sha384_kind};
ghost use Rattle.hash_hmac.specs.Value.{IsConsistent, content as content_of, hash_value};

use crate::hash::Hash;
use crate::kind::{SHA256, SHA384};
use sha2::{Digest, Sha256, Sha384};

/// The hash of two texts in a row (FIPS 180-4, sections 6.2 and 6.5): SHA-256 for the kind -16, SHA-384 for -43.
/// Each text has any length, zero too, and neither is copied. None exactly where the kind is neither.
#[tactic(auto, unfolding(crate::specs::Hashing::hashed))]
pub fn hash_of(kind: i64, first: &[u8], second: &[u8]) -> Option<Hash>
    ensures value { result ≡ option_map (hash_value kind) (hashed kind (first.now ++ second.now)) }
    ensures content { option_map content_of result ≡ hashed kind (first.now ++ second.now) }
    ensures none { IsNone result ↔ ((kind ≢ sha256_kind) × (kind ≢ sha384_kind)) }
    ensures consistent { IfSome result IsConsistent }
{
    match kind {
        SHA256 => Some(Hash::filled(kind, &sha256_of(first, second))),
        SHA384 => Some(Hash::filled(kind, &sha384_of(first, second))),
        _ => None,
    }
}

/// SHA-256 of two texts in a row.
pub(crate) fn sha256_of(first: &[u8], second: &[u8]) -> [u8; 32]
    ensures { result ≡ sha256 (first.now ++ second.now) }
{
    let mut hasher = Sha256::new();
    hasher.update(first);
    hasher.update(second);
    hasher.finalize()
}

/// SHA-384 of two texts in a row.
pub(crate) fn sha384_of(first: &[u8], second: &[u8]) -> [u8; 48]
    ensures { result ≡ sha384 (first.now ++ second.now) }
{
    let mut hasher = Sha384::new();
    hasher.update(first);
    hasher.update(second);
    hasher.finalize()
}
