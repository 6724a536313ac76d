ghost use Rattle.std.specs.Prelude.{◌≡◌, ◌≢◌, ◌↔◌, IfSome, IsNone};
ghost use Rattle.std.specs.Option.{option_map};
ghost use Rattle.sha2.specs.Sha256.{sha256};
ghost use Rattle.sha2.specs.Sha512.{sha384};
ghost use Rattle.hash_hmac.specs.Hmac.{hmac_sha256 as hmac_sha256_of, hmac_sha384 as hmac_sha384_of, key_block, maced};
ghost use Rattle.hash_hmac.specs.Kind.{hmac_sha256_kind, hmac_sha384_kind};
ghost use Rattle.hash_hmac.specs.Value.{IsConsistent, content as content_of, hash_value};

use crate::bytes::{padded, xored};
use crate::hash::HMac;
use crate::hashing::{sha256_of, sha384_of};
use crate::kind::{HMAC_SHA256, HMAC_SHA384};
use sha2::{Digest, Sha256, Sha384};

const INNER: u8 = 0x36;

const OUTER: u8 = 0x5c;

/// The HMAC of a text under a secret (RFC 2104, section 2): HMAC-SHA-256 for the kind 5, HMAC-SHA-384 for 6. Secret
/// and text have any length, zero too; a secret longer than a block of the hash, 64 or 128 bytes, is hashed first.
/// None exactly where the kind is neither.
#[tactic(auto, unfolding(crate::specs::Hmac::maced))]
pub fn hmac_of(kind: i64, secret: &[u8], text: &[u8]) -> Option<HMac>
    ensures value { result ≡ option_map (hash_value kind) (maced kind secret.now text.now) }
    ensures content { option_map content_of result ≡ maced kind secret.now text.now }
    ensures none { IsNone result ↔ ((kind ≢ hmac_sha256_kind) × (kind ≢ hmac_sha384_kind)) }
    ensures consistent { IfSome result IsConsistent }
{
    match kind {
        HMAC_SHA256 => Some(HMac::filled(kind, &hmac_sha256(secret, text))),
        HMAC_SHA384 => Some(HMac::filled(kind, &hmac_sha384(secret, text))),
        _ => None,
    }
}

/// HMAC-SHA-256 of a text under a secret.
#[tactic(auto, unfolding(crate::specs::Hmac::hmac))]
pub(crate) fn hmac_sha256(secret: &[u8], text: &[u8]) -> [u8; 32]
    ensures { result ≡ hmac_sha256_of secret.now text.now }
{
    let key = key_block_64(secret);
    let inner = sha256_of(&xored(&key, INNER), text);
    sha256_of(&xored(&key, OUTER), &inner)
}

/// HMAC-SHA-384 of a text under a secret.
#[tactic(auto, unfolding(crate::specs::Hmac::hmac))]
pub(crate) fn hmac_sha384(secret: &[u8], text: &[u8]) -> [u8; 48]
    ensures { result ≡ hmac_sha384_of secret.now text.now }
{
    let key = key_block_128(secret);
    let inner = sha384_of(&xored(&key, INNER), text);
    sha384_of(&xored(&key, OUTER), &inner)
}

/// The secret as a block of SHA-256.
fn key_block_64(secret: &[u8]) -> [u8; 64]
    ensures { result ≡ key_block sha256 64 secret.now }
{
    if secret.len() > 64 {
        padded(&Sha256::digest(secret))
    } else {
        padded(secret)
    }
}

/// The secret as a block of SHA-384.
fn key_block_128(secret: &[u8]) -> [u8; 128]
    ensures { result ≡ key_block sha384 128 secret.now }
{
    if secret.len() > 128 {
        padded(&Sha384::digest(secret))
    } else {
        padded(secret)
    }
}
