ghost use Rattle.std.specs.Prelude.{◌≡◌};
ghost use Rattle.voucher_chain.specs.Extended.{strength_of, hash_kind, is_long as is_long_body};

use hash_hmac::{SHA256, SHA384};
use key_codec::{KeyBody, LABORATORY, PublicKey, SECP384R1};

/// How strong the hashes are that are made for a header with this key, in bits: 384 for keys on P-384 and for laboratory
/// keys of more than 16 bytes, else 256. It takes no memory.
pub fn strength(key: &PublicKey) -> u16
    ensures { result ≡ strength_of key.now }
{
    match key.kind {
        SECP384R1 => 384,
        LABORATORY => { if is_long(&key.body) { 384 } else { 256 } }
        _ => 256,
    }
}

fn is_long(body: &KeyBody) -> bool
    ensures { result ≡ is_long_body body.now }
{
    match body {
        KeyBody::Bytes(bytes) => bytes.as_list().len() > 16,
        _ => false,
    }
}

/// The kind of hash of a strength: SHA-384 (-43) for 384, else SHA-256 (-16).
pub fn hash_kind_of(strength: u16) -> i64
    ensures { result ≡ hash_kind strength }
{
    if strength == 384 { SHA384 } else { SHA256 }
}
