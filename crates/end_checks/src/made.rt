ghost use Rattle.std.specs.Prelude.{◌≡◌, ◌<◌, ◌^◌, length, true, IfOk};
ghost use Rattle.cbor_core.specs.Deterministic.{det};
ghost use Rattle.voucher_chain.specs.RvInfo.{item_of_rv};
ghost use Rattle.credential_store.specs.Body.{is_rv, IsKept};
ghost use Rattle.fdo_rules.specs.Made.{credential_of as credential_made, hash_by as hash_made, hmac_of as hmac_made, mac_by as mac_made, mac_kind as mac_kind_by, mac_number as mac_number_by};

use cbor_core::{Blob, NoMemory, write_det};
use hash_hmac::{HMAC_SHA256, HMAC_SHA384, HMac, Hash, SHA256, SHA384, hash_of, hmac_of};
use std::alloc::Global;
use voucher_chain::{Credential, Header, RvInfo, rv_item, strength};

/// The credential that a header gives under a secret.
#[tactic(auto, unfolding(fdo_rules::specs::Made::credential_of))]
pub fn credential_of(
    alloc: Global,
    header: &Header,
    secret: [u8; 32],
) -> Result<Credential, NoMemory>
    ensures made { IfOk result (λ c. c ≡ credential_made header.now header.now.key_raw secret) }
    ensures kept { IfOk result IsKept }
{
    let strength = strength(&header.key);
    let key_hash = hash_by(strength, header.key_raw.as_list());
    let rv = rv_bytes(alloc, &header.rv)?;
    Ok(Credential {
        guid: header.guid,
        rv,
        info: header.info.copy()?,
        secret,
        key_hash,
        alg: mac_number(strength),
    })
}

ghost use Rattle.hash_hmac.specs.Value.{IsConsistent};

/// The hash of a text of a strength: SHA-384 for 384, else SHA-256.
#[tactic(auto, using(crate::proofs::ByStrength::sha256_is, crate::proofs::ByStrength::sha384_is), unfolding(fdo_rules::specs::Made::hash_by))]
pub fn hash_by(bits: u16, text: &[u8]) -> Hash
    ensures hash { result ≡ hash_made bits text.now }
    ensures consistent { IsConsistent result }
{
    if bits == 384 {
        hash_of(SHA384, text, &[]).unwrap()
    } else {
        hash_of(SHA256, text, &[]).unwrap()
    }
}

/// The kind of HMAC of a strength.
fn mac_kind(bits: u16) -> i64
    ensures { result ≡ mac_kind_by bits }
{
    if bits == 384 {
        HMAC_SHA384
    } else {
        HMAC_SHA256
    }
}

/// Its number in a credential.
fn mac_number(bits: u16) -> u8
    ensures { result ≡ mac_number_by bits }
{
    if bits == 384 { 6 } else { 5 }
}

/// The HMAC of a text of a strength under a secret.
#[tactic(auto, using(crate::proofs::ByStrength::mac_is))]
pub fn mac_by(bits: u16, secret: &[u8], text: &[u8]) -> HMac
    ensures { result ≡ mac_made bits secret.now text.now }
{
    match hmac_of(mac_kind(bits), secret, text) {
        Some(hmac) => hmac,
        None => unreachable!(),
    }
}

/// The bytes that rendezvous information is written as.
#[tactic(auto, using(crate::proofs::RvBack::rv_is))]
fn rv_bytes(alloc: Global, rv: &RvInfo) -> Result<Blob, NoMemory>
    ensures bytes { IfOk result (λ bytes. bytes ≡ det (item_of_rv rv.now)) }
    ensures is { IfOk result (λ bytes. is_rv bytes ≡ true) }
{
    let item = rv_item(alloc, rv)?;
    let bytes = write_det(alloc, &item)?;
    are_bytes(bytes.as_list());
    Ok(bytes)
}

fn are_bytes(bytes: &[u8])
    ensures { length bytes.now < 2 ^ 64 }
{}

/// The HMAC of a header under a secret.
pub fn header_hmac(header: &Header, secret: &[u8]) -> HMac
    ensures { result ≡ hmac_made header.now secret.now }
{
    mac_by(strength(&header.key), secret, header.raw.as_list())
}
