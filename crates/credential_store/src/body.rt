ghost use Rattle.std.specs.Prelude.{◌≡◌, ℕ, ◌<◌, ◌^◌, true, IfOk, IfSome, length, is_some, if◌then◌else◌, Some, None, Ok};
ghost use Rattle.std.specs.Str.{is_utf8};
ghost use Rattle.cbor_core.specs.declared.item.Item.TheVariants as items;
ghost use Rattle.cbor_core.specs.declared.item.Item.{out-Item};
ghost use Rattle.cbor_core.specs.Spots.{start, spot_item, text_in};
ghost use Rattle.hash_hmac.specs.Value.{IsConsistent};
ghost use Rattle.key_codec.specs.Fault.{ok_of};
ghost use Rattle.key_codec.specs.Hash.{hash_in, item_of_hash};
ghost use Rattle.voucher_chain.specs.Header.{guid_in};
ghost use Rattle.credential_store.specs.Parts.{seven_spots};
ghost use Rattle.credential_store.specs.Store.{Reads, IsAt};
ghost use Rattle.credential_store.specs.Body.{is_number, is_rv, rv_bytes_in, secret_in, is_alg, alg_of, credential_with, credential_in, parts_place, place_by_seven, credential_place, item_of_credential, body_of_credential, body_at, IsKept, IsInMemory};

use crate::fault::ImageFault;
use crate::parts::seven;
use cbor_core::{
    Blob, CborFault, Item, Items, NoMemory, Part, Text, exactly, read_det, read_wire, write_det,
};
use hash_hmac::Hash;
use key_codec::{find_hash_fault, hash_item, read_hash};
use std::alloc::Global;
use voucher_chain::{Credential, Guid, read_rv};

fn is_number(number: u64, item: &Item) -> bool
    ensures { result ≡ is_number number (out-Item item.now) }
{
    match item {
        Item::Uint(n) => *n == number,
        _ => false,
    }
}

fn read_guid(item: &Item) -> Option<Guid>
    ensures { result ≡ guid_in item.now }
{
    match item {
        Item::Bytes(bytes) => exactly::<16>(bytes.as_list()),
        _ => None,
    }
}

fn read_secret(item: &Item) -> Option<[u8; 32]>
    ensures { result ≡ secret_in item.now }
{
    match item {
        Item::Bytes(bytes) => exactly::<32>(bytes.as_list()),
        _ => None,
    }
}

fn read_alg(item: &Item) -> Option<u8>
    ensures alg { result ≡ alg_of (out-Item item.now) }
    ensures known { IfSome result (λ n. is_alg n ≡ true) }
{
    match item {
        Item::Uint(n) if *n == 5 || *n == 6 => Some(*n as u8),
        _ => None,
    }
}

/// Whether bytes spell rendezvous information, to their end.
#[tactic(auto, unfolding(crate::specs::Body::is_rv))]
fn is_rv(alloc: Global, bytes: &[u8]) -> Result<bool, NoMemory>
    ensures { IfOk result (λ is. is ≡ is_rv bytes.now) }
{
    match read_wire(alloc, bytes) {
        Ok((item, read)) => {
            if read == bytes.len() {
                Ok(read_rv(alloc, &item)?.is_some())
            } else {
                Ok(false)
            }
        }
        Err(CborFault::NoMemory) => Err(NoMemory),
        Err(_) => Ok(false),
    }
}

fn read_rv_bytes(alloc: Global, item: &Item) -> Result<Option<Blob>, NoMemory>
    ensures rv { IfOk result (λ rv. rv ≡ rv_bytes_in item.now) }
    ensures is { IfOk result (λ rv. IfSome rv (λ bytes. is_rv bytes ≡ true)) }
{
    match item {
        Item::Bytes(bytes) => {
            if is_rv(alloc, bytes.as_list())? {
                Ok(Some(bytes.copy()?))
            } else {
                Ok(None)
            }
        }
        _ => Ok(None),
    }
}

fn read_info(item: &Item) -> Result<Option<Text>, NoMemory>
    ensures { IfOk result (λ info. info ≡ text_in (out-Item item.now)) }
{
    match item {
        Item::Text(text) => Ok(Some(text.copy()?)),
        _ => Ok(None),
    }
}

fn read_key_hash(item: &Item) -> Option<Hash>
    ensures hash { result ≡ ok_of (hash_in item.now) }
    ensures known { IfSome result IsConsistent }
{
    match read_hash(item) {
        Ok(hash) => Some(hash),
        Err(_) => None,
    }
}

/// The credential with these parts behind the version.
fn read_parts(
    alloc: Global,
    guid: &Item,
    rv: &Item,
    info: &Item,
    secret: &Item,
    hash: &Item,
    alg: Option<u8>,
) -> Result<Option<Credential>, NoMemory>
    requires { IfSome alg (λ n. is_alg n ≡ true) }
    ensures credential { IfOk result (λ c. c ≡ credential_with guid.now rv.now info.now secret.now hash.now alg) }
    ensures kept { IfOk result (λ c. IfSome c IsKept) }
{
    let guid = read_guid(guid);
    let rv = read_rv_bytes(alloc, rv)?;
    let info = read_info(info)?;
    match (
        guid,
        rv,
        info,
        read_secret(secret),
        read_key_hash(hash),
        alg,
    ) {
        (Some(guid), Some(rv), Some(info), Some(secret), Some(key_hash), Some(alg)) => {
            Ok(Some(Credential {
                guid,
                rv,
                info,
                secret,
                key_hash,
                alg,
            }))
        }
        _ => Ok(None),
    }
}

/// The credential that the item of a body of so many bytes says.
#[tactic(auto, unfolding(crate::specs::Body::credential_in))]
fn read_item(alloc: Global, length: usize, item: &Item) -> Result<Option<Credential>, NoMemory>
    ensures credential { IfOk result (λ c. c ≡ credential_in length item.now) }
    ensures kept { IfOk result (λ c. IfSome c IsKept) }
{
    let Item::Array(parts) = item else {
        return Ok(None);
    };
    match parts.as_slice() {
        [version, guid, rv, info, secret, hash] => {
            if length <= 8000 && is_number(1, version) {
                read_parts(alloc, guid, rv, info, secret, hash, Some(5))
            } else {
                Ok(None)
            }
        }
        [version, guid, rv, info, secret, hash, alg] => {
            if is_number(2, version) {
                read_parts(alloc, guid, rv, info, secret, hash, read_alg(alg))
            } else {
                Ok(None)
            }
        }
        _ => Ok(None),
    }
}

/// The credential that a body holds, or the place in it of its first fault.
pub(crate) fn read_body(alloc: Global, body: &[u8]) -> Result<Credential, ImageFault>
    ensures read { Reads (body_at body.now) result }
    ensures kept { IfOk result IsKept }
{
    match read_det(alloc, body) {
        Ok((item, read)) => match read_item(alloc, body.len(), &item)? {
            Some(credential) => {
                if read == body.len() {
                    Ok(credential)
                } else {
                    Err(ImageFault::Foreign(read as u64))
                }
            }
            None => Err(ImageFault::Foreign(find_body_fault(alloc, body)?)),
        },
        Err(fault) => Err(cbor_fault(fault)),
    }
}

/// A fault of the deterministic encoding.
fn cbor_fault(fault: CborFault) -> ImageFault
    ensures { IsAt fault result }
{
    match fault {
        CborFault::Truncated(place)
        | CborFault::Malformed(place)
        | CborFault::TooDeep(place)
        | CborFault::Duplicate(place)
        | CborFault::Float(place)
        | CborFault::NotDeterministic(place) => ImageFault::Foreign(place as u64),
        CborFault::NoMemory => ImageFault::NoMemory,
    }
}

/// Where a body in the deterministic encoding that holds no credential is not of its form.
fn find_body_fault(alloc: Global, body: &[u8]) -> Result<u64, NoMemory>
    ensures { IfOk result (λ at. at ≡ credential_place (length body.now) (start body.now)) }
{
    match Part::open(alloc, body) {
        Ok((part, _read)) => Ok(find_fault(alloc, body.len(), &part)? as u64),
        // What was read as deterministic is read again, so it is memory that lacks.
        Err(_) => Err(NoMemory),
    }
}

/// Where a body of so many bytes that holds no credential is not of its form.
#[tactic(auto, unfolding(crate::specs::Body::credential_place))]
fn find_fault(alloc: Global, length: usize, body: &Part) -> Result<usize, NoMemory>
    ensures { IfOk result (λ at. at ≡ credential_place length body.now.spot) }
{
    match body.six() {
        Some((version, guid, rv, info, secret, hash)) => {
            if length > 8000 {
                return Ok(body.at());
            }
            if !is_number(1, &version.item(alloc)?) {
                return Ok(version.at());
            }
            find_part_fault(alloc, &guid, &rv, &info, &secret, &hash, body.at())
        }
        None => find_second_fault(alloc, body),
    }
}

/// In what is not of version 1.
fn find_second_fault(alloc: Global, body: &Part) -> Result<usize, NoMemory>
    ensures { IfOk result (λ at. at ≡ place_by_seven body.now.spot.at (seven_spots body.now.spot)) }
{
    match seven(body) {
        Some((version, guid, rv, info, secret, hash, alg)) => {
            if !is_number(2, &version.item(alloc)?) {
                return Ok(version.at());
            }
            find_part_fault(alloc, &guid, &rv, &info, &secret, &hash, alg.at())
        }
        None => Ok(body.at()),
    }
}

/// Of the parts behind the version, where `last` is the place of the last one's fault.
fn find_part_fault(
    alloc: Global,
    guid: &Part,
    rv: &Part,
    info: &Part,
    secret: &Part,
    hash: &Part,
    last: usize,
) -> Result<usize, NoMemory>
    ensures { IfOk result (λ place. place ≡ parts_place guid.now.spot rv.now.spot info.now.spot secret.now.spot hash.now.spot last) }
{
    if read_guid(&guid.item(alloc)?).is_none() {
        return Ok(guid.at());
    }
    if read_rv_bytes(alloc, &rv.item(alloc)?)?.is_none() {
        return Ok(rv.at());
    }
    if !info.is_text() {
        return Ok(info.at());
    }
    if read_secret(&secret.item(alloc)?).is_none() {
        return Ok(secret.at());
    }
    if read_key_hash(&hash.item(alloc)?).is_none() {
        return Ok(find_hash_fault(hash));
    }
    Ok(last)
}

/// The item that a credential is written as.
fn credential_item(alloc: Global, credential: &Credential) -> Result<Item, NoMemory>
    ensures item { IfOk result (λ item. item ≡ item_of_credential credential.now) }
    ensures memory { IfOk result (λ item. IsInMemory credential.now) }
{
    let mut parts = Items::new(alloc);
    parts.push(Item::Uint(2))?;
    parts.push(guid_item(alloc, credential.guid)?)?;
    parts.push(bytes_item(alloc, credential.rv.as_list())?)?;
    parts.push(text_item(alloc, credential.info.as_list())?)?;
    parts.push(secret_item(alloc, credential.secret)?)?;
    parts.push(key_hash_item(alloc, credential.key_hash)?)?;
    parts.push(Item::Uint(credential.alg as u64))?;
    Ok(Item::Array(parts))
}

fn guid_item(alloc: Global, guid: Guid) -> Result<Item, NoMemory>
    ensures item { IfOk result (λ item. item ≡ items.Bytes guid) }
    ensures length { length guid ≡ 16 }
{
    Ok(Item::Bytes(Blob::from_slice(alloc, &guid)?))
}

fn secret_item(alloc: Global, secret: [u8; 32]) -> Result<Item, NoMemory>
    ensures item { IfOk result (λ item. item ≡ items.Bytes secret) }
    ensures length { length secret ≡ 32 }
{
    Ok(Item::Bytes(Blob::from_slice(alloc, &secret)?))
}

fn key_hash_item(alloc: Global, hash: Hash) -> Result<Item, NoMemory>
    ensures item { IfOk result (λ item. item ≡ item_of_hash hash) }
    ensures length { length hash.bytes ≡ 48 }
{
    hash_item(alloc, &hash)
}

fn bytes_item(alloc: Global, bytes: &[u8]) -> Result<Item, NoMemory>
    ensures item { IfOk result (λ item. item ≡ items.Bytes bytes.now) }
    ensures length { length bytes.now < 2 ^ 64 }
{
    Ok(Item::Bytes(Blob::from_slice(alloc, bytes)?))
}

fn text_item(alloc: Global, text: &str) -> Result<Item, NoMemory>
    ensures item { IfOk result (λ item. item ≡ items.Text text.now) }
    ensures length { length text.now < 2 ^ 64 }
    ensures utf8 { is_utf8 text.now ≡ true }
{
    Ok(Item::Text(Text::from_str(alloc, text)?))
}

/// The body that a credential is written as.
#[tactic(auto, using(crate::proofs::BodyBack::body_back, crate::proofs::BodyBack::credential_fits))]
pub(crate) fn write_body(alloc: Global, credential: &Credential) -> Result<Blob, NoMemory>
    ensures body { IfOk result (λ body. body ≡ body_of_credential credential.now) }
    ensures back { IsKept credential.now → IfOk result (λ body. body_at body ≡ Ok credential.now) }
{
    let item = credential_item(alloc, credential)?;
    write_det(alloc, &item)
}
