ghost use Rattle.std.specs.Prelude.{◌≡◌, Ok, IfOk};
ghost use Rattle.cbor_core.specs.declared.item.Item.{out-Item};
ghost use Rattle.cbor_core.specs.Spots.{Spot, spot_item};
ghost use Rattle.voucher_chain.specs.declared.header.Header.{Header};
ghost use Rattle.voucher_chain.specs.Fault.{Reads};
ghost use Rattle.voucher_chain.specs.Header.{is_version as is_the_version, guid_in, header_of, header_seen, header_place, header_at, IsHeader, item_of_header, item_of_maybe_hash, header_with, maybe_hash_in};
ghost use Rattle.key_codec.specs.Fault.{ok_of};
ghost use Rattle.key_codec.specs.Key.{key_in};

use crate::fault::{ChainFault, shape_fault};
use crate::rv_info::{RvInfo, find_rv_fault, read_rv, rv_item};
use crate::voucher::are_bytes;
use cbor_core::{Blob, Item, Items, NoMemory, Part, Text, exactly, write_det};
use hash_hmac::Hash;
use key_codec::{
    KeyFault, PublicKey, find_hash_fault, find_key_fault, hash_item, key_bytes, key_item,
    read_hash_part, read_key,
};
use std::alloc::Global;

/// A device's identifier in a voucher and a credential: 16 bytes (FIDO Device Onboard 1.1, section 3.3.1).
pub type Guid = [u8; 16];

/// The header of an ownership voucher (FIDO Device Onboard 1.1, section 3.4.2, "OVHeader").
#[derive(Debug, Drop)]
pub struct Header {
    /// Its bytes as received, which spell the other fields.
    pub raw: Blob,
    pub guid: Guid,
    pub rv: RvInfo,
    /// DeviceInfo: what the manufacturer says of the device.
    pub info: Text,
    /// The manufacturer's key, the first owner's.
    pub key: PublicKey,
    /// The bytes of the key as received.
    pub key_raw: Blob,
    /// The hash of the device's certificate chain.
    pub chain_hash: Option<Hash>,
}

impl Header {
    /// An equal header.
    pub fn copy(&self, alloc: Global) -> Result<Header, NoMemory>
        ensures { IfOk result (λ copy. copy ≡ self.now) }
    {
        Ok(Header {
            raw: self.raw.copy()?,
            guid: self.guid,
            rv: self.rv.copy(alloc)?,
            info: self.info.copy()?,
            key: self.key.copy(alloc)?,
            key_raw: self.key_raw.copy()?,
            chain_hash: self.chain_hash,
        })
    }
}

/// The header that bytes spell, all of them. Its only refusals are `BadShape` and `NoMemory`.
pub fn read_header(alloc: Global, bytes: &[u8]) -> Result<Header, ChainFault>
    // What is read is spelled.
    ensures found { IfOk result (IsHeader bytes.now) }
    // What is spelled is read, unless memory runs out.
    ensures only { (header : Header) → IsHeader bytes.now header → Reads (Ok header) result }
    // Where the first fault stands.
    ensures exact { Reads (header_at bytes.now) result }
    // It keeps the bytes that were read.
    ensures raw { IfOk result (λ header. header.raw ≡ bytes.now) }
{
    read_whole(alloc, bytes)
}

fn read_whole(alloc: Global, bytes: &[u8]) -> Result<Header, ChainFault>
    ensures { Reads (header_at bytes.now) result }
{
    match Part::open(alloc, bytes) {
        Ok((part, read)) => match read_part(alloc, &part)? {
            Some(header) => {
                if read == bytes.len() {
                    Ok(header)
                } else {
                    Err(ChainFault::BadShape(read))
                }
            }
            None => Err(ChainFault::BadShape(find_fault(alloc, &part)?)),
        },
        Err(fault) => Err(shape_fault(fault)),
    }
}

#[tactic(auto, unfolding(crate::specs::Header::header_seen))]
fn read_part(alloc: Global, part: &Part) -> Result<Option<Header>, NoMemory>
    ensures { IfOk result (λ header. header ≡ header_seen part.now.spot) }
{
    match part.six() {
        Some((version, guid, rv, info, key, hash)) => {
            if is_version(&version) {
                read_parts(alloc, part, &guid, &rv, &info, &key, &hash)
            } else {
                Ok(None)
            }
        }
        None => Ok(None),
    }
}

pub(crate) fn is_version(part: &Part) -> bool
    ensures { result ≡ is_the_version (out-Item (spot_item part.now.spot)) }
{
    matches!((part.major(), part.number()), (0, Some(101)))
}

ghost use Rattle.voucher_chain.specs.Header.{header_values};

fn read_parts(
    alloc: Global,
    header: &Part,
    guid: &Part,
    rv: &Part,
    info: &Part,
    key: &Part,
    hash: &Part,
) -> Result<Option<Header>, NoMemory>
    ensures { IfOk result (λ value. value ≡ header_values header.now.spot guid.now.spot rv.now.spot info.now.spot key.now.spot hash.now.spot) }
{
    let Some(guid) = read_guid(alloc, guid)? else {
        return Ok(None);
    };
    let rv = read_rv_part(alloc, rv)?;
    let info = info.text(alloc)?;
    let own = read_key_part(alloc, key)?;
    let hash = read_maybe_hash(alloc, hash)?;
    match (rv, info, own, hash) {
        (Some(rv), Some(info), Some(own), Some(chain_hash)) => Ok(Some(Header {
            raw: Blob::from_slice(alloc, header.raw())?,
            guid,
            rv,
            info,
            key: own,
            key_raw: Blob::from_slice(alloc, key.raw())?,
            chain_hash,
        })),
        _ => Ok(None),
    }
}

/// A GUID: a byte string of 16 bytes.
fn read_guid(alloc: Global, part: &Part) -> Result<Option<Guid>, NoMemory>
    ensures { IfOk result (λ guid. guid ≡ guid_in (spot_item part.now.spot)) }
{
    match part.bytes(alloc)? {
        Some(bytes) => Ok(exactly::<16>(bytes.as_list())),
        None => Ok(None),
    }
}

ghost use Rattle.voucher_chain.specs.RvInfo.{rv_in};

fn read_rv_part(alloc: Global, part: &Part) -> Result<Option<RvInfo>, NoMemory>
    ensures { IfOk result (λ rv. rv ≡ rv_in (spot_item part.now.spot)) }
{
    let item = part.item(alloc)?;
    read_rv(alloc, &item)
}

/// The key that a part is.
pub(crate) fn read_key_part(alloc: Global, part: &Part) -> Result<Option<PublicKey>, NoMemory>
    ensures { IfOk result (λ key. key ≡ ok_of (key_in (spot_item part.now.spot))) }
{
    let item = part.item(alloc)?;
    match read_key(alloc, &item) {
        Ok(key) => Ok(Some(key)),
        Err(KeyFault::NoMemory) => Err(NoMemory),
        Err(_) => Ok(None),
    }
}

fn read_maybe_hash(alloc: Global, part: &Part) -> Result<Option<Option<Hash>>, NoMemory>
    ensures { IfOk result (λ hash. hash ≡ maybe_hash_in (spot_item part.now.spot)) }
{
    if part.is_null() {
        return Ok(Some(None));
    }
    match read_hash_part(alloc, part)? {
        Some(hash) => Ok(Some(Some(hash))),
        None => Ok(None),
    }
}

/// Where a part that is no header is not of its form.
#[tactic(auto, unfolding(crate::specs::Header::header_place))]
fn find_fault(alloc: Global, part: &Part) -> Result<usize, NoMemory>
    ensures { IfOk result (λ at. at ≡ header_place part.now.spot) }
{
    let Some((version, guid, rv, info, key, hash)) = part.six() else {
        return Ok(part.at());
    };
    if !is_version(&version) {
        return Ok(version.at());
    }
    if read_guid(alloc, &guid)?.is_none() {
        return Ok(guid.at());
    }
    find_later_fault(alloc, &rv, &info, &key, &hash)
}

ghost use Rattle.voucher_chain.specs.Header.{later_parts_place};

fn find_later_fault(
    alloc: Global,
    rv: &Part,
    info: &Part,
    key: &Part,
    hash: &Part,
) -> Result<usize, NoMemory>
    ensures { IfOk result (λ at. at ≡ later_parts_place rv.now.spot info.now.spot key.now.spot hash.now.spot) }
{
    if read_rv_part(alloc, rv)?.is_none() {
        return Ok(find_rv_fault(rv));
    }
    if info.major() != 3 {
        return Ok(info.at());
    }
    match read_key_part(alloc, key)? {
        Some(_) => Ok(find_hash_fault(hash)),
        None => Ok(find_key_fault(key)),
    }
}

ghost use Rattle.std.specs.List.{AllByRecursion};
ghost use Rattle.voucher_chain.specs.RvInfo.{AreNumbers};

/// The item that a header with these parts is written as.
pub fn header_item(
    alloc: Global,
    guid: Guid,
    rv: &RvInfo,
    info: &Text,
    key: &PublicKey,
    chain_hash: &Option<Hash>,
) -> Result<Item, NoMemory>
    ensures item { IfOk result (λ item. item ≡ item_of_header guid rv.now info.now key.now chain_hash.now) }
    // The numbers of the variables have 64 bits.
    ensures numbers { IfOk result (λ item. AllByRecursion AreNumbers rv.now) }
{
    let mut parts = Items::new(alloc);
    parts.push(Item::Uint(101))?;
    parts.push(Item::Bytes(Blob::from_slice(alloc, &guid)?))?;
    parts.push(rv_item(alloc, rv)?)?;
    parts.push(Item::Text(info.copy()?))?;
    parts.push(key_item(alloc, key)?)?;
    parts.push(maybe_hash_item(alloc, chain_hash)?)?;
    Ok(Item::Array(parts))
}

fn maybe_hash_item(alloc: Global, hash: &Option<Hash>) -> Result<Item, NoMemory>
    ensures { IfOk result (λ item. item ≡ item_of_maybe_hash hash.now) }
{
    match hash {
        Some(hash) => hash_item(alloc, hash),
        None => Ok(Item::Simple(22)),
    }
}

ghost use Rattle.std.specs.Str.{is_utf8};
ghost use Rattle.key_codec.specs.Key.{IsKey};
ghost use Rattle.std.specs.Prelude.{length, true};
ghost use Rattle.voucher_chain.specs.Header.{IsMaybeHash, HasRoom};

/// The header that replaces another one when a device gets a new owner: the same DeviceInfo and hash of certificates,
/// with another GUID, rendezvous information and key, in the deterministic encoding.
pub fn replacement(
    alloc: Global,
    header: &Header,
    guid: Guid,
    rv: &RvInfo,
    key: &PublicKey,
) -> Result<Header, NoMemory>
    ensures new { IfOk result (λ new. new ≡ header_with guid rv.now header.now.info key.now header.now.chain_hash) }
    // Where the key and the hash are of the form, it is read from its bytes as it stands.
    ensures back { IsKey key.now → IsMaybeHash header.now.chain_hash → IfOk result (λ new. IsHeader new.raw new) }
{
    let item = header_item(alloc, guid, rv, &header.info, key, &header.chain_hash)?;
    let raw = write_det(alloc, &item)?;
    are_bytes(raw.as_list());
    has_room(&header.chain_hash);
    is_text(&header.info);
    Ok(Header {
        raw,
        guid,
        rv: rv.copy(alloc)?,
        info: header.info.copy()?,
        key: key.copy(alloc)?,
        key_raw: key_bytes(alloc, key)?,
        chain_hash: header.chain_hash,
    })
}

/// What holds of any text.
fn is_text(text: &Text)
    ensures { is_utf8 text.now ≡ true }
{
    let _all = text.as_list();
}

/// What holds of any hash.
fn has_room(hash: &Option<Hash>)
    ensures { HasRoom hash.now }
{
    match hash {
        Some(hash) => has_bytes(*hash),
        None => {}
    }
}

fn has_bytes(hash: Hash)
    ensures { length hash.bytes ≡ 48 }
{}
