ghost use Rattle.std.specs.Prelude.{◌≡◌, Ok, IfOk};
ghost use Rattle.cbor_core.specs.Spots.{spot_item};
ghost use Rattle.voucher_chain.specs.declared.entry.Entry.{Entry};
ghost use Rattle.voucher_chain.specs.Entry.{entry_at, entry_seen, entry_place, extra_in, payload_in, payload_item, payload_of, signed_entry, IsEntry, is_payload as is_a_payload, content_fault, item_of_payload};
ghost use Rattle.voucher_chain.specs.Fault.{Reads};

use crate::fault::{ChainFault, shape_fault};
use crate::header::read_key_part;
use cbor_core::{Blob, CborFault, Item, Items, NoMemory, Part};
use cose_envelopes::{Sign1, is_protected, sign1_part};
use hash_hmac::Hash;
use key_codec::{PublicKey, hash_item, key_item, read_hash_part};
use std::alloc::Global;

/// An entry of an ownership voucher (FIDO Device Onboard 1.1, section 3.4.2, "OVEntry").
#[derive(Debug, Drop)]
pub struct Entry {
    /// Its bytes as received, with its tag where it has one. They spell the other fields.
    pub raw: Blob,
    /// The hash of what stands before: of the header and its HMAC, or of the entry before.
    pub prev: Hash,
    /// The hash of the header's GUID and DeviceInfo.
    pub hdr: Hash,
    /// Further bytes, which are not looked into.
    pub extra: Option<Blob>,
    /// The next owner's key.
    pub key: PublicKey,
    /// The envelope that the owner before signed.
    pub sign: Sign1,
}

impl Entry {
    /// An equal entry.
    pub fn copy(&self, alloc: Global) -> Result<Entry, NoMemory>
        ensures { IfOk result (λ copy. copy ≡ self.now) }
    {
        Ok(Entry {
            raw: self.raw.copy()?,
            prev: self.prev,
            hdr: self.hdr,
            extra: copy_extra(&self.extra)?,
            key: self.key.copy(alloc)?,
            sign: self.sign.copy(alloc)?,
        })
    }
}

fn copy_extra(extra: &Option<Blob>) -> Result<Option<Blob>, NoMemory>
    ensures { IfOk result (λ copy. copy ≡ extra.now) }
{
    match extra {
        Some(bytes) => Ok(Some(bytes.copy()?)),
        None => Ok(None),
    }
}

/// What the payload of an entry holds.
#[derive(Debug, Drop)]
pub struct Payload {
    pub prev: Hash,
    pub hdr: Hash,
    pub extra: Option<Blob>,
    pub key: PublicKey,
}

/// The entry that bytes spell, all of them. Its only refusals are `BadShape` and `NoMemory`.
pub fn read_entry(alloc: Global, bytes: &[u8]) -> Result<Entry, ChainFault>
    // What is read is spelled.
    ensures found { IfOk result (IsEntry bytes.now) }
    // What is spelled is read, unless memory runs out.
    ensures only { (entry : Entry) → IsEntry bytes.now entry → Reads (Ok entry) result }
    // Where the first fault stands.
    ensures exact { Reads (entry_at bytes.now) result }
    // It keeps the bytes that were read.
    ensures raw { IfOk result (λ entry. entry.raw ≡ bytes.now) }
{
    read_whole(alloc, bytes)
}

fn read_whole(alloc: Global, bytes: &[u8]) -> Result<Entry, ChainFault>
    ensures { Reads (entry_at bytes.now) result }
{
    match Part::open(alloc, bytes) {
        Ok((part, read)) => match read_entry_part(alloc, &part)? {
            Some(entry) => {
                if read == bytes.len() {
                    Ok(entry)
                } else {
                    Err(ChainFault::BadShape(read))
                }
            }
            None => Err(ChainFault::BadShape(find_entry_fault(alloc, &part, None)?)),
        },
        Err(fault) => Err(shape_fault(fault)),
    }
}

/// The entry that a part of an input is, or None where it is none.
#[tactic(auto, unfolding(crate::specs::Entry::entry_seen))]
pub fn read_entry_part(alloc: Global, part: &Part) -> Result<Option<Entry>, NoMemory>
    ensures { IfOk result (λ entry. entry ≡ entry_seen part.now.spot) }
{
    match sign1_part(alloc, part)? {
        Some(sign) => read_signed(alloc, part.raw(), sign),
        None => Ok(None),
    }
}

fn read_signed(alloc: Global, raw: &[u8], sign: Sign1) -> Result<Option<Entry>, NoMemory>
    ensures { IfOk result (λ entry. entry ≡ signed_entry raw.now sign) }
{
    match read_payload(alloc, sign.payload.as_list())? {
        Some(payload) => {
            let Payload {
                prev,
                hdr,
                extra,
                key,
            } = payload;
            Ok(Some(Entry {
                raw: Blob::from_slice(alloc, raw)?,
                prev,
                hdr,
                extra,
                key,
                sign,
            }))
        }
        None => Ok(None),
    }
}

/// What a payload's bytes say, all of them, or None where they are of another form.
#[tactic(auto, unfolding(crate::specs::Entry::payload_in))]
pub fn read_payload(alloc: Global, bytes: &[u8]) -> Result<Option<Payload>, NoMemory>
    ensures { IfOk result (λ payload. payload ≡ payload_in bytes.now) }
{
    match Part::open(alloc, bytes) {
        Ok((part, read)) => {
            if read == bytes.len() {
                read_payload_part(alloc, &part)
            } else {
                Ok(None)
            }
        }
        Err(CborFault::NoMemory) => Err(NoMemory),
        Err(_) => Ok(None),
    }
}

fn read_payload_part(alloc: Global, part: &Part) -> Result<Option<Payload>, NoMemory>
    ensures { IfOk result (λ payload. payload ≡ payload_item (spot_item part.now.spot)) }
{
    match part.four() {
        Some((prev, hdr, extra, key)) => read_parts(alloc, &prev, &hdr, &extra, &key),
        None => Ok(None),
    }
}

fn read_parts(
    alloc: Global,
    prev: &Part,
    hdr: &Part,
    extra: &Part,
    key: &Part,
) -> Result<Option<Payload>, NoMemory>
    ensures { IfOk result (λ payload. payload ≡ payload_of (spot_item prev.now.spot, spot_item hdr.now.spot, spot_item extra.now.spot, spot_item key.now.spot)) }
{
    let prev = read_hash_part(alloc, prev)?;
    let hdr = read_hash_part(alloc, hdr)?;
    let extra = read_extra(alloc, extra)?;
    let key = read_key_part(alloc, key)?;
    match (prev, hdr, extra, key) {
        (Some(prev), Some(hdr), Some(extra), Some(key)) => Ok(Some(Payload {
            prev,
            hdr,
            extra,
            key,
        })),
        _ => Ok(None),
    }
}

fn read_extra(alloc: Global, part: &Part) -> Result<Option<Option<Blob>>, NoMemory>
    ensures { IfOk result (λ extra. extra ≡ extra_in (spot_item part.now.spot)) }
{
    if part.is_null() {
        return Ok(Some(None));
    }
    match part.bytes(alloc)? {
        Some(bytes) => Ok(Some(Some(bytes))),
        None => Ok(None),
    }
}

/// Where a part that is no entry is not of its form. An item that stands too deep counts in the order of offsets.
#[tactic(auto, unfolding(crate::specs::Entry::entry_place))]
pub fn find_entry_fault(alloc: Global, part: &Part, deep: Option<usize>) -> Result<usize, NoMemory>
    ensures { IfOk result (λ at. at ≡ entry_place deep part.now.spot) }
{
    match part.tagged(18) {
        Some(content) => find_content_fault(alloc, &content, deep),
        None => find_content_fault(alloc, part, deep),
    }
}

fn find_content_fault(alloc: Global, content: &Part, deep: Option<usize>) -> Result<usize, NoMemory>
    ensures { IfOk result (λ at. at ≡ content_fault deep content.now.spot) }
{
    let Some((protected, unprotected, payload, sig)) = content.four() else {
        return Ok(content.at());
    };
    if !is_protected(alloc, &protected)? {
        return Ok(protected.at());
    }
    if !unprotected.is_map() {
        return Ok(unprotected.at());
    }
    find_later_fault(alloc, deep, &payload, &sig)
}

ghost use Rattle.voucher_chain.specs.Entry.{later_place};

fn find_later_fault(
    alloc: Global,
    deep: Option<usize>,
    payload: &Part,
    sig: &Part,
) -> Result<usize, NoMemory>
    ensures { IfOk result (λ at. at ≡ later_place deep payload.now.spot sig.now.spot) }
{
    match deep {
        Some(place) => Ok(place),
        None => {
            if is_payload(alloc, payload)? {
                Ok(sig.at())
            } else {
                Ok(payload.at())
            }
        }
    }
}

fn is_payload(alloc: Global, part: &Part) -> Result<bool, NoMemory>
    ensures { IfOk result (λ is. is ≡ is_a_payload part.now.spot) }
{
    match part.bytes(alloc)? {
        Some(bytes) => Ok(read_payload(alloc, bytes.as_list())?.is_some()),
        None => Ok(false),
    }
}

/// The item of a payload without further bytes.
pub(crate) fn payload_item_of(
    alloc: Global,
    prev: &Hash,
    hdr: &Hash,
    key: &PublicKey,
) -> Result<Item, NoMemory>
    ensures { IfOk result (λ item. item ≡ item_of_payload prev.now hdr.now key.now) }
{
    let mut parts = Items::new(alloc);
    parts.push(hash_item(alloc, prev)?)?;
    parts.push(hash_item(alloc, hdr)?)?;
    parts.push(Item::Simple(22))?;
    parts.push(key_item(alloc, key)?)?;
    Ok(Item::Array(parts))
}
