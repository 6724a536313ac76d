//! What the parts of bodies say, and how their values are written (FIDO Device Onboard 1.1, section 3.3).

ghost use Rattle.std.specs.Prelude.{◌≡◌, ◌++◌, length, option_map, IfOk};
ghost use Rattle.cbor_core.specs.declared.item.Item.{out-Item};
ghost use Rattle.cbor_core.specs.declared.item.Item.TheVariants as items;
ghost use Rattle.cbor_core.specs.Deterministic.{det};
ghost use Rattle.cbor_core.specs.Spots.{spot_item, spot_raw, spot_parts};
ghost use Rattle.cbor_core.specs.Whole.{whole};
ghost use Rattle.key_codec.specs.Fault.{ok_of};
ghost use Rattle.key_codec.specs.Key.{key_in};
ghost use Rattle.key_codec.specs.SigInfo.{sig_info_in};
ghost use Rattle.voucher_chain.specs.Header.{guid_in as sixteen_in, maybe_hash_in, item_of_maybe_hash};
ghost use Rattle.voucher_chain.specs.RvInfo.{rv_in};
ghost use Rattle.voucher_chain.specs.Voucher.{header_inside};
ghost use Rattle.fdo_msgs.specs.Row.{inside};
ghost use Rattle.fdo_msgs.specs.Value.{up_to as number_up_to, u8_in, u16_in, u32_in, u64_in, flag_in, maybe_size_in, voucher_in, one_spot, eight_spots, has_length as has_the_length, item_of_flag, item_of_maybe_size};

use cbor_core::{Blob, CborFault, Item, NoMemory, Part, exactly, write_det};
use hash_hmac::Hash;
use key_codec::{KeyFault, PublicKey, SigInfo, hash_item, read_hash_part, read_key, read_sig_info};
use std::alloc::Global;
use voucher_chain::{ChainFault, Header, RvInfo, Voucher, read_header, read_rv, read_voucher};

// ---- numbers

/// The number that a part is, where it is not above a greatest one.
fn up_to(part: &Part, most: u64) -> Option<u64>
    ensures { result ≡ number_up_to most (out-Item (spot_item part.now.spot)) }
{
    match (part.major(), part.number()) {
        (0, Some(n)) if n <= most => Some(n),
        _ => None,
    }
}

pub(crate) fn u8_part(part: &Part) -> Option<u8>
    ensures { result ≡ u8_in (spot_item part.now.spot) }
{
    match up_to(part, u64::from(u8::MAX)) {
        Some(n) => Some(n as u8),
        None => None,
    }
}

pub(crate) fn u16_part(part: &Part) -> Option<u16>
    ensures { result ≡ u16_in (spot_item part.now.spot) }
{
    match up_to(part, u64::from(u16::MAX)) {
        Some(n) => Some(n as u16),
        None => None,
    }
}

pub(crate) fn u32_part(part: &Part) -> Option<u32>
    ensures { result ≡ u32_in (spot_item part.now.spot) }
{
    match up_to(part, u64::from(u32::MAX)) {
        Some(n) => Some(n as u32),
        None => None,
    }
}

pub(crate) fn u64_part(part: &Part) -> Option<u64>
    ensures { result ≡ u64_in (spot_item part.now.spot) }
{
    up_to(part, u64::MAX)
}

/// The number of 16 bits that an item is.
pub(crate) fn u16_of(item: &Item) -> Option<u16>
    ensures { result ≡ u16_in item.now }
{
    match item {
        Item::Uint(n) if *n <= u64::from(u16::MAX) => Some(*n as u16),
        _ => None,
    }
}

/// A size of 16 bits, or null.
pub(crate) fn maybe_size_part(part: &Part) -> Option<Option<u64>>
    ensures { result ≡ maybe_size_in (spot_item part.now.spot) }
{
    if part.is_null() {
        return Some(None);
    }
    match up_to(part, u64::from(u16::MAX)) {
        Some(size) => Some(Some(size)),
        None => None,
    }
}

/// True or false.
pub(crate) fn flag_part(part: &Part) -> Option<bool>
    ensures { result ≡ flag_in (out-Item (spot_item part.now.spot)) }
{
    match (part.major(), part.number()) {
        (7, Some(20)) => Some(false),
        (7, Some(21)) => Some(true),
        _ => None,
    }
}

// ---- other values

/// The 16 bytes that a part is: a Guid or a nonce.
pub(crate) fn sixteen_part(alloc: Global, part: &Part) -> Result<Option<[u8; 16]>, NoMemory>
    ensures { IfOk result (λ sixteen. sixteen ≡ sixteen_in (spot_item part.now.spot)) }
{
    match part.bytes(alloc)? {
        Some(bytes) => Ok(exactly::<16>(bytes.as_list())),
        None => Ok(None),
    }
}

pub(crate) fn sig_info_part(alloc: Global, part: &Part) -> Result<Option<SigInfo>, NoMemory>
    ensures { IfOk result (λ sig. sig ≡ ok_of (sig_info_in (spot_item part.now.spot))) }
{
    let item = part.item(alloc)?;
    match read_sig_info(alloc, &item) {
        Ok(sig) => Ok(Some(sig)),
        Err(KeyFault::NoMemory) => Err(NoMemory),
        Err(_) => Ok(None),
    }
}

/// A hash or an HMAC, or null.
pub(crate) fn maybe_hash_part(alloc: Global, part: &Part) -> Result<Option<Option<Hash>>, NoMemory>
    ensures { IfOk result (λ hash. hash ≡ maybe_hash_in (spot_item part.now.spot)) }
{
    if part.is_null() {
        return Ok(Some(None));
    }
    match read_hash_part(alloc, part)? {
        Some(hash) => Ok(Some(Some(hash))),
        None => Ok(None),
    }
}

pub(crate) fn key_part(alloc: Global, part: &Part) -> Result<Option<PublicKey>, NoMemory>
    ensures { IfOk result (λ key. key ≡ ok_of (key_in (spot_item part.now.spot))) }
{
    let item = part.item(alloc)?;
    match read_key(alloc, &item) {
        Ok(key) => Ok(Some(key)),
        Err(KeyFault::NoMemory) => Err(NoMemory),
        Err(_) => Ok(None),
    }
}

pub(crate) fn rv_part(alloc: Global, part: &Part) -> Result<Option<RvInfo>, NoMemory>
    ensures { IfOk result (λ rv. rv ≡ rv_in (spot_item part.now.spot)) }
{
    let item = part.item(alloc)?;
    read_rv(alloc, &item)
}

/// The header that a byte string holds.
pub(crate) fn header_part(alloc: Global, part: &Part) -> Result<Option<Header>, NoMemory>
    ensures { IfOk result (λ header. header ≡ header_inside (spot_item part.now.spot)) }
{
    match part.bytes(alloc)? {
        Some(bytes) => match read_header(alloc, bytes.as_list()) {
            Ok(header) => Ok(Some(header)),
            Err(ChainFault::NoMemory) => Err(NoMemory),
            Err(_) => Ok(None),
        },
        None => Ok(None),
    }
}

/// The voucher that a part is, whatever stands around it.
pub(crate) fn voucher_part(alloc: Global, part: &Part) -> Result<Option<Voucher>, NoMemory>
    ensures { IfOk result (λ voucher. voucher ≡ voucher_in (spot_raw part.now.spot)) }
{
    match read_voucher(alloc, part.raw()) {
        Ok(voucher) => Ok(Some(voucher)),
        Err(ChainFault::NoMemory) => Err(NoMemory),
        Err(_) => Ok(None),
    }
}

// ---- rows

/// The part of an array of one.
pub(crate) fn one<'a>(part: &Part<'a>) -> Option<Part<'a>>
    ensures { option_map (λ p. p.spot) result ≡ one_spot part.now.spot }
{
    if !part.is_array() {
        return None;
    }
    let first = part.inside()?;
    match first.after() {
        None => Some(first),
        Some(_) => None,
    }
}

/// Whether a part is an array of so many parts.
pub(crate) fn has_length(part: &Part, length: u64) -> bool
    ensures { result ≡ has_the_length length (out-Item (spot_item part.now.spot)) }
{
    match (part.major(), part.count()) {
        (4, Some(count)) => count == length,
        _ => false,
    }
}

/// The item that bytes hold, to their end.
pub(crate) fn open_inside<'a>(alloc: Global, bytes: &'a [u8]) -> Result<Option<Part<'a>>, NoMemory>
    ensures spot { IfOk result (λ part. option_map (λ p. p.spot) part ≡ inside bytes.now) }
    ensures item { IfOk result (λ part. option_map (λ p. spot_item p.spot) part ≡ whole bytes.now) }
{
    match Part::open(alloc, bytes) {
        Ok((part, read)) => {
            if read == bytes.len() {
                Ok(Some(part))
            } else {
                Ok(None)
            }
        }
        Err(CborFault::NoMemory) => Err(NoMemory),
        Err(_) => Ok(None),
    }
}

// ---- writing

/// Adds the deterministic spelling of an item.
pub(crate) fn put(alloc: Global, out: &mut Vec<u8>, item: Item) -> Result<(), NoMemory>
    ensures { IfOk result (λ _. out.new.items ≡ out.old.items ++ det item) }
{
    let bytes = write_det(alloc, &item)?;
    out.extend_from_slice(bytes.as_list())?;
    Ok(())
}

/// Adds a byte string.
pub(crate) fn put_bytes(alloc: Global, out: &mut Vec<u8>, bytes: &[u8]) -> Result<(), NoMemory>
    ensures { IfOk result (λ _. out.new.items ≡ out.old.items ++ det (items.Bytes bytes.now)) }
{
    let bytes = Blob::from_slice(alloc, bytes)?;
    put(alloc, out, Item::Bytes(bytes))
}

pub(crate) fn flag_item(flag: bool) -> Item
    ensures { result ≡ item_of_flag flag }
{
    Item::Simple(if flag { 21 } else { 20 })
}

pub(crate) fn maybe_hash_item(alloc: Global, hash: &Option<Hash>) -> Result<Item, NoMemory>
    ensures { IfOk result (λ item. item ≡ item_of_maybe_hash hash.now) }
{
    match hash {
        Some(hash) => hash_item(alloc, hash),
        None => Ok(Item::Simple(22)),
    }
}

pub(crate) fn maybe_size_item(size: Option<u64>) -> Item
    ensures { result ≡ item_of_maybe_size size }
{
    match size {
        Some(size) => Item::Uint(size),
        None => Item::Simple(22),
    }
}
