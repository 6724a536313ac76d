ghost use Rattle.std.specs.Prelude.{◌≡◌, ◌≢◌, ◌≤◌, ◌++◌, length, drop, Ok, Err, IfOk};
ghost use Rattle.hash_hmac.specs.Bytes.{padded};
ghost use Rattle.hash_hmac.specs.Value.{content, IsConsistent};
ghost use Rattle.hash_hmac.specs.declared.hash.Hash.{Hash};
ghost use Rattle.key_codec.specs.declared.fault.KeyFault.TheVariants.{NoMemory as OutOfMemory};
ghost use Rattle.cbor_core.specs.Spots.{spot_item};
ghost use Rattle.key_codec.specs.Fault.{ok_of};
ghost use Rattle.key_codec.specs.Hash.{hash_by_kind, hash_in, item_of_hash};

use crate::fault::KeyFault;
use crate::parts::{bytes, number, two};
use cbor_core::{Blob, Item, Items, NoMemory, Part, integer_item};
use hash_hmac::{Hash, length_of};
use std::alloc::Global;

/// The hash or HMAC that an item says (FIDO Device Onboard 1.1, "Hash / HMac"). The faults come in this order: the
/// shape of the array, its number and its byte string, the kind, the length. It takes no memory.
pub fn read_hash(item: &Item) -> Result<Hash, KeyFault>
    // What is read is a consistent hash, and the item is the one that it is written as.
    ensures found { IfOk result (λ hash. IsConsistent hash × (item.now ≡ item_of_hash hash)) }
    // The item of a consistent hash is read as that hash.
    ensures only { (hash : Hash) → length hash.bytes ≡ 48 → IsConsistent hash → item.now ≡ item_of_hash hash → result ≡ Ok hash }
    // Which fault it is.
    ensures exact { result ≡ hash_in item.now }
    // It takes no memory.
    ensures memory { result ≢ Err OutOfMemory }
{
    hash_at(item)
}

#[tactic(auto, unfolding(crate::specs::Hash::hash_in))]
fn hash_at(item: &Item) -> Result<Hash, KeyFault>
    ensures { result ≡ hash_in item.now }
{
    let (first, second) = two(item)?;
    let kind = number(first)?;
    let content = bytes(second)?;
    hash_by(kind, content.as_list())
}

#[tactic(auto, unfolding(crate::specs::Hash::hash_by_kind))]
fn hash_by(kind: i64, bytes: &[u8]) -> Result<Hash, KeyFault>
    ensures { result ≡ hash_by_kind kind bytes.now }
{
    match length_of(kind) {
        Some(len) => {
            if bytes.len() == len as usize {
                Ok(Hash::filled(kind, bytes))
            } else {
                Err(KeyFault::BadLength(bytes.len()))
            }
        }
        None => Err(KeyFault::BadType(kind)),
    }
}

/// The hash that a part of an input is, or None where it is none.
pub fn read_hash_part(alloc: Global, part: &Part) -> Result<Option<Hash>, NoMemory>
    ensures { IfOk result (λ hash. hash ≡ ok_of (hash_in (spot_item part.now.spot))) }
{
    let item = part.item(alloc)?;
    match hash_at(&item) {
        Ok(hash) => Ok(Some(hash)),
        Err(_) => Ok(None),
    }
}

/// The item that a hash is written as.
pub fn hash_item(alloc: Global, hash: &Hash) -> Result<Item, NoMemory>
    ensures { IfOk result (λ item. item ≡ item_of_hash hash.now) }
{
    let mut parts = Items::new(alloc);
    parts.push(integer_item(hash.kind))?;
    parts.push(Item::Bytes(Blob::from_slice(alloc, hash.content())?))?;
    Ok(Item::Array(parts))
}
