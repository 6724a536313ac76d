ghost use Rattle.std.specs.Prelude.{◌≡◌, IfOk, map};
ghost use Rattle.cbor_core.specs.declared.item.Item.TheVariants as items;
ghost use Rattle.cbor_core.specs.Deterministic.{det};
ghost use Rattle.cbor_core.specs.Norm.{IsFit, IsReadBack};
ghost use Rattle.key_codec.specs.Key.{item_of_key, item_of_body, item_of_cose};

use crate::chain::X5Chain;
use crate::cose::{CURVE, EC2, FAMILY, X, Y};
use crate::key::{CoseKey, KeyBody, PublicKey};
use cbor_core::{Blob, Item, Items, NoMemory, Pairs, integer_item, write_det};
use std::alloc::Global;

/// The item that a key is written as.
pub fn key_item(alloc: Global, key: &PublicKey) -> Result<Item, NoMemory>
    ensures { IfOk result (λ item. item ≡ item_of_key key.now) }
{
    let mut parts = Items::new(alloc);
    parts.push(integer_item(key.kind))?;
    parts.push(integer_item(key.enc))?;
    parts.push(key_body_item(alloc, &key.body)?)?;
    Ok(Item::Array(parts))
}

/// The item that the body of a key is written as. A chain is an array, also a chain of one.
pub fn key_body_item(alloc: Global, body: &KeyBody) -> Result<Item, NoMemory>
    ensures { IfOk result (λ item. item ≡ item_of_body body.now) }
{
    match body {
        KeyBody::Bytes(bytes) => Ok(Item::Bytes(bytes.copy()?)),
        KeyBody::Chain(chain) => chain_item(alloc, chain),
        KeyBody::Cose(key) => cose_item(alloc, key),
    }
}

/// The item that a chain of certificates is written as: an array, also of one.
pub fn chain_item(alloc: Global, chain: &X5Chain) -> Result<Item, NoMemory>
    ensures { IfOk result (λ item. item ≡ items.Array (map items.Bytes chain.now)) }
{
    Ok(Item::Array(blob_items(alloc, chain.as_list())?))
}

fn blob_items(alloc: Global, blobs: &[Blob]) -> Result<Items, NoMemory>
    ensures { IfOk result (λ all. all ≡ map items.Bytes blobs.now) }
{
    let mut all = Items::new(alloc);
    for blob in blobs {
        all.push(Item::Bytes(blob.copy()?))?;
    }
    Ok(all)
}

fn cose_item(alloc: Global, key: &CoseKey) -> Result<Item, NoMemory>
    ensures { IfOk result (λ item. item ≡ item_of_cose key.now) }
{
    let mut pairs = Pairs::new(alloc);
    pairs.push((integer_item(FAMILY), integer_item(EC2)))?;
    pairs.push((integer_item(CURVE), integer_item(key.curve)))?;
    pairs.push((integer_item(X), Item::Bytes(key.x.copy()?)))?;
    pairs.push((integer_item(Y), Item::Bytes(key.y.copy()?)))?;
    Ok(Item::Map(pairs))
}

/// The deterministic spelling of a key.
pub fn key_bytes(alloc: Global, key: &PublicKey) -> Result<Blob, NoMemory>
    ensures value { IfOk result (λ bytes. bytes ≡ det (item_of_key key.now)) }
    // A key that is fit to be written is read back from its bytes as its item, whatever follows.
    ensures back { IsFit (item_of_key key.now) → IfOk result (IsReadBack (item_of_key key.now)) }
{
    let item = key_item(alloc, key)?;
    write_det(alloc, &item)
}
