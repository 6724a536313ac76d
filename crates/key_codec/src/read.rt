ghost use Rattle.std.specs.Prelude.{◌≡◌, ℕ, suc, Some, Ok, IfOk};
ghost use Rattle.cbor_core.specs.Norm.{IsFit, IsFitWithin};
ghost use Rattle.key_codec.specs.Fault.{Says};
ghost use Rattle.key_codec.specs.Parts.{all_bytes};
ghost use Rattle.key_codec.specs.Key.{chain_in, cose_in, cose_of, form_of, form_of_body, item_of_body, item_of_key, body_of_form, body_in, key_in, IsBody, IsBodyItem, IsKeyItem};
ghost use Rattle.key_codec.specs.declared.key.KeyBody.{KeyBody};
ghost use Rattle.key_codec.specs.declared.key.PublicKey.{PublicKey};

use crate::chain::X5Chain;
use crate::cose::{CURVE, EC2, FAMILY, X, Y, is_curve};
use crate::encoding::Form;
use crate::fault::KeyFault;
use crate::key::{CoseKey, KeyBody, PublicKey};
use crate::kind::is_key_type;
use crate::parts::{bytes, labelled_bytes, labelled_number, number, three};
use cbor_core::{Blob, Item};
use std::alloc::Global;

/// The key that an item says (FIDO Device Onboard 1.1, "Public Key"). The faults come in this order: the shape of the
/// array and its two numbers, the type, the encoding, the shape of the body.
pub fn read_key(alloc: Global, item: &Item) -> Result<PublicKey, KeyFault>
    // What is read is a key of the form, and the item is one of its items.
    ensures found { IfOk result (λ key. IsKeyItem key item.now) }
    // Such an item is read as that key, unless memory runs out.
    ensures only { (key : PublicKey) → IsKeyItem key item.now → Says {Y = PublicKey} (λ key. key) result (Ok key) }
    // Which fault it is.
    ensures exact { Says (λ key. key) result (key_in item.now) }
    // What is read of a fit item is fit to be written.
    ensures fit { IsFit item.now → IfOk result (λ key. IsFit (item_of_key key)) }
{
    key_at(alloc, item)
}

#[tactic(auto, unfolding(crate::specs::Key::key_in))]
fn key_at(alloc: Global, item: &Item) -> Result<PublicKey, KeyFault>
    ensures { Says (λ key. key) result (key_in item.now) }
{
    let (first, second, third) = three(item)?;
    let kind = number(first)?;
    let enc = number(second)?;
    if !is_key_type(kind) {
        return Err(KeyFault::BadType(kind));
    }
    let body = body_at(alloc, enc, third)?;
    Ok(PublicKey { kind, enc, body })
}

/// The body that an item says by an encoding. The encoding comes first, then the shape.
pub fn read_key_body(alloc: Global, enc: i64, item: &Item) -> Result<KeyBody, KeyFault>
    // What is read is of the encoding's form, and the item is one of the body's items.
    ensures found { IfOk result (λ body. (form_of enc ≡ Some (form_of_body body)) × (IsBody body × IsBodyItem body item.now)) }
    // Such an item is read as that body, unless memory runs out.
    ensures only { (body : KeyBody) → form_of enc ≡ Some (form_of_body body) → IsBody body → IsBodyItem body item.now → Says {Y = KeyBody} (λ body. body) result (Ok body) }
    // Which fault it is.
    ensures exact { Says (λ body. body) result (body_in enc item.now) }
    // What is read of a fit item is fit to be written.
    ensures fit { (n : ℕ) → IsFitWithin (suc (suc n)) item.now → IfOk result (λ body. IsFitWithin (suc (suc n)) (item_of_body body)) }
{
    body_at(alloc, enc, item)
}

#[tactic(auto, unfolding(crate::specs::Key::body_in))]
fn body_at(alloc: Global, enc: i64, item: &Item) -> Result<KeyBody, KeyFault>
    ensures { Says (λ body. body) result (body_in enc item.now) }
{
    match Form::of(enc) {
        Some(form) => read_form(alloc, form, item),
        None => Err(KeyFault::BadEncoding(enc)),
    }
}

fn read_form(alloc: Global, form: Form, item: &Item) -> Result<KeyBody, KeyFault>
    ensures { Says (λ body. body) result (body_of_form form item.now) }
{
    match form {
        Form::Bytes => Ok(KeyBody::Bytes(bytes(item)?.copy()?)),
        Form::Chain => Ok(KeyBody::Chain(read_chain(alloc, item)?)),
        Form::Cose => Ok(KeyBody::Cose(read_cose(item)?)),
    }
}

/// The chain of certificates that an item says: an array of byte strings, at least one, or one byte string.
pub fn read_chain(alloc: Global, item: &Item) -> Result<X5Chain, KeyFault>
    ensures { Says (λ chain. chain) result (chain_in item.now) }
{
    let certificates = match item {
        Item::Bytes(bytes) => {
            let mut one = Vec::new(alloc);
            one.push(bytes.copy()?)?;
            one
        }
        Item::Array(items) => read_all(alloc, items.as_slice())?,
        _ => return Err(KeyFault::BadShape),
    };
    X5Chain::new(certificates).ok_or(KeyFault::BadShape)
}

fn read_all(alloc: Global, items: &[Item]) -> Result<Vec<Blob>, KeyFault>
    ensures { Says (λ all. all.items) result (all_bytes items.now) }
{
    let mut all = Vec::new(alloc);
    for item in items {
        match bytes(item) {
            Ok(bytes) => all.push(bytes.copy()?)?,
            Err(fault) => return Err(fault),
        }
    }
    Ok(all)
}

fn read_cose(item: &Item) -> Result<CoseKey, KeyFault>
    ensures { Says (λ key. key) result (cose_in item.now) }
{
    match item {
        Item::Map(pairs) => read_pairs(pairs.as_slice()),
        _ => Err(KeyFault::BadShape),
    }
}

/// The point that a map says. Other labels are read over, and of two pairs with the same label the first counts.
fn read_pairs(pairs: &[(Item, Item)]) -> Result<CoseKey, KeyFault>
    ensures { Says (λ key. key) result (cose_of pairs.now) }
{
    let family = labelled_number(FAMILY, pairs)?;
    let curve = labelled_number(CURVE, pairs)?;
    let x = labelled_bytes(X, pairs)?;
    let y = labelled_bytes(Y, pairs)?;
    if family == EC2 && is_curve(curve) {
        Ok(CoseKey {
            curve,
            x: x.copy()?,
            y: y.copy()?,
        })
    } else {
        Err(KeyFault::BadShape)
    }
}
