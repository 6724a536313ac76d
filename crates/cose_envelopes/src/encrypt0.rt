ghost use Rattle.std.specs.Prelude.{◌≡◌, [], ◌∷◌, Some, Ok, IfOk};
ghost use Rattle.cbor_core.specs.Deterministic.{det};
ghost use Rattle.cbor_core.specs.declared.item.Item.TheVariants as items;
ghost use Rattle.cbor_core.specs.Spots.{spot_item};
ghost use Rattle.cose_envelopes.specs.declared.encrypt0.Encrypt0.{Encrypt0};
ghost use Rattle.cose_envelopes.specs.Envelope.{algorithm_in, encrypt0_in, encrypt0_content, encrypt0_of, IsEncrypt0, item_of_encrypt0, IsWhole0};
ghost use Rattle.cose_envelopes.specs.Fault.{Reads};
ghost use Rattle.cose_envelopes.specs.Opening.{encrypt0_at};
ghost use Rattle.cose_envelopes.specs.Places.{encrypt0_place, sealed_place};

use crate::fault::{CoseFault, shape_fault};
use crate::parts::{find_iv_fault, is_protected, read_iv, read_protected};
use cbor_core::{Blob, Item, Items, NoMemory, Pairs, Part, write_det};
use sqlite_items::Boxed;
use std::alloc::Global;

/// A sealed text (RFC 9052, section 5.2).
#[derive(Debug, Drop)]
pub struct Encrypt0 {
    /// The protected header as received, which is sealed with the text.
    pub protected: Blob,
    /// The number of the algorithm (RFC 9053) that the protected header names.
    pub alg: i64,
    /// The initialization vector, which stands in the unprotected header.
    pub iv: [u8; 12],
    /// The sealed text, with its tag.
    pub sealed: Blob,
}

/// The Encrypt0 that bytes spell, all of them, with its tag or without.
pub fn read_encrypt0(alloc: Global, bytes: &[u8]) -> Result<Encrypt0, CoseFault>
    // What is read is spelled: an item whose parts are those of the envelope.
    ensures found { IfOk result (IsEncrypt0 bytes.now) }
    // What is spelled is read, unless memory runs out.
    ensures only { (value : Encrypt0) → IsEncrypt0 bytes.now value → Reads (Ok value) result }
    // Where the first fault stands.
    ensures exact { Reads (encrypt0_at bytes.now) result }
    // The protected bytes name the algorithm.
    ensures names { IfOk result (λ value. algorithm_in value.protected ≡ Some value.alg) }
{
    read_whole(alloc, bytes)
}

fn read_whole(alloc: Global, bytes: &[u8]) -> Result<Encrypt0, CoseFault>
    ensures { Reads (encrypt0_at bytes.now) result }
{
    match Part::open(alloc, bytes) {
        Ok((part, read)) => match encrypt0_part(alloc, &part)? {
            Some(value) => {
                if read == bytes.len() {
                    Ok(value)
                } else {
                    Err(CoseFault::BadShape(read))
                }
            }
            None => Err(CoseFault::BadShape(find_encrypt0_fault(alloc, &part)?)),
        },
        Err(fault) => Err(shape_fault(fault)),
    }
}

/// The Encrypt0 that a part of an input is, or None where it is none.
#[tactic(auto, unfolding(crate::specs::Envelope::encrypt0_in))]
pub(crate) fn encrypt0_part(alloc: Global, part: &Part) -> Result<Option<Encrypt0>, NoMemory>
    ensures { IfOk result (λ value. value ≡ encrypt0_in (spot_item part.now.spot)) }
{
    match part.tagged(16) {
        Some(content) => read_content(alloc, &content),
        None => read_content(alloc, part),
    }
}

fn read_content(alloc: Global, content: &Part) -> Result<Option<Encrypt0>, NoMemory>
    ensures { IfOk result (λ value. value ≡ encrypt0_content (spot_item content.now.spot)) }
{
    match content.three() {
        Some((protected, unprotected, sealed)) => {
            read_parts(alloc, &protected, &unprotected, &sealed)
        }
        None => Ok(None),
    }
}

fn read_parts(
    alloc: Global,
    protected: &Part,
    unprotected: &Part,
    sealed: &Part,
) -> Result<Option<Encrypt0>, NoMemory>
    ensures { IfOk result (λ value. value ≡ encrypt0_of (spot_item protected.now.spot, spot_item unprotected.now.spot, spot_item sealed.now.spot)) }
{
    let header = read_protected(alloc, protected)?;
    let iv = read_iv(alloc, unprotected)?;
    let sealed = sealed.bytes(alloc)?;
    match (header, iv, sealed) {
        (Some((protected, alg)), Some(iv), Some(sealed)) => Ok(Some(Encrypt0 {
            protected,
            alg,
            iv,
            sealed,
        })),
        _ => Ok(None),
    }
}

/// Where a part that is no Encrypt0 is not of its form.
#[tactic(auto, unfolding(crate::specs::Places::encrypt0_place))]
pub(crate) fn find_encrypt0_fault(alloc: Global, part: &Part) -> Result<usize, NoMemory>
    ensures { IfOk result (λ at. at ≡ encrypt0_place part.now.spot) }
{
    match part.tagged(16) {
        Some(content) => find_content_fault(alloc, &content),
        None => find_content_fault(alloc, part),
    }
}

fn find_content_fault(alloc: Global, content: &Part) -> Result<usize, NoMemory>
    ensures { IfOk result (λ at. at ≡ sealed_place content.now.spot) }
{
    let Some((protected, unprotected, sealed)) = content.three() else {
        return Ok(content.at());
    };
    if !is_protected(alloc, &protected)? {
        return Ok(protected.at());
    }
    match read_iv(alloc, &unprotected)? {
        Some(_) => Ok(sealed.at()),
        None => Ok(find_iv_fault(&unprotected)),
    }
}

/// The envelope with its tag, in the deterministic encoding.
pub fn write_encrypt0(alloc: Global, value: &Encrypt0) -> Result<Blob, NoMemory>
    ensures value { IfOk result (λ bytes. bytes ≡ det (item_of_encrypt0 value.now)) }
    // It is read as the envelope.
    ensures said { IsWhole0 value.now → IfOk result (λ bytes. IsEncrypt0 bytes value.now) }
{
    let item = encrypt0_item(alloc, value)?;
    write_det(alloc, &item)
}

/// The item that an envelope is written as.
fn encrypt0_item(alloc: Global, value: &Encrypt0) -> Result<Item, NoMemory>
    ensures { IfOk result (λ item. item ≡ item_of_encrypt0 value.now) }
{
    let mut parts = Items::new(alloc);
    parts.push(Item::Bytes(value.protected.copy()?))?;
    parts.push(Item::Map(iv_pairs(alloc, &value.iv)?))?;
    parts.push(Item::Bytes(value.sealed.copy()?))?;
    Ok(Item::Tag(16, Boxed::new(alloc, Item::Array(parts))?))
}

/// The unprotected header that has an initialization vector.
fn iv_pairs(alloc: Global, iv: &[u8; 12]) -> Result<Pairs, NoMemory>
    ensures { IfOk result (λ pairs. pairs ≡ (items.Uint 5, items.Bytes iv.now) ∷ []) }
{
    let mut pairs = Pairs::new(alloc);
    pairs.push((Item::Uint(5), Item::Bytes(Blob::from_slice(alloc, iv)?)))?;
    Ok(pairs)
}
