ghost use Rattle.std.specs.Prelude.{◌≡◌, Some, Ok, IfOk};
ghost use Rattle.cbor_core.specs.Deterministic.{det};
ghost use Rattle.cbor_core.specs.Spots.{spot_item};
ghost use Rattle.cose_envelopes.specs.declared.sign1.Sign1.{Sign1};
ghost use Rattle.cose_envelopes.specs.Envelope.{algorithm_in, sign1_in, sign1_content, sign1_of, IsSign1, item_of_sign1, IsWhole1, norm_sign1};
ghost use Rattle.cose_envelopes.specs.Fault.{Reads};
ghost use Rattle.cose_envelopes.specs.Opening.{sign1_at};
ghost use Rattle.cose_envelopes.specs.Places.{sign1_place};

use crate::fault::{CoseFault, shape_fault};
use crate::parts::{find_four_fault, read_pairs, read_protected};
use cbor_core::{Blob, Item, Items, NoMemory, Pairs, Part, copy_pairs, write_det};
use sqlite_items::Boxed;
use std::alloc::Global;

/// A payload with one signature (RFC 9052, section 4.2).
#[derive(Debug, Drop)]
pub struct Sign1 {
    /// The protected header as received, over which the signature is made.
    pub protected: Blob,
    /// The number of the algorithm (RFC 9053) that the protected header names.
    pub alg: i64,
    /// The pairs of the unprotected header.
    pub unprotected: Pairs,
    pub payload: Blob,
    pub sig: Blob,
}

impl Sign1 {
    /// An equal envelope.
    pub fn copy(&self, alloc: Global) -> Result<Sign1, NoMemory>
        ensures { IfOk result (λ copy. copy ≡ self.now) }
    {
        Ok(Sign1 {
            protected: self.protected.copy()?,
            alg: self.alg,
            unprotected: copy_pairs(alloc, self.unprotected.as_slice())?,
            payload: self.payload.copy()?,
            sig: self.sig.copy()?,
        })
    }
}

/// The Sign1 that bytes spell, all of them, with its tag or without.
pub fn read_sign1(alloc: Global, bytes: &[u8]) -> Result<Sign1, CoseFault>
    // What is read is spelled: an item whose parts are those of the envelope.
    ensures found { IfOk result (IsSign1 bytes.now) }
    // What is spelled is read, unless memory runs out.
    ensures only { (value : Sign1) → IsSign1 bytes.now value → Reads (Ok value) result }
    // Where the first fault stands.
    ensures exact { Reads (sign1_at bytes.now) result }
    // The protected bytes name the algorithm.
    ensures names { IfOk result (λ value. algorithm_in value.protected ≡ Some value.alg) }
{
    read_whole(alloc, bytes)
}

fn read_whole(alloc: Global, bytes: &[u8]) -> Result<Sign1, CoseFault>
    ensures { Reads (sign1_at bytes.now) result }
{
    match Part::open(alloc, bytes) {
        Ok((part, read)) => match sign1_part(alloc, &part)? {
            Some(value) => {
                if read == bytes.len() {
                    Ok(value)
                } else {
                    Err(CoseFault::BadShape(read))
                }
            }
            None => Err(CoseFault::BadShape(find_sign1_fault(alloc, &part)?)),
        },
        Err(fault) => Err(shape_fault(fault)),
    }
}

/// The Sign1 that a part of an input is, or None where it is none.
#[tactic(auto, unfolding(crate::specs::Envelope::sign1_in))]
pub fn sign1_part(alloc: Global, part: &Part) -> Result<Option<Sign1>, NoMemory>
    ensures { IfOk result (λ value. value ≡ sign1_in (spot_item part.now.spot)) }
{
    match part.tagged(18) {
        Some(content) => read_content(alloc, &content),
        None => read_content(alloc, part),
    }
}

fn read_content(alloc: Global, content: &Part) -> Result<Option<Sign1>, NoMemory>
    ensures { IfOk result (λ value. value ≡ sign1_content (spot_item content.now.spot)) }
{
    match content.four() {
        Some((protected, unprotected, payload, sig)) => {
            read_parts(alloc, &protected, &unprotected, &payload, &sig)
        }
        None => Ok(None),
    }
}

fn read_parts(
    alloc: Global,
    protected: &Part,
    unprotected: &Part,
    payload: &Part,
    sig: &Part,
) -> Result<Option<Sign1>, NoMemory>
    ensures { IfOk result (λ value. value ≡ sign1_of (spot_item protected.now.spot, spot_item unprotected.now.spot, spot_item payload.now.spot, spot_item sig.now.spot)) }
{
    let header = read_protected(alloc, protected)?;
    let pairs = read_pairs(alloc, unprotected)?;
    let payload = payload.bytes(alloc)?;
    let sig = sig.bytes(alloc)?;
    match (header, pairs, payload, sig) {
        (Some((protected, alg)), Some(unprotected), Some(payload), Some(sig)) => Ok(Some(Sign1 {
            protected,
            alg,
            unprotected,
            payload,
            sig,
        })),
        _ => Ok(None),
    }
}

/// Where a part that is no Sign1 is not of its form.
#[tactic(auto, unfolding(crate::specs::Places::sign1_place))]
pub fn find_sign1_fault(alloc: Global, part: &Part) -> Result<usize, NoMemory>
    ensures { IfOk result (λ at. at ≡ sign1_place part.now.spot) }
{
    find_four_fault(alloc, part, 18)
}

/// The envelope with its tag, in the deterministic encoding.
pub fn write_sign1(alloc: Global, value: &Sign1) -> Result<Blob, NoMemory>
    ensures value { IfOk result (λ bytes. bytes ≡ det (item_of_sign1 value.now)) }
    // It is read as the envelope, the pairs of its unprotected header in order.
    ensures said { IsWhole1 value.now → IfOk result (λ bytes. IsSign1 bytes (norm_sign1 value.now)) }
{
    let item = sign1_item(alloc, value)?;
    write_det(alloc, &item)
}

/// The item that an envelope is written as.
pub fn sign1_item(alloc: Global, value: &Sign1) -> Result<Item, NoMemory>
    ensures { IfOk result (λ item. item ≡ item_of_sign1 value.now) }
{
    let mut parts = Items::new(alloc);
    parts.push(Item::Bytes(value.protected.copy()?))?;
    parts.push(Item::Map(copy_pairs(alloc, value.unprotected.as_slice())?))?;
    parts.push(Item::Bytes(value.payload.copy()?))?;
    parts.push(Item::Bytes(value.sig.copy()?))?;
    Ok(Item::Tag(18, Boxed::new(alloc, Item::Array(parts))?))
}
