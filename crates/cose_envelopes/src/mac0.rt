ghost use Rattle.std.specs.Prelude.{◌≡◌, Some, Ok, IfOk};
ghost use Rattle.cbor_core.specs.Deterministic.{det};
ghost use Rattle.cbor_core.specs.Spots.{spot_item};
ghost use Rattle.cose_envelopes.specs.declared.mac0.Mac0.{Mac0};
ghost use Rattle.cose_envelopes.specs.Envelope.{algorithm_in, mac0_in, mac0_content, mac0_of, IsMac0, item_of_mac0, IsWholeMac};
ghost use Rattle.cose_envelopes.specs.Fault.{Reads};
ghost use Rattle.cose_envelopes.specs.Opening.{mac0_at};
ghost use Rattle.cose_envelopes.specs.Places.{mac0_place};

use crate::fault::{CoseFault, shape_fault};
use crate::parts::{find_four_fault, is_unprotected, read_protected};
use cbor_core::{Blob, Item, Items, NoMemory, Pairs, Part, write_det};
use sqlite_items::Boxed;
use std::alloc::Global;

/// A payload with the tag of a shared key (RFC 9052, section 6.2).
#[derive(Debug, Drop)]
pub struct Mac0 {
    /// The protected header as received, over which the tag is made.
    pub protected: Blob,
    /// The number of the algorithm (RFC 9053) that the protected header names.
    pub alg: i64,
    pub payload: Blob,
    pub tag: Blob,
}

/// The Mac0 that bytes spell, all of them, with its tag or without.
pub fn read_mac0(alloc: Global, bytes: &[u8]) -> Result<Mac0, CoseFault>
    // What is read is spelled: an item whose parts are those of the envelope.
    ensures found { IfOk result (IsMac0 bytes.now) }
    // What is spelled is read, unless memory runs out.
    ensures only { (value : Mac0) → IsMac0 bytes.now value → Reads (Ok value) result }
    // Where the first fault stands.
    ensures exact { Reads (mac0_at bytes.now) result }
    // The protected bytes name the algorithm.
    ensures names { IfOk result (λ value. algorithm_in value.protected ≡ Some value.alg) }
{
    read_whole(alloc, bytes)
}

fn read_whole(alloc: Global, bytes: &[u8]) -> Result<Mac0, CoseFault>
    ensures { Reads (mac0_at bytes.now) result }
{
    match Part::open(alloc, bytes) {
        Ok((part, read)) => match mac0_part(alloc, &part)? {
            Some(value) => {
                if read == bytes.len() {
                    Ok(value)
                } else {
                    Err(CoseFault::BadShape(read))
                }
            }
            None => Err(CoseFault::BadShape(find_mac0_fault(alloc, &part)?)),
        },
        Err(fault) => Err(shape_fault(fault)),
    }
}

/// The Mac0 that a part of an input is, or None where it is none.
#[tactic(auto, unfolding(crate::specs::Envelope::mac0_in))]
pub(crate) fn mac0_part(alloc: Global, part: &Part) -> Result<Option<Mac0>, NoMemory>
    ensures { IfOk result (λ value. value ≡ mac0_in (spot_item part.now.spot)) }
{
    match part.tagged(17) {
        Some(content) => read_content(alloc, &content),
        None => read_content(alloc, part),
    }
}

fn read_content(alloc: Global, content: &Part) -> Result<Option<Mac0>, NoMemory>
    ensures { IfOk result (λ value. value ≡ mac0_content (spot_item content.now.spot)) }
{
    match content.four() {
        Some((protected, unprotected, payload, tag)) => {
            read_parts(alloc, &protected, &unprotected, &payload, &tag)
        }
        None => Ok(None),
    }
}

fn read_parts(
    alloc: Global,
    protected: &Part,
    unprotected: &Part,
    payload: &Part,
    tag: &Part,
) -> Result<Option<Mac0>, NoMemory>
    ensures { IfOk result (λ value. value ≡ mac0_of (spot_item protected.now.spot, spot_item unprotected.now.spot, spot_item payload.now.spot, spot_item tag.now.spot)) }
{
    if !is_unprotected(unprotected) {
        return Ok(None);
    }
    let header = read_protected(alloc, protected)?;
    let payload = payload.bytes(alloc)?;
    let tag = tag.bytes(alloc)?;
    match (header, payload, tag) {
        (Some((protected, alg)), Some(payload), Some(tag)) => Ok(Some(Mac0 {
            protected,
            alg,
            payload,
            tag,
        })),
        _ => Ok(None),
    }
}

/// Where a part that is no Mac0 is not of its form.
#[tactic(auto, unfolding(crate::specs::Places::mac0_place))]
pub(crate) fn find_mac0_fault(alloc: Global, part: &Part) -> Result<usize, NoMemory>
    ensures { IfOk result (λ at. at ≡ mac0_place part.now.spot) }
{
    find_four_fault(alloc, part, 17)
}

/// The envelope with its tag, in the deterministic encoding.
pub fn write_mac0(alloc: Global, value: &Mac0) -> Result<Blob, NoMemory>
    ensures value { IfOk result (λ bytes. bytes ≡ det (item_of_mac0 value.now)) }
    // It is read as the envelope.
    ensures said { IsWholeMac value.now → IfOk result (λ bytes. IsMac0 bytes value.now) }
{
    let item = mac0_item(alloc, value)?;
    write_det(alloc, &item)
}

/// The item that an envelope is written as.
fn mac0_item(alloc: Global, value: &Mac0) -> Result<Item, NoMemory>
    ensures { IfOk result (λ item. item ≡ item_of_mac0 value.now) }
{
    let mut parts = Items::new(alloc);
    parts.push(Item::Bytes(value.protected.copy()?))?;
    parts.push(Item::Map(Pairs::new(alloc)))?;
    parts.push(Item::Bytes(value.payload.copy()?))?;
    parts.push(Item::Bytes(value.tag.copy()?))?;
    Ok(Item::Tag(17, Boxed::new(alloc, Item::Array(parts))?))
}
