//! The parts that envelopes have in common.

ghost use Rattle.std.specs.Prelude.{◌≡◌, is_some, option_map, IfOk};
ghost use Rattle.cbor_core.specs.declared.item.Item.{out-Item};
ghost use Rattle.cbor_core.specs.Spots.{spot_item};
ghost use Rattle.cbor_core.specs.Shapes.{pairs_layer};
ghost use Rattle.cose_envelopes.specs.Envelope.{algorithm_in, header_in, iv_in};
ghost use Rattle.cose_envelopes.specs.Places.{content_at, content_place, is_protected as is_a_header, iv_place};

use crate::protected::algorithm;
use cbor_core::{Blob, Item, NoMemory, Pairs, Part, exactly};
use std::alloc::Global;

/// A protected header, with the algorithm that it names.
pub(crate) fn read_protected(alloc: Global, part: &Part) -> Result<Option<(Blob, i64)>, NoMemory>
    ensures { IfOk result (λ header. header ≡ header_in (spot_item part.now.spot)) }
{
    match part.bytes(alloc)? {
        Some(bytes) => named(alloc, bytes),
        None => Ok(None),
    }
}

fn named(alloc: Global, bytes: Blob) -> Result<Option<(Blob, i64)>, NoMemory>
    ensures { IfOk result (λ header. header ≡ option_map (λ alg. (bytes, alg)) (algorithm_in bytes)) }
{
    match algorithm(alloc, bytes.as_list())? {
        Some(alg) => Ok(Some((bytes, alg))),
        None => Ok(None),
    }
}

/// The pairs of an unprotected header.
pub(crate) fn read_pairs(alloc: Global, part: &Part) -> Result<Option<Pairs>, NoMemory>
    ensures { IfOk result (λ pairs. pairs ≡ pairs_layer (out-Item (spot_item part.now.spot))) }
{
    if !part.is_map() {
        return Ok(None);
    }
    match part.item(alloc)? {
        Item::Map(pairs) => Ok(Some(pairs)),
        _ => Ok(None),
    }
}

/// Whether a part is an unprotected header, whose pairs are not looked at.
#[tactic(auto, using(crate::proofs::HeaderLaws::map_has_pairs))]
pub(crate) fn is_unprotected(part: &Part) -> bool
    ensures { result ≡ is_some (pairs_layer (out-Item (spot_item part.now.spot))) }
{
    part.is_map()
}

/// The initialization vector of an unprotected header.
#[tactic(auto, unfolding(crate::specs::Envelope::iv_in))]
pub(crate) fn read_iv(alloc: Global, part: &Part) -> Result<Option<[u8; 12]>, NoMemory>
    ensures { IfOk result (λ iv. iv ≡ iv_in (spot_item part.now.spot)) }
{
    match part.labelled(5) {
        Some(value) => match value.bytes(alloc)? {
            Some(bytes) => Ok(exactly::<12>(bytes.as_list())),
            None => Ok(None),
        },
        None => Ok(None),
    }
}

/// Whether a part is a byte string that holds a protected header.
pub fn is_protected(alloc: Global, part: &Part) -> Result<bool, NoMemory>
    ensures { IfOk result (λ is. is ≡ is_a_header part.now.spot) }
{
    match read_protected(alloc, part)? {
        Some(_) => Ok(true),
        None => Ok(false),
    }
}

/// Where a Sign1 or a Mac0, with its tag or without, is not of its form.
pub(crate) fn find_four_fault(alloc: Global, part: &Part, tag: u64) -> Result<usize, NoMemory>
    ensures { IfOk result (λ at. at ≡ content_place (content_at tag part.now.spot)) }
{
    match part.tagged(tag) {
        Some(content) => find_content_fault(alloc, &content),
        None => find_content_fault(alloc, part),
    }
}

fn find_content_fault(alloc: Global, content: &Part) -> Result<usize, NoMemory>
    ensures { IfOk result (λ at. at ≡ content_place content.now.spot) }
{
    let Some((protected, unprotected, payload, last)) = content.four() else {
        return Ok(content.at());
    };
    if !is_protected(alloc, &protected)? {
        Ok(protected.at())
    } else if !unprotected.is_map() {
        Ok(unprotected.at())
    } else if !payload.is_bytes() {
        Ok(payload.at())
    } else {
        Ok(last.at())
    }
}

/// Where an unprotected header has no initialization vector.
pub(crate) fn find_iv_fault(part: &Part) -> usize
    ensures { result ≡ iv_place part.now.spot }
{
    match part.labelled(5) {
        Some(value) => value.at(),
        None => part.at(),
    }
}
