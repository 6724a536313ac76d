//! How deep items stand in a voucher.

ghost use Rattle.std.specs.Prelude.{◌≡◌};
ghost use Rattle.cbor_core.specs.Spots.{spot_parts};
ghost use Rattle.voucher_chain.specs.Deep.{deep_place, deep_entry, content_deep as deep_in_content};

use cbor_core::Part;

/// The place of the first item too deep in the unprotected header of an entry of a voucher.
#[tactic(auto, unfolding(crate::specs::Deep::deep_entry))]
pub(crate) fn find_deep_entry(entry: &Part) -> Option<usize>
    ensures { result ≡ deep_entry entry.now.spot }
{
    match entry.tagged(18) {
        Some(content) => find_deep_content(&content, 10),
        None => find_deep_content(entry, 11),
    }
}

fn find_deep_content(content: &Part, levels: usize) -> Option<usize>
    ensures { result ≡ deep_in_content levels content.now.spot }
{
    match content.four() {
        Some((_protected, unprotected, _payload, _sig)) => find_deep(&unprotected, levels),
        None => None,
    }
}

/// The place of the first of the items inside, and of those inside them, that has no level left.
#[tactic(auto, using(crate::proofs::DeepLaws::deep_none, crate::proofs::DeepLaws::deep_more, crate::proofs::DeepLaws::deep_at_zero))]
#[cycle(deep)]
fn find_deep(part: &Part, levels: usize) -> Option<usize>
    ensures { result ≡ deep_place levels (spot_parts part.now.spot) }
{
    if levels == 0 {
        return match part.inside() {
            Some(first) => Some(first.at()),
            None => None,
        };
    }
    let mut next = part.inside();
    while let Some(inner) = next {
        if let Some(place) = find_deep(&inner, levels - 1) {
            return Some(place);
        }
        next = inner.after();
    }
    None
}
