ghost use Rattle.std.specs.Prelude.{◌≡◌, Some, IfOk};
ghost use Rattle.cose_envelopes.specs.Envelope.{algorithm_in, header_of, protected_of};

use cbor_core::{Blob, Item, NoMemory, Pairs, Part, integer_item, write_det};
use std::alloc::Global;

/// The algorithm that a protected header names (RFC 9052, section 3.1), or None where the bytes spell no map, to their
/// end, whose label 1 is a number of `i64`.
#[tactic(auto, unfolding(crate::specs::Envelope::algorithm_in))]
pub fn algorithm(alloc: Global, protected: &[u8]) -> Result<Option<i64>, NoMemory>
    ensures { IfOk result (λ alg. alg ≡ algorithm_in protected.now) }
{
    match Part::open(alloc, protected) {
        Ok((header, read)) => {
            if read != protected.len() {
                return Ok(None);
            }
            match header.labelled(1) {
                Some(alg) => Ok(alg.integer()),
                None => Ok(None),
            }
        }
        Err(cbor_core::CborFault::NoMemory) => Err(NoMemory),
        Err(_) => Ok(None),
    }
}

/// The protected header that names an algorithm and nothing else.
#[tactic(auto, unfolding(crate::specs::Envelope::protected_of))]
pub(crate) fn protected(alloc: Global, alg: i64) -> Result<Blob, NoMemory>
    ensures value { IfOk result (λ bytes. bytes ≡ protected_of alg) }
    ensures names { IfOk result (λ bytes. algorithm_in bytes ≡ Some alg) }
{
    let header = header(alloc, alg)?;
    write_det(alloc, &header)
}

fn header(alloc: Global, alg: i64) -> Result<Item, NoMemory>
    ensures { IfOk result (λ item. item ≡ header_of alg) }
{
    let mut pairs = Pairs::new(alloc);
    pairs.push((Item::Uint(1), integer_item(alg)))?;
    Ok(Item::Map(pairs))
}
