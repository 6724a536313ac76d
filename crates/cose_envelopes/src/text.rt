ghost use Rattle.std.specs.Prelude.{◌≡◌, [], ◌∷◌, IfOk};
ghost use Rattle.cbor_core.specs.Deterministic.{det};
ghost use Rattle.cbor_core.specs.declared.item.Item.TheVariants as items;
ghost use Rattle.cose_envelopes.specs.Text.{sign1_structure, mac0_structure, encrypt0_structure};

use cbor_core::{Blob, Item, Items, NoMemory, Text, write_det};
use std::alloc::Global;

/// The text that a Sign1 signs (RFC 9052, section 4.4), over the protected header as received and without external data.
#[tactic(auto, unfolding(crate::specs::Text::sign1_structure))]
pub fn sign1_text(alloc: Global, protected: &[u8], payload: &[u8]) -> Result<Blob, NoMemory>
    ensures { IfOk result (λ text. text ≡ sign1_structure protected.now payload.now) }
{
    structure(alloc, "Signature1", protected, payload)
}

/// The text over which a Mac0's tag is made (RFC 9052, section 6.3).
#[tactic(auto, unfolding(crate::specs::Text::mac0_structure))]
pub(crate) fn mac0_text(alloc: Global, protected: &[u8], payload: &[u8]) -> Result<Blob, NoMemory>
    ensures { IfOk result (λ text. text ≡ mac0_structure protected.now payload.now) }
{
    structure(alloc, "MAC0", protected, payload)
}

/// The additional data with which an Encrypt0 is sealed (RFC 9052, section 5.3).
#[tactic(auto, unfolding(crate::specs::Text::encrypt0_structure))]
pub(crate) fn encrypt0_text(alloc: Global, protected: &[u8]) -> Result<Blob, NoMemory>
    ensures { IfOk result (λ text. text ≡ encrypt0_structure protected.now) }
{
    let parts = first_parts(alloc, "Encrypt0", protected)?;
    write_det(alloc, &Item::Array(parts))
}

/// The text of a context, a protected header, no external data and a payload.
fn structure(
    alloc: Global,
    context: &str,
    protected: &[u8],
    payload: &[u8],
) -> Result<Blob, NoMemory>
    ensures { IfOk result (λ text. text ≡ det (items.Array (items.Text context.now ∷ items.Bytes protected.now ∷ items.Bytes [] ∷ items.Bytes payload.now ∷ []))) }
{
    let mut parts = first_parts(alloc, context, protected)?;
    parts.push(Item::Bytes(Blob::from_slice(alloc, payload)?))?;
    write_det(alloc, &Item::Array(parts))
}

/// A context, a protected header, and external data of no bytes.
fn first_parts(alloc: Global, context: &str, protected: &[u8]) -> Result<Items, NoMemory>
    ensures { IfOk result (λ parts. parts ≡ items.Text context.now ∷ items.Bytes protected.now ∷ items.Bytes [] ∷ []) }
{
    let mut parts = Items::new(alloc);
    parts.push(Item::Text(Text::from_str(alloc, context)?))?;
    parts.push(Item::Bytes(Blob::from_slice(alloc, protected)?))?;
    parts.push(Item::Bytes(Blob::new(Vec::new(alloc))))?;
    Ok(parts)
}
