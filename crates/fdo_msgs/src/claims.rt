//! The claims of signed bodies, and the labels of their unprotected headers (FIDO Device Onboard 1.1, sections 3.3.6, 5.5.3
//! and 5.5.6).

ghost use Rattle.std.specs.Prelude.{◌≡◌, [], ◌∷◌, option_copied, IfOk};
ghost use Rattle.cbor_core.specs.declared.item.Item.TheVariants as items;
ghost use Rattle.cbor_core.specs.Deterministic.{det};
ghost use Rattle.cbor_core.specs.Numbers.{integer_in, item_of_integer};
ghost use Rattle.cbor_core.specs.Shapes.{is_number, labelled as labelled_with};
ghost use Rattle.cbor_core.specs.Spots.{spot_item};
ghost use Rattle.voucher_chain.specs.Header.{guid_in as sixteen_in};
ghost use Rattle.fdo_msgs.specs.Claims.{guid_of, ueid_in, xb_in, proof_of, proof_in, device_proof_of, device_proof_in, owner_claims_in, device_claims_in, nonce_label, ueid_label, fdo_label, item_of_ueid, item_of_proof, item_of_device_proof, owner_claims, device_claims};

use crate::msg::{Guid, Nonce};
use crate::value::{open_inside, sixteen_part};
use cbor_core::{
    Blob, Item, Items, NoMemory, Pairs, Part, exactly, integer, integer_item, write_det,
};
use key_codec::{KeyFault, PublicKey, key_item, read_key};
use std::alloc::Global;

/// EATNonce.
pub(crate) const NONCE: i64 = 10;

/// EATUEID: the byte 1 and the Guid.
pub(crate) const UEID: i64 = 256;

/// EAT-FDO: the device's half of the key exchange, in an array.
pub(crate) const FDO: i64 = -257;

/// CUPHNonce: NonceTO2ProveDv.
pub(crate) const PROVE_DV: i64 = 256;

/// CUPHOwnerPubKey: the owner's key.
pub(crate) const OWNER_KEY: i64 = 257;

/// EUPHNonce: NonceTO2SetupDv.
pub(crate) const SETUP_DV: i64 = -259;

/// The value with a label in a header.
pub(crate) fn labelled<'a>(pairs: &'a [(Item, Item)], label: i64) -> Option<&'a Item>
    ensures { option_copied result ≡ labelled_with label pairs.now }
{
    for pair in pairs {
        if is_label(&pair.0, label) {
            return Some(&pair.1);
        }
    }
    None
}

fn is_label(item: &Item, label: i64) -> bool
    ensures { result ≡ is_number label (integer_in item.now) }
{
    integer(item) == Some(label)
}

// ---- values

fn sixteen(item: &Item) -> Option<[u8; 16]>
    ensures { result ≡ sixteen_in item.now }
{
    match item {
        Item::Bytes(bytes) => exactly::<16>(bytes.as_list()),
        _ => None,
    }
}

fn ueid(alloc: Global, part: &Part) -> Result<Option<Guid>, NoMemory>
    ensures { IfOk result (λ guid. guid ≡ ueid_in (spot_item part.now.spot)) }
{
    match part.bytes(alloc)? {
        Some(bytes) => Ok(marked_guid(bytes.as_list())),
        None => Ok(None),
    }
}

fn marked_guid(bytes: &[u8]) -> Option<Guid>
    ensures { result ≡ guid_of bytes.now }
{
    match bytes {
        [1, guid @ ..] => exactly::<16>(guid),
        _ => None,
    }
}

fn xb(alloc: Global, part: &Part) -> Result<Option<Blob>, NoMemory>
    ensures { IfOk result (λ xb. xb ≡ xb_in (spot_item part.now.spot)) }
{
    match part.item(alloc)? {
        Item::Array(items) => match items.as_slice() {
            [Item::Bytes(bytes)] => Ok(Some(bytes.copy()?)),
            _ => Ok(None),
        },
        _ => Ok(None),
    }
}

// ---- payloads

/// The nonce and the Guid that the payload of TO1.ProveToRV claims, to its end.
#[tactic(auto, unfolding(crate::specs::Claims::proof_in))]
pub(crate) fn read_proof(alloc: Global, payload: &[u8]) -> Result<Option<(Nonce, Guid)>, NoMemory>
    ensures { IfOk result (λ proof. proof ≡ proof_in payload.now) }
{
    match open_inside(alloc, payload)? {
        Some(part) => proof(alloc, &part),
        None => Ok(None),
    }
}

fn proof(alloc: Global, part: &Part) -> Result<Option<(Nonce, Guid)>, NoMemory>
    ensures { IfOk result (λ proof. proof ≡ proof_of (spot_item part.now.spot)) }
{
    let (Some(nonce), Some(guid)) = (part.labelled(NONCE), part.labelled(UEID)) else {
        return Ok(None);
    };
    let nonce = sixteen_part(alloc, &nonce)?;
    let guid = ueid(alloc, &guid)?;
    match (nonce, guid) {
        (Some(nonce), Some(guid)) => Ok(Some((nonce, guid))),
        _ => Ok(None),
    }
}

/// The nonce, the Guid and the device's half of the key exchange that the payload of TO2.ProveDevice claims, to its end.
#[tactic(auto, unfolding(crate::specs::Claims::device_proof_in))]
pub(crate) fn read_device_proof(
    alloc: Global,
    payload: &[u8],
) -> Result<Option<(Nonce, Guid, Blob)>, NoMemory>
    ensures { IfOk result (λ proof. proof ≡ device_proof_in payload.now) }
{
    match open_inside(alloc, payload)? {
        Some(part) => device_proof(alloc, &part),
        None => Ok(None),
    }
}

fn device_proof(alloc: Global, part: &Part) -> Result<Option<(Nonce, Guid, Blob)>, NoMemory>
    ensures { IfOk result (λ proof. proof ≡ device_proof_of (spot_item part.now.spot)) }
{
    let Some(claimed) = proof(alloc, part)? else {
        return Ok(None);
    };
    let Some(value) = part.labelled(FDO) else {
        return Ok(None);
    };
    match xb(alloc, &value)? {
        Some(xb) => {
            let (nonce, guid) = claimed;
            Ok(Some((nonce, guid, xb)))
        }
        None => Ok(None),
    }
}

// ---- unprotected headers

/// NonceTO2ProveDv and the owner's key, in the unprotected header of TO2.ProveOVHdr.
#[tactic(auto, unfolding(crate::specs::Claims::owner_claims_in))]
pub(crate) fn read_owner_claims(
    alloc: Global,
    pairs: &[(Item, Item)],
) -> Result<Option<(Nonce, PublicKey)>, NoMemory>
    ensures { IfOk result (λ claims. claims ≡ owner_claims_in pairs.now) }
{
    let (Some(nonce), Some(key)) = (labelled(pairs, PROVE_DV), labelled(pairs, OWNER_KEY)) else {
        return Ok(None);
    };
    let Some(nonce) = sixteen(nonce) else {
        return Ok(None);
    };
    match read_key(alloc, key) {
        Ok(key) => Ok(Some((nonce, key))),
        Err(KeyFault::NoMemory) => Err(NoMemory),
        Err(_) => Ok(None),
    }
}

/// NonceTO2SetupDv, in the unprotected header of TO2.ProveDevice.
#[tactic(auto, unfolding(crate::specs::Claims::device_claims_in))]
pub(crate) fn read_device_claims(pairs: &[(Item, Item)]) -> Option<Nonce>
    ensures { result ≡ device_claims_in pairs.now }
{
    sixteen(labelled(pairs, SETUP_DV)?)
}

// ---- writing

/// The payload of TO1.ProveToRV: what the device claims of itself.
pub fn proof_payload(alloc: Global, nonce: &Nonce, guid: &Guid) -> Result<Blob, NoMemory>
    ensures { IfOk result (λ payload. payload ≡ det (item_of_proof nonce.now guid.now)) }
{
    let mut pairs = Pairs::new(alloc);
    pairs.push(nonce_claim(alloc, nonce)?)?;
    pairs.push(ueid_claim(alloc, guid)?)?;
    write_det(alloc, &Item::Map(pairs))
}

/// The payload of TO2.ProveDevice: what the device claims of itself, and its half of the key exchange.
pub fn device_proof_payload(
    alloc: Global,
    nonce: &Nonce,
    guid: &Guid,
    xb: &[u8],
) -> Result<Blob, NoMemory>
    ensures { IfOk result (λ payload. payload ≡ det (item_of_device_proof nonce.now guid.now xb.now)) }
{
    let mut pairs = Pairs::new(alloc);
    pairs.push(nonce_claim(alloc, nonce)?)?;
    pairs.push(ueid_claim(alloc, guid)?)?;
    pairs.push(xb_claim(alloc, xb)?)?;
    write_det(alloc, &Item::Map(pairs))
}

fn nonce_claim(alloc: Global, nonce: &Nonce) -> Result<(Item, Item), NoMemory>
    ensures { IfOk result (λ pair. pair ≡ (item_of_integer nonce_label, items.Bytes nonce.now)) }
{
    let bytes = Blob::from_slice(alloc, nonce)?;
    Ok((integer_item(NONCE), Item::Bytes(bytes)))
}

fn ueid_claim(alloc: Global, guid: &Guid) -> Result<(Item, Item), NoMemory>
    ensures { IfOk result (λ pair. pair ≡ (item_of_integer ueid_label, item_of_ueid guid.now)) }
{
    let mut bytes = Vec::with_capacity(alloc, 17)?;
    bytes.push(1)?;
    bytes.extend_from_slice(guid)?;
    Ok((integer_item(UEID), Item::Bytes(Blob::new(bytes))))
}

fn xb_claim(alloc: Global, xb: &[u8]) -> Result<(Item, Item), NoMemory>
    ensures { IfOk result (λ pair. pair ≡ (item_of_integer fdo_label, items.Array (items.Bytes xb.now ∷ []))) }
{
    let mut parts = Items::new(alloc);
    parts.push(Item::Bytes(Blob::from_slice(alloc, xb)?))?;
    Ok((integer_item(FDO), Item::Array(parts)))
}

/// The unprotected header of TO2.ProveOVHdr: NonceTO2ProveDv and the owner's key.
pub fn owner_header(alloc: Global, prove_dv: &Nonce, key: &PublicKey) -> Result<Pairs, NoMemory>
    ensures { IfOk result (λ pairs. pairs ≡ owner_claims prove_dv.now key.now) }
{
    let nonce = Blob::from_slice(alloc, prove_dv)?;
    let key = key_item(alloc, key)?;
    let mut pairs = Pairs::new(alloc);
    pairs.push((integer_item(PROVE_DV), Item::Bytes(nonce)))?;
    pairs.push((integer_item(OWNER_KEY), key))?;
    Ok(pairs)
}

/// The unprotected header of TO2.ProveDevice: NonceTO2SetupDv.
pub fn device_header(alloc: Global, setup_dv: &Nonce) -> Result<Pairs, NoMemory>
    ensures { IfOk result (λ pairs. pairs ≡ device_claims setup_dv.now) }
{
    let nonce = Blob::from_slice(alloc, setup_dv)?;
    let mut pairs = Pairs::new(alloc);
    pairs.push((integer_item(SETUP_DV), Item::Bytes(nonce)))?;
    Ok(pairs)
}
