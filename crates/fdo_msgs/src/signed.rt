ghost use Rattle.std.specs.Prelude.{◌≡◌, IfOk};
ghost use Rattle.cbor_core.specs.declared.item.Item.{out-Item};
ghost use Rattle.cbor_core.specs.Shapes.{labelled_at};
ghost use Rattle.cbor_core.specs.Spots.{spot_item, bytes_in};
ghost use Rattle.fdo_msgs.specs.Body.{signed_of};
ghost use Rattle.fdo_msgs.specs.Signed.{signed_seen, signed_place, signed_content_place, later_place as later_parts_place, claims_fault as fault_of_claims, nonce_fault as fault_of_nonce, key_fault as fault_of_key, earlier as earlier_fault, is_payload_of, is_payload_in, signed_msg, prove_to_rv as prove_to_rv_said, prove_ov_hdr as prove_ov_hdr_said, shown as shown_as, prove_device as prove_device_said, setup_device as setup_device_said};

use crate::claims::{
    OWNER_KEY, PROVE_DV, SETUP_DV, read_device_claims, read_device_proof, read_owner_claims,
    read_proof,
};
use crate::header_payload::HeaderPayload;
use crate::kind;
use crate::msg::{Msg, Nonce};
use crate::setup_payload::SetupPayload;
use crate::to1d::{read_redirect, signed_to1d};
use crate::value::{key_part, sixteen_part};
use cbor_core::{NoMemory, Part};
use cose_envelopes::{Sign1, is_protected, sign1_part};
use key_codec::{PublicKey, find_key_fault};
use std::alloc::Global;

/// The bodies that are a Sign1 (FIDO Device Onboard 1.1, sections 5.3.3, 5.4.3, 5.5.3, 5.5.6 and 5.5.7).
#[derive(Clone, Copy, Debug, PartialEq, Eq)]
pub enum Signed {
    ProveToRv,
    RvRedirect,
    ProveOvHdr,
    ProveDevice,
    SetupDevice,
}

impl Signed {
    /// The signed body of a type.
    #[tactic(auto, unfolding(crate::specs::Body::signed_of))]
    pub(crate) fn of(kind: u8) -> Option<Signed>
        ensures { result ≡ signed_of kind }
    {
        match kind {
            kind::PROVE_TO_RV => Some(Signed::ProveToRv),
            kind::RV_REDIRECT => Some(Signed::RvRedirect),
            kind::PROVE_OV_HDR => Some(Signed::ProveOvHdr),
            kind::PROVE_DEVICE => Some(Signed::ProveDevice),
            kind::SETUP_DEVICE => Some(Signed::SetupDevice),
            _ => None,
        }
    }

    /// The message that a part is, or None where it is none of the body's form.
    pub(crate) fn read(self, alloc: Global, part: &Part) -> Result<Option<Msg>, NoMemory>
        ensures { IfOk result (λ msg. msg ≡ signed_seen self part.now.spot) }
    {
        match sign1_part(alloc, part)? {
            Some(sign) => self.message(alloc, part.raw(), sign),
            None => Ok(None),
        }
    }

    fn message(self, alloc: Global, raw: &[u8], sign: Sign1) -> Result<Option<Msg>, NoMemory>
        ensures { IfOk result (λ msg. msg ≡ signed_msg self raw.now sign) }
    {
        match self {
            Signed::ProveToRv => prove_to_rv(alloc, sign),
            Signed::RvRedirect => match signed_to1d(alloc, raw, sign)? {
                Some(to1d) => Ok(Some(Msg::RvRedirect(to1d))),
                None => Ok(None),
            },
            Signed::ProveOvHdr => prove_ov_hdr(alloc, sign),
            Signed::ProveDevice => prove_device(alloc, sign),
            Signed::SetupDevice => setup_device(alloc, sign),
        }
    }

    /// Where a part that is none of the body's form is at fault.
    #[tactic(auto, unfolding(crate::specs::Signed::signed_place))]
    pub(crate) fn find_fault(self, alloc: Global, part: &Part) -> Result<usize, NoMemory>
        ensures { IfOk result (λ at. at ≡ signed_place self part.now.spot) }
    {
        match part.tagged(18) {
            Some(content) => self.find_content_fault(alloc, &content),
            None => self.find_content_fault(alloc, part),
        }
    }

    fn find_content_fault(self, alloc: Global, content: &Part) -> Result<usize, NoMemory>
        ensures { IfOk result (λ at. at ≡ signed_content_place self content.now.spot) }
    {
        let Some((protected, unprotected, payload, sig)) = content.four() else {
            return Ok(content.at());
        };
        if !is_protected(alloc, &protected)? {
            return Ok(protected.at());
        }
        match self.claims_fault(alloc, &unprotected)? {
            Some(place) => Ok(place),
            None => self.find_later_fault(alloc, &payload, &sig),
        }
    }

    fn find_later_fault(self, alloc: Global, payload: &Part, sig: &Part) -> Result<usize, NoMemory>
        ensures { IfOk result (λ at. at ≡ later_parts_place self payload.now.spot sig.now.spot) }
    {
        if self.is_payload_part(alloc, payload)? {
            Ok(sig.at())
        } else {
            Ok(payload.at())
        }
    }

    fn is_payload_part(self, alloc: Global, payload: &Part) -> Result<bool, NoMemory>
        ensures { IfOk result (λ is. is ≡ is_payload_in self (bytes_in (out-Item (spot_item payload.now.spot)))) }
    {
        match payload.bytes(alloc)? {
            Some(bytes) => self.is_payload(alloc, bytes.as_list()),
            None => Ok(false),
        }
    }

    fn is_payload(self, alloc: Global, payload: &[u8]) -> Result<bool, NoMemory>
        ensures { IfOk result (λ is. is ≡ is_payload_of self payload.now) }
    {
        match self {
            Signed::ProveToRv => Ok(read_proof(alloc, payload)?.is_some()),
            Signed::RvRedirect => Ok(read_redirect(alloc, payload)?.is_some()),
            Signed::ProveOvHdr => Ok(HeaderPayload::read(alloc, payload)?.is_some()),
            Signed::ProveDevice => Ok(read_device_proof(alloc, payload)?.is_some()),
            Signed::SetupDevice => Ok(SetupPayload::read(alloc, payload)?.is_some()),
        }
    }

    /// Where an unprotected header is at fault.
    fn claims_fault(self, alloc: Global, part: &Part) -> Result<Option<usize>, NoMemory>
        ensures { IfOk result (λ fault. fault ≡ fault_of_claims self part.now.spot) }
    {
        match self {
            Signed::ProveOvHdr => owner_claims_fault(alloc, part),
            Signed::ProveDevice => device_claims_fault(alloc, part),
            _ => {
                if part.is_map() {
                    Ok(None)
                } else {
                    Ok(Some(part.at()))
                }
            }
        }
    }
}

// ---- the messages

fn prove_to_rv(alloc: Global, sign: Sign1) -> Result<Option<Msg>, NoMemory>
    ensures { IfOk result (λ msg. msg ≡ prove_to_rv_said sign) }
{
    match read_proof(alloc, sign.payload.as_list())? {
        Some(proof) => {
            let (nonce, guid) = proof;
            Ok(Some(Msg::ProveToRv { nonce, guid, sign }))
        }
        None => Ok(None),
    }
}

fn prove_ov_hdr(alloc: Global, sign: Sign1) -> Result<Option<Msg>, NoMemory>
    ensures { IfOk result (λ msg. msg ≡ prove_ov_hdr_said sign) }
{
    let Some(claims) = read_owner_claims(alloc, sign.unprotected.as_slice())? else {
        return Ok(None);
    };
    match HeaderPayload::read(alloc, sign.payload.as_list())? {
        Some(payload) => Ok(Some(shown(sign, claims, payload))),
        None => Ok(None),
    }
}

fn shown(sign: Sign1, claims: (Nonce, PublicKey), payload: HeaderPayload) -> Msg
    ensures { result ≡ shown_as sign claims payload }
{
    let HeaderPayload {
        header,
        entries,
        hmac,
        hmac_raw,
        nonce,
        sig,
        xa,
        hello_hash,
        max_size,
    } = payload;
    let (prove_dv, key) = claims;
    Msg::ProveOvHdr {
        header,
        entries,
        hmac,
        hmac_raw,
        nonce,
        sig,
        xa,
        hello_hash,
        max_size,
        prove_dv,
        key,
        sign,
    }
}

fn prove_device(alloc: Global, sign: Sign1) -> Result<Option<Msg>, NoMemory>
    ensures { IfOk result (λ msg. msg ≡ prove_device_said sign) }
{
    let Some(setup_dv) = read_device_claims(sign.unprotected.as_slice()) else {
        return Ok(None);
    };
    match read_device_proof(alloc, sign.payload.as_list())? {
        Some(proof) => {
            let (nonce, guid, xb) = proof;
            Ok(Some(Msg::ProveDevice {
                nonce,
                guid,
                xb,
                setup_dv,
                sign,
            }))
        }
        None => Ok(None),
    }
}

fn setup_device(alloc: Global, sign: Sign1) -> Result<Option<Msg>, NoMemory>
    ensures { IfOk result (λ msg. msg ≡ setup_device_said sign) }
{
    match SetupPayload::read(alloc, sign.payload.as_list())? {
        Some(payload) => {
            let SetupPayload {
                rv,
                guid,
                nonce,
                key,
            } = payload;
            Ok(Some(Msg::SetupDevice {
                rv,
                guid,
                nonce,
                key,
                sign,
            }))
        }
        None => Ok(None),
    }
}

// ---- where unprotected headers are at fault

ghost use Rattle.fdo_msgs.specs.Claims.{prove_dv_label, owner_key_label, setup_dv_label};
ghost use Rattle.fdo_msgs.specs.Signed.{owner_claims_fault as fault_of_owner_claims, device_claims_fault as fault_of_device_claims};

fn owner_claims_fault(alloc: Global, part: &Part) -> Result<Option<usize>, NoMemory>
    ensures { IfOk result (λ fault. fault ≡ fault_of_owner_claims part.now.spot.at (labelled_at prove_dv_label part.now.spot) (labelled_at owner_key_label part.now.spot)) }
{
    match (part.labelled(PROVE_DV), part.labelled(OWNER_KEY)) {
        (Some(nonce), Some(key)) => {
            let nonce = nonce_fault(alloc, &nonce)?;
            let key = key_fault(alloc, &key)?;
            Ok(earlier(nonce, key))
        }
        _ => Ok(Some(part.at())),
    }
}

fn device_claims_fault(alloc: Global, part: &Part) -> Result<Option<usize>, NoMemory>
    ensures { IfOk result (λ fault. fault ≡ fault_of_device_claims part.now.spot.at (labelled_at setup_dv_label part.now.spot)) }
{
    match part.labelled(SETUP_DV) {
        Some(nonce) => nonce_fault(alloc, &nonce),
        None => Ok(Some(part.at())),
    }
}

fn nonce_fault(alloc: Global, part: &Part) -> Result<Option<usize>, NoMemory>
    ensures { IfOk result (λ fault. fault ≡ fault_of_nonce part.now.spot) }
{
    match sixteen_part(alloc, part)? {
        Some(_) => Ok(None),
        None => Ok(Some(part.at())),
    }
}

fn key_fault(alloc: Global, part: &Part) -> Result<Option<usize>, NoMemory>
    ensures { IfOk result (λ fault. fault ≡ fault_of_key part.now.spot) }
{
    match key_part(alloc, part)? {
        Some(_) => Ok(None),
        None => Ok(Some(find_key_fault(part))),
    }
}

fn earlier(one: Option<usize>, other: Option<usize>) -> Option<usize>
    ensures { result ≡ earlier_fault one other }
{
    match (one, other) {
        (Some(one), Some(other)) => Some(one.min(other)),
        (Some(one), None) => Some(one),
        (None, other) => other,
    }
}
