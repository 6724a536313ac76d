//! What the signed payloads of messages say is what was written into them, and equal payloads have equal parts
//! (FIDO Device Onboard 1.1, sections 5.3 to 5.5): laws that the roles stand on.
#![tactic(auto)]

ghost use Rattle.msgs_laws.specs.Claims.{ProofIsReadBack, DeviceProofIsReadBack, OwnerClaimsAreReadBack, DeviceClaimsAreReadBack, OneProof, OneDeviceProof, OneOwnerClaims, OneDeviceClaims};
ghost use Rattle.msgs_laws.specs.Payloads.{SetupIsReadBack, HeaderIsReadBack, OneSetup, OneHeader};
ghost use Rattle.msgs_laws.specs.Redirect.{RedirectIsReadBack, OneRedirect};

/// The payload of TO1.ProveToRV is read as the nonce and the Guid that were written.
pub fn proof_is_read_back()
    ensures { ProofIsReadBack }
{}

/// Two payloads of TO1.ProveToRV that are equal have one nonce and one Guid.
pub fn equal_proofs_claim_the_same()
    ensures { OneProof }
{}

/// The payload of TO2.ProveDevice is read as the nonce, the Guid and the half of the key agreement that were written.
pub fn device_proof_is_read_back()
    ensures { DeviceProofIsReadBack }
{}

/// Two payloads of TO2.ProveDevice that are equal have one nonce, one Guid and one half of the key agreement.
pub fn equal_device_proofs_claim_the_same()
    ensures { OneDeviceProof }
{}

/// The unprotected header of TO2.ProveOVHdr is read as the nonce and the key that were written.
pub fn owner_claims_are_read_back()
    ensures { OwnerClaimsAreReadBack }
{}

/// Two unprotected headers of TO2.ProveOVHdr that are equal have one nonce and one key.
pub fn equal_owner_claims_are_of_one_key()
    ensures { OneOwnerClaims }
{}

/// The unprotected header of TO2.ProveDevice is read as the nonce that was written.
pub fn device_claims_are_read_back()
    ensures { DeviceClaimsAreReadBack }
{}

/// Two unprotected headers of TO2.ProveDevice that are equal have one nonce.
pub fn equal_device_claims_are_of_one_nonce()
    ensures { OneDeviceClaims }
{}

/// The payload of TO2.SetupDevice is read as the rendezvous information, the Guid, the nonce and the key that were written.
pub fn setup_is_read_back()
    ensures { SetupIsReadBack }
{}

/// Two payloads of TO2.SetupDevice that are equal are of one setup.
pub fn equal_setups_are_one()
    ensures { OneSetup }
{}

/// The payload of TO2.ProveOVHdr is read as it was written, its HMAC as it was received.
pub fn header_is_read_back()
    ensures { HeaderIsReadBack }
{}

/// Two payloads of TO2.ProveOVHdr that are equal have equal parts.
pub fn equal_headers_are_one()
    ensures { OneHeader }
{}

/// The payload of to1d is read as the addresses and the hash that were written.
pub fn redirect_is_read_back()
    ensures { RedirectIsReadBack }
{}

/// Two payloads of to1d that are equal have the same addresses and one hash.
pub fn equal_redirects_are_one()
    ensures { OneRedirect }
{}
