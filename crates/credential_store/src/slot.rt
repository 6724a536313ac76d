ghost use Rattle.std.specs.Prelude.{◌≡◌, ◌+◌, ◌≤◌, Ok, IfOk, IfErr, length};
ghost use Rattle.disk_port.specs.Slots.{IsPayload, body_of};
ghost use Rattle.credential_store.specs.Body.{body_at, body_of_credential, IsKept};
ghost use Rattle.credential_store.specs.Store.{IsTooBig};

use crate::body::write_body;
use crate::fault::ReserveFault;
use crate::image::SLOTS;
use std::alloc::Global;
use voucher_chain::Credential;

/// The bytes behind the gate of a slot of a generation that holds a credential.
pub(crate) fn slot_bytes(
    alloc: Global,
    generation: u64,
    credential: &Credential,
) -> Result<Vec<u8>, ReserveFault>
    requires { IsKept credential.now }
    ensures whole { IfOk result (λ bytes. IsPayload generation bytes.items) }
    ensures body { IfOk result (λ bytes. body_of bytes.items ≡ body_of_credential credential.now) }
    ensures length { IfOk result (λ bytes. length bytes.items ≤ 12 + 8100) }
    ensures back { IfOk result (λ bytes. body_at (body_of_credential credential.now) ≡ Ok credential.now) }
    ensures fits { IfOk result (λ bytes. length (body_of_credential credential.now) ≤ 8100) }
    ensures too_big { IfErr result (IsTooBig credential.now) }
{
    let body = write_body(alloc, credential)?;
    let bytes = body.as_list();
    if bytes.len() > 8100 {
        return Err(ReserveFault::TooBig(bytes.len()));
    }
    Ok(SLOTS.payload(alloc, generation, bytes)?)
}
