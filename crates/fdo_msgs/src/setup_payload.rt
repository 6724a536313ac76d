ghost use Rattle.std.specs.Prelude.{◌≡◌, IfOk};
ghost use Rattle.fdo_msgs.specs.Payloads.{setup_of, setup_seen, setup_in, setup_text};

use crate::msg::{Guid, Nonce};
use crate::value::{key_part, open_inside, put, put_bytes, rv_part, sixteen_part};
use cbor_core::{Blob, NoMemory, Part, write_head};
use key_codec::{PublicKey, key_item};
use std::alloc::Global;
use voucher_chain::{RvInfo, rv_item};

/// The payload of TO2.SetupDevice (FIDO Device Onboard 1.1, section 5.5.7): what the device's next credential is to have.
#[derive(Debug, Drop)]
pub struct SetupPayload {
    pub rv: RvInfo,
    pub guid: Guid,
    /// NonceTO2SetupDv.
    pub nonce: Nonce,
    /// Owner2Key.
    pub key: PublicKey,
}

impl SetupPayload {
    /// What a payload says, to its end.
    #[tactic(auto, unfolding(crate::specs::Payloads::setup_in))]
    pub(crate) fn read(alloc: Global, payload: &[u8]) -> Result<Option<SetupPayload>, NoMemory>
        ensures { IfOk result (λ said. said ≡ setup_in payload.now) }
    {
        match open_inside(alloc, payload)? {
            Some(part) => read_part(alloc, &part),
            None => Ok(None),
        }
    }

    /// The payload.
    pub fn write(&self, alloc: Global) -> Result<Blob, NoMemory>
        ensures { IfOk result (λ payload. payload ≡ setup_text self.now) }
    {
        let mut out = Vec::with_capacity(alloc, 128)?;
        write_head(&mut out, 4, 4)?;
        put(alloc, &mut out, rv_item(alloc, &self.rv)?)?;
        put_bytes(alloc, &mut out, &self.guid)?;
        put_bytes(alloc, &mut out, &self.nonce)?;
        put(alloc, &mut out, key_item(alloc, &self.key)?)?;
        Ok(Blob::new(out))
    }
}

fn read_part(alloc: Global, part: &Part) -> Result<Option<SetupPayload>, NoMemory>
    ensures { IfOk result (λ said. said ≡ setup_seen part.now.spot) }
{
    match part.four() {
        Some((rv, guid, nonce, key)) => read_parts(alloc, &rv, &guid, &nonce, &key),
        None => Ok(None),
    }
}

fn read_parts(
    alloc: Global,
    rv: &Part,
    guid: &Part,
    nonce: &Part,
    key: &Part,
) -> Result<Option<SetupPayload>, NoMemory>
    ensures { IfOk result (λ said. said ≡ setup_of (rv.now.spot, guid.now.spot, nonce.now.spot, key.now.spot)) }
{
    let rv = rv_part(alloc, rv)?;
    let guid = sixteen_part(alloc, guid)?;
    let nonce = sixteen_part(alloc, nonce)?;
    let key = key_part(alloc, key)?;
    match (rv, guid, nonce, key) {
        (Some(rv), Some(guid), Some(nonce), Some(key)) => Ok(Some(SetupPayload {
            rv,
            guid,
            nonce,
            key,
        })),
        _ => Ok(None),
    }
}
