ghost use Rattle.std.specs.Prelude.{◌≡◌, IfOk};
ghost use Rattle.fdo_msgs.specs.To1d.{redirect as redirect_seen, redirect_in, redirect_text, to1d_of, to1d_seen};

use crate::addr::{Addrs, addrs_item, addrs_part};
use crate::value::{open_inside, put};
use cbor_core::{Blob, NoMemory, Part, write_head};
use cose_envelopes::{Sign1, sign1_part};
use hash_hmac::Hash;
use key_codec::{hash_item, read_hash_part};
use std::alloc::Global;

/// Where an owner is, under its key (FIDO Device Onboard 1.1, section 5.3.3, "to1d").
#[derive(Debug, Drop)]
pub struct To1d {
    /// Its bytes as received, with its tag where it has one. They spell the other fields.
    pub raw: Blob,
    pub addrs: Addrs,
    /// The hash of to0d.
    pub to0d_hash: Hash,
    /// The envelope that the owner signed.
    pub sign: Sign1,
}

impl To1d {
    /// An equal to1d.
    pub fn copy(&self, alloc: Global) -> Result<To1d, NoMemory>
        ensures { IfOk result (λ copy. copy ≡ self.now) }
    {
        Ok(To1d {
            raw: self.raw.copy()?,
            addrs: self.addrs.copy(alloc)?,
            to0d_hash: self.to0d_hash,
            sign: self.sign.copy(alloc)?,
        })
    }
}

/// The to1d that a part of an input is, or None where it is none.
#[tactic(auto, unfolding(crate::specs::To1d::to1d_seen))]
pub(crate) fn read_to1d(alloc: Global, part: &Part) -> Result<Option<To1d>, NoMemory>
    ensures { IfOk result (λ to1d. to1d ≡ to1d_seen part.now.spot) }
{
    match sign1_part(alloc, part)? {
        Some(sign) => signed_to1d(alloc, part.raw(), sign),
        None => Ok(None),
    }
}

/// The to1d that an envelope is, whose bytes are as they were received.
pub(crate) fn signed_to1d(alloc: Global, raw: &[u8], sign: Sign1) -> Result<Option<To1d>, NoMemory>
    ensures { IfOk result (λ to1d. to1d ≡ to1d_of raw.now sign) }
{
    match read_redirect(alloc, sign.payload.as_list())? {
        Some((addrs, to0d_hash)) => Ok(Some(To1d {
            raw: Blob::from_slice(alloc, raw)?,
            addrs,
            to0d_hash,
            sign,
        })),
        None => Ok(None),
    }
}

/// The addresses and the hash of to0d that a payload says, to its end.
#[tactic(auto, unfolding(crate::specs::To1d::redirect_in))]
pub(crate) fn read_redirect(
    alloc: Global,
    payload: &[u8],
) -> Result<Option<(Addrs, Hash)>, NoMemory>
    ensures { IfOk result (λ parts. parts ≡ redirect_in payload.now) }
{
    match open_inside(alloc, payload)? {
        Some(part) => redirect(alloc, &part),
        None => Ok(None),
    }
}

fn redirect(alloc: Global, part: &Part) -> Result<Option<(Addrs, Hash)>, NoMemory>
    ensures { IfOk result (λ parts. parts ≡ redirect_seen part.now.spot) }
{
    let Some((addrs, hash)) = part.two() else {
        return Ok(None);
    };
    let addrs = addrs_part(alloc, &addrs)?;
    let hash = read_hash_part(alloc, &hash)?;
    match (addrs, hash) {
        (Some(addrs), Some(hash)) => Ok(Some((addrs, hash))),
        _ => Ok(None),
    }
}

/// The payload of to1d.
pub fn to1d_payload(alloc: Global, addrs: &Addrs, to0d_hash: &Hash) -> Result<Blob, NoMemory>
    ensures { IfOk result (λ payload. payload ≡ redirect_text addrs.now to0d_hash.now) }
{
    let mut out = Vec::with_capacity(alloc, 64)?;
    write_head(&mut out, 4, 2)?;
    put(alloc, &mut out, addrs_item(alloc, addrs)?)?;
    put(alloc, &mut out, hash_item(alloc, to0d_hash)?)?;
    Ok(Blob::new(out))
}
