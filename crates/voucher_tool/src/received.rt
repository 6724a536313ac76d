//! The owners' keys as they were received.

ghost use Rattle.std.specs.Prelude.{◌≡◌, IfOk};
ghost use Rattle.cbor_core.specs.Shapes.{four_spots};
ghost use Rattle.voucher_tool.specs.Received.{fourth_raw, key_received, owner_received};

use cbor_core::{Blob, CborFault, NoMemory, Part};
use std::alloc::Global;
use voucher_chain::{Entry, Voucher};

/// The bytes of the next owner's key in an entry.
#[tactic(auto, unfolding(crate::specs::Received::key_received))]
pub(crate) fn received_key(alloc: Global, entry: &Entry) -> Result<Blob, NoMemory>
    ensures { IfOk result (λ key. key ≡ key_received entry.now) }
{
    match Part::open(alloc, entry.sign.payload.as_list()) {
        Ok((payload, _read)) => fourth_part(alloc, &payload),
        Err(CborFault::NoMemory) => Err(NoMemory),
        Err(_) => Ok(Blob::new(Vec::new(alloc))),
    }
}

fn fourth_part(alloc: Global, part: &Part) -> Result<Blob, NoMemory>
    ensures { IfOk result (λ bytes. bytes ≡ fourth_raw (four_spots part.now.spot)) }
{
    match part.four() {
        Some((_prev, _hdr, _extra, key)) => Blob::from_slice(alloc, key.raw()),
        None => Ok(Blob::new(Vec::new(alloc))),
    }
}

/// The bytes of the last owner's key.
#[tactic(auto, using(crate::proofs::Lasts::last_is))]
pub(crate) fn received_owner(alloc: Global, voucher: &Voucher) -> Result<Blob, NoMemory>
    ensures { IfOk result (λ key. key ≡ owner_received voucher.now) }
{
    match voucher.entries.as_list().last() {
        Some(entry) => received_key(alloc, entry),
        None => voucher.header.key_raw.copy(),
    }
}
