ghost use Rattle.std.specs.Prelude.{◌≡◌, [], IfOk, IfErr, IfSome};
ghost use Rattle.voucher_store.specs.Writing.{IsSound, IsSoundCandidate};
ghost use Rattle.cbor_core.specs.declared.item.Item.{out-Item};
ghost use Rattle.cbor_core.specs.Shapes.{is_number};
ghost use Rattle.cbor_core.specs.Numbers.{integer_in};
ghost use Rattle.cbor_core.specs.Spots.{spot_item, start};
ghost use Rattle.voucher_store.specs.Read.{Reads, Blames, det_of};
ghost use Rattle.voucher_store.specs.Parts.{voucher_inside, candidate_inside, guid_inside, read_voucher_of};
ghost use Rattle.voucher_store.specs.Snapshot.{is_at};
ghost use Rattle.voucher_chain.specs.Reading.{voucher_at};

use crate::fault::ImageFault;
use cbor_core::{CborFault, Part, exactly, read_det};
use std::alloc::Global;
use voucher_chain::{ChainFault, Guid, Voucher, read_voucher};

/// Whether a part is this number.
pub(crate) fn is_number(part: &Part, number: i64) -> bool
    ensures { result ≡ is_at number part.now.spot }
{
    match part.integer() {
        Some(n) => n == number,
        None => false,
    }
}

/// The place of a part's fault.
pub(crate) fn fault_at(part: &Part) -> ImageFault
    ensures { result ≡ image.Foreign part.now.spot.at }
{
    ImageFault::Foreign(part.at() as u64)
}

ghost use Rattle.voucher_store.specs.declared.fault.ImageFault.TheVariants as image;
ghost use Rattle.std.specs.Prelude.{Some, None, Option};

/// The voucher that bytes spell, where they spell one.
#[tactic(auto, using(crate::proofs::Sounds::sound_is))]
fn read_bytes(alloc: Global, bytes: &[u8]) -> Result<Option<Voucher>, ImageFault>
    ensures read { IfOk result (λ voucher. voucher ≡ read_voucher_of (voucher_at bytes.now)) }
    ensures sound { IfOk result (λ voucher. IfSome voucher IsSound) }
    ensures no_memory { IfErr result (λ fault. fault ≡ image.NoMemory) }
{
    match read_voucher(alloc, bytes) {
        Ok(voucher) => Ok(Some(voucher)),
        Err(ChainFault::NoMemory) => Err(ImageFault::NoMemory),
        Err(_) => Ok(None),
    }
}

/// The voucher in a byte string.
pub(crate) fn read_voucher_part(alloc: Global, part: &Part) -> Result<Voucher, ImageFault>
    ensures read { Reads (voucher_inside part.now.spot) result }
    ensures sound { IfOk result IsSound }
{
    let Some(bytes) = part.bytes(alloc)? else {
        return Err(fault_at(part));
    };
    match read_bytes(alloc, bytes.as_list()) {
        Ok(Some(voucher)) => Ok(voucher),
        Ok(None) => Err(fault_at(part)),
        Err(fault) => Err(fault),
    }
}

/// A voucher, or null.
pub(crate) fn read_candidate(alloc: Global, part: &Part) -> Result<Option<Voucher>, ImageFault>
    ensures read { Reads (candidate_inside part.now.spot) result }
    ensures sound { IfOk result IsSoundCandidate }
{
    if part.is_null() {
        return Ok(None);
    }
    match read_voucher_part(alloc, part) {
        Ok(voucher) => Ok(Some(voucher)),
        Err(fault) => Err(fault),
    }
}

/// A GUID.
pub(crate) fn read_guid(alloc: Global, part: &Part) -> Result<Guid, ImageFault>
    ensures { Reads (guid_inside part.now.spot) result }
{
    let Some(bytes) = part.bytes(alloc)? else {
        return Err(fault_at(part));
    };
    match exactly::<16>(bytes.as_list()) {
        Some(guid) => Ok(guid),
        None => Err(fault_at(part)),
    }
}
