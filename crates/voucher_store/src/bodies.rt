ghost use Rattle.std.specs.Prelude.{◌≡◌, Ok, IfOk, IfErr};
ghost use Rattle.voucher_store.specs.Read.{Reads, Blames, det_at, IsOpened, IsCut};
ghost use Rattle.voucher_store.specs.Records.{change_at};
ghost use Rattle.voucher_store.specs.Snapshot.{snapshot_at};
ghost use Rattle.voucher_store.specs.Writing.{IsSpelt, IsMap};

use crate::change::Change;
use crate::fault::ImageFault;
use crate::records::read_change;
use crate::snapshot::read_snapshot;
use cbor_core::{CborFault, Part, read_det};
use std::alloc::Global;
use voucher_map::Kept;

/// The item in the deterministic encoding at the front of a body, and how many bytes it takes.
#[tactic(auto, using(crate::proofs::Opening::cut_at))]
fn open_body<'a>(alloc: Global, body: &'a [u8]) -> Result<(Part<'a>, usize), ImageFault>
    ensures ok { IfOk result (λ p. IsOpened body.now p.1 p.0) }
    ensures err { IfErr result (IsCut body.now) }
{
    match read_det(alloc, body) {
        Ok((_item, read)) => match Part::open(alloc, body) {
            Ok((part, _read)) => Ok((part, read)),
            // What was read as deterministic is read again, so it is memory that lacks.
            Err(_) => Err(ImageFault::NoMemory),
        },
        Err(fault) => Err(cbor_fault(fault)),
    }
}

ghost use Rattle.voucher_store.specs.Read.{IsAt};

/// A fault of the deterministic encoding.
fn cbor_fault(fault: CborFault) -> ImageFault
    ensures { IsAt fault result }
{
    match fault {
        CborFault::Truncated(place)
        | CborFault::Malformed(place)
        | CborFault::TooDeep(place)
        | CborFault::Duplicate(place)
        | CborFault::Float(place)
        | CborFault::NotDeterministic(place) => ImageFault::Foreign(place as u64),
        CborFault::NoMemory => ImageFault::NoMemory,
    }
}

/// The change that the body of a record says.
#[tactic(auto, using(crate::proofs::Opening::said_opened, crate::proofs::Opening::over_opened, crate::proofs::Opening::blamed_opened, crate::proofs::Opening::blamed_cut))]
pub(crate) fn read_record(alloc: Global, body: &[u8]) -> Result<Change, ImageFault>
    ensures ok { IfOk result (λ change. det_at change_at body.now ≡ Ok change) }
    ensures spelt { IfOk result IsSpelt }
    ensures err { IfErr result (Blames (det_at change_at body.now)) }
{
    match open_body(alloc, body) {
        Ok((part, read)) => match read_change(alloc, &part) {
            Ok(change) => {
                if read == body.len() {
                    Ok(change)
                } else {
                    Err(ImageFault::Foreign(read as u64))
                }
            }
            Err(fault) => Err(fault),
        },
        Err(fault) => Err(fault),
    }
}

/// The entries that the body of an area says.
#[tactic(auto, using(crate::proofs::Opening::said_opened, crate::proofs::Opening::over_opened, crate::proofs::Opening::blamed_opened, crate::proofs::Opening::blamed_cut))]
pub(crate) fn read_entries(alloc: Global, body: &[u8]) -> Result<Vec<Kept>, ImageFault>
    ensures ok { IfOk result (λ entries. det_at snapshot_at body.now ≡ Ok entries.items) }
    ensures kept { IfOk result (λ entries. IsMap entries.items) }
    ensures err { IfErr result (Blames (det_at snapshot_at body.now)) }
{
    match open_body(alloc, body) {
        Ok((part, read)) => match read_snapshot(alloc, &part) {
            Ok(entries) => {
                if read == body.len() {
                    Ok(entries)
                } else {
                    Err(ImageFault::Foreign(read as u64))
                }
            }
            Err(fault) => Err(fault),
        },
        Err(fault) => Err(fault),
    }
}
