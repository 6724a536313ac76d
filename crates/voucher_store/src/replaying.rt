ghost use Rattle.std.specs.Prelude.{◌≡◌, ◌+◌, ◌<◌, ◌^◌, Ok, OnOk, IfErr, length};
ghost use Rattle.journal.specs.Records.{walk};
ghost use Rattle.voucher_store.specs.Read.{Blames};
ghost use Rattle.voucher_store.specs.Writing.{IsMap};
ghost use Rattle.voucher_store.specs.Records.{record_in, records_in};

use crate::applying::apply;
use crate::bodies::read_record;
use crate::fault::ImageFault;
use journal::record_in;
use std::alloc::Global;
use voucher_map::Kept;

/// Makes the changes that the open records of an area say, of which the first one's gate stands at an offset in the file. Where
/// one is at fault, what is left of the entries is not told.
#[tactic(auto, using(crate::proofs::ReplayLaws::records_more, crate::proofs::ReplayLaws::records_fail, crate::proofs::ReplayLaws::records_end, crate::proofs::ReplayLaws::records_zero))]
pub(crate) fn replay(
    alloc: Global,
    entries: &mut Vec<Kept>,
    place: u64,
    records: &[u8],
) -> Result<(), ImageFault>
    requires place { place + length records.now < 2 ^ 64 }
    requires kept { IsMap entries.old.items }
    ensures ok { OnOk result (records_in place entries.old.items (walk (length records.now) place records.now).bodies ≡ Ok entries.new.items) }
    ensures err { IfErr result (Blames (records_in place entries.old.items (walk (length records.now) place records.now).bodies)) }
    ensures kept { OnOk result (IsMap entries.new.items) }
{
    let mut at = place;
    let mut rest = records;
    for turn in 0..records.len() {
        match record_in(rest) {
            Some((body, later)) => {
                match replay_one(alloc, entries, at, body) {
                    Ok(()) => {}
                    Err(fault) => return Err(fault),
                }
                at += 5 + body.len() as u64;
                rest = later;
            }
            None => return Ok(()),
        }
    }
    Ok(())
}

/// Makes the change that one record says, which begins at an offset in the file.
#[tactic(auto, using(crate::proofs::ReplayLaws::record_done, crate::proofs::ReplayLaws::record_nothing, crate::proofs::ReplayLaws::record_cut, crate::proofs::Sounds::applied_map))]
fn replay_one(
    alloc: Global,
    entries: &mut Vec<Kept>,
    place: u64,
    body: &[u8],
) -> Result<(), ImageFault>
    requires { IsMap entries.old.items }
    ensures ok { OnOk result (record_in place entries.old.items body.now ≡ Ok entries.new.items) }
    ensures kept { OnOk result (IsMap entries.new.items) }
    ensures err { IfErr result (Blames (record_in place entries.old.items body.now)) }
{
    match read_record(alloc, body) {
        Ok(change) => match apply(entries, change) {
            Ok(true) => Ok(()),
            Ok(false) => Err(ImageFault::Foreign(place)),
            Err(_) => Err(ImageFault::NoMemory),
        },
        Err(fault) => Err(placed(place, 5, fault)),
    }
}

ghost use Rattle.voucher_store.specs.Read.{IsPlaced};

/// The fault of a body that begins so many bytes behind an offset in the file.
pub(crate) fn placed(place: u64, head: u64, fault: ImageFault) -> ImageFault
    ensures { IsPlaced (place + head) fault result }
{
    match fault {
        ImageFault::Foreign(at) => match place.checked_add(head) {
            Some(base) => match base.checked_add(at) {
                Some(at) => ImageFault::Foreign(at),
                // No place is that far.
                None => ImageFault::NoMemory,
            },
            None => ImageFault::NoMemory,
        },
        ImageFault::NoMemory => ImageFault::NoMemory,
    }
}
