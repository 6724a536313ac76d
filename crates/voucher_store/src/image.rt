ghost use Rattle.std.specs.Prelude.{◌≡◌, ◌+◌, ◌<◌, ◌^◌, [], Some, Ok, IfOk, IfErr, length};
ghost use Rattle.journal.specs.Found.{standing_read, IsWithin};
ghost use Rattle.voucher_store.specs.Read.{Reads, Blames};
ghost use Rattle.voucher_store.specs.Writing.{IsMap};
ghost use Rattle.voucher_store.specs.Image.{candidates, goes_on, checked, bodies_in, map_in, map_of};
ghost use Rattle.voucher_store.specs.Bodies.{bodies_of};

use crate::bodies::read_entries;
use crate::fault::ImageFault;
use crate::map::VoucherMap;
use crate::replaying::{placed, replay};
use crate::size::snapshot_length;
use journal::{Areas, OpenArea, RecordsEnd, survey};
use std::alloc::Global;
use voucher_map::Kept;
use voucher_map::entries::candidate_in;

/// The vouchers that the bytes of a voucher file stand for, of a store with a limit; none, where no area is open. Nothing is
/// written. `Foreign` comes exactly where they stand for no map, with the offset of the first fault; its only other refusal is
/// `NoMemory`.
#[tactic(auto, using(crate::proofs::Sounds::no_map), unfolding(crate::specs::Image::map_of))]
pub fn read_image(alloc: Global, limit: u32, image: &[u8]) -> Result<VoucherMap, ImageFault>
    ensures read { Reads (map_of limit image.now) result }
    // What is read can be kept again.
    ensures kept { IfOk result IsMap }
{
    let areas = Areas::for_limit(limit);
    match areas.found(image) {
        Some(found) => read_found(alloc, limit, areas, &found),
        None => Ok(VoucherMap::new(Vec::new(alloc))),
    }
}

/// The vouchers in the area that counts.
#[tactic(auto, using(crate::proofs::Imaging::found_said, crate::proofs::Imaging::found_cut))]
fn read_found(
    alloc: Global,
    limit: u32,
    areas: Areas,
    found: &OpenArea,
) -> Result<VoucherMap, ImageFault>
    requires within { IsWithin areas found.now }
    requires small { areas.room < 2 ^ 62 }
    ensures read { Reads (map_in areas limit (Some (standing_read areas found.now))) result }
    ensures kept { IfOk result IsMap }
{
    let base = areas.base(found.side);
    match read_bodies(alloc, base + 13, found) {
        Ok(entries) => {
            let first = base + (13 + found.snapshot.len() as u64);
            check(
                limit,
                base + areas.room,
                survey(first, found.records),
                entries,
            )
        }
        Err(fault) => Err(fault),
    }
}

/// What a snapshot, which begins at an offset in the file, and the records behind it say.
#[tactic(auto, using(crate::proofs::Imaging::snapshot_cut, crate::proofs::Imaging::records_said, crate::proofs::Imaging::records_cut))]
fn read_bodies(alloc: Global, place: u64, found: &OpenArea) -> Result<Vec<Kept>, ImageFault>
    requires { place + (length found.now.snapshot.now + length found.now.records.now) < 2 ^ 64 }
    ensures ok { IfOk result (λ entries. bodies_in place (bodies_of place found.now) ≡ Ok entries.items) }
    ensures err { IfErr result (Blames (bodies_in place (bodies_of place found.now))) }
    ensures kept { IfOk result (λ entries. IsMap entries.items) }
{
    match read_entries(alloc, found.snapshot) {
        Ok(entries) => {
            let mut entries = entries;
            let first = place + found.snapshot.len() as u64;
            match replay(alloc, &mut entries, first, found.records) {
                Ok(()) => Ok(entries),
                Err(fault) => Err(fault),
            }
        }
        Err(fault) => Err(placed(place, 0, fault)),
    }
}

/// The vouchers, where the file goes on behind its records.
fn check(
    limit: u32,
    end: u64,
    records: RecordsEnd,
    entries: Vec<Kept>,
) -> Result<VoucherMap, ImageFault>
    requires { IsMap entries.items }
    ensures read { Reads (checked limit end records.place records.one entries.items) result }
    ensures kept { IfOk result IsMap }
{
    if records.one || !has_room(records.place, end, entries.as_slice()) {
        return Err(ImageFault::Foreign(records.place));
    }
    match snapshot_length(entries.as_slice()) {
        Some(length) => {
            if length <= limit as u64 {
                Ok(VoucherMap::new(entries))
            } else {
                Err(ImageFault::Foreign(records.place))
            }
        }
        // No limit is that great.
        None => Err(ImageFault::NoMemory),
    }
}

ghost use Rattle.std.specs.Prelude.{◌*◌, nat_lt};

/// Whether each candidate has room, from a place on, for the record that makes it the base. It takes no memory.
#[tactic(auto, using(crate::proofs::Rooms::room_ends, crate::proofs::Rooms::room_over))]
pub(crate) fn has_room(place: u64, end: u64, entries: &[Kept]) -> bool
    ensures { result ≡ nat_lt (place + 24 * candidates entries.now) end }
{
    let mut at = place;
    for entry in entries {
        if candidate_in(entry).is_some() {
            match at.checked_add(24) {
                Some(next) => at = next,
                None => return false,
            }
        }
    }
    at < end
}
