ghost use Rattle.std.specs.Prelude.{◌≡◌, ◌<◌, IfSome, None, Some, Option, List, ℕ, OnOk, OnErr, IfOk, length};
ghost use Rattle.std.specs.Option.{option_copied};
ghost use Rattle.voucher_map.specs.Map.{is_guid as has_guid, names as is_named, voucher_of, candidate_in, guid_of, is_candidate, is_kept, imported, candidate_set, promoted, sent, held_of, entry_of, put_entry, set_entry};
ghost use Rattle.voucher_store.specs.Places.{place_of, candidate_given, promoted_entry};
ghost use Rattle.voucher_store.specs.Records.{changed, is_taken, set_by, promoted_by, sent_by, if_few, Applied};

use crate::change::Change;
use crate::snapshot::MOST;
use cbor_core::NoMemory;
use voucher_chain::{Guid, Voucher};
use voucher_map::Kept;
use voucher_map::entries::{candidate_in, entry_of, is_candidate, is_kept, voucher_of};

/// Makes a change of some entries, or answers false, where it makes nothing of them. Then, and where memory runs out, what is
/// left of them is not told.
#[tactic(auto, unfolding(crate::specs::Records::changed))]
pub(crate) fn apply(entries: &mut Vec<Kept>, change: Change) -> Result<bool, NoMemory>
    ensures { IfOk result (λ done. Applied (changed change entries.old.items) done entries.new.items) }
{
    match change {
        Change::Import(voucher) => import(entries, voucher),
        Change::Candidate(guid, candidate) => Ok(set_candidate(entries, &guid, candidate)),
        Change::Promotion(guid) => Ok(promote(entries, &guid)),
        Change::Export(guid, voucher) => Ok(send(entries, &guid, voucher)),
    }
}

fn import(entries: &mut Vec<Kept>, voucher: Voucher) -> Result<bool, NoMemory>
    ensures { IfOk result (λ done. Applied (if_few (is_candidate (guid_of voucher) entries.old.items) (imported voucher entries.old.items)) done entries.new.items) }
{
    let guid = voucher.header.guid;
    if is_candidate(&guid, entries.as_slice()) {
        return Ok(false);
    }
    put_entry(
        entries,
        &guid,
        Kept::Held {
            base: voucher,
            candidate: None,
        },
    )?;
    Ok(entries.len() <= MOST)
}

fn set_candidate(entries: &mut Vec<Kept>, guid: &Guid, candidate: Voucher) -> bool
    ensures { Applied (set_by guid.now candidate entries.old.items (held_of guid.now entries.old.items)) result entries.new.items }
{
    match entry_of(guid, entries.as_slice()) {
        Some(Kept::Held { candidate: own, .. }) => {
            if is_taken(&candidate.header.guid, own.as_ref(), entries.as_slice()) {
                return false;
            }
        }
        _ => return false,
    }
    give_candidate(entries, guid, candidate);
    true
}

fn promote(entries: &mut Vec<Kept>, guid: &Guid) -> bool
    ensures { Applied (promoted_by guid.now entries.old.items (held_of guid.now entries.old.items)) result entries.new.items }
{
    match entry_of(guid, entries.as_slice()) {
        Some(
            Kept::Held {
                candidate: Some(_),
                ..
            },
        ) => {}
        _ => return false,
    }
    promote_entry(entries, guid);
    true
}

fn send(entries: &mut Vec<Kept>, guid: &Guid, voucher: Voucher) -> bool
    ensures { Applied (sent_by guid.now voucher entries.old.items (entry_of guid.now entries.old.items)) result entries.new.items }
{
    match entry_of(guid, entries.as_slice()) {
        Some(entry) => {
            if is_others(&voucher.header.guid, entry, entries.as_slice()) {
                return false;
            }
        }
        None => return false,
    }
    set_entry(entries, guid, Kept::Sent(voucher));
    true
}

ghost use Rattle.voucher_store.specs.Records.{is_others as is_of_others};

/// Whether a GUID is in use, but not by this entry.
fn is_others(guid: &Guid, entry: &Kept, entries: &[Kept]) -> bool
    ensures { result ≡ is_of_others guid.now entry.now entries.now }
{
    !names(guid, entry) && is_taken(guid, candidate_in(entry), entries)
}

/// Whether a GUID is in use, but not by this candidate.
fn is_taken(guid: &Guid, own: Option<&Voucher>, entries: &[Kept]) -> bool
    ensures { result ≡ is_taken guid.now (option_copied own.entry) entries.now }
{
    is_kept(guid, entries) && !is_guid(guid, own)
}

fn is_guid(guid: &Guid, voucher: Option<&Voucher>) -> bool
    ensures { result ≡ has_guid guid.now (option_copied voucher.entry) }
{
    match voucher {
        Some(voucher) => voucher.header.guid == *guid,
        None => false,
    }
}

/// Whether a GUID names an entry.
fn names(guid: &Guid, entry: &Kept) -> bool
    ensures { result ≡ is_named guid.now entry.now }
{
    voucher_of(entry).header.guid == *guid
}

/// The place of the first entry that a GUID names. It takes no memory.
pub(crate) fn place_of(guid: &Guid, entries: &[Kept]) -> Option<usize>
    ensures place { result ≡ place_of guid.now entries.now }
    ensures within { IfSome result (λ at. at < length entries.now) }
{
    let mut at = 0;
    for entry in entries {
        if names(guid, entry) {
            return Some(at);
        }
        at += 1;
    }
    None
}

/// Another entry takes the place of the one that a GUID names, or stands last.
#[tactic(auto, using(crate::proofs::Placing::put_at, crate::proofs::Placing::put_behind))]
pub(crate) fn put_entry(entries: &mut Vec<Kept>, guid: &Guid, entry: Kept) -> Result<(), NoMemory>
    ensures done { OnOk result (entries.new.items ≡ put_entry guid.now entry entries.old.items) }
    ensures same { OnErr result (entries.new.items ≡ entries.old.items) }
{
    match place_of(guid, entries.as_slice()) {
        Some(at) => {
            entries[at] = entry;
        }
        None => {
            entries.push(entry)?;
        }
    }
    Ok(())
}

/// Another entry takes the place of the one that a GUID names. It takes no memory.
#[tactic(auto, using(crate::proofs::Placing::set_at, crate::proofs::Placing::set_nowhere))]
pub(crate) fn set_entry(entries: &mut Vec<Kept>, guid: &Guid, entry: Kept)
    ensures { entries.new.items ≡ set_entry guid.now entry entries.old.items }
{
    if let Some(at) = place_of(guid, entries.as_slice()) {
        entries[at] = entry;
    }
}

/// A candidate of the base that a GUID names. It takes no memory.
#[tactic(auto, using(crate::proofs::Placing::give_at, crate::proofs::Placing::give_nowhere))]
pub(crate) fn give_candidate(entries: &mut Vec<Kept>, guid: &Guid, candidate: Voucher)
    ensures { entries.new.items ≡ candidate_set guid.now candidate entries.old.items }
{
    if let Some(at) = place_of(guid, entries.as_slice()) {
        give(&mut entries[at], candidate);
    }
}

fn give(entry: &mut Kept, voucher: Voucher)
    ensures { entry.new ≡ candidate_given voucher entry.old }
{
    if let Kept::Held { candidate, .. } = entry {
        *candidate = Some(voucher);
    }
}

/// The candidate of the base that a GUID names takes its place. It takes no memory.
#[tactic(auto, using(crate::proofs::Placing::promote_at, crate::proofs::Placing::promote_nowhere))]
pub(crate) fn promote_entry(entries: &mut Vec<Kept>, guid: &Guid)
    ensures { entries.new.items ≡ promoted guid.now entries.old.items }
{
    if let Some(at) = place_of(guid, entries.as_slice()) {
        promote_in(&mut entries[at]);
    }
}

fn promote_in(entry: &mut Kept)
    ensures { entry.new ≡ promoted_entry entry.old }
{
    if let Kept::Held { base, candidate } = entry {
        if let Some(voucher) = candidate.take() {
            *base = voucher;
        }
    }
}
