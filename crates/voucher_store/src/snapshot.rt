ghost use Rattle.std.specs.Prelude.{◌≡◌, ◌<◌, pos, Ok, IfOk, IfErr, OnOk, length};
ghost use Rattle.cbor_core.specs.Spots.{spot_parts};
ghost use Rattle.voucher_map.specs.Map.{voucher_of, candidate_in};
ghost use Rattle.voucher_store.specs.Read.{Reads, Blames};
ghost use Rattle.voucher_store.specs.Writing.{IsSoundEntry, IsMap};
ghost use Rattle.voucher_store.specs.Snapshot.{is_new_candidate, is_new as is_new_entry, one_more, with_new, entries_from, entries_at, is_word as is_the_word, ended_by, snapshot_at};
ghost use Rattle.std.specs.Option.{option_copied};
ghost use Rattle.cbor_core.specs.declared.item.Item.{out-Item};
ghost use Rattle.cbor_core.specs.Spots.{spot_item, text_in};

use crate::entry::read_entry;
use crate::fault::ImageFault;
use crate::parts::{fault_at, is_number};
use cbor_core::{NoMemory, Part};
use std::alloc::Global;
use voucher_chain::Voucher;
use voucher_map::Kept;
use voucher_map::entries::{candidate_in, is_kept, voucher_of};

/// The most entries that are kept.
pub(crate) const MOST: usize = 4096;

/// The entries that a snapshot says.
#[tactic(auto, unfolding(crate::specs::Snapshot::snapshot_at))]
pub(crate) fn read_snapshot(alloc: Global, part: &Part) -> Result<Vec<Kept>, ImageFault>
    ensures ok { IfOk result (λ entries. snapshot_at part.now.spot ≡ Ok entries.items) }
    ensures kept { IfOk result (λ entries. IsMap entries.items) }
    ensures err { IfErr result (Blames (snapshot_at part.now.spot)) }
{
    let Some((version, entries, word)) = part.three() else {
        return Err(fault_at(part));
    };
    let old = is_number(&version, 1);
    if !(old || is_number(&version, 2)) {
        return Err(fault_at(&version));
    }
    match read_entries(alloc, old, &entries) {
        Ok(entries) => end_entries(alloc, &word, entries),
        Err(fault) => Err(fault),
    }
}

/// The word behind the entries.
fn end_entries(alloc: Global, word: &Part, entries: Vec<Kept>) -> Result<Vec<Kept>, ImageFault>
    requires { IsMap entries.items }
    ensures ok { IfOk result (λ all. ended_by word.now.spot entries.items ≡ Ok all.items) }
    ensures kept { IfOk result (λ all. IsMap all.items) }
    ensures err { IfErr result (Blames (ended_by word.now.spot entries.items)) }
{
    if is_word(alloc, word)? {
        Ok(entries)
    } else {
        Err(fault_at(word))
    }
}

fn is_word(alloc: Global, part: &Part) -> Result<bool, NoMemory>
    ensures { IfOk result (λ is. is ≡ is_the_word (text_in (out-Item (spot_item part.now.spot)))) }
{
    match part.text(alloc)? {
        Some(text) => Ok(text.as_list() == "journal"),
        None => Ok(false),
    }
}

fn read_entries(alloc: Global, old: bool, part: &Part) -> Result<Vec<Kept>, ImageFault>
    ensures ok { IfOk result (λ entries. entries_at old part.now.spot ≡ Ok entries.items) }
    ensures kept { IfOk result (λ entries. IsMap entries.items) }
    ensures err { IfErr result (Blames (entries_at old part.now.spot)) }
{
    if part.is_array() {
        read_all(alloc, old, part)
    } else {
        Err(fault_at(part))
    }
}

ghost use Rattle.std.specs.Prelude.{[], ◌∷◌, ◌++◌};

#[tactic(auto, using(crate::proofs::Entering::entries_more, crate::proofs::Entering::entries_done, crate::proofs::Entering::entries_fail, crate::proofs::Sounds::no_map))]
fn read_all(alloc: Global, old: bool, part: &Part) -> Result<Vec<Kept>, ImageFault>
    ensures ok { IfOk result (λ entries. entries_from old [] (spot_parts part.now.spot) ≡ Ok entries.items) }
    ensures kept { IfOk result (λ entries. IsMap entries.items) }
    ensures err { IfErr result (Blames (entries_from old [] (spot_parts part.now.spot))) }
{
    let mut entries = Vec::new(alloc);
    let mut next = part.inside();
    while let Some(entry) = next {
        match add_entry(alloc, old, &mut entries, &entry) {
            Ok(()) => {}
            Err(fault) => return Err(fault),
        }
        next = entry.after();
    }
    Ok(entries)
}

/// One more entry, of which no GUID is one of those before it.
#[tactic(auto, unfolding(crate::specs::Snapshot::one_more))]
fn add_entry(
    alloc: Global,
    old: bool,
    entries: &mut Vec<Kept>,
    part: &Part,
) -> Result<(), ImageFault>
    requires { IsMap entries.old.items }
    ensures ok { OnOk result (one_more old entries.old.items part.now.spot ≡ Ok entries.new.items) }
    ensures kept { OnOk result (IsMap entries.new.items) }
    ensures err { IfErr result (Blames (one_more old entries.old.items part.now.spot)) }
{
    if entries.len() >= MOST {
        return Err(fault_at(part));
    }
    match read_entry(alloc, old, part) {
        Ok(entry) => add_new(entries, entry, part),
        Err(fault) => Err(fault),
    }
}

#[tactic(auto, using(crate::proofs::Sounds::more_map))]
fn add_new(entries: &mut Vec<Kept>, entry: Kept, part: &Part) -> Result<(), ImageFault>
    requires kept { IsMap entries.old.items }
    requires few { length entries.old.items < 4096 }
    requires sound { IsSoundEntry entry }
    ensures ok { OnOk result (with_new part.now.spot.at entries.old.items entry ≡ Ok entries.new.items) }
    ensures kept { OnOk result (IsMap entries.new.items) }
    ensures err { IfErr result (Blames (with_new part.now.spot.at entries.old.items entry)) }
{
    if !is_new(entries.as_slice(), &entry) {
        return Err(fault_at(part));
    }
    push(entries, entry)?;
    Ok(())
}

fn push(entries: &mut Vec<Kept>, entry: Kept) -> Result<(), NoMemory>
    ensures { OnOk result (entries.new.items ≡ entries.old.items ++ entry ∷ []) }
{
    entries.push(entry)?;
    Ok(())
}

/// Whether no GUID of an entry is one of these, nor stands in it twice.
fn is_new(entries: &[Kept], entry: &Kept) -> bool
    ensures { result ≡ is_new_entry entries.now entry.now }
{
    let voucher = voucher_of(entry);
    !is_kept(&voucher.header.guid, entries) && is_new_beside(entries, voucher, candidate_in(entry))
}

fn is_new_beside(entries: &[Kept], base: &Voucher, candidate: Option<&Voucher>) -> bool
    ensures { result ≡ is_new_candidate entries.now base.now (option_copied candidate.entry) }
{
    match candidate {
        Some(candidate) => {
            !is_kept(&candidate.header.guid, entries)
                && !(base.header.guid == candidate.header.guid)
        }
        None => true,
    }
}
