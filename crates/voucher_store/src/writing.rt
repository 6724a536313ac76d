ghost use Rattle.std.specs.Prelude.{◌≡◌, ◌<◌, ◌^◌, Ok, IfOk, length};
ghost use Rattle.cbor_core.specs.declared.item.Item.TheVariants as items;
ghost use Rattle.voucher_chain.specs.Reading.{IsInMemory};
ghost use Rattle.voucher_store.specs.Read.{det_at};
ghost use Rattle.voucher_store.specs.Records.{change_at};
ghost use Rattle.voucher_store.specs.Snapshot.{snapshot_at};
ghost use Rattle.voucher_store.specs.Writing.{item_of_change, body_of_change, IsSpelt, HasSizes, item_of_kind, item_of_candidate, item_of_entry, item_of_snapshot, body_of_snapshot, word, IsMap, CandidateHasSize, EntryHasSizes};
ghost use Rattle.std.specs.Prelude.{◌+◌, map};
ghost use Rattle.voucher_map.specs.Map.{snapshot_length};
ghost use Rattle.std.specs.Option.{option_copied};
ghost use Rattle.std.specs.List.{AllByRecursion};

use crate::change::Change;
use cbor_core::{Blob, Item, Items, NoMemory, Text, integer_item, write_det};
use std::alloc::Global;
use voucher_chain::{Guid, Voucher};
use voucher_map::Kept;

/// The body of the record that says a change.
#[tactic(auto, using(crate::proofs::ChangeBack::change_fits, crate::proofs::ChangeBack::change_back))]
pub fn record_body(alloc: Global, change: &Change) -> Result<Blob, NoMemory>
    ensures body { IfOk result (λ body. body ≡ body_of_change change.now) }
    // Where its voucher is one that its bytes spell, the change is read from the record.
    ensures back { IsSpelt change.now → IfOk result (λ body. det_at change_at body ≡ Ok change.now) }
{
    let item = change_item(alloc, change)?;
    let body = write_det(alloc, &item)?;
    are_bytes(body.as_list());
    Ok(body)
}

/// What holds of any bytes in memory.
fn are_bytes(bytes: &[u8])
    ensures { IsInMemory bytes.now }
{}

fn change_item(alloc: Global, change: &Change) -> Result<Item, NoMemory>
    ensures item { IfOk result (λ item. item ≡ item_of_change change.now) }
    ensures sizes { IfOk result (λ item. HasSizes change.now) }
{
    let mut parts = Items::new(alloc);
    match change {
        Change::Import(voucher) => {
            parts.push(Item::Uint(0))?;
            parts.push(voucher_item(alloc, voucher)?)?;
        }
        Change::Candidate(guid, voucher) => {
            parts.push(Item::Uint(1))?;
            parts.push(guid_item(alloc, *guid)?)?;
            parts.push(voucher_item(alloc, voucher)?)?;
        }
        Change::Promotion(guid) => {
            parts.push(Item::Uint(2))?;
            parts.push(guid_item(alloc, *guid)?)?;
        }
        Change::Export(guid, voucher) => {
            parts.push(Item::Uint(3))?;
            parts.push(guid_item(alloc, *guid)?)?;
            parts.push(voucher_item(alloc, voucher)?)?;
        }
    }
    Ok(Item::Array(parts))
}

fn guid_item(alloc: Global, guid: Guid) -> Result<Item, NoMemory>
    ensures item { IfOk result (λ item. item ≡ items.Bytes guid) }
    ensures length { length guid ≡ 16 }
{
    Ok(Item::Bytes(Blob::from_slice(alloc, &guid)?))
}

pub(crate) fn voucher_item(alloc: Global, voucher: &Voucher) -> Result<Item, NoMemory>
    ensures item { IfOk result (λ item. item ≡ items.Bytes voucher.now.raw) }
    ensures length { length voucher.now.raw < 2 ^ 64 }
{
    Ok(Item::Bytes(Blob::from_slice(alloc, voucher.raw.as_list())?))
}

// ---- snapshots

/// The body of the snapshot that says these entries, of version 2.
#[tactic(auto, using(crate::proofs::SnapshotLength::snapshot_size))]
pub fn snapshot_body(alloc: Global, entries: &[Kept]) -> Result<Blob, NoMemory>
    ensures body { IfOk result (λ body. body ≡ body_of_snapshot entries.now) }
    // Where they are a map that can be kept, it takes a byte for each entry more than a snapshot of version 1.
    ensures length { IsMap entries.now → IfOk result (λ body. length body ≡ snapshot_length entries.now + length entries.now) }
    // And they are read from it.
    ensures back { IsMap entries.now → IfOk result (λ body. det_at snapshot_at body ≡ Ok entries.now) }
{
    let item = snapshot_item(alloc, entries)?;
    let body = write_det(alloc, &item)?;
    are_bytes(body.as_list());
    Ok(body)
}

fn snapshot_item(alloc: Global, entries: &[Kept]) -> Result<Item, NoMemory>
    ensures item { IfOk result (λ item. item ≡ item_of_snapshot entries.now) }
    ensures sizes { IfOk result (λ item. AllByRecursion EntryHasSizes entries.now) }
{
    let all = entries_items(alloc, entries)?;
    let mut parts = Items::new(alloc);
    parts.push(Item::Uint(2))?;
    parts.push(Item::Array(all))?;
    parts.push(word_item(alloc)?)?;
    Ok(Item::Array(parts))
}

fn word_item(alloc: Global) -> Result<Item, NoMemory>
    ensures { IfOk result (λ item. item ≡ items.Text word) }
{
    Ok(Item::Text(Text::from_str(alloc, "journal")?))
}

#[tactic(auto, using(crate::proofs::SnapshotBack::sizes_more))]
fn entries_items(alloc: Global, entries: &[Kept]) -> Result<Items, NoMemory>
    ensures items { IfOk result (λ all. all ≡ map item_of_entry entries.now) }
    ensures sizes { IfOk result (λ all. AllByRecursion EntryHasSizes entries.now) }
{
    let mut all = Items::new(alloc);
    for entry in entries {
        all.push(entry_item(alloc, entry)?)?;
    }
    Ok(all)
}

fn entry_item(alloc: Global, entry: &Kept) -> Result<Item, NoMemory>
    ensures item { IfOk result (λ item. item ≡ item_of_entry entry.now) }
    ensures sizes { IfOk result (λ item. EntryHasSizes entry.now) }
{
    let mut parts = Items::new(alloc);
    match entry {
        Kept::Held { base, candidate } => {
            parts.push(Item::Uint(0))?;
            parts.push(integer_item(base.hmac.kind))?;
            parts.push(voucher_item(alloc, base)?)?;
            parts.push(candidate_item(alloc, candidate.as_ref())?)?;
        }
        Kept::Sent(voucher) => {
            parts.push(Item::Uint(1))?;
            parts.push(integer_item(voucher.hmac.kind))?;
            parts.push(voucher_item(alloc, voucher)?)?;
        }
    }
    Ok(Item::Array(parts))
}

fn candidate_item(alloc: Global, candidate: Option<&Voucher>) -> Result<Item, NoMemory>
    ensures item { IfOk result (λ item. item ≡ item_of_candidate (option_copied candidate.entry)) }
    ensures size { IfOk result (λ item. CandidateHasSize (option_copied candidate.entry)) }
{
    match candidate {
        Some(voucher) => voucher_item(alloc, voucher),
        None => Ok(Item::Simple(22)),
    }
}
