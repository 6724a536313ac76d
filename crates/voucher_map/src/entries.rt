ghost use Rattle.std.specs.Prelude.{◌≡◌};
ghost use Rattle.std.specs.Option.{option_copied};
ghost use Rattle.voucher_map.specs.Map.{voucher_of, candidate_in, names, is_guid, entry_of, is_candidate, is_kept};

use crate::kept::Kept;
use voucher_chain::{Guid, Voucher};

/// The voucher by whose GUID an entry is named: its base, or the one that was sent.
pub fn voucher_of(entry: &Kept) -> &Voucher
    ensures { result.now ≡ voucher_of entry.now }
{
    match entry {
        Kept::Held { base, .. } => base,
        Kept::Sent(voucher) => voucher,
    }
}

/// The candidate of an entry.
pub fn candidate_in(entry: &Kept) -> Option<&Voucher>
    ensures { option_copied result ≡ candidate_in entry.now }
{
    match entry {
        Kept::Held { candidate, .. } => candidate.as_ref(),
        Kept::Sent(_) => None,
    }
}

/// Whether a GUID names an entry.
fn names(guid: &Guid, entry: &Kept) -> bool
    ensures { result ≡ names guid.now entry.now }
{
    voucher_of(entry).header.guid == *guid
}

/// The first entry that a GUID names. It takes no memory.
pub fn entry_of<'a>(guid: &Guid, entries: &'a [Kept]) -> Option<&'a Kept>
    ensures { option_copied result ≡ entry_of guid.now entries.now }
{
    for entry in entries {
        if names(guid, entry) {
            return Some(entry);
        }
    }
    None
}

fn is_guid(guid: &Guid, voucher: Option<&Voucher>) -> bool
    ensures { result ≡ is_guid guid.now (option_copied voucher.entry) }
{
    match voucher {
        Some(voucher) => voucher.header.guid == *guid,
        None => false,
    }
}

/// Whether a candidate has a GUID. It takes no memory.
pub fn is_candidate(guid: &Guid, entries: &[Kept]) -> bool
    ensures { result ≡ is_candidate guid.now entries.now }
{
    for entry in entries {
        if is_guid(guid, candidate_in(entry)) {
            return true;
        }
    }
    false
}

/// Whether any voucher has a GUID. It takes no memory.
pub fn is_kept(guid: &Guid, entries: &[Kept]) -> bool
    ensures { result ≡ is_kept guid.now entries.now }
{
    entry_of(guid, entries).is_some() || is_candidate(guid, entries)
}
