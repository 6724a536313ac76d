ghost use Rattle.std.specs.Prelude.{◌≡◌};
ghost use Rattle.voucher_map.specs.Finding.{finding, find_in, in_entry};

use crate::kept::Kept;
use voucher_chain::{Guid, Voucher};

/// What is kept under a GUID.
#[derive(Clone, Copy, Debug)]
pub enum Found<'a> {
    /// A voucher that is held, and its candidate.
    Base(&'a Voucher, Option<&'a Voucher>),
    /// The candidate of another one.
    Candidate(&'a Voucher),
    /// A voucher that was sent.
    Sent,
    Absent,
}

/// What is kept under a GUID: the first entry that has it, as its base, its candidate or what was sent. It takes no memory.
pub fn find<'a>(entries: &'a [Kept], guid: &Guid) -> Found<'a>
    ensures { finding result ≡ find_in guid.now entries.now }
{
    for entry in entries {
        match find_in_entry(entry, guid) {
            Found::Absent => {}
            found => return found,
        }
    }
    Found::Absent
}

fn find_in_entry<'a>(entry: &'a Kept, guid: &Guid) -> Found<'a>
    ensures { finding result ≡ in_entry guid.now entry.now }
{
    match entry {
        Kept::Held { base, candidate } => {
            if base.header.guid == *guid {
                return Found::Base(base, candidate.as_ref());
            }
            match candidate {
                Some(voucher) => {
                    if voucher.header.guid == *guid {
                        Found::Candidate(voucher)
                    } else {
                        Found::Absent
                    }
                }
                None => Found::Absent,
            }
        }
        Kept::Sent(voucher) => {
            if voucher.header.guid == *guid {
                Found::Sent
            } else {
                Found::Absent
            }
        }
    }
}
