ghost use Rattle.std.specs.Prelude.{◌≡◌, IfSome};
ghost use Rattle.std.specs.Option.{option_copied};
ghost use Rattle.voucher_map.specs.Map.{head_length, string_length, candidate_length, entry_length, snapshot_length};

use voucher_chain::Voucher;
use voucher_map::Kept;
use voucher_map::entries::{candidate_in, voucher_of};

/// How many bytes the head of an array or a string has.
fn head_length(count: u64) -> u64
    ensures { result ≡ head_length count }
{
    if count < 24 {
        1
    } else if count < 256 {
        2
    } else if count < 65536 {
        3
    } else if count < 4294967296 {
        5
    } else {
        9
    }
}

fn string_length(bytes: &[u8]) -> Option<u64>
    ensures { IfSome result (λ n. n ≡ string_length bytes.now) }
{
    let length = bytes.len() as u64;
    head_length(length).checked_add(length)
}

fn candidate_length(candidate: Option<&Voucher>) -> Option<u64>
    ensures { IfSome result (λ n. n ≡ candidate_length (option_copied candidate.entry)) }
{
    match candidate {
        Some(voucher) => string_length(voucher.raw.as_list()),
        None => Some(1),
    }
}

fn entry_length(entry: &Kept) -> Option<u64>
    ensures { IfSome result (λ n. n ≡ entry_length entry.now) }
{
    match entry {
        Kept::Held { base, candidate } => {
            let first = string_length(base.raw.as_list())?;
            let second = candidate_length(candidate.as_ref())?;
            first.checked_add(second)?.checked_add(2)
        }
        Kept::Sent(voucher) => string_length(voucher.raw.as_list())?.checked_add(2),
    }
}

/// How many bytes a snapshot of version 1 takes, or None where these are 2^64 and more. It takes no memory.
pub(crate) fn snapshot_length(entries: &[Kept]) -> Option<u64>
    ensures { IfSome result (λ n. n ≡ snapshot_length entries.now) }
{
    let mut length = head_length(entries.len() as u64) + 10;
    for entry in entries {
        match entry_length(entry) {
            Some(more) => match length.checked_add(more) {
                Some(now) => length = now,
                None => return None,
            },
            None => return None,
        }
    }
    Some(length)
}
