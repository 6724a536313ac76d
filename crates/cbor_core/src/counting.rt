ghost use Rattle.std.specs.Prelude.{◌≡◌, ℕ, List, length, false, Some, Ok};
ghost use Rattle.cbor_core.specs.Counting.{count_step, CountBehind};
ghost use Rattle.cbor_core.specs.Passing.{pass_at, pass_pair};
ghost use Rattle.cbor_core.specs.Reading.{open_at};

use crate::head::{Head, Major};
use crate::pass::{pass_item, pass_two};
use crate::strings::is_break;

/// How many elements or pairs an array or a map has, by its head and what is behind it.
pub(crate) fn find_count(total: usize, levels: usize, head: Head, rest: &[u8]) -> Option<u64>
    ensures { CountBehind total levels head rest.now result }
{
    match head {
        Head::Sized(Major::Array, _, n) => Some(n),
        Head::Sized(Major::Map, _, n) => Some(n),
        Head::Open(Major::Array) => count_items(total, levels, rest),
        Head::Open(Major::Map) => count_pairs(total, levels, rest),
        _ => None,
    }
}

/// How many items stand before the break.
pub(crate) fn count_items(total: usize, levels: usize, bytes: &[u8]) -> Option<u64>
    ensures { (n : ℕ) (after : List ℕ) → open_at (count_step (pass_at false total levels)) total (length bytes.now) 0 bytes.now ≡ Ok (n, after) → result ≡ Some n }
{
    let mut rest = bytes;
    for turn in 0..bytes.len() {
        if is_break(rest) {
            return Some(turn as u64);
        }
        match pass_item(None, total, levels, rest) {
            Ok(after) => rest = after,
            Err(_) => return None,
        }
    }
    None
}

/// How many pairs stand before the break.
pub(crate) fn count_pairs(total: usize, levels: usize, bytes: &[u8]) -> Option<u64>
    ensures { (n : ℕ) (after : List ℕ) → open_at (count_step (pass_pair (pass_at false total levels) tt)) total (length bytes.now) 0 bytes.now ≡ Ok (n, after) → result ≡ Some n }
{
    let mut rest = bytes;
    for turn in 0..bytes.len() {
        if is_break(rest) {
            return Some(turn as u64);
        }
        match pass_two(None, total, levels, rest) {
            Ok(after) => rest = after,
            Err(_) => return None,
        }
    }
    None
}
