ghost use Rattle.std.specs.Prelude.{◌≡◌, [], length, is_some, true, false, IfErr, Err};
ghost use Rattle.cbor_core.specs.declared.head.Major.TheVariants as major;
ghost use Rattle.cbor_core.specs.Reading.{Gives, Fails, buried_in, row_at, open_at, item_at};
ghost use Rattle.cbor_core.specs.Passing.{pass_content, pass_chunk, pass_step, pass_pair, spelled_at, fresh_step, forgotten, pass_pairs, pass_open_pairs, pass_sized, pass_open, pass_in, pass_at};

use crate::blob::Blob;
use crate::fault::CborFault;
use crate::head::{Head, Major};
use crate::keys::{admit, as_received};
use crate::read::{read_item, refuse_buried};
use crate::read_head::read_head;
use crate::strings::{is_break, read_byte_chunk, read_bytes, read_text, read_text_chunk};
use crate::write::write_det;
use std::alloc::Global;
use std::collections::BTreeSet;

/// The bytes after the item at the front, with so many levels left for it. With an allocator the answers are those
/// of reading. Without one the bytes are to spell an item, nothing is allocated, and keys are not compared.
#[cycle(passing)]
#[tactic(auto, unfolding(crate::specs::Passing::pass_at))]
pub(crate) fn pass_item(
    alloc: Option<Global>,
    total: usize,
    levels: usize,
    bytes: &[u8],
) -> Result<&[u8], CborFault>
    ensures gives { Gives (λ rest. (tt, rest.now)) result (pass_at (is_some alloc) total levels bytes.now) }
    ensures exact { is_some alloc ≡ false → IfErr result (λ e. (pass_at (is_some alloc) total levels bytes.now) ≡ Err e) }
{
    let place = total.saturating_sub(bytes.len());
    let (head, rest) = read_head(place, bytes)?;
    if levels == 0 {
        Err(refuse_buried(place, head, rest))
    } else {
        pass_inside(alloc, total, levels - 1, place, head, rest)
    }
}

#[cycle(passing)]
fn pass_inside(
    alloc: Option<Global>,
    total: usize,
    levels: usize,
    place: usize,
    head: Head,
    rest: &[u8],
) -> Result<&[u8], CborFault>
    ensures gives { Gives (λ rest. (tt, rest.now)) result (pass_in (is_some alloc) total levels (pass_at (is_some alloc) total levels) place head rest.now) }
    ensures exact { is_some alloc ≡ false → IfErr result (λ e. (pass_in (is_some alloc) total levels (pass_at (is_some alloc) total levels) place head rest.now) ≡ Err e) }
{
    match head {
        Head::Sized(major, _, n) => pass_counted(alloc, total, levels, place, major, n, rest),
        Head::Open(major) => pass_to_break(alloc, total, levels, place, major, rest),
        Head::Simple(_) => Ok(rest),
        Head::Float => Err(CborFault::Float(place)),
        Head::Break => Err(CborFault::Malformed(place)),
        Head::Reserved => Err(CborFault::Malformed(place)),
    }
}

#[cycle(passing)]
fn pass_counted(
    alloc: Option<Global>,
    total: usize,
    levels: usize,
    place: usize,
    major: Major,
    n: u64,
    rest: &[u8],
) -> Result<&[u8], CborFault>
    ensures gives { Gives (λ rest. (tt, rest.now)) result (pass_sized (is_some alloc) total levels (pass_at (is_some alloc) total levels) place major n rest.now) }
    ensures exact { is_some alloc ≡ false → IfErr result (λ e. (pass_sized (is_some alloc) total levels (pass_at (is_some alloc) total levels) place major n rest.now) ≡ Err e) }
{
    match major {
        Major::Unsigned => Ok(rest),
        Major::Negative => Ok(rest),
        Major::Bytes => pass_bytes(alloc, place, n, rest),
        Major::Text => pass_text(alloc, place, n, rest),
        Major::Array => pass_items(alloc, total, levels, n, rest),
        Major::Map => pass_map(alloc, total, levels, n, rest),
        Major::Tag => pass_item(alloc, total, levels, rest),
    }
}

#[cycle(passing)]
fn pass_to_break(
    alloc: Option<Global>,
    total: usize,
    levels: usize,
    place: usize,
    major: Major,
    rest: &[u8],
) -> Result<&[u8], CborFault>
    ensures gives { Gives (λ rest. (tt, rest.now)) result (pass_open (is_some alloc) total levels (pass_at (is_some alloc) total levels) place major rest.now) }
    ensures exact { is_some alloc ≡ false → IfErr result (λ e. (pass_open (is_some alloc) total levels (pass_at (is_some alloc) total levels) place major rest.now) ≡ Err e) }
{
    match major {
        Major::Bytes => pass_byte_chunks(total, rest),
        Major::Text => pass_text_chunks(total, rest),
        Major::Array => pass_open_items(alloc, total, levels, rest),
        Major::Map => pass_open_map(alloc, total, levels, rest),
        _ => Err(CborFault::Malformed(place)),
    }
}

#[cycle(passing)]
#[tactic(auto, using(crate::proofs::Loops::row_more, crate::proofs::Loops::row_fails, crate::proofs::Loops::row_ends, crate::proofs::Loops::row_refuses))]
fn pass_items(
    alloc: Option<Global>,
    total: usize,
    levels: usize,
    n: u64,
    bytes: &[u8],
) -> Result<&[u8], CborFault>
    ensures gives { Gives (λ rest. (tt, rest.now)) result (row_at (pass_step (pass_at (is_some alloc) total levels)) n tt bytes.now) }
    ensures exact { is_some alloc ≡ false → IfErr result (λ e. (row_at (pass_step (pass_at (is_some alloc) total levels)) n tt bytes.now) ≡ Err e) }
{
    let mut rest = bytes;
    for _turn in 0..n {
        match pass_item(alloc, total, levels, rest) {
            Ok(after) => rest = after,
            Err(fault) => return Err(fault),
        }
    }
    Ok(rest)
}

#[cycle(passing)]
#[tactic(auto, using(crate::proofs::Loops::open_more, crate::proofs::Loops::open_fails, crate::proofs::Loops::open_ends, crate::proofs::Loops::open_over, crate::proofs::Loops::open_refuses))]
fn pass_open_items(
    alloc: Option<Global>,
    total: usize,
    levels: usize,
    bytes: &[u8],
) -> Result<&[u8], CborFault>
    ensures gives { Gives (λ rest. (tt, rest.now)) result (open_at (pass_step (pass_at (is_some alloc) total levels)) total (length bytes.now) tt bytes.now) }
    ensures exact { is_some alloc ≡ false → IfErr result (λ e. (open_at (pass_step (pass_at (is_some alloc) total levels)) total (length bytes.now) tt bytes.now) ≡ Err e) }
{
    let mut rest = bytes;
    for _turn in 0..bytes.len() {
        if is_break(rest) {
            return Ok(rest.split_at(1).1);
        }
        match pass_item(alloc, total, levels, rest) {
            Ok(after) => rest = after,
            Err(fault) => return Err(fault),
        }
    }
    Err(CborFault::Truncated(total))
}

#[cycle(passing)]
#[tactic(auto, using(crate::proofs::Passes::none_passes, crate::proofs::Passes::one_passes))]
fn pass_map(
    alloc: Option<Global>,
    total: usize,
    levels: usize,
    n: u64,
    bytes: &[u8],
) -> Result<&[u8], CborFault>
    ensures gives { Gives (λ rest. (tt, rest.now)) result (pass_pairs (is_some alloc) total levels (pass_at (is_some alloc) total levels) n bytes.now) }
    ensures exact { is_some alloc ≡ false → IfErr result (λ e. (pass_pairs (is_some alloc) total levels (pass_at (is_some alloc) total levels) n bytes.now) ≡ Err e) }
{
    if n == 0 {
        return Ok(bytes);
    }
    match alloc {
        Some(memory) => {
            if n == 1 {
                pass_two(alloc, total, levels, bytes)
            } else {
                pass_fresh_pairs(memory, total, levels, n, bytes)
            }
        }
        None => pass_keyed(total, levels, n, bytes),
    }
}

#[cycle(passing)]
fn pass_open_map(
    alloc: Option<Global>,
    total: usize,
    levels: usize,
    bytes: &[u8],
) -> Result<&[u8], CborFault>
    ensures gives { Gives (λ rest. (tt, rest.now)) result (pass_open_pairs (is_some alloc) total levels (pass_at (is_some alloc) total levels) bytes.now) }
    ensures exact { is_some alloc ≡ false → IfErr result (λ e. (pass_open_pairs (is_some alloc) total levels (pass_at (is_some alloc) total levels) bytes.now) ≡ Err e) }
{
    match alloc {
        Some(memory) => pass_fresh_to_break(memory, total, levels, bytes),
        None => pass_open_keyed(total, levels, bytes),
    }
}

/// Pairs whose keys are compared.
#[cycle(passing)]
#[tactic(auto, using(crate::proofs::Loops::row_more, crate::proofs::Loops::row_fails, crate::proofs::Loops::row_ends, crate::proofs::Passes::fails_forgotten))]
fn pass_fresh_pairs(
    alloc: Global,
    total: usize,
    levels: usize,
    n: u64,
    bytes: &[u8],
) -> Result<&[u8], CborFault>
    ensures { Gives (λ rest. (tt, rest.now)) result (forgotten (row_at (fresh_step total (item_at false total levels) (pass_at true total levels)) n [] bytes.now)) }
{
    let mut keys = BTreeSet::new(alloc);
    let mut rest = bytes;
    for _turn in 0..n {
        match pass_fresh(alloc, total, levels, &mut keys, rest) {
            Ok(after) => rest = after,
            Err(fault) => return Err(fault),
        }
    }
    Ok(rest)
}

/// Pairs up to a break, whose keys are compared.
#[cycle(passing)]
#[tactic(auto, using(crate::proofs::Loops::open_more, crate::proofs::Loops::open_fails, crate::proofs::Loops::open_ends, crate::proofs::Loops::open_over, crate::proofs::Passes::fails_forgotten))]
fn pass_fresh_to_break(
    alloc: Global,
    total: usize,
    levels: usize,
    bytes: &[u8],
) -> Result<&[u8], CborFault>
    ensures { Gives (λ rest. (tt, rest.now)) result (forgotten (open_at (fresh_step total (item_at false total levels) (pass_at true total levels)) total (length bytes.now) [] bytes.now)) }
{
    let mut keys = BTreeSet::new(alloc);
    let mut rest = bytes;
    for _turn in 0..bytes.len() {
        if is_break(rest) {
            return Ok(rest.split_at(1).1);
        }
        match pass_fresh(alloc, total, levels, &mut keys, rest) {
            Ok(after) => rest = after,
            Err(fault) => return Err(fault),
        }
    }
    Err(CborFault::Truncated(total))
}

/// A key, whose spelling joins those of the keys before it, and its value.
#[cycle(passing)]
#[tactic(auto, unfolding(crate::specs::Passing::fresh_step))]
fn pass_fresh<'a>(
    alloc: Global,
    total: usize,
    levels: usize,
    keys: &mut BTreeSet<Blob>,
    bytes: &'a [u8],
) -> Result<&'a [u8], CborFault>
    ensures { Gives (λ rest. (keys.new.keys, rest.now)) result (fresh_step total (item_at false total levels) (pass_at true total levels) keys.old.keys bytes.now) }
{
    let place = total.saturating_sub(bytes.len());
    let (key, value) = read_spelling(alloc, total, levels, bytes)?;
    admit(false, place, keys, key)?;
    pass_item(Some(alloc), total, levels, value)
}

/// The deterministic spelling of the item at the front.
fn read_spelling(
    alloc: Global,
    total: usize,
    levels: usize,
    bytes: &[u8],
) -> Result<(Blob, &[u8]), CborFault>
    ensures { Gives (λ x. (x.0, x.1.now)) result (spelled_at (item_at false total levels) bytes.now) }
{
    let place = total.saturating_sub(bytes.len());
    let (item, rest) = read_item(alloc, false, total, levels, bytes)?;
    match as_received(place, bytes, rest) {
        Some(text) => Ok((Blob::from_slice(alloc, text)?, rest)),
        None => Ok((write_det(alloc, &item)?, rest)),
    }
}

#[cycle(passing)]
#[tactic(auto, using(crate::proofs::Loops::row_more, crate::proofs::Loops::row_fails, crate::proofs::Loops::row_ends, crate::proofs::Loops::row_refuses))]
fn pass_keyed(total: usize, levels: usize, n: u64, bytes: &[u8]) -> Result<&[u8], CborFault>
    ensures gives { Gives (λ rest. (tt, rest.now)) result (row_at (pass_pair (pass_at false total levels)) n tt bytes.now) }
    ensures exact { IfErr result (λ e. (row_at (pass_pair (pass_at false total levels)) n tt bytes.now) ≡ Err e) }
{
    let mut rest = bytes;
    for _turn in 0..n {
        match pass_two(None, total, levels, rest) {
            Ok(after) => rest = after,
            Err(fault) => return Err(fault),
        }
    }
    Ok(rest)
}

#[cycle(passing)]
#[tactic(auto, using(crate::proofs::Loops::open_more, crate::proofs::Loops::open_fails, crate::proofs::Loops::open_ends, crate::proofs::Loops::open_over, crate::proofs::Loops::open_refuses))]
fn pass_open_keyed(total: usize, levels: usize, bytes: &[u8]) -> Result<&[u8], CborFault>
    ensures gives { Gives (λ rest. (tt, rest.now)) result (open_at (pass_pair (pass_at false total levels)) total (length bytes.now) tt bytes.now) }
    ensures exact { IfErr result (λ e. (open_at (pass_pair (pass_at false total levels)) total (length bytes.now) tt bytes.now) ≡ Err e) }
{
    let mut rest = bytes;
    for _turn in 0..bytes.len() {
        if is_break(rest) {
            return Ok(rest.split_at(1).1);
        }
        match pass_two(None, total, levels, rest) {
            Ok(after) => rest = after,
            Err(fault) => return Err(fault),
        }
    }
    Err(CborFault::Truncated(total))
}

/// A key and its value.
#[cycle(passing)]
pub(crate) fn pass_two(
    alloc: Option<Global>,
    total: usize,
    levels: usize,
    bytes: &[u8],
) -> Result<&[u8], CborFault>
    ensures gives { Gives (λ rest. (tt, rest.now)) result (pass_pair (pass_at (is_some alloc) total levels) tt bytes.now) }
    ensures exact { is_some alloc ≡ false → IfErr result (λ e. (pass_pair (pass_at (is_some alloc) total levels) tt bytes.now) ≡ Err e) }
{
    let value = pass_item(alloc, total, levels, bytes)?;
    pass_item(alloc, total, levels, value)
}

#[inline(always)]
fn pass_bytes(alloc: Option<Global>, place: usize, n: u64, rest: &[u8]) -> Result<&[u8], CborFault>
    ensures gives { Gives (λ rest. (tt, rest.now)) result (pass_content (is_some alloc) place major.Bytes n rest.now) }
    ensures exact { IfErr result (λ e. (pass_content (is_some alloc) place major.Bytes n rest.now) ≡ Err e) }
{
    match alloc {
        Some(_) => {
            let (_content, after) = read_bytes(place, n, rest)?;
            Ok(after)
        }
        None => pass_some(place, n, rest),
    }
}

fn pass_text(alloc: Option<Global>, place: usize, n: u64, rest: &[u8]) -> Result<&[u8], CborFault>
    ensures gives { Gives (λ rest. (tt, rest.now)) result (pass_content (is_some alloc) place major.Text n rest.now) }
    ensures exact { IfErr result (λ e. (pass_content (is_some alloc) place major.Text n rest.now) ≡ Err e) }
{
    match alloc {
        Some(_) => match read_text(place, n, rest) {
            Ok((_content, after)) => Ok(after),
            Err(fault) => Err(fault),
        },
        None => pass_some(place, n, rest),
    }
}

#[inline(always)]
fn pass_some(place: usize, n: u64, rest: &[u8]) -> Result<&[u8], CborFault>
    ensures gives { Gives (λ rest. (tt, rest.now)) result (pass_content false place major.Bytes n rest.now) }
    ensures exact { IfErr result (λ e. (pass_content false place major.Bytes n rest.now) ≡ Err e) }
{
    if (rest.len() as u64) < n {
        return Err(CborFault::Truncated(place));
    }
    Ok(rest.split_at(n as usize).1)
}

#[tactic(auto, unfolding(crate::specs::Passing::pass_chunk))]
pub(crate) fn pass_byte_chunk(total: usize, bytes: &[u8]) -> Result<&[u8], CborFault>
    ensures gives { Gives (λ rest. (tt, rest.now)) result (pass_chunk total major.Bytes tt bytes.now) }
    ensures exact { IfErr result (λ e. (pass_chunk total major.Bytes tt bytes.now) ≡ Err e) }
{
    let place = total.saturating_sub(bytes.len());
    let (head, rest) = read_head(place, bytes)?;
    let (_chunk, after) = read_byte_chunk(place, head, rest)?;
    Ok(after)
}

#[tactic(auto, unfolding(crate::specs::Passing::pass_chunk))]
pub(crate) fn pass_text_chunk(total: usize, bytes: &[u8]) -> Result<&[u8], CborFault>
    ensures gives { Gives (λ rest. (tt, rest.now)) result (pass_chunk total major.Text tt bytes.now) }
    ensures exact { IfErr result (λ e. (pass_chunk total major.Text tt bytes.now) ≡ Err e) }
{
    let place = total.saturating_sub(bytes.len());
    let (head, rest) = read_head(place, bytes)?;
    match read_text_chunk(place, head, rest) {
        Ok((_chunk, after)) => Ok(after),
        Err(fault) => Err(fault),
    }
}

#[tactic(auto, using(crate::proofs::Loops::open_more, crate::proofs::Loops::open_fails, crate::proofs::Loops::open_ends, crate::proofs::Loops::open_over, crate::proofs::Loops::open_refuses))]
fn pass_byte_chunks(total: usize, bytes: &[u8]) -> Result<&[u8], CborFault>
    ensures gives { Gives (λ rest. (tt, rest.now)) result (open_at (pass_chunk total major.Bytes) total (length bytes.now) tt bytes.now) }
    ensures exact { IfErr result (λ e. (open_at (pass_chunk total major.Bytes) total (length bytes.now) tt bytes.now) ≡ Err e) }
{
    let mut rest = bytes;
    for _turn in 0..bytes.len() {
        if is_break(rest) {
            return Ok(rest.split_at(1).1);
        }
        match pass_byte_chunk(total, rest) {
            Ok(after) => rest = after,
            Err(fault) => return Err(fault),
        }
    }
    Err(CborFault::Truncated(total))
}

#[tactic(auto, using(crate::proofs::Loops::open_more, crate::proofs::Loops::open_fails, crate::proofs::Loops::open_ends, crate::proofs::Loops::open_over, crate::proofs::Loops::open_refuses))]
fn pass_text_chunks(total: usize, bytes: &[u8]) -> Result<&[u8], CborFault>
    ensures gives { Gives (λ rest. (tt, rest.now)) result (open_at (pass_chunk total major.Text) total (length bytes.now) tt bytes.now) }
    ensures exact { IfErr result (λ e. (open_at (pass_chunk total major.Text) total (length bytes.now) tt bytes.now) ≡ Err e) }
{
    let mut rest = bytes;
    for _turn in 0..bytes.len() {
        if is_break(rest) {
            return Ok(rest.split_at(1).1);
        }
        match pass_text_chunk(total, rest) {
            Ok(after) => rest = after,
            Err(fault) => return Err(fault),
        }
    }
    Err(CborFault::Truncated(total))
}
