ghost use Rattle.std.specs.Prelude.{◌≡◌, [], length, string_bytes, IfErr, Err};
ghost use Rattle.cbor_core.specs.declared.head.Major.TheVariants as major;
ghost use Rattle.cbor_core.specs.Reading.{Gives, content_at, foreign_at, chunk_in, chunk_step, open_at, breaks};

use crate::blob::Blob;
use crate::fault::CborFault;
use crate::head::{Head, Major};
use crate::read_head::read_head;
use crate::text::Text;
use std::alloc::Global;
use std::str;

/// The content of a byte string of `n` bytes.
#[inline(always)]
pub(crate) fn read_bytes(place: usize, n: u64, rest: &[u8]) -> Result<(&[u8], &[u8]), CborFault>
    ensures gives { Gives (λ x. (x.0.now, x.1.now)) result (content_at place major.Bytes n rest.now) }
    ensures exact { IfErr result (λ e. (content_at place major.Bytes n rest.now) ≡ Err e) }
{
    if (rest.len() as u64) < n {
        return Err(CborFault::Truncated(place));
    }
    let (content, after) = rest.split_at(n as usize);
    Ok((content, after))
}

/// The content of a text string of `n` bytes.
#[tactic(auto, using(crate::proofs::Utf8::is_text, crate::proofs::Utf8::is_no_text))]
pub(crate) fn read_text(place: usize, n: u64, rest: &[u8]) -> Result<(&str, &[u8]), CborFault>
    ensures gives { Gives (λ x. (x.0.now, x.1.now)) result (content_at place major.Text n rest.now) }
    ensures exact { IfErr result (λ e. (content_at place major.Text n rest.now) ≡ Err e) }
{
    if (rest.len() as u64) < n {
        return Err(CborFault::Truncated(place));
    }
    let (content, after) = rest.split_at(n as usize);
    match str::from_utf8(content) {
        Ok(text) => Ok((text, after)),
        Err(_) => Err(CborFault::Malformed(place)),
    }
}

/// Whether the next head is the break.
#[inline(always)]
pub(crate) fn is_break(bytes: &[u8]) -> bool
    ensures { result ≡ breaks bytes.now }
{
    match bytes {
        [first, ..] => *first == 255,
        [] => false,
    }
}

fn refuse_foreign(place: usize, n: u64, rest: &[u8]) -> CborFault
    ensures { foreign_at {A = Unit {0}} place n rest.now ≡ Err result }
{
    if (rest.len() as u64) < n {
        CborFault::Truncated(place)
    } else {
        CborFault::Malformed(place)
    }
}

pub(crate) fn read_byte_chunk(
    place: usize,
    head: Head,
    rest: &[u8],
) -> Result<(&[u8], &[u8]), CborFault>
    ensures gives { Gives (λ x. (x.0.now, x.1.now)) result (chunk_in place major.Bytes head rest.now) }
    ensures exact { IfErr result (λ e. (chunk_in place major.Bytes head rest.now) ≡ Err e) }
{
    match head {
        Head::Sized(Major::Bytes, _, n) => read_bytes(place, n, rest),
        Head::Sized(Major::Text, _, n) => Err(refuse_foreign(place, n, rest)),
        _ => Err(CborFault::Malformed(place)),
    }
}

pub(crate) fn read_text_chunk(
    place: usize,
    head: Head,
    rest: &[u8],
) -> Result<(&str, &[u8]), CborFault>
    ensures gives { Gives (λ x. (x.0.now, x.1.now)) result (chunk_in place major.Text head rest.now) }
    ensures exact { IfErr result (λ e. (chunk_in place major.Text head rest.now) ≡ Err e) }
{
    match head {
        Head::Sized(Major::Text, _, n) => read_text(place, n, rest),
        Head::Sized(Major::Bytes, _, n) => Err(refuse_foreign(place, n, rest)),
        _ => Err(CborFault::Malformed(place)),
    }
}

#[tactic(auto, unfolding(crate::specs::Reading::chunk_step))]
fn next_byte_chunk<'a>(
    total: usize,
    content: &mut Vec<u8>,
    bytes: &'a [u8],
) -> Result<&'a [u8], CborFault>
    ensures { Gives (λ rest. (content.new.items, rest.now)) result (chunk_step total major.Bytes content.old.items bytes.now) }
{
    let place = total.saturating_sub(bytes.len());
    let (head, rest) = read_head(place, bytes)?;
    let (chunk, after) = read_byte_chunk(place, head, rest)?;
    content.extend_from_slice(chunk)?;
    Ok(after)
}

#[tactic(auto, unfolding(crate::specs::Reading::chunk_step))]
fn next_text_chunk<'a>(
    total: usize,
    content: &mut String,
    bytes: &'a [u8],
) -> Result<&'a [u8], CborFault>
    ensures { Gives (λ rest. (string_bytes content.new, rest.now)) result (chunk_step total major.Text (string_bytes content.old) bytes.now) }
{
    let place = total.saturating_sub(bytes.len());
    let (head, rest) = read_head(place, bytes)?;
    match read_text_chunk(place, head, rest) {
        Ok((chunk, after)) => {
            content.push_str(chunk)?;
            Ok(after)
        }
        Err(fault) => Err(fault),
    }
}

/// The chunks of a byte string of indefinite length, up to their break, joined.
#[tactic(auto, using(crate::proofs::Loops::open_more, crate::proofs::Loops::open_fails, crate::proofs::Loops::open_ends, crate::proofs::Loops::open_over))]
pub(crate) fn read_byte_chunks(
    alloc: Global,
    total: usize,
    bytes: &[u8],
) -> Result<(Blob, &[u8]), CborFault>
    ensures { Gives (λ x. (x.0, x.1.now)) result (open_at (chunk_step total major.Bytes) total (length bytes.now) [] bytes.now) }
{
    let mut content = Vec::new(alloc);
    let mut rest = bytes;
    for _turn in 0..bytes.len() {
        if is_break(rest) {
            return Ok((Blob::new(content), rest.split_at(1).1));
        }
        match next_byte_chunk(total, &mut content, rest) {
            Ok(after) => rest = after,
            Err(fault) => return Err(fault),
        }
    }
    Err(CborFault::Truncated(total))
}

/// The chunks of a text string of indefinite length, up to their break, joined.
#[tactic(auto, using(crate::proofs::Loops::open_more, crate::proofs::Loops::open_fails, crate::proofs::Loops::open_ends, crate::proofs::Loops::open_over))]
pub(crate) fn read_text_chunks(
    alloc: Global,
    total: usize,
    bytes: &[u8],
) -> Result<(Text, &[u8]), CborFault>
    ensures { Gives (λ x. (x.0, x.1.now)) result (open_at (chunk_step total major.Text) total (length bytes.now) [] bytes.now) }
{
    let mut content = String::new(alloc);
    let mut rest = bytes;
    for _turn in 0..bytes.len() {
        if is_break(rest) {
            return Ok((Text::new(content), rest.split_at(1).1));
        }
        match next_text_chunk(total, &mut content, rest) {
            Ok(after) => rest = after,
            Err(fault) => return Err(fault),
        }
    }
    Err(CborFault::Truncated(total))
}
