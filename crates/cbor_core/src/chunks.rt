ghost use Rattle.std.specs.Prelude.{◌≡◌, [], None};
ghost use Rattle.std.specs.Option.{option_copied};
ghost use Rattle.cbor_core.specs.declared.head.Major.TheVariants as major;
ghost use Rattle.cbor_core.specs.Chunks.{value_of, chunk_at, chunk_behind};
ghost use Rattle.cbor_core.specs.Reading.{chunk_step};

use crate::cursor::find_content;
use crate::head::{Head, Major};
use crate::pass::{pass_byte_chunk, pass_text_chunk};
use crate::read_head::read_head;
use crate::strings::{is_break, read_byte_chunk, read_text_chunk};

/// The content of the chunk with this index of a string, by its head and what is behind it.
pub(crate) fn find_chunk(total: usize, index: u64, head: Head, rest: &[u8]) -> Option<&[u8]>
    ensures { option_copied result ≡ chunk_behind total index head rest.now }
{
    match head {
        Head::Sized(_, _, _) => {
            if index == 0 {
                find_content(head, rest)
            } else {
                None
            }
        }
        Head::Open(Major::Bytes) => byte_chunk(total, index, rest),
        Head::Open(Major::Text) => text_chunk(total, index, rest),
        _ => None,
    }
}

/// The content of the chunk of a byte string with this index.
#[tactic(auto, using(crate::proofs::ChunkLaws::chunk_more, crate::proofs::ChunkLaws::chunk_stops, crate::proofs::ChunkLaws::chunk_fails, crate::proofs::ChunkLaws::chunk_last, crate::proofs::ChunkLaws::chunk_past))]
pub(crate) fn byte_chunk(total: usize, index: u64, bytes: &[u8]) -> Option<&[u8]>
    ensures { option_copied result ≡ chunk_at total major.Bytes index bytes.now }
{
    let mut rest = bytes;
    for _turn in 0..index {
        if is_break(rest) {
            return None;
        }
        match pass_byte_chunk(total, rest) {
            Ok(after) => rest = after,
            Err(_) => return None,
        }
    }
    if is_break(rest) {
        None
    } else {
        this_byte_chunk(total, rest)
    }
}

/// The content of the chunk of a text string with this index.
#[tactic(auto, using(crate::proofs::ChunkLaws::chunk_more, crate::proofs::ChunkLaws::chunk_stops, crate::proofs::ChunkLaws::chunk_fails, crate::proofs::ChunkLaws::chunk_last, crate::proofs::ChunkLaws::chunk_past))]
pub(crate) fn text_chunk(total: usize, index: u64, bytes: &[u8]) -> Option<&[u8]>
    ensures { option_copied result ≡ chunk_at total major.Text index bytes.now }
{
    let mut rest = bytes;
    for _turn in 0..index {
        if is_break(rest) {
            return None;
        }
        match pass_text_chunk(total, rest) {
            Ok(after) => rest = after,
            Err(_) => return None,
        }
    }
    if is_break(rest) {
        None
    } else {
        this_text_chunk(total, rest)
    }
}

#[tactic(auto, unfolding(crate::specs::Reading::chunk_step))]
fn this_byte_chunk(total: usize, bytes: &[u8]) -> Option<&[u8]>
    ensures { option_copied result ≡ value_of (chunk_step total major.Bytes [] bytes.now) }
{
    let place = total.saturating_sub(bytes.len());
    match read_head(place, bytes) {
        Ok((head, rest)) => match read_byte_chunk(place, head, rest) {
            Ok((content, _after)) => Some(content),
            Err(_) => None,
        },
        Err(_) => None,
    }
}

#[tactic(auto, unfolding(crate::specs::Reading::chunk_step))]
fn this_text_chunk(total: usize, bytes: &[u8]) -> Option<&[u8]>
    ensures { option_copied result ≡ value_of (chunk_step total major.Text [] bytes.now) }
{
    let place = total.saturating_sub(bytes.len());
    match read_head(place, bytes) {
        Ok((head, rest)) => match read_text_chunk(place, head, rest) {
            Ok((content, _after)) => Some(content.as_bytes()),
            Err(_) => None,
        },
        Err(_) => None,
    }
}
