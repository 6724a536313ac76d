ghost use Rattle.std.specs.Prelude.{◌≡◌, ◌≢◌, ◌/◌, ◌%◌, Some};
ghost use Rattle.suite_port.specs.Answer.{Answers, bytes_of};
ghost use Rattle.suite_port.specs.LabSeal.{lab_combined, lab_tag, stream_block as stream_block_of, in_four_bytes as in_four_bytes_of, in_eight_bytes as in_eight_bytes_of};

use crate::bytes::{hash_four, hash_six};
use crate::fault::SuiteFault;
use std::alloc::Global;

/// The lower 32 bits of a number, most significant byte first.
#[tactic(auto, unfolding(crate::specs::LabSeal::in_four_bytes))]
fn in_four_bytes(number: usize) -> [u8; 4]
    ensures { result ≡ in_four_bytes_of number }
{
    ((number % 4294967296) as u32).to_be_bytes()
}

/// A number in 8 bytes, most significant byte first.
#[tactic(auto, unfolding(crate::specs::LabSeal::in_eight_bytes))]
fn in_eight_bytes(number: usize) -> [u8; 8]
    ensures { result ≡ in_eight_bytes_of number }
{
    (number as u64).to_be_bytes()
}

/// The block of 32 bytes of the stream with this number, of which the lower 32 bits count.
fn stream_block(key: &[u8], iv: &[u8; 12], number: usize) -> [u8; 32]
    ensures { result ≡ stream_block_of key.now iv.now number }
{
    let counted = in_four_bytes(number);
    hash_four(b"FDO-LAB-STREAM", key, iv.as_slice(), counted.as_slice())
}

/// Makes `block` that of the byte at `place`, where it is that of the byte before.
fn renew(block: &mut [u8; 32], key: &[u8], iv: &[u8; 12], place: usize)
    requires { place % 32 ≢ 0 → block.old ≡ stream_block_of key.now iv.now (place / 32) }
    ensures { block.new ≡ stream_block_of key.now iv.now (place / 32) }
{
    if place % 32 == 0 {
        *block = stream_block(key, iv, place / 32);
    }
}

/// The text combined with the stream by exclusive or, in a Vec with room for a tag.
#[tactic(auto, using(crate::proofs::Masking::masked_more, crate::proofs::Masking::block_stays))]
pub(crate) fn combined(
    alloc: Global,
    key: &[u8],
    iv: &[u8; 12],
    text: &[u8],
) -> Result<Vec<u8>, SuiteFault>
    ensures { Answers bytes_of (Some (lab_combined key.now iv.now text.now)) result }
{
    let mut all = Vec::with_capacity(alloc, text.len() + 16)?;
    let mut block = [0; 32];
    for place in 0..text.len() {
        renew(&mut block, key, iv, place);
        all.push(text[place] ^ block[place % 32])?;
    }
    Ok(all)
}

/// The tag over the additional data and the combined text.
pub(crate) fn tag(key: &[u8], iv: &[u8; 12], aad: &[u8], text: &[u8]) -> [u8; 16]
    ensures { result ≡ lab_tag key.now iv.now aad.now text.now }
{
    let size = in_eight_bytes(aad.len());
    let digest = hash_six(
        b"FDO-LAB-TAG",
        key,
        iv.as_slice(),
        size.as_slice(),
        aad,
        text,
    );
    let mut tag = [0; 16];
    tag.copy_from_slice(digest.as_slice().split_at(16).0);
    tag
}
