ghost use Rattle.std.specs.Prelude.{◌≡◌, ◌++◌, ◌<◌, ◌^◌, IfOk, length};
ghost use Rattle.journal.specs.Records.{framed};
ghost use Rattle.journal.specs.Changing.{snapshot};
ghost use Rattle.disk_port.specs.Slots.{payload};
ghost use Rattle.byteorder.specs.Endian.{big_bytes};

use byteorder::{BigEndian, ByteOrder};
use std::alloc::{AllocError, Global};

/// What a record with this body writes behind its gate: the length, the body and the next record's gate, which is closed.
#[tactic(auto, using(crate::proofs::Bytes::framed_bytes))]
pub fn framed(alloc: Global, body: &[u8]) -> Result<Vec<u8>, AllocError>
    requires { length body.now < 2 ^ 32 }
    ensures bytes { IfOk result (λ bytes. bytes.items ≡ framed body.now) }
{
    let mut head = [0; 4];
    BigEndian::write_u32(&mut head, body.len() as u32);
    let mut bytes = Vec::from_slice(alloc, &head)?;
    bytes.extend_from_slice(body)?;
    bytes.push(0)?;
    Ok(bytes)
}

/// What a snapshot of a generation with this body writes behind its gate: generation, length, body and the first record's gate,
/// which is closed.
#[tactic(auto, using(crate::proofs::Bytes::snapshot_bytes))]
pub fn snapshot(alloc: Global, generation: u64, body: &[u8]) -> Result<Vec<u8>, AllocError>
    requires { length body.now < 2 ^ 32 }
    ensures bytes { IfOk result (λ bytes. bytes.items ≡ snapshot generation body.now) }
{
    let mut bytes = Vec::from_slice(alloc, &head_of(generation, body.len() as u32))?;
    bytes.extend_from_slice(body)?;
    bytes.push(0)?;
    Ok(bytes)
}

/// A generation and a length.
fn head_of(generation: u64, length: u32) -> [u8; 12]
    ensures { result ≡ big_bytes 8 generation ++ big_bytes 4 length }
{
    let mut head = [0; 12];
    BigEndian::write_u64(&mut head[..8], generation);
    BigEndian::write_u32(&mut head[8..], length);
    head
}
