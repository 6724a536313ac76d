ghost use Rattle.std.specs.Prelude.{◌≡◌, ◌≤◌, ◌<◌, ◌/◌, ◌+◌, ◌-◌, ◌++◌, ◌^◌, ℕ, Ok, Some, true, length, map, take, drop, IfOk, OnOk};
ghost use Rattle.std.specs.Str.{is_utf8};
ghost use Rattle.cbor_core.specs.declared.item.Item.TheVariants as items;
ghost use Rattle.cbor_core.specs.Deterministic.{det};
ghost use Rattle.download_module.specs.Received.{active_key, hash_key, length_key, name_key, of_module, received};
ghost use Rattle.download_module.specs.Sent.{data_pair as the_data_pair, longest_file, pair_of as the_pair_of, pairs_of, pieces, pieces_of, send_refusal, Refuses};
ghost use Rattle.sha2.specs.Sha512.{sha384};

use crate::send_fault::SendFault;
use cbor_core::{Blob, NoMemory, Text, write_head};
use service_info::{Pair, is_name};
use sha2::{Digest, Sha384};
use std::alloc::Global;

/// The most bytes of a file that is sent.
pub const LONGEST_FILE: u64 = 1_048_576;

/// The most bytes of a piece, so that its pair has room in a message of the usual size.
pub const LONGEST_PIECE: usize = 1_014;

/// The pairs that bring a file to the `Receiver` of a device.
#[tactic(auto, using(crate::proofs::SendLaws::sent_received))]
pub fn send_pairs(alloc: Global, name: &Text, file: &[u8]) -> Result<Vec<Pair>, SendFault>
    ensures pairs { IfOk result (λ pairs. pairs.items ≡ pairs_of name.now file.now) }
    ensures refused { Refuses (send_refusal name.now file.now) result }
    // A receiver that takes files of this length has received the file when it has taken them.
    ensures received { IfOk result (λ pairs. (limit : ℕ) → length file.now ≤ limit → received limit (of_module pairs.items) ≡ Ok (Some (record { name = name.now; bytes = file.now }))) }
{
    if !is_name(name.as_list()) {
        return Err(SendFault::BadName);
    }
    let size = file.len() as u64;
    if size > LONGEST_FILE {
        return Err(SendFault::TooLarge(size));
    }
    Ok(file_pairs(alloc, name.as_list(), file)?)
}

fn file_pairs(alloc: Global, name: &str, file: &[u8]) -> Result<Vec<Pair>, NoMemory>
    requires { length file.now ≤ longest_file }
    ensures pairs { IfOk result (λ pairs. pairs.items ≡ pairs_of name.now file.now) }
    ensures short { IfOk result (λ _. length name.now < 2 ^ 64) }
    ensures utf8 { IfOk result (λ _. is_utf8 name.now ≡ true) }
{
    let count = (file.len() + LONGEST_PIECE - 1) / LONGEST_PIECE;
    let mut pairs = Vec::with_capacity(alloc, 4 + count)?;
    pairs.push(active_pair(alloc)?)?;
    pairs.push(name_pair(alloc, name)?)?;
    pairs.push(length_pair(alloc, file.len() as u64)?)?;
    pairs.push(hash_pair(alloc, file)?)?;
    push_pieces(alloc, &mut pairs, count, file)?;
    Ok(pairs)
}

#[tactic(auto, using(service_info::proofs::ShippedLaws::det_of_simple))]
fn active_pair(alloc: Global) -> Result<Pair, NoMemory>
    ensures { IfOk result (λ pair. pair ≡ the_pair_of active_key (items.Simple 21)) }
{
    let mut value = Vec::new(alloc);
    write_head(&mut value, 7, 21)?;
    pair_of(alloc, "fdo.download:active", value)
}

#[tactic(auto, using(crate::proofs::SendLaws::text_is, service_info::proofs::ShippedLaws::utf8_of))]
fn name_pair(alloc: Global, name: &str) -> Result<Pair, NoMemory>
    ensures pair { IfOk result (λ pair. pair ≡ the_pair_of name_key (items.Text name.now)) }
    ensures short { IfOk result (λ _. length name.now < 2 ^ 64) }
    ensures utf8 { IfOk result (λ _. is_utf8 name.now ≡ true) }
{
    let length = name.len() as u64;
    let mut value = Vec::new(alloc);
    write_head(&mut value, 3, length)?;
    value.extend_from_slice(name.as_bytes())?;
    pair_of(alloc, "fdo.download:name", value)
}

#[tactic(auto, using(service_info::proofs::ShippedLaws::det_of_uint))]
fn length_pair(alloc: Global, size: u64) -> Result<Pair, NoMemory>
    ensures { IfOk result (λ pair. pair ≡ the_pair_of length_key (items.Uint size)) }
{
    let mut value = Vec::new(alloc);
    write_head(&mut value, 0, size)?;
    pair_of(alloc, "fdo.download:length", value)
}

fn hash_pair(alloc: Global, file: &[u8]) -> Result<Pair, NoMemory>
    ensures { IfOk result (λ pair. pair ≡ the_pair_of hash_key (items.Bytes (sha384 file.now))) }
{
    let hash = Sha384::digest(file);
    bytes_pair(alloc, "fdo.download:sha-384", &hash)
}

/// So many pieces of a file.
#[tactic(auto, using(crate::proofs::SendLaws::pieces_step, crate::proofs::SendLaws::pieces_over))]
fn push_pieces(
    alloc: Global,
    pairs: &mut Vec<Pair>,
    count: usize,
    file: &[u8],
) -> Result<(), NoMemory>
    ensures { OnOk result (pairs.new.items ≡ pairs.old.items ++ map the_data_pair (pieces count file.now)) }
{
    let mut rest = file;
    for _piece in 0..count {
        let (piece, after) = rest.split_at(LONGEST_PIECE.min(rest.len()));
        pairs.push(bytes_pair(alloc, "fdo.download:data", piece)?)?;
        rest = after;
    }
    Ok(())
}

#[tactic(auto, using(crate::proofs::SendLaws::bytes_is))]
fn bytes_pair(alloc: Global, key: &str, bytes: &[u8]) -> Result<Pair, NoMemory>
    ensures { IfOk result (λ pair. pair ≡ the_pair_of key.now (items.Bytes bytes.now)) }
{
    let mut value = Vec::new(alloc);
    write_head(&mut value, 2, bytes.len() as u64)?;
    value.extend_from_slice(bytes)?;
    pair_of(alloc, key, value)
}

fn pair_of(alloc: Global, key: &str, value: Vec<u8>) -> Result<Pair, NoMemory>
    ensures { IfOk result (λ pair. pair ≡ record { key = key.now; value = value.items }) }
{
    Ok(Pair {
        key: Text::from_str(alloc, key)?,
        value: Blob::new(value),
    })
}
