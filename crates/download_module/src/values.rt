ghost use Rattle.std.specs.Prelude.{◌≡◌, IfOk, Ok, Err};
ghost use Rattle.service_info.specs.Devmod.{true_of};
ghost use Rattle.download_module.specs.Received.{active_key, bytes_of, data_key, hash_key, hash_of, name_key, name_of, said_at, size_said};

use crate::down_fault::DownFault;
use cbor_core::{Blob, Item, NoMemory, Text, exactly};
use service_info::{Pair, is_name, read_item};
use std::alloc::Global;

/// That the module is active.
#[tactic(auto, unfolding(crate::specs::Received::said_at))]
pub(crate) fn read_active(alloc: Global, pair: &Pair) -> Result<Result<(), DownFault>, NoMemory>
    ensures { IfOk result (λ said. said ≡ said_at 0 active_key true_of pair.now) }
{
    if pair.key.as_list() != "fdo.download:active" {
        return Ok(Err(DownFault::Order(0)));
    }
    match read_item(alloc, pair.value.as_list())? {
        Some(Item::Simple(21)) => Ok(Ok(())),
        _ => Ok(Err(DownFault::BadValue(0))),
    }
}

/// The file's name.
#[tactic(auto, unfolding(crate::specs::Received::said_at))]
pub(crate) fn read_name(alloc: Global, pair: &Pair) -> Result<Result<Text, DownFault>, NoMemory>
    ensures { IfOk result (λ said. said ≡ said_at 1 name_key name_of pair.now) }
{
    if pair.key.as_list() != "fdo.download:name" {
        return Ok(Err(DownFault::Order(1)));
    }
    match read_item(alloc, pair.value.as_list())? {
        Some(Item::Text(name)) => {
            if is_name(name.as_list()) {
                Ok(Ok(name))
            } else {
                Ok(Err(DownFault::BadValue(1)))
            }
        }
        _ => Ok(Err(DownFault::BadValue(1))),
    }
}

/// How many bytes the file has.
#[tactic(auto, unfolding(crate::specs::Received::said_at))]
pub(crate) fn read_length(
    alloc: Global,
    limit: u64,
    pair: &Pair,
) -> Result<Result<u64, DownFault>, NoMemory>
    ensures { IfOk result (λ said. said ≡ size_said limit pair.now) }
{
    if pair.key.as_list() != "fdo.download:length" {
        return Ok(Err(DownFault::Order(2)));
    }
    match read_item(alloc, pair.value.as_list())? {
        Some(Item::Uint(size)) => {
            if limit < size {
                Ok(Err(DownFault::TooLarge(size)))
            } else {
                Ok(Ok(size))
            }
        }
        _ => Ok(Err(DownFault::BadValue(2))),
    }
}

/// The SHA-384 hash of the file.
#[tactic(auto, unfolding(crate::specs::Received::said_at))]
pub(crate) fn read_hash(alloc: Global, pair: &Pair) -> Result<Result<[u8; 48], DownFault>, NoMemory>
    ensures { IfOk result (λ said. said ≡ said_at 3 hash_key hash_of pair.now) }
{
    if pair.key.as_list() != "fdo.download:sha-384" {
        return Ok(Err(DownFault::Order(3)));
    }
    match read_item(alloc, pair.value.as_list())? {
        Some(Item::Bytes(bytes)) => match exactly(bytes.as_list()) {
            Some(hash) => Ok(Ok(hash)),
            None => Ok(Err(DownFault::BadValue(3))),
        },
        _ => Ok(Err(DownFault::BadValue(3))),
    }
}

/// A piece of the file, in the pair of a place.
#[tactic(auto, unfolding(crate::specs::Received::said_at))]
pub(crate) fn read_piece(
    alloc: Global,
    place: u64,
    pair: &Pair,
) -> Result<Result<Blob, DownFault>, NoMemory>
    ensures { IfOk result (λ said. said ≡ said_at place data_key bytes_of pair.now) }
{
    if pair.key.as_list() != "fdo.download:data" {
        return Ok(Err(DownFault::Order(place)));
    }
    match read_item(alloc, pair.value.as_list())? {
        Some(Item::Bytes(bytes)) => Ok(Ok(bytes)),
        _ => Ok(Err(DownFault::BadValue(place))),
    }
}
