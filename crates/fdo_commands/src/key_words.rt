//! The words of a command that say bytes and keys.

ghost use Rattle.std.specs.Prelude.{◌≡◌, Some, IfOk};
ghost use Rattle.key_codec.specs.Fault.{ok_of};
ghost use Rattle.key_codec.specs.Key.{key_in};
ghost use Rattle.fdo_commands.specs.KeyWords.{bytes_said, key_of_bytes, key_said};

use cbor_core::{Blob, CborFault, Item, NoMemory, Text, read_wire};
use hex::FromHexError;
use key_codec::{KeyFault, PublicKey, read_key};
use std::alloc::Global;

/// The bytes, one at least, that a word says in hex, with digits of either case, or None where it says none.
pub(crate) fn read_bytes(alloc: Global, word: &Text) -> Result<Option<Blob>, NoMemory>
    ensures { IfOk result (λ found. found ≡ bytes_said word.now) }
{
    match hex::decode(alloc, word.as_list().as_bytes()) {
        Ok(bytes) if bytes.is_empty() => Ok(None),
        Ok(bytes) => Ok(Some(Blob::new(bytes))),
        Err(FromHexError::OutOfMemory) => Err(NoMemory),
        Err(_) => Ok(None),
    }
}

/// The key that a word says, the hex of one item's bytes to their end, or None where it says none.
pub(crate) fn read_key_word(alloc: Global, word: &Text) -> Result<Option<PublicKey>, NoMemory>
    ensures { IfOk result (λ found. found ≡ key_said word.now) }
{
    match read_bytes(alloc, word)? {
        Some(bytes) => key_of(alloc, bytes.as_list()),
        None => Ok(None),
    }
}

fn key_of(alloc: Global, bytes: &[u8]) -> Result<Option<PublicKey>, NoMemory>
    ensures { IfOk result (λ found. found ≡ key_of_bytes (Some bytes.now)) }
{
    match read_wire(alloc, bytes) {
        Ok((item, read)) => {
            if read == bytes.len() {
                key_of_item(alloc, &item)
            } else {
                Ok(None)
            }
        }
        Err(CborFault::NoMemory) => Err(NoMemory),
        Err(_) => Ok(None),
    }
}

fn key_of_item(alloc: Global, item: &Item) -> Result<Option<PublicKey>, NoMemory>
    ensures { IfOk result (λ found. found ≡ ok_of (key_in item.now)) }
{
    match read_key(alloc, item) {
        Ok(key) => Ok(Some(key)),
        Err(KeyFault::NoMemory) => Err(NoMemory),
        Err(_) => Ok(None),
    }
}
