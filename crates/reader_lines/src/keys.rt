use cbor_core::{Blob, Item, NoMemory, read_wire, write_det};
use key_codec::{
    KeyFault, hash_item, key_bytes, read_hash, read_key, read_sig_info, sig_info_item,
};
use std::alloc::Global;
use std::io;

/// What `read_key`, `read_hash` and `read_sig_info` answer to the item that the bytes begin with: `Ok HEX`, with the
/// deterministic spelling of what was read, or the fault.
pub fn answer(alloc: Global, bytes: &[u8]) -> io::Result<String> {
    let Ok((item, _taken)) = read_wire(alloc, bytes) else {
        return Ok(format!(in alloc; "no item")?);
    };
    let key = said(alloc, key_answer(alloc, &item))?;
    let hash = said(alloc, hash_answer(alloc, &item))?;
    let sig = said(alloc, sig_answer(alloc, &item))?;
    Ok(format!(in alloc; "{key}: {hash}: {sig}")?)
}

fn key_answer(alloc: Global, item: &Item) -> Result<Blob, KeyFault> {
    let key = read_key(alloc, item)?;
    Ok(key_bytes(alloc, &key)?)
}

fn hash_answer(alloc: Global, item: &Item) -> Result<Blob, KeyFault> {
    let hash = read_hash(item)?;
    Ok(spelled(alloc, hash_item(alloc, &hash))?)
}

fn sig_answer(alloc: Global, item: &Item) -> Result<Blob, KeyFault> {
    let sig = read_sig_info(alloc, item)?;
    Ok(spelled(alloc, sig_info_item(alloc, &sig))?)
}

fn spelled(alloc: Global, item: Result<Item, NoMemory>) -> Result<Blob, NoMemory> {
    write_det(alloc, &item?)
}

fn said(alloc: Global, answer: Result<Blob, KeyFault>) -> io::Result<String> {
    let text = match answer {
        Ok(blob) => {
            let spelling = hex::encode(alloc, blob.as_list())?;
            format!(in alloc; "Ok {spelling}")?
        }
        Err(KeyFault::BadShape) => format!(in alloc; "BadShape")?,
        Err(KeyFault::BadType(kind)) => format!(in alloc; "BadType {kind}")?,
        Err(KeyFault::BadEncoding(enc)) => format!(in alloc; "BadEncoding {enc}")?,
        Err(KeyFault::BadLength(length)) => format!(in alloc; "BadLength {length}")?,
        Err(KeyFault::NoMemory) => format!(in alloc; "NoMemory")?,
    };
    Ok(text)
}
