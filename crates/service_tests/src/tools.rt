use cbor_core::{Blob, Text};
use service_info::{Module, Pair};
use std::test::Fail;

/// A pair of a key and a value in hex.
pub fn pair(rt: &HostRuntime, key: &str, value: &str) -> Result<Pair, Fail> {
    let value = hex::decode(rt.alloc(), value)?;
    Ok(Pair {
        key: Text::from_str(rt.alloc(), key)?,
        value: Blob::new(value),
    })
}

pub fn pairs(rt: &HostRuntime, rows: &[(&str, &str)]) -> Result<Vec<Pair>, Fail> {
    let mut all = Vec::new(rt.alloc());
    for (key, value) in rows {
        all.push(pair(rt, key, value)?)?;
    }
    Ok(all)
}

/// A file whose bytes count from 0, again and again.
pub fn file(rt: &HostRuntime, length: usize) -> Result<Vec<u8>, Fail> {
    let mut bytes = Vec::with_capacity(rt.alloc(), length)?;
    for i in 0..length {
        bytes.push((i % 251) as u8)?;
    }
    Ok(bytes)
}

/// Whether the next pair of a module has a key.
pub fn gives<M: Module>(rt: &HostRuntime, module: &mut M, key: &str) -> Result<bool, Fail> {
    match module.next(rt.alloc())? {
        Some(pair) => Ok(pair.key.as_list() == key),
        None => Ok(false),
    }
}
