//! What the readers of envelopes answer: `ok`, the parts, and the envelope written anew, or `place` and the place of the
//! first fault.

use cbor_core::{Blob, NoMemory};
use cose_envelopes::{
    CoseFault, read_encrypt0, read_mac0, read_sign1, write_encrypt0, write_mac0, write_sign1,
};
use std::alloc::Global;
use std::io;

pub fn sign1(alloc: Global, bytes: &[u8]) -> io::Result<String> {
    match read_sign1(alloc, bytes) {
        Ok(value) => {
            let payload = value.payload.as_list();
            let written = write_sign1(alloc, &value);
            parts(
                alloc,
                &value.protected,
                value.alg,
                payload,
                &value.sig,
                written,
            )
        }
        Err(fault) => refused(alloc, fault),
    }
}

pub fn mac0(alloc: Global, bytes: &[u8]) -> io::Result<String> {
    match read_mac0(alloc, bytes) {
        Ok(value) => {
            let payload = value.payload.as_list();
            let written = write_mac0(alloc, &value);
            parts(
                alloc,
                &value.protected,
                value.alg,
                payload,
                &value.tag,
                written,
            )
        }
        Err(fault) => refused(alloc, fault),
    }
}

pub fn encrypt0(alloc: Global, bytes: &[u8]) -> io::Result<String> {
    match read_encrypt0(alloc, bytes) {
        Ok(value) => {
            let written = write_encrypt0(alloc, &value);
            parts(
                alloc,
                &value.protected,
                value.alg,
                &value.iv,
                &value.sealed,
                written,
            )
        }
        Err(fault) => refused(alloc, fault),
    }
}

/// What was read: the protected header, its algorithm, two further strings, and the envelope as it is written.
fn parts(
    alloc: Global,
    protected: &Blob,
    alg: i64,
    first: &[u8],
    second: &Blob,
    written: Result<Blob, NoMemory>,
) -> io::Result<String> {
    let Ok(written) = written else {
        return Ok(format!(in alloc; "NoMemory")?);
    };
    let protected = digits(alloc, protected.as_list())?;
    let first = digits(alloc, first)?;
    let second = digits(alloc, second.as_list())?;
    let written = digits(alloc, written.as_list())?;
    Ok(format!(in alloc; "ok {protected} {alg} {first} {second} {written}")?)
}

/// Bytes in hexadecimal, `-` for none.
fn digits(alloc: Global, bytes: &[u8]) -> io::Result<String> {
    if bytes.is_empty() {
        Ok(format!(in alloc; "-")?)
    } else {
        Ok(hex::encode(alloc, bytes)?)
    }
}

fn refused(alloc: Global, fault: CoseFault) -> io::Result<String> {
    let text = match fault {
        CoseFault::BadShape(place) => format!(in alloc; "place {place}")?,
        CoseFault::NoMemory => format!(in alloc; "NoMemory")?,
        _ => format!(in alloc; "another fault")?,
    };
    Ok(text)
}
