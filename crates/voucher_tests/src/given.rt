//! Keys and suites for the tests. Here and in the tests a function holds one value with parts on the heap at most, and
//! answers by a match, which keeps its proof short.
use cbor_core::{Blob, NoMemory};
use key_codec::{KeyBody, PublicKey};
use suite_port::{LabSuite, Signer};

/// The laboratory key of these bytes.
pub(crate) fn key(rt: &HostRuntime, bytes: &[u8]) -> Result<PublicKey, NoMemory> {
    key_of(rt, 200, bytes)
}

/// A key of a type, whose body is these bytes.
pub(crate) fn key_of(rt: &HostRuntime, kind: i64, bytes: &[u8]) -> Result<PublicKey, NoMemory> {
    match Blob::from_slice(rt.alloc(), bytes) {
        Ok(bytes) => Ok(PublicKey {
            kind,
            enc: 0,
            body: KeyBody::Bytes(bytes),
        }),
        Err(fault) => Err(fault),
    }
}

/// A suite of laboratory keys that holds none and never fails.
pub(crate) fn lab(rt: &HostRuntime) -> LabSuite {
    LabSuite::new(Vec::new(rt.alloc()))
}

/// A suite whose call of this number, from 1, fails.
pub(crate) fn failing(rt: &HostRuntime, call: u64) -> LabSuite {
    match one_call(rt, call) {
        Ok(fail) => LabSuite::new(fail),
        Err(_) => lab(rt),
    }
}

fn one_call(rt: &HostRuntime, call: u64) -> Result<Vec<u64>, NoMemory> {
    let mut calls = Vec::new(rt.alloc());
    calls.push(call)?;
    Ok(calls)
}

/// Whether a suite has taken a private key.
pub(crate) fn loads(rt: &HostRuntime, suite: &mut LabSuite, private: &[u8]) -> bool {
    suite.load(rt.alloc(), private).is_ok()
}
