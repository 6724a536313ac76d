//! Bodies, files and credentials for the tests. Here and in the tests a function holds one value with parts on the heap at
//! most, and answers by a match, which keeps its proof short.
ghost use Rattle.std.specs.Prelude.{IfOk};
ghost use Rattle.credential_store.specs.Body.{IsKept};

use cbor_core::NoMemory;
use credential_store::{CredentialStore, ImageFault, OpenFault, read_image};
use disk_port::{Disk, MemoryDisk};
use hash_hmac::hash_of;
use voucher_chain::Credential;

/// The spelling of a body of version 2: its head, and its parts in order. They begin at 0, 1, 2, 19, 21, 25, 59 and 95, and
/// it has 96 bytes.
pub(crate) static PARTS: [&str; 8] = [
    "87",
    "02",
    "5007070707070707070707070707070707",
    "4180",
    "636c6162",
    "58200707070707070707070707070707070707070707070707070707070707070707",
    "822f58202c70e12b7a0646f92279f427c7b38e7334d8e5389cff167a1dc30e73f826b683",
    "05",
];

/// The bytes of the parts of a body of version 2, of which some are spelled in another way.
pub(crate) fn body(rt: &HostRuntime, changes: &[(usize, &str)]) -> Result<Vec<u8>, NoMemory> {
    match spelling(rt, changes) {
        Ok(text) => match hex::decode(rt.alloc(), text.as_str()) {
            Ok(bytes) => Ok(bytes),
            Err(_) => Err(NoMemory),
        },
        Err(_) => Err(NoMemory),
    }
}

fn spelling(rt: &HostRuntime, changes: &[(usize, &str)]) -> Result<String, NoMemory> {
    let mut text = String::new(rt.alloc());
    let mut index: usize = 0;
    for part in &PARTS {
        text.push_str(spelled(index, part, changes))?;
        index = index.saturating_add(1);
    }
    Ok(text)
}

fn spelled<'a>(index: usize, part: &'a str, changes: &[(usize, &'a str)]) -> &'a str {
    for (at, other) in changes {
        if *at == index {
            return other;
        }
    }
    part
}

/// What stands at the front of a slot: its gate, its generation and the length of its body.
fn head(gate: u8, generation: u64, length: usize) -> [u8; 13] {
    let mut head = [0u8; 13];
    head[0] = gate;
    let generation = generation.to_be_bytes();
    let length = u32::try_from(length).unwrap_or(0).to_be_bytes();
    for index in 0..8 {
        head[index + 1] = generation[index];
    }
    for index in 0..4 {
        head[index + 9] = length[index];
    }
    head
}

/// Puts a slot behind the bytes of a file, filled up with 0 to its place.
pub(crate) fn put_slot(
    file: &mut Vec<u8>,
    place: usize,
    gate: u8,
    generation: u64,
    body: &[u8],
) -> Result<(), NoMemory> {
    file.resize(place, 0)?;
    file.extend_from_slice(head(gate, generation, body.len()).as_slice())?;
    file.extend_from_slice(body)?;
    Ok(())
}

/// A file with a body in its first slot.
pub(crate) fn first_file(rt: &HostRuntime, body: &[u8]) -> Result<Vec<u8>, NoMemory> {
    let mut file = Vec::new(rt.alloc());
    put_slot(&mut file, 0, 1, 1, body)?;
    Ok(file)
}

/// A file with a body in its second slot.
pub(crate) fn second_file(rt: &HostRuntime, body: &[u8]) -> Result<Vec<u8>, NoMemory> {
    let mut file = Vec::new(rt.alloc());
    put_slot(&mut file, 8192, 1, 1, body)?;
    Ok(file)
}

// ---- numbered credentials

/// The credential of a number: it is each byte of the GUID and of the secret.
pub(crate) fn credential(rt: &HostRuntime, number: u8) -> Result<Credential, NoMemory>
    ensures { IfOk result IsKept }
{
    match body(rt, &[]) {
        Ok(body) => match first_file(rt, &body) {
            Ok(file) => credential_from(rt, &file, number),
            Err(fault) => Err(fault),
        },
        Err(fault) => Err(fault),
    }
}

/// The credential that an image stands for, with another number.
fn credential_from(rt: &HostRuntime, image: &[u8], number: u8) -> Result<Credential, NoMemory>
    ensures { IfOk result IsKept }
{
    match read_image(rt.alloc(), image) {
        Ok(Some(credential)) => {
            let mut credential = credential;
            credential.guid = [number; 16];
            credential.secret = [number; 32];
            Ok(credential)
        }
        _ => Err(NoMemory),
    }
}

/// The number of a credential, to which 100 are added where its HMAC is HMAC-SHA-384, or None where it is that of no number.
pub(crate) fn number_of(credential: &Credential) -> Option<u8> {
    let number = credential.guid[0];
    let is_right = credential.guid == [number; 16]
        && credential.rv.as_list() == b"\x80".as_slice()
        && credential.info.as_list() == "lab"
        && credential.secret == [number; 32]
        && Some(credential.key_hash) == hash_of(-16, b"key", b"");
    match credential.alg {
        5 if is_right => Some(number),
        6 if is_right => number.checked_add(100),
        _ => None,
    }
}

/// The number of the credential that there is, or 0 where there is none.
pub(crate) fn number_in(credential: Option<&Credential>) -> Result<u8, ImageFault> {
    match credential {
        Some(credential) => match number_of(credential) {
            Some(number) => Ok(number),
            None => Err(ImageFault::NoMemory),
        },
        None => Ok(0),
    }
}

/// The number of the credential that an image stands for, or 0 where it stands for none.
pub(crate) fn number_at(rt: &HostRuntime, image: &[u8]) -> Result<u8, ImageFault> {
    match read_image(rt.alloc(), image) {
        Ok(credential) => number_in(credential.as_ref()),
        Err(fault) => Err(fault),
    }
}

/// A disk with an image, on which the calls of these numbers fail.
pub(crate) fn disk(rt: &HostRuntime, image: &[u8], fail: &[u64]) -> Result<MemoryDisk, NoMemory> {
    match (
        Vec::from_slice(rt.alloc(), image),
        Vec::from_slice(rt.alloc(), fail),
    ) {
        (Ok(image), Ok(fail)) => Ok(MemoryDisk::new(image, fail)),
        _ => Err(NoMemory),
    }
}

/// The number of the credential in a store that is opened, or 0.
pub(crate) fn number_opened<D: Disk>(
    opened: &Result<CredentialStore<D>, (D, OpenFault)>,
) -> Result<u8, OpenFault> {
    match opened {
        Ok(store) => match number_in(store.current()) {
            Ok(number) => Ok(number),
            Err(_) => Err(OpenFault::NoMemory),
        },
        Err((_, fault)) => Err(*fault),
    }
}
