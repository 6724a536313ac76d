//! Which calls a store makes on its disk.
use crate::given::{body, credential, disk, first_file, number_at, number_in, put_slot};
use crate::listed::{Call, Listed};
use cbor_core::NoMemory;
use credential_store::{CredentialStore, OpenFault};
use disk_port::MemoryDisk;
use std::test::Fail;

type Store = CredentialStore<Listed<MemoryDisk>>;

fn open(rt: &HostRuntime, image: &[u8]) -> Result<Store, NoMemory> {
    match disk(rt, image, &[]) {
        Ok(disk) => {
            let listed = Listed::new(disk, Vec::new(rt.alloc()));
            match CredentialStore::open(rt.alloc(), listed) {
                Ok(store) => Ok(store),
                Err(_) => Err(NoMemory),
            }
        }
        Err(_) => Err(NoMemory),
    }
}

/// The store after the commit of the credential of a number.
fn committed(rt: &HostRuntime, store: Store, number: u8) -> Result<Store, NoMemory> {
    match credential(rt, number) {
        Ok(credential) => {
            let mut store = store;
            match store.reserve(rt.alloc(), credential) {
                Ok(()) => match store.commit() {
                    Ok(store) => Ok(store),
                    Err(_) => Err(NoMemory),
                },
                Err(_) => Err(NoMemory),
            }
        }
        Err(fault) => Err(fault),
    }
}

/// The store after commits of the credentials of these numbers in order.
fn after(rt: &HostRuntime, image: &[u8], numbers: &[u8]) -> Result<Store, NoMemory> {
    let mut store = open(rt, image)?;
    for number in numbers {
        store = committed(rt, store, *number)?;
    }
    Ok(store)
}

/// Whether a store whose file had an image made these calls from its opening on, and holds the credential of a number.
fn makes(rt: &HostRuntime, image: &[u8], numbers: &[u8], calls: &[Call], number: u8) -> bool {
    match after(rt, image, numbers) {
        Ok(store) => {
            store.disk().calls() == calls
                && number_in(store.current()) == Ok(number)
                && number_at(rt, store.disk().inner().image()) == Ok(number)
        }
        Err(_) => false,
    }
}

static NEW: [Call; 21] = [
    Call::Sync,
    Call::Length,
    Call::Read(0, 0),
    // to the first slot
    Call::Write(0, 1, 0),
    Call::Sync,
    Call::Write(1, 108, 0),
    Call::Sync,
    Call::Write(0, 1, 1),
    Call::Sync,
    // to the second
    Call::Write(8192, 1, 0),
    Call::Sync,
    Call::Write(8193, 108, 0),
    Call::Sync,
    Call::Write(8192, 1, 1),
    Call::Sync,
    // to the first, whose gate is open
    Call::Write(0, 1, 0),
    Call::Sync,
    Call::Write(1, 108, 0),
    Call::Sync,
    Call::Write(0, 1, 1),
    Call::Sync,
];

/// A change makes six calls, and the slots take turns. An opening syncs, asks for the length and reads once.
#[test]
fn a_change_makes_six_calls(rt: HostRuntime) {
    assert!(rt; makes(&rt, &[], &[], NEW.as_slice().split_at(3).0, 0));
    assert!(rt; makes(&rt, &[], &[1], NEW.as_slice().split_at(9).0, 1));
    assert!(rt; makes(&rt, &[], &[1, 2], NEW.as_slice().split_at(15).0, 2));
    assert!(rt; makes(&rt, &[], &[1, 2, 3], &NEW, 3));
}

static SHUT: [Call; 13] = [
    Call::Sync,
    Call::Length,
    Call::Read(0, 8301),
    // to the second slot, whose gate is shut
    Call::Write(8193, 108, 0),
    Call::Sync,
    Call::Write(8192, 1, 1),
    Call::Sync,
    // to the first
    Call::Write(0, 1, 0),
    Call::Sync,
    Call::Write(1, 108, 0),
    Call::Sync,
    Call::Write(0, 1, 1),
    Call::Sync,
];

/// A file with the credential 7 in the first slot and the second with this gate.
fn with_gate(rt: &HostRuntime, gate: u8) -> Result<Vec<u8>, NoMemory> {
    match body(rt, &[]) {
        Ok(body) => {
            let mut file = Vec::new(rt.alloc());
            put_slot(&mut file, 0, 1, 1, &body)?;
            put_slot(&mut file, 8192, gate, 7, &body)?;
            Ok(file)
        }
        Err(fault) => Err(fault),
    }
}

fn makes_beside(rt: &HostRuntime, gate: u8, numbers: &[u8], calls: &[Call], number: u8) -> bool {
    match with_gate(rt, gate) {
        Ok(file) => makes(rt, &file, numbers, calls, number),
        Err(_) => false,
    }
}

/// A gate that stands in the file and is shut is not written again, whatever byte it is.
#[test]
fn a_change_behind_a_shut_gate_makes_four_calls(rt: HostRuntime) {
    assert!(rt; makes_beside(&rt, 0, &[1, 2], &SHUT, 2));
    assert!(rt; makes_beside(&rt, 2, &[1, 2], &SHUT, 2));
    assert!(rt; makes_beside(&rt, 255, &[1, 2], &SHUT, 2));
}

static RENEWAL: [Call; 15] = [
    Call::Sync,
    Call::Length,
    Call::Read(0, 108),
    // written anew
    Call::Write(8192, 1, 0),
    Call::Sync,
    Call::Write(8193, 108, 0),
    Call::Sync,
    Call::Write(8192, 1, 1),
    Call::Sync,
    // the next change
    Call::Write(0, 1, 0),
    Call::Sync,
    Call::Write(1, 108, 0),
    Call::Sync,
    Call::Write(0, 1, 1),
    Call::Sync,
];

pub(crate) fn old_file(rt: &HostRuntime) -> Result<Vec<u8>, NoMemory> {
    match body(rt, &[(0, "86"), (1, "01"), (7, "")]) {
        Ok(body) => first_file(rt, &body),
        Err(fault) => Err(fault),
    }
}

fn renews(rt: &HostRuntime, numbers: &[u8], calls: &[Call], number: u8) -> bool {
    match old_file(rt) {
        Ok(file) => makes(rt, &file, numbers, calls, number),
        Err(_) => false,
    }
}

/// A body of version 1 is written anew into the other slot when its file is opened.
#[test]
fn a_body_of_version_1_is_written_anew(rt: HostRuntime) -> Result<(), Fail> {
    assert!(rt; renews(&rt, &[], RENEWAL.as_slice().split_at(9).0, 7));
    assert!(rt; renews(&rt, &[3], &RENEWAL, 3));
    let store = after(&rt, &old_file(&rt)?, &[])?;
    let renewed = store.disk().inner().image();
    assert!(rt; is_renewed(&rt, renewed));
    Ok(())
}

/// Whether a file has the body of version 1 in the first slot and in the second, of generation 2, the same of version 2, and
/// is not changed when it is opened again.
pub(crate) fn is_renewed(rt: &HostRuntime, image: &[u8]) -> bool {
    match (old_file(rt), body(rt, &[])) {
        (Ok(old), Ok(body)) => {
            let mut file = old;
            put_slot(&mut file, 8192, 1, 2, &body).is_ok()
                && file.as_slice() == image
                && makes(
                    rt,
                    image,
                    &[],
                    &[Call::Sync, Call::Length, Call::Read(0, 8301)],
                    7,
                )
        }
        _ => false,
    }
}

// ---- calls that fail

/// What an opening of an image with one failing call answers: whether it was the disk, and the file is as before.
fn fails_to_open(rt: &HostRuntime, image: &[u8], call: u64) -> bool {
    match disk(rt, image, &[call]) {
        Ok(disk) => match CredentialStore::open(rt.alloc(), disk) {
            Ok(_) => false,
            Err((disk, OpenFault::Disk)) => disk.image() == image && disk.calls() == call,
            Err(_) => false,
        },
        Err(_) => false,
    }
}

/// The number of the first call whose failure is not told.
fn first_opening(rt: &HostRuntime) -> Option<u64> {
    match with_gate(rt, 1) {
        Ok(file) => {
            for call in 1..4u64 {
                if !fails_to_open(rt, &file, call) || !fails_to_open(rt, &[], call) {
                    return Some(call);
                }
            }
            None
        }
        Err(_) => Some(0),
    }
}

/// A failing call of an opening is told, and the file stays.
#[test]
fn a_failing_call_of_an_opening_is_told(rt: HostRuntime) {
    assert_eq!(rt; first_opening(&rt), None);
}
