//! Bodies of most bytes.
ghost use Rattle.std.specs.Prelude.{IfOk, IsSome};
ghost use Rattle.credential_store.specs.Body.{IsKept};

use crate::given::{body, credential, disk, first_file};
use crate::image_tests::reads;
use cbor_core::{NoMemory, Text};
use credential_store::{CredentialStore, ImageFault, ReserveFault};
use disk_port::MemoryDisk;
use std::test::Fail;
use voucher_chain::Credential;

/// So many letters.
fn letters(rt: &HostRuntime, count: usize) -> Result<Text, NoMemory> {
    match vec![in rt.alloc(); 97u8; count] {
        Ok(bytes) => match String::from_utf8(bytes) {
            Ok(text) => Ok(Text::new(text)),
            Err(_) => Err(NoMemory),
        },
        Err(_) => Err(NoMemory),
    }
}

/// The credential of a number whose DeviceInfo has so many letters.
fn long_credential(rt: &HostRuntime, number: u8, count: usize) -> Result<Credential, NoMemory>
    ensures { IfOk result IsKept }
{
    match (credential(rt, number), letters(rt, count)) {
        (Ok(credential), Ok(info)) => {
            let mut credential = credential;
            credential.info = info;
            Ok(credential)
        }
        _ => Err(NoMemory),
    }
}

/// The number of letters of DeviceInfo, and the bytes of a body where they are too many.
static SIZES: [(usize, Option<usize>); 6] = [
    (0, None),
    (7905, None),
    (8005, None),
    (8006, Some(8101)),
    (65_535, Some(65_630)),
    (65_536, Some(65_633)),
];

fn is_told(
    rt: &HostRuntime,
    store: &mut CredentialStore<MemoryDisk>,
    count: usize,
    told: Option<usize>,
) -> bool {
    match long_credential(rt, 9, count) {
        Ok(credential) => match store.reserve(rt.alloc(), credential) {
            Ok(()) => told.is_none(),
            Err((back, fault)) => is_given_back(&back, count) && is_too_big(fault, told),
        },
        Err(_) => false,
    }
}

fn is_given_back(credential: &Credential, count: usize) -> bool {
    credential.guid == [9; 16] && credential.info.as_list().len() == count
}

fn is_too_big(fault: ReserveFault, told: Option<usize>) -> bool {
    match fault {
        ReserveFault::TooBig(bytes) => told == Some(bytes),
        ReserveFault::NoMemory => false,
    }
}

fn first_untold(rt: &HostRuntime, store: &mut CredentialStore<MemoryDisk>) -> Option<usize> {
    let mut index: usize = 0;
    for (count, told) in &SIZES {
        if !is_told(rt, store, *count, *told) {
            return Some(index);
        }
        index = index.saturating_add(1);
    }
    None
}

/// Whether the credential with 8,005 letters is made current, although a greater one was refused after it.
fn commits_longest(rt: &HostRuntime, store: CredentialStore<MemoryDisk>) -> bool {
    match long_credential(rt, 9, 8005) {
        Ok(credential) => {
            let mut store = store;
            match store.reserve(rt.alloc(), credential) {
                Ok(()) => commits_after(rt, store, 8005),
                Err(_) => false,
            }
        }
        Err(_) => false,
    }
}

/// Whether a credential with 8,006 letters is refused, and the one that is reserved made current.
fn commits_after(rt: &HostRuntime, store: CredentialStore<MemoryDisk>, count: usize) -> bool
    requires { IsSome store.reserved }
{
    match long_credential(rt, 9, 8006) {
        Ok(credential) => {
            let mut store = store;
            match store.reserve(rt.alloc(), credential) {
                Ok(()) => false,
                Err(_) => commits(store, count),
            }
        }
        Err(_) => false,
    }
}

/// Whether the reserved credential has so many letters.
fn commits(store: CredentialStore<MemoryDisk>, count: usize) -> bool
    requires { IsSome store.reserved }
{
    match store.commit() {
        Ok(store) => match store.current() {
            Some(credential) => credential.info.as_list().len() == count,
            None => false,
        },
        Err(_) => false,
    }
}

fn tells_sizes(rt: &HostRuntime, disk: MemoryDisk) -> bool {
    match CredentialStore::open(rt.alloc(), disk) {
        Ok(store) => {
            let mut store = store;
            first_untold(rt, &mut store).is_none()
                && store.current().is_none()
                && commits_longest(rt, store)
        }
        Err(_) => false,
    }
}

/// A body has at most 8,100 bytes. One that is too big is handed back with the number of its bytes, and what was reserved
/// before it stays reserved.
#[test]
fn a_body_of_more_than_8100_bytes_is_too_big(rt: HostRuntime) -> Result<(), Fail> {
    let disk = disk(&rt, &[], &[])?;
    assert!(rt; tells_sizes(&rt, disk));
    Ok(())
}

// ---- the same of bodies that are read

/// The spelling of a text of so many letters, at least 256.
fn spelling(rt: &HostRuntime, count: usize) -> Result<String, NoMemory> {
    let mut text = String::new(rt.alloc());
    text.push_str("79")?;
    let high = (count / 256 % 256) as u8;
    let low = (count % 256) as u8;
    push_hex(rt, &mut text, &[high, low])?;
    for _ in 0..count {
        text.push_str("61")?;
    }
    Ok(text)
}

fn push_hex(rt: &HostRuntime, text: &mut String, bytes: &[u8]) -> Result<(), NoMemory> {
    match hex::encode(rt.alloc(), bytes) {
        Ok(digits) => {
            text.push_str(digits.as_str())?;
            Ok(())
        }
        Err(_) => Err(NoMemory),
    }
}

fn file_of(rt: &HostRuntime, count: usize, changes: &[(usize, &str)]) -> Result<Vec<u8>, NoMemory> {
    match spelling(rt, count) {
        Ok(text) => match changes {
            [one, two, three] => first_file_of(rt, &[(4, text.as_str()), *one, *two, *three]),
            [one] => first_file_of(rt, &[(4, text.as_str()), *one]),
            _ => first_file_of(rt, &[(4, text.as_str())]),
        },
        Err(fault) => Err(fault),
    }
}

fn first_file_of(rt: &HostRuntime, changes: &[(usize, &str)]) -> Result<Vec<u8>, NoMemory> {
    match body(rt, changes) {
        Ok(body) => first_file(rt, &body),
        Err(fault) => Err(fault),
    }
}

/// How many letters DeviceInfo of a file has, or None where there is no credential.
fn letters_at(rt: &HostRuntime, image: &[u8]) -> Result<Option<usize>, ImageFault> {
    match credential_store::read_image(rt.alloc(), image) {
        Ok(Some(credential)) => Ok(Some(credential.info.as_list().len())),
        Ok(None) => Ok(None),
        Err(fault) => Err(fault),
    }
}

fn has_letters(
    rt: &HostRuntime,
    count: usize,
    changes: &[(usize, &str)],
    told: Result<Option<usize>, ImageFault>,
) -> bool {
    match file_of(rt, count, changes) {
        Ok(file) => letters_at(rt, &file) == told,
        Err(_) => false,
    }
}

static FIRST_VERSION: [(usize, &str); 3] = [(0, "86"), (1, "01"), (7, "")];

/// Of version 1, whose secret is wrong too.
static FIRST_WRONG: [(usize, &str); 3] = [(0, "8601"), (1, "40"), (7, "")];

/// A slot with a longer body is not open, and a body of version 1 with more than 8,000 bytes is at fault as a whole.
#[test]
fn a_longer_body_is_not_read(rt: HostRuntime) {
    assert!(rt; has_letters(&rt, 8005, &[], Ok(Some(8005))));
    assert!(rt; has_letters(&rt, 8006, &[], Ok(None)));
    assert!(rt; has_letters(&rt, 7906, &FIRST_VERSION, Ok(Some(7906))));
    assert!(rt; has_letters(&rt, 7907, &FIRST_VERSION, Err(ImageFault::Foreign(13))));
    assert!(rt; has_letters(&rt, 7907, &FIRST_WRONG, Err(ImageFault::Foreign(13))));
}
