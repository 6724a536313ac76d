//! Changes of which each call is the last one, or fails.
ghost use Rattle.std.specs.Prelude.{IsSome};

use crate::call_tests::old_file;
use crate::given::{body, credential, disk, number_at, number_opened, put_slot};
use cbor_core::NoMemory;
use credential_store::{CredentialStore, OpenFault};
use disk_port::{MemoryDisk, Pick, Stops};

/// What a stop leaves of the bytes that were not synced.
static PICKS: [Pick; 7] = [
    Pick::None,
    Pick::All,
    Pick::Byte(0),
    Pick::Byte(1),
    Pick::Byte(2),
    Pick::Byte(0x87),
    Pick::Byte(255),
];

/// Whether a gate of 1 may be left.
fn opens_gate(pick: Pick) -> bool {
    matches!(pick, Pick::All | Pick::Byte(1))
}

/// A file: none, one with the credential 1 in the first slot, one with 1 and 2 in both slots, and one with 1 in the first slot
/// and a shut gate of the second.
#[derive(Clone, Copy, Debug, PartialEq, Eq)]
enum File {
    New,
    One,
    Two,
    Shut,
}

impl File {
    /// The number of the credential that it stands for, or 0.
    fn number(self) -> u8 {
        match self {
            File::New => 0,
            File::One | File::Shut => 1,
            File::Two => 2,
        }
    }

    /// How many calls the next change makes.
    fn calls(self) -> u64 {
        match self {
            File::Shut => 4,
            File::New | File::One | File::Two => 6,
        }
    }

    fn image(self, rt: &HostRuntime) -> Result<Vec<u8>, NoMemory> {
        match self {
            File::New => Ok(Vec::new(rt.alloc())),
            File::One => committed_image(rt, &[], 1),
            File::Two => two(rt),
            File::Shut => shut(rt),
        }
    }
}

static FILES: [File; 4] = [File::New, File::One, File::Two, File::Shut];

fn two(rt: &HostRuntime) -> Result<Vec<u8>, NoMemory> {
    match committed_image(rt, &[], 1) {
        Ok(image) => committed_image(rt, &image, 2),
        Err(fault) => Err(fault),
    }
}

fn shut(rt: &HostRuntime) -> Result<Vec<u8>, NoMemory> {
    match (committed_image(rt, &[], 1), body(rt, &[])) {
        (Ok(file), Ok(body)) => {
            let mut file = file;
            put_slot(&mut file, 8192, 0, 9, &body)?;
            Ok(file)
        }
        _ => Err(NoMemory),
    }
}

/// What stands on the disk after the commit of the credential of a number.
fn committed_image(rt: &HostRuntime, image: &[u8], number: u8) -> Result<Vec<u8>, NoMemory> {
    match changed(rt, image, number, &[], None) {
        Ok((true, disk)) => Ok(Vec::from_slice(rt.alloc(), disk.image())?),
        _ => Err(NoMemory),
    }
}

/// The disk with an image after a change to the credential of a number, and whether it is done. Calls with these numbers fail,
/// of which an opening makes three, or the change is stopped at one of its calls.
fn changed(
    rt: &HostRuntime,
    image: &[u8],
    number: u8,
    fail: &[u64],
    stop: Option<(u64, Pick)>,
) -> Result<(bool, MemoryDisk), NoMemory> {
    match disk(rt, image, fail) {
        Ok(disk) => match CredentialStore::open(rt.alloc(), disk) {
            Ok(store) => change(rt, store, number, stop),
            Err(_) => Err(NoMemory),
        },
        Err(fault) => Err(fault),
    }
}

fn change(
    rt: &HostRuntime,
    store: CredentialStore<MemoryDisk>,
    number: u8,
    stop: Option<(u64, Pick)>,
) -> Result<(bool, MemoryDisk), NoMemory> {
    match credential(rt, number) {
        Ok(credential) => {
            let mut store = store;
            match store.reserve(rt.alloc(), credential) {
                Ok(()) => Ok(stop_change(store, stop)),
                Err(_) => Err(NoMemory),
            }
        }
        Err(fault) => Err(fault),
    }
}

fn stop_change(store: CredentialStore<MemoryDisk>, stop: Option<(u64, Pick)>) -> (bool, MemoryDisk)
    requires { IsSome store.reserved }
{
    let mut store = store;
    if let Some((call, pick)) = stop {
        store.stop_at(call, pick);
    }
    match store.commit() {
        Ok(store) => (true, store.release()),
        Err(disk) => (false, disk),
    }
}

// ---- a change that is stopped

/// Whether a change of a file to the credential 9, stopped at a call, leaves the credential from before it, or 9 where its gate
/// was opened, and whether the file takes the next change.
fn is_left(rt: &HostRuntime, file: File, call: u64, pick: Pick) -> bool {
    match file.image(rt) {
        Ok(image) => match changed(rt, &image, 9, &[], Some((call, pick))) {
            Ok((false, disk)) => stands_for(rt, disk.image(), number_left(file, call, pick)),
            _ => false,
        },
        Err(_) => false,
    }
}

/// The number of the credential that such a stop leaves.
fn number_left(file: File, call: u64, pick: Pick) -> u8 {
    if call.saturating_add(1) >= file.calls() && opens_gate(pick) {
        9
    } else {
        file.number()
    }
}

/// Whether an image stands for the credential of a number, and after a change for that of the next one.
fn stands_for(rt: &HostRuntime, image: &[u8], number: u8) -> bool {
    number_at(rt, image) == Ok(number)
        && match committed_image(rt, image, 10) {
            Ok(image) => number_at(rt, &image) == Ok(10),
            Err(_) => false,
        }
}

/// The first file, call and pick of which something else is left.
fn first_stop(rt: &HostRuntime) -> Option<(File, u64, Pick)> {
    for file in &FILES {
        for call in 1..7u64 {
            for pick in &PICKS {
                if call <= file.calls() && !is_left(rt, *file, call, *pick) {
                    return Some((*file, call, *pick));
                }
            }
        }
    }
    None
}

/// A change that is stopped at any call leaves the credential from before it or the new one.
#[test]
fn a_stopped_change_leaves_the_old_or_the_new_credential(rt: HostRuntime) {
    assert_eq!(rt; first_stop(&rt), None);
}

fn is_done(rt: &HostRuntime, file: File, call: u64) -> bool {
    match file.image(rt) {
        Ok(image) => match changed(rt, &image, 9, &[], Some((call, Pick::None))) {
            Ok((true, disk)) => stands_for(rt, disk.image(), 9),
            _ => false,
        },
        Err(_) => false,
    }
}

/// A stop at a later call, or at none, does not touch a change.
#[test]
fn a_stop_behind_a_change_leaves_it(rt: HostRuntime) {
    for file in &FILES {
        assert!(rt; is_done(&rt, *file, file.calls().saturating_add(1)));
        assert!(rt; is_done(&rt, *file, 0));
    }
}

// ---- a change of which a call fails

/// Whether a change is not done where its call of a number fails, and what stands on the disk is the credential from before it,
/// or 9 where only the last sync failed.
fn fails(rt: &HostRuntime, file: File, call: u64) -> bool {
    match file.image(rt) {
        Ok(image) => match changed(rt, &image, 9, &[call.saturating_add(3)], None) {
            Ok((false, disk)) => {
                let number = if call == file.calls() {
                    9
                } else {
                    file.number()
                };
                disk.calls() == call.saturating_add(3) && stands_for(rt, disk.image(), number)
            }
            _ => false,
        },
        Err(_) => false,
    }
}

fn first_failure(rt: &HostRuntime) -> Option<(File, u64)> {
    for file in &FILES {
        for call in 1..7u64 {
            if call <= file.calls() && !fails(rt, *file, call) {
                return Some((*file, call));
            }
        }
    }
    None
}

/// A change ends at the first call that fails.
#[test]
fn a_change_ends_at_a_failing_call(rt: HostRuntime) {
    assert_eq!(rt; first_failure(&rt), None);
}

// ---- a body of version 1

/// The disk with a body of version 1 after an opening that is stopped at a call, where the opening fails.
fn stopped_opening(rt: &HostRuntime, call: u64, pick: Pick) -> Result<MemoryDisk, NoMemory> {
    match old_file(rt) {
        Ok(image) => match disk(rt, &image, &[]) {
            Ok(disk) => {
                let mut disk = disk;
                disk.stop_at(call, pick);
                match CredentialStore::open(rt.alloc(), disk) {
                    Err((disk, OpenFault::Disk)) => Ok(disk),
                    _ => Err(NoMemory),
                }
            }
            Err(fault) => Err(fault),
        },
        Err(fault) => Err(fault),
    }
}

fn keeps_seven(rt: &HostRuntime, call: u64, pick: Pick) -> bool {
    match stopped_opening(rt, call, pick) {
        Ok(disk) => stands_for(rt, disk.image(), 7) && opens_again(rt, disk.image()),
        Err(_) => false,
    }
}

fn opens_again(rt: &HostRuntime, image: &[u8]) -> bool {
    match disk(rt, image, &[]) {
        Ok(disk) => number_opened(&CredentialStore::open(rt.alloc(), disk)) == Ok(7),
        Err(_) => false,
    }
}

fn first_migration(rt: &HostRuntime) -> Option<(u64, Pick)> {
    for call in 1..10u64 {
        for pick in &PICKS {
            if !keeps_seven(rt, call, *pick) {
                return Some((call, *pick));
            }
        }
    }
    None
}

/// A file of version 1 whose opening is stopped at any call stands for the same credential.
#[test]
fn a_stopped_migration_leaves_the_credential(rt: HostRuntime) {
    assert_eq!(rt; first_migration(&rt), None);
}
