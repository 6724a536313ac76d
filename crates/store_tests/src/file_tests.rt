//! The credential on a file of the system: made, changed, opened again, and what is told where there is no such file.
use crate::call_tests::{is_renewed, old_file};
use crate::given::{credential, number_at, number_in, number_opened};
use crate::image_tests::after_ones;
use credential_store::{CredentialStore, OpenFault};
use disk_port::Disk;
use file_disk::FileDisk;
use std::fs;
use std::os::unix::fs::MetadataExt;
use std::test::Fail;

/// The number of the credential in a file that is opened, or 0 for none.
fn opened(rt: &HostRuntime, folder: &str, path: &str) -> Result<u8, OpenFault> {
    let disk = FileDisk::new(rt, folder, path);
    number_opened(&CredentialStore::open(rt.alloc(), disk))
}

/// Whether the credential of a number is committed to a file.
fn commits(rt: &HostRuntime, folder: &str, path: &str, number: u8) -> bool {
    match CredentialStore::open(rt.alloc(), FileDisk::new(rt, folder, path)) {
        Ok(store) => commits_to(rt, store, number),
        Err(_) => false,
    }
}

fn commits_to<D: Disk + Drop>(rt: &HostRuntime, store: CredentialStore<D>, number: u8) -> bool {
    match credential(rt, number) {
        Ok(credential) => {
            let mut store = store;
            match store.reserve(rt.alloc(), credential) {
                Ok(()) => match store.commit() {
                    Ok(store) => number_in(store.current()) == Ok(number),
                    Err(_) => false,
                },
                Err(_) => false,
            }
        }
        Err(_) => false,
    }
}

static MADE: &str = "store_tests_made";

static MADE_FILE: &str = "store_tests_made/device.credential";

/// A file that is absent is made for its owner alone, holds no credential, and then the last one that was committed.
#[test]
fn a_file_is_made_and_opened_again(rt: HostRuntime) -> Result<(), Fail> {
    let _ = fs::remove_dir_all(&rt, MADE);
    fs::create_dir(&rt, MADE)?;
    assert_eq!(rt; opened(&rt, MADE, MADE_FILE), Ok(0));
    assert_eq!(rt; fs::metadata(&rt, MADE_FILE)?.mode() & 0o777, 0o600);
    for number in 1..4u8 {
        assert!(rt; commits(&rt, MADE, MADE_FILE, number));
        assert_eq!(rt; opened(&rt, MADE, MADE_FILE), Ok(number));
        assert_eq!(rt;
            number_at(&rt, fs::read(&rt, MADE_FILE)?.as_slice()),
            Ok(number)
        );
    }
    fs::remove_dir_all(&rt, MADE)?;
    Ok(())
}

static OLD: &str = "store_tests_old";

static OLD_FILE: &str = "store_tests_old/device.credential";

/// A file of version 1 is written anew when it is opened. One whose body is at fault is told with its place, and stays.
#[test]
fn a_file_that_is_there_is_opened(rt: HostRuntime) -> Result<(), Fail> {
    let _ = fs::remove_dir_all(&rt, OLD);
    fs::create_dir(&rt, OLD)?;
    fs::write(&rt, OLD_FILE, old_file(&rt)?.as_slice())?;
    assert_eq!(rt; opened(&rt, OLD, OLD_FILE), Ok(7));
    assert!(rt; is_renewed(&rt, fs::read(&rt, OLD_FILE)?.as_slice()));
    fs::write(&rt, OLD_FILE, after_ones(&rt)?.as_slice())?;
    assert_eq!(rt; opened(&rt, OLD, OLD_FILE), Err(OpenFault::Foreign(8205)));
    assert!(rt; fs::read(&rt, OLD_FILE)?.as_slice() == after_ones(&rt)?.as_slice());
    fs::remove_dir_all(&rt, OLD)?;
    Ok(())
}

/// A folder, a path whose folder is absent, and a device that is full.
static WRONG: [(&str, &str); 3] = [
    (".", "."),
    ("store_tests_absent", "store_tests_absent/device.credential"),
    ("/dev", "/dev/full"),
];

/// Where there is no file that can be written, the disk's fault is told.
#[test]
fn a_path_without_a_file_is_told(rt: HostRuntime) {
    for (folder, path) in &WRONG {
        assert_eq!(rt; opened(&rt, folder, path), Err(OpenFault::Disk));
    }
}
