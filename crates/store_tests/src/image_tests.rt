//! What the bytes of a file stand for, or where they are at fault: read as bytes, and opened on a disk.
use crate::given::{body, disk, first_file, number_at, number_opened, put_slot, second_file};
use cbor_core::NoMemory;
use credential_store::{CredentialStore, ImageFault, OpenFault};
use disk_port::MemoryDisk;

/// Whether bytes stand for the credential of this number, or 0 for none, or have their first fault there, also where they are
/// opened on a disk, which then still has the same bytes.
pub(crate) fn reads(rt: &HostRuntime, image: &[u8], told: Result<u8, u64>) -> bool {
    let found = match number_at(rt, image) {
        Ok(number) => Ok(number),
        Err(ImageFault::Foreign(place)) => Err(place),
        Err(ImageFault::NoMemory) => return false,
    };
    found == told && opens(rt, image, told)
}

fn opens(rt: &HostRuntime, image: &[u8], told: Result<u8, u64>) -> bool {
    match disk(rt, image, &[]) {
        Ok(disk) => opens_disk(rt, disk, image, told),
        Err(_) => false,
    }
}

fn opens_disk(rt: &HostRuntime, disk: MemoryDisk, image: &[u8], told: Result<u8, u64>) -> bool {
    let opened = CredentialStore::open(rt.alloc(), disk);
    let found = match number_opened(&opened) {
        Ok(number) => Ok(number),
        Err(OpenFault::Foreign(place)) => Err(place),
        Err(_) => return false,
    };
    found == told && (told.is_ok() || is_refused_with(&opened, image))
}

fn is_refused_with(
    opened: &Result<CredentialStore<MemoryDisk>, (MemoryDisk, OpenFault)>,
    image: &[u8],
) -> bool {
    match opened {
        Ok(_) => false,
        Err((disk, _)) => disk.image() == image,
    }
}

/// Whether a body that is changed so is read, or has its first fault there, in the first slot and in the second.
fn reads_body(rt: &HostRuntime, changes: &[(usize, &str)], told: Result<u8, u64>) -> bool {
    match body(rt, changes) {
        Ok(body) => reads_first(rt, &body, told) && reads_second(rt, &body, told),
        Err(_) => false,
    }
}

fn reads_first(rt: &HostRuntime, body: &[u8], told: Result<u8, u64>) -> bool {
    match first_file(rt, body) {
        Ok(file) => reads(rt, &file, placed(13, told)),
        Err(_) => false,
    }
}

fn reads_second(rt: &HostRuntime, body: &[u8], told: Result<u8, u64>) -> bool {
    match second_file(rt, body) {
        Ok(file) => reads(rt, &file, placed(8205, told)),
        Err(_) => false,
    }
}

fn placed(base: u64, told: Result<u8, u64>) -> Result<u8, u64> {
    match told {
        Ok(number) => Ok(number),
        Err(place) => Err(base.saturating_add(place)),
    }
}

// ---- one part of another form

type Row<'a> = (&'a [(usize, &'a str)], Result<u8, u64>);

static BODIES: [Row; 58] = [
    (&[], Ok(7)),
    // the head of the array
    (&[(0, "86")], Err(1)),
    (&[(0, "85")], Err(0)),
    (&[(0, "80")], Err(0)),
    (&[(0, "a0")], Err(0)),
    (&[(0, "f6")], Err(0)),
    (&[(0, "")], Err(0)),
    (&[(0, "88")], Err(96)),
    (&[(0, "9f")], Err(0)),
    (&[(0, "9807")], Err(0)),
    (&[(0, "c187")], Err(0)),
    // the version
    (&[(1, "00")], Err(1)),
    (&[(1, "01")], Err(1)),
    (&[(1, "03")], Err(1)),
    (&[(1, "21")], Err(1)),
    (&[(1, "4102")], Err(1)),
    (&[(1, "1802")], Err(1)),
    // the GUID
    (&[(2, "4f070707070707070707070707070707")], Err(2)),
    (&[(2, "510707070707070707070707070707070707")], Err(2)),
    (&[(2, "7007070707070707070707070707070707")], Err(2)),
    (&[(2, "40")], Err(2)),
    (&[(2, "07")], Err(2)),
    // the bytes of the rendezvous information
    (&[(3, "40")], Err(19)),
    (&[(3, "80")], Err(19)),
    (&[(3, "4100")], Err(19)),
    (&[(3, "4181")], Err(19)),
    (&[(3, "428080")], Err(19)),
    (&[(3, "428100")], Err(19)),
    (&[(3, "4381818000")], Err(19)),
    (&[(3, "44818100ff")], Err(19)),
    // DeviceInfo
    (&[(4, "436c6162")], Err(21)),
    (&[(4, "07")], Err(21)),
    (&[(4, "f6")], Err(21)),
    (&[(4, "63ffffff")], Err(21)),
    (&[(4, "78036c6162")], Err(21)),
    // the secret
    (&[(5, "40")], Err(25)),
    (&[(5, "07")], Err(25)),
    (&[(5, "60")], Err(25)),
    (&[(5, "5007070707070707070707070707070707")], Err(25)),
    // the hash of the header's key
    (&[(6, "07")], Err(59)),
    (&[(6, "80")], Err(59)),
    (&[(6, "832f4000")], Err(59)),
    (&[(6, "822f40")], Err(61)),
    (&[(6, "822f60")], Err(61)),
    (&[(6, "822f4100")], Err(61)),
    (&[(6, "8220")], Err(62)),
    (&[(6, "822040")], Err(60)),
    (&[(6, "824040")], Err(60)),
    (&[(6, "82182a40")], Err(60)),
    // the kind of the HMAC
    (&[(7, "06")], Ok(107)),
    (&[(7, "00")], Err(95)),
    (&[(7, "04")], Err(95)),
    (&[(7, "07")], Err(95)),
    (&[(7, "2f")], Err(95)),
    (&[(7, "6135")], Err(95)),
    (&[(7, "1805")], Err(95)),
    (&[(7, "")], Err(95)),
    // a byte after it
    (&[(7, "0500")], Err(96)),
];

/// The number of the first row that reads otherwise.
fn first_other(rt: &HostRuntime, rows: &[Row]) -> Option<usize> {
    let mut index: usize = 0;
    for (changes, told) in rows {
        if !reads_body(rt, changes, *told) {
            return Some(index);
        }
        index = index.saturating_add(1);
    }
    None
}

/// Each part of another form is told with its place.
#[test]
fn a_part_of_another_form_is_told_with_its_place(rt: HostRuntime) {
    assert_eq!(rt; first_other(&rt, &BODIES), None);
}

// ---- version 1

static OLD: [Row; 12] = [
    (&[(0, "86"), (1, "01"), (7, "")], Ok(7)),
    (&[(0, "86"), (1, "01"), (7, "05")], Err(95)),
    (&[(0, "86"), (1, "02"), (7, "")], Err(1)),
    (&[(0, "86"), (1, "00"), (7, "")], Err(1)),
    (&[(0, "86"), (1, "01"), (2, "40"), (7, "")], Err(2)),
    (&[(0, "86"), (1, "01"), (3, "4100"), (7, "")], Err(19)),
    (&[(0, "86"), (1, "01"), (4, "436c6162"), (7, "")], Err(21)),
    (&[(0, "86"), (1, "01"), (5, "40"), (7, "")], Err(25)),
    (&[(0, "86"), (1, "01"), (6, "07"), (7, "")], Err(59)),
    (&[(0, "86"), (1, "01"), (6, "822040"), (7, "")], Err(60)),
    (&[(0, "86"), (1, "01"), (6, "822f40"), (7, "")], Err(61)),
    (&[(0, "87"), (1, "01"), (7, "05")], Err(1)),
];

/// A body of version 1 has six parts, and stands for HMAC-SHA-256.
#[test]
fn a_part_of_version_1_is_told_with_its_place(rt: HostRuntime) {
    assert_eq!(rt; first_other(&rt, &OLD), None);
}

// ---- several parts of another form

/// Faults of parts in order, which leave the places of the other parts as they are.
static FAULTS: [(usize, &str, u64); 7] = [
    (1, "01", 1),
    (2, "7007070707070707070707070707070707", 2),
    (3, "4100", 19),
    (4, "436c6162", 21),
    (
        5,
        "78200707070707070707070707070707070707070707070707070707070707070707",
        25,
    ),
    (
        6,
        "822058200707070707070707070707070707070707070707070707070707070707070707",
        60,
    ),
    (7, "07", 95),
];

/// The number of the first fault that is not told before the next one, or after a number in a longer spelling behind it.
fn first_untold(rt: &HostRuntime) -> Option<usize> {
    for index in 0..6 {
        let (part, text, place) = FAULTS[index];
        let (next, other, _) = FAULTS[index + 1];
        if !reads_body(rt, &[(part, text), (next, other)], Err(place)) {
            return Some(index);
        }
        if !reads_body(rt, &[(part, text), (7, "1805")], Err(95)) {
            return Some(index);
        }
    }
    None
}

/// Of two parts of another form the first is told, and a fault of the encoding before them all.
#[test]
fn the_first_fault_is_told(rt: HostRuntime) {
    assert_eq!(rt; first_untold(&rt), None);
    assert!(rt; reads_body(&rt, &[(7, "0700")], Err(95)));
    assert!(rt; reads_body(&rt, &[(2, "40"), (7, "0500")], Err(2)));
}

// ---- which slot counts

static EIGHT: [(usize, &str); 2] = [
    (2, "5008080808080808080808080808080808"),
    (
        5,
        "58200808080808080808080808080808080808080808080808080808080808080808",
    ),
];

/// The gate and the generation of both slots, of which the first holds the credential 7 and the second 8, and what counts.
static SLOTS: [(u8, u64, u8, u64, u8); 12] = [
    (1, 1, 1, 2, 8),
    (1, 2, 1, 1, 7),
    (1, 5, 1, 5, 7),
    (1, 256, 1, 255, 7),
    (0, 9, 1, 1, 8),
    (1, 1, 0, 9, 7),
    (2, 9, 1, 1, 8),
    (1, 1, 255, 9, 7),
    (0, 1, 0, 2, 0),
    // after 2^64 - 1 comes 0
    (1, u64::MAX, 1, 0, 8),
    (1, 0, 1, u64::MAX, 7),
    (1, u64::MAX, 1, u64::MAX - 1, 7),
];

fn two_slots(rt: &HostRuntime, row: &(u8, u64, u8, u64, u8)) -> Result<Vec<u8>, NoMemory> {
    match (body(rt, &[]), body(rt, &EIGHT)) {
        (Ok(first), Ok(second)) => {
            let mut file = Vec::new(rt.alloc());
            put_slot(&mut file, 0, row.0, row.1, &first)?;
            put_slot(&mut file, 8192, row.2, row.3, &second)?;
            Ok(file)
        }
        _ => Err(NoMemory),
    }
}

fn counts(rt: &HostRuntime, row: &(u8, u64, u8, u64, u8)) -> bool {
    match two_slots(rt, row) {
        Ok(file) => reads(rt, &file, Ok(row.4)),
        Err(_) => false,
    }
}

fn first_uncounted(rt: &HostRuntime) -> Option<usize> {
    let mut index: usize = 0;
    for row in &SLOTS {
        if !counts(rt, row) {
            return Some(index);
        }
        index = index.saturating_add(1);
    }
    None
}

/// The open slot of the greater generation counts, and of two equal ones the first.
#[test]
fn the_newest_open_slot_counts(rt: HostRuntime) {
    assert_eq!(rt; first_uncounted(&rt), None);
}

/// Whether each proper front of a file with one slot stands for nothing kept, and the file for its credential.
fn cuts(rt: &HostRuntime, file: &[u8]) -> bool {
    for length in 0..file.len() {
        if !reads(rt, file.split_at(length).0, Ok(0)) {
            return false;
        }
    }
    reads(rt, file, Ok(7))
}

fn cuts_first(rt: &HostRuntime) -> bool {
    match body(rt, &[]) {
        Ok(body) => match first_file(rt, &body) {
            Ok(file) => cuts(rt, &file),
            Err(_) => false,
        },
        Err(_) => false,
    }
}

/// A slot that doesn't stand in the file whole is not open.
#[test]
fn a_slot_that_is_cut_is_not_open(rt: HostRuntime) {
    assert!(rt; cuts_first(&rt));
}

// ---- bodies that are no credential beside one that is

/// The file in whose first slot, of this generation, stands the body `00`, and in whose second one of generation 5 the
/// credential 7.
fn beside_zero(rt: &HostRuntime, generation: u64) -> Result<Vec<u8>, NoMemory> {
    match body(rt, &[]) {
        Ok(body) => {
            let mut file = Vec::new(rt.alloc());
            put_slot(&mut file, 0, 1, generation, b"\x00")?;
            put_slot(&mut file, 8192, 1, 5, &body)?;
            Ok(file)
        }
        Err(_) => Err(NoMemory),
    }
}

fn reads_beside_zero(rt: &HostRuntime, generation: u64, told: Result<u8, u64>) -> bool {
    match beside_zero(rt, generation) {
        Ok(file) => reads(rt, &file, told),
        Err(_) => false,
    }
}

/// 8,192 bytes 01, whose length is too great, and a slot with the body `00`.
pub(crate) fn after_ones(rt: &HostRuntime) -> Result<Vec<u8>, NoMemory> {
    let mut file = Vec::new(rt.alloc());
    file.resize(8192, 1)?;
    put_slot(&mut file, 8192, 1, 1, b"\x00")?;
    Ok(file)
}

fn reads_after_ones(rt: &HostRuntime, told: Result<u8, u64>) -> bool {
    match after_ones(rt) {
        Ok(file) => reads(rt, &file, told),
        Err(_) => false,
    }
}

/// Only the body that counts is read.
#[test]
fn the_body_that_does_not_count_is_not_read(rt: HostRuntime) {
    assert!(rt; reads_beside_zero(&rt, 4, Ok(7)));
    assert!(rt; reads_beside_zero(&rt, 5, Err(13)));
    assert!(rt; reads_after_ones(&rt, Err(8205)));
}
