//! What the bytes of a file stand for, or where they are at fault.
use crate::given::{file, reads};
use cbor_core::NoMemory;

/// The limit of a store, the bytes that are changed, the length, and what is told.
type Row<'a> = (u32, &'a [(usize, u8)], usize, Result<usize, u64>);

static ROWS: [Row; 39] = [
    (262144, &[], 1226, Ok(2)),
    // no area is open
    (262144, &[], 0, Ok(0)),
    (262144, &[(0, 0)], 1226, Ok(0)),
    (262144, &[], 208, Ok(0)),
    (262144, &[(10, 4)], 1226, Ok(0)),
    // the records end earlier
    (262144, &[(208, 0)], 1226, Ok(1)),
    (262144, &[(395, 0)], 1226, Ok(2)),
    (262144, &[(599, 0)], 1226, Ok(2)),
    (262144, &[(827, 0)], 1226, Ok(2)),
    // a gate is 1 though its record is not open
    (262144, &[], 1225, Err(827)),
    (262144, &[(1225, 1)], 1226, Err(1225)),
    (262144, &[(828, 1)], 1226, Err(827)),
    // the snapshot's array, version and word
    (262144, &[(13, 132)], 1226, Err(208)),
    (262144, &[(13, 130)], 1226, Err(13)),
    (262144, &[(14, 3)], 1226, Err(14)),
    (262144, &[(14, 1)], 1226, Err(16)),
    (262144, &[(207, 107)], 1226, Err(200)),
    (262144, &[(200, 71)], 1226, Err(200)),
    // an entry's number, kind, voucher and candidate
    (262144, &[(17, 1)], 1226, Err(17)),
    (262144, &[(18, 5)], 1226, Err(18)),
    (262144, &[(18, 7)], 1226, Err(18)),
    (262144, &[(21, 134)], 1226, Err(19)),
    (262144, &[(199, 245)], 1226, Err(199)),
    // a record's array, number, GUID and voucher
    (262144, &[(213, 129)], 1226, Err(213)),
    (262144, &[(214, 1)], 1226, Err(214)),
    (262144, &[(214, 4)], 1226, Err(214)),
    (262144, &[(401, 0)], 1226, Err(401)),
    (262144, &[(217, 134)], 1226, Err(215)),
    // a record that names no such entry
    (262144, &[(403, 0)], 1226, Err(395)),
    (262144, &[(607, 0)], 1226, Err(599)),
    (262144, &[(395, 0), (396, 1)], 1226, Ok(2)),
    (262144, &[(631, 0)], 1226, Err(623)),
    (262144, &[(835, 0)], 1226, Err(827)),
    // the limit
    (749, &[], 1226, Ok(2)),
    (748, &[], 1226, Err(1225)),
    // the other area begins where the first one's room ends
    (0, &[(208, 0)], 1226, Err(208)),
    (195, &[(208, 0)], 1226, Ok(1)),
    (194, &[(208, 0)], 1226, Ok(1)),
    (193, &[(208, 0)], 1226, Err(208)),
];

fn first_other(rt: &HostRuntime, rows: &[Row]) -> Option<usize> {
    let mut index: usize = 0;
    for row in rows {
        if !reads_row(rt, row) {
            return Some(index);
        }
        index = index.saturating_add(1);
    }
    None
}

fn reads_row(rt: &HostRuntime, row: &Row) -> bool {
    match file(rt, row.1, row.2) {
        Ok(bytes) => reads(rt, row.0, &bytes, row.3),
        Err(_) => false,
    }
}

#[test]
fn an_image_stands_for_its_map_or_has_a_fault(rt: HostRuntime) {
    assert_eq!(rt; first_other(&rt, &ROWS), None);
}

/// A file whose second area, at a place, has no entries and this generation.
fn with_second(rt: &HostRuntime, place: usize, generation: u8) -> Result<Vec<u8>, NoMemory> {
    match file(rt, &[], 1226) {
        Ok(bytes) => put_second(bytes, place, generation),
        Err(_) => Err(NoMemory),
    }
}

fn put_second(bytes: Vec<u8>, place: usize, generation: u8) -> Result<Vec<u8>, NoMemory> {
    let mut bytes = bytes;
    bytes.resize(place, 0)?;
    bytes.extend_from_slice(&[1, 0, 0, 0, 0, 0, 0, 0, generation, 0, 0, 0, 11])?;
    bytes.extend_from_slice(&[0x83, 2, 0x80, 0x67, 106, 111, 117, 114, 110, 97, 108, 0])?;
    Ok(bytes)
}

fn reads_second(rt: &HostRuntime, place: usize, generation: u8, told: usize) -> bool {
    match with_second(rt, place, generation) {
        Ok(bytes) => reads(rt, 4096, &bytes, Ok(told)),
        Err(_) => false,
    }
}

#[test]
fn the_area_of_the_greater_generation_counts(rt: HostRuntime) {
    assert!(rt; reads_second(&rt, 12288, 1, 2));
    assert!(rt; reads_second(&rt, 12288, 2, 0));
    assert!(rt; reads_second(&rt, 12287, 2, 2));
}
