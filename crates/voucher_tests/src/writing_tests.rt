//! Vouchers and headers that are written, and the strengths of keys.
use crate::given::{key, key_of};
use crate::reading_tests::is_header;
use crate::voucher_rows::{NO_ENTRIES, REPLACED, REPLACED_AFTER, REPLACED_BEFORE};
use cbor_core::{Item, NoMemory, read_wire};
use hash_hmac::HMac;
use key_codec::{PublicKey, X5Chain};
use voucher_chain::{
    Header, RvInfo, Voucher, hash_kind_of, read_rv, read_voucher, replacement, strength,
    write_voucher,
};

// ---- a voucher

fn copied(rt: &HostRuntime, chain: &Option<X5Chain>) -> Result<Option<X5Chain>, NoMemory> {
    match chain {
        Some(chain) => Ok(Some(chain.copy(rt.alloc())?)),
        None => Ok(None),
    }
}

/// Whether a voucher that is written of parts, its HMAC of the kind 5, has these bytes.
fn gives(
    rt: &HostRuntime,
    header: Header,
    hmac: &HMac,
    chain: Option<X5Chain>,
    bytes: &[u8],
) -> bool {
    let hmac = HMac {
        kind: 5,
        len: hmac.len,
        bytes: hmac.bytes,
    };
    match write_voucher(rt.alloc(), header, hmac, chain) {
        Ok(made) => made.raw.as_list() == bytes,
        Err(_) => false,
    }
}

fn gives_with(rt: &HostRuntime, header: Header, voucher: &Voucher, bytes: &[u8]) -> bool {
    match copied(rt, &voucher.chain) {
        Ok(chain) => gives(rt, header, &voucher.hmac, chain, bytes),
        Err(_) => false,
    }
}

fn is_written_again(rt: &HostRuntime, voucher: &Voucher, bytes: &[u8]) -> bool {
    match voucher.header.copy(rt.alloc()) {
        Ok(header) => gives_with(rt, header, voucher, bytes),
        Err(_) => false,
    }
}

/// Whether a voucher without entries, written of its parts, has its bytes.
fn is_written(rt: &HostRuntime, bytes: &[u8]) -> bool {
    match read_voucher(rt.alloc(), bytes) {
        Ok(voucher) => voucher.hmac.kind == 5 && is_written_again(rt, &voucher, bytes),
        Err(_) => false,
    }
}

fn is_written_of(rt: &HostRuntime, digits: &str) -> bool {
    match hex::decode(rt.alloc(), digits) {
        Ok(bytes) => is_written(rt, bytes.as_slice()),
        Err(_) => false,
    }
}

#[test]
fn a_first_voucher_is_written(rt: HostRuntime) {
    assert!(rt; is_written_of(&rt, NO_ENTRIES));
}

// ---- a header

const OTHER_GUID: [u8; 16] = *b"\x0f\x0e\x0d\x0c\x0b\x0a\x09\x08\x07\x06\x05\x04\x03\x02\x01\x00";

/// Whether a header that is replaced, its next key that of 02, has these bytes and is read from them.
fn replaces(
    rt: &HostRuntime,
    header: &Header,
    rv: &RvInfo,
    next: &PublicKey,
    wanted: &[u8],
) -> bool {
    match replacement(rt.alloc(), header, OTHER_GUID, rv, next) {
        Ok(new) => {
            new.raw.as_list() == wanted && is_header(rt, wanted, b"\x83\x18\xc8\x00\x41\x02")
        }
        Err(_) => false,
    }
}

fn replaces_by(rt: &HostRuntime, header: &Header, rv: &RvInfo, wanted: &[u8]) -> bool {
    match key(rt, b"\x02") {
        Ok(next) => replaces(rt, header, rv, &next, wanted),
        Err(_) => false,
    }
}

fn is_replaced(rt: &HostRuntime, bytes: &[u8], rv: &RvInfo, wanted: &[u8]) -> bool {
    match read_voucher(rt.alloc(), bytes) {
        Ok(voucher) => replaces_by(rt, &voucher.header, rv, wanted),
        Err(_) => false,
    }
}

fn is_replaced_by_item(rt: &HostRuntime, bytes: &[u8], item: &Item, wanted: &[u8]) -> bool {
    match read_rv(rt.alloc(), item) {
        Ok(Some(rv)) => is_replaced(rt, bytes, &rv, wanted),
        _ => false,
    }
}

fn is_replaced_by(rt: &HostRuntime, bytes: &[u8], rv: &[u8], wanted: &[u8]) -> bool {
    match read_wire(rt.alloc(), rv) {
        Ok((item, _read)) => is_replaced_by_item(rt, bytes, &item, wanted),
        Err(_) => false,
    }
}

fn is_replaced_from(rt: &HostRuntime, digits: &str, rv: &[u8], wanted: &[u8]) -> bool {
    match hex::decode(rt.alloc(), digits) {
        Ok(bytes) => is_replaced_by(rt, bytes.as_slice(), rv, wanted),
        Err(_) => false,
    }
}

fn is_replaced_with(rt: &HostRuntime, digits: &str, rv: &str, wanted: &[u8]) -> bool {
    match hex::decode(rt.alloc(), rv) {
        Ok(rv) => is_replaced_from(rt, digits, rv.as_slice(), wanted),
        Err(_) => false,
    }
}

/// Whether the header of a voucher, replaced, has the wanted digits.
fn is_replaced_of(rt: &HostRuntime, digits: &str, rv: &str, wanted: &str) -> bool {
    match hex::decode(rt.alloc(), wanted) {
        Ok(wanted) => is_replaced_with(rt, digits, rv, wanted.as_slice()),
        Err(_) => false,
    }
}

fn is_replaced_so(rt: &HostRuntime, rv: &str, written: &str) -> bool {
    match format!(in rt.alloc(); "{REPLACED_BEFORE}{written}{REPLACED_AFTER}") {
        Ok(wanted) => is_replaced_of(rt, NO_ENTRIES, rv, wanted.as_str()),
        Err(_) => false,
    }
}

/// The number of the first row that is not written so.
fn first_unreplaced(rt: &HostRuntime) -> Option<usize> {
    let mut index: usize = 0;
    for (rv, written) in &REPLACED {
        if !is_replaced_so(rt, rv, written) {
            return Some(index);
        }
        index = index.saturating_add(1);
    }
    None
}

/// A header gets another GUID, other rendezvous information and another key, and keeps the rest.
#[test]
fn a_header_is_replaced(rt: HostRuntime) {
    assert_eq!(rt; first_unreplaced(&rt), None);
}

// ---- strengths

/// Types of keys, the bytes of their bodies, and their strengths.
static STRENGTHS: [(i64, &[u8], u16); 10] = [
    (200, b"0123456789abcdef", 256),
    (200, b"0123456789abcdefg", 384),
    (11, b"\x01", 384),
    (10, b"0123456789abcdefg", 256),
    (200, b"\x01", 256),
    (200, b"0123456789abcdef0123456789abcdef", 384),
    (11, b"", 384),
    (11, b"0123456789abcdefg", 384),
    (1, b"0123456789abcdefg", 256),
    (201, b"0123456789abcdefg", 256),
];

fn has_strength(rt: &HostRuntime, kind: i64, bytes: &[u8], bits: u16) -> bool {
    match key_of(rt, kind, bytes) {
        Ok(key) => strength(&key) == bits,
        Err(_) => false,
    }
}

fn have_strengths(rt: &HostRuntime) -> bool {
    for (kind, bytes, bits) in &STRENGTHS {
        if !has_strength(rt, *kind, *bytes, *bits) {
            return false;
        }
    }
    true
}

#[test]
fn strengths(rt: HostRuntime) {
    assert!(rt; have_strengths(&rt));
    assert_eq!(rt; hash_kind_of(256), -16);
    assert_eq!(rt; hash_kind_of(384), -43);
}
