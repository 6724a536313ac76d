//! What is read of vouchers, headers and entries.
use crate::voucher_rows::{FIVE, NO_ENTRIES};
use hash_hmac::Hash;
use key_codec::key_bytes;
use voucher_chain::{ChainFault, Entry, Voucher, owner_key, read_entry, read_header, read_voucher};

/// Whether bytes are the voucher of five entries, and its header and entries are read by themselves.
fn is_read(rt: &HostRuntime, bytes: &[u8]) -> bool {
    match read_voucher(rt.alloc(), bytes) {
        Ok(voucher) => has_parts(rt, &voucher, bytes),
        Err(_) => false,
    }
}

fn has_parts(rt: &HostRuntime, voucher: &Voucher, bytes: &[u8]) -> bool {
    voucher.raw.as_list() == bytes
        && voucher.entries.as_list().len() == 5
        && voucher.header.guid
            == *b"\x00\x01\x02\x03\x04\x05\x06\x07\x08\x09\x0a\x0b\x0c\x0d\x0e\x0f"
        && voucher.header.info.as_list() == "lab"
        && voucher.hmac.kind == 5
        && is_owned(rt, voucher)
        && are_entries(rt, voucher.entries.as_list())
        && is_header(
            rt,
            voucher.header.raw.as_list(),
            voucher.header.key_raw.as_list(),
        )
}

/// Whether the last owner's key is that of 02.
fn is_owned(rt: &HostRuntime, voucher: &Voucher) -> bool {
    match key_bytes(rt.alloc(), owner_key(voucher)) {
        Ok(owner) => owner.as_list() == b"\x83\x18\xc8\x00\x41\x02".as_slice(),
        Err(_) => false,
    }
}

fn are_entries(rt: &HostRuntime, entries: &[Entry]) -> bool {
    for entry in entries {
        if !is_entry(rt, entry.raw.as_list(), &entry.prev) {
            return false;
        }
    }
    true
}

fn is_entry(rt: &HostRuntime, bytes: &[u8], prev: &Hash) -> bool {
    match read_entry(rt.alloc(), bytes) {
        Ok(entry) => entry.prev == *prev,
        Err(_) => false,
    }
}

/// Whether bytes are a header with a key of these bytes.
pub(crate) fn is_header(rt: &HostRuntime, bytes: &[u8], key: &[u8]) -> bool {
    match read_header(rt.alloc(), bytes) {
        Ok(header) => header.key_raw.as_list() == key,
        Err(_) => false,
    }
}

fn is_read_of(rt: &HostRuntime, digits: &str) -> bool {
    match hex::decode(rt.alloc(), digits) {
        Ok(bytes) => is_read(rt, bytes.as_slice()),
        Err(_) => false,
    }
}

#[test]
fn what_is_read(rt: HostRuntime) {
    assert!(rt; is_read_of(&rt, FIVE));
}

// ---- another form

fn is_no_header(rt: &HostRuntime, bytes: &[u8]) -> bool {
    match read_header(rt.alloc(), bytes) {
        Ok(_) => false,
        Err(fault) => fault == ChainFault::BadShape(0),
    }
}

fn is_no_entry(rt: &HostRuntime, bytes: &[u8]) -> bool {
    match read_entry(rt.alloc(), bytes) {
        Ok(_) => false,
        Err(fault) => fault == ChainFault::BadShape(0),
    }
}

fn is_neither(rt: &HostRuntime, digits: &str) -> bool {
    match hex::decode(rt.alloc(), digits) {
        Ok(bytes) => is_no_header(rt, bytes.as_slice()) && is_no_entry(rt, bytes.as_slice()),
        Err(_) => false,
    }
}

/// A voucher is no header and no entry.
#[test]
fn another_form_is_none(rt: HostRuntime) {
    assert!(rt; is_neither(&rt, NO_ENTRIES));
}
