//! Which credentials match a voucher.
use crate::voucher_rows::{FIVE, NO_ENTRIES, STRONG};
use cbor_core::{Blob, NoMemory, Text};
use hash_hmac::{Hash, hash_of};
use std::test::Fail;
use voucher_chain::{Credential, Voucher, matches, read_voucher};

/// The kind of HMAC of a credential, the kind of its key hash, the bits that are changed of its secret, its GUID and its
/// key hash, and whether it still matches its voucher.
type Row = (u8, i64, u8, u8, u8, bool);

/// For a voucher of SHA-256.
static CREDENTIALS: [Row; 8] = [
    (5, -16, 0, 0, 0, true),
    (5, -43, 0, 0, 0, true),
    (6, -16, 0, 0, 0, false),
    (0, -16, 0, 0, 0, false),
    (5, -16, 1, 0, 0, false),
    (5, -16, 0, 1, 0, false),
    (5, -16, 0, 0, 1, false),
    (5, -43, 0, 0, 1, false),
];

/// For one of SHA-384.
static STRONG_CREDENTIALS: [Row; 6] = [
    (6, -43, 0, 0, 0, true),
    (6, -16, 0, 0, 0, true),
    (5, -43, 0, 0, 0, false),
    (6, -43, 1, 0, 0, false),
    (6, -43, 0, 1, 0, false),
    (6, -43, 0, 0, 1, false),
];

const SECRET: [u8; 32] =
    *b"laboratory\x00\x00\x00\x00\x00\x00\x00\x00\x00\x00\x00\x00\x00\x00\x00\x00\x00\x00\x00\x00\x00\x00";

/// The hash of the header's key, of a kind, in whose byte 31 bits are changed.
fn key_hash(voucher: &Voucher, kind: i64, bits: u8) -> Option<Hash> {
    match hash_of(kind, voucher.header.key_raw.as_list(), b"") {
        Some(hash) => Some(with_byte(hash, bits)),
        None => None,
    }
}

fn with_byte(hash: Hash, bits: u8) -> Hash {
    let mut hash = hash;
    hash.bytes[31] = hash.bytes[31] ^ bits;
    hash
}

fn guid(voucher: &Voucher, bits: u8) -> [u8; 16] {
    let mut guid = voucher.header.guid;
    guid[15] = guid[15] ^ bits;
    guid
}

fn secret(bits: u8) -> [u8; 32] {
    let mut secret = SECRET;
    secret[0] = secret[0] ^ bits;
    secret
}

fn is_matched(rt: &HostRuntime, voucher: &Voucher, row: &Row) -> bool {
    match key_hash(voucher, row.1, row.4) {
        Some(hash) => has_credential(
            rt,
            voucher,
            row.0,
            secret(row.2),
            guid(voucher, row.3),
            hash,
        ),
        None => false,
    }
}

fn has_credential(
    rt: &HostRuntime,
    voucher: &Voucher,
    alg: u8,
    secret: [u8; 32],
    guid: [u8; 16],
    key_hash: Hash,
) -> bool {
    match Text::from_str(rt.alloc(), "lab") {
        Ok(info) => {
            let credential = Credential {
                guid,
                rv: Blob::new(Vec::new(rt.alloc())),
                info,
                secret,
                key_hash,
                alg,
            };
            matches(&credential, voucher)
        }
        Err(_) => false,
    }
}

fn are_matched(rt: &HostRuntime, voucher: &Voucher, rows: &[Row]) -> bool {
    for row in rows {
        if is_matched(rt, voucher, row) != row.5 {
            return false;
        }
    }
    true
}

fn are_matched_by(rt: &HostRuntime, bytes: &[u8], rows: &[Row]) -> bool {
    match read_voucher(rt.alloc(), bytes) {
        Ok(voucher) => are_matched(rt, &voucher, rows),
        Err(_) => false,
    }
}

fn are_matched_of(rt: &HostRuntime, digits: &str, rows: &[Row]) -> bool {
    match hex::decode(rt.alloc(), digits) {
        Ok(bytes) => are_matched_by(rt, bytes.as_slice(), rows),
        Err(_) => false,
    }
}

/// The credential of a device matches its voucher, and one that differs in any part does not.
#[test]
fn a_credential_matches_its_voucher(rt: HostRuntime) {
    assert!(rt; are_matched_of(&rt, FIVE, &CREDENTIALS));
    assert!(rt; are_matched_of(&rt, NO_ENTRIES, &CREDENTIALS));
    assert!(rt; are_matched_of(&rt, STRONG, &STRONG_CREDENTIALS));
}

/// The text of a credential has its GUID and its kind of HMAC, and no byte of its secret.
#[test]
fn a_credential_is_printed_without_its_secret(rt: HostRuntime) -> Result<(), Fail> {
    let alloc = rt.alloc();
    let key_hash = hash_of(-16, b"key", b"");
    match key_hash {
        Some(key_hash) => {
            let credential = Credential {
                guid: [7; 16],
                rv: Blob::new(Vec::new(alloc)),
                info: Text::from_str(alloc, "lab")?,
                secret: [201; 32],
                key_hash,
                alg: 5,
            };
            let text = format!(in alloc; "{credential:?}")?;
            assert!(rt; text.as_str().contains("guid: [7, 7,"));
            assert!(rt; text.as_str().ends_with("alg: 5, .. }"));
            assert!(rt; !text.as_str().contains("201, 201"));
        }
        None => assert!(rt; false, "-16 is a kind of hash"),
    }
    Ok(())
}

/// A credential whose parts all differ.
fn some_credential(rt: &HostRuntime) -> Result<Credential, NoMemory> {
    Ok(Credential {
        guid: *b"0123456789abcdef",
        rv: Blob::from_slice(rt.alloc(), b"\x81\x80")?,
        info: Text::from_str(rt.alloc(), "device")?,
        secret: SECRET,
        key_hash: Hash {
            kind: -16,
            len: 32,
            bytes: [9; 48],
        },
        alg: 6,
    })
}

fn has_its_parts(credential: &Credential) -> bool {
    credential.guid == *b"0123456789abcdef"
        && credential.rv.as_list() == b"\x81\x80".as_slice()
        && credential.info.as_list() == "device"
        && credential.secret == SECRET
        && credential.key_hash.kind == -16
        && credential.key_hash.len == 32
        && credential.key_hash.bytes == [9; 48]
        && credential.alg == 6
}

fn is_copied(credential: &Credential) -> bool {
    match credential.copy() {
        Ok(copy) => has_its_parts(&copy),
        Err(_) => false,
    }
}

/// A copy of a credential has all its parts.
#[test]
fn a_credential_is_copied(rt: HostRuntime) -> Result<(), Fail> {
    let credential = some_credential(&rt)?;
    assert!(rt; is_copied(&credential));
    Ok(())
}
