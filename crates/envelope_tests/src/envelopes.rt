//! Envelopes: what is read and written of them, and what is signed, verified, sealed and opened.
ghost use Rattle.std.specs.Prelude.{◌≤◌, length};

use crate::envelope_rows::{ENCRYPT0, ENCRYPT0_FAULTS, MAC0, MAC0_FAULTS, SIGN1, SIGN1_FAULTS};
use crate::envelope_values::{
    CUT_TAG, LOOSELY_MACED, LOOSELY_SIGNED, MACED, NO_INNER, OTHER_INNER, OTHER_MAC, SEALED,
    SEALED_LONG, SEALED_NONE, SEALED_TEXTS, SIGN1_TEXT, SIGNED, WRONG_HALF,
};
use crate::mute_suite::MuteSuite;
use cbor_core::{Blob, NoMemory, Pairs, Part, write_det};
use cose_envelopes::protected::algorithm;
use cose_envelopes::{
    CoseFault, Encrypt0, Mac0, Sign1, find_sign1_fault, open, open_etm, read_encrypt0, read_mac0,
    read_sign1, seal, seal_etm, sign, sign1_item, sign1_part, sign1_text, verify, write_encrypt0,
    write_mac0, write_sign1,
};
use std::test::Fail;
use suite_port::{LabSuite, Signer};

const KEY: [u8; 32] = *b"0123456789abcdefFEDCBA9876543210";

const OTHER_KEY: [u8; 32] = *b"0123456789abcdefFEDCBA9876543211";

const IV: [u8; 12] = *b"twelve bytes";

const PLAIN: &[u8] = b"a text of more than one block of the stream";

/// The public bytes of the private key 01.
const PUBLIC: &[u8] = b"\x83\x18\xc8\x00\x41\x01";

// ---- bytes and digits

/// The bytes in hexadecimal digits, or `-` where there are none.
fn hex_of(rt: &HostRuntime, bytes: &[u8]) -> Result<String, Fail> {
    if bytes.is_empty() {
        return Ok(String::from_str(rt.alloc(), "-")?);
    }
    Ok(hex::encode(rt.alloc(), bytes)?)
}

fn bytes_of(rt: &HostRuntime, digits: &str) -> Result<Vec<u8>, Fail> {
    Ok(hex::decode(rt.alloc(), digits)?)
}

/// Whether these are the bytes of the digits.
fn is(rt: &HostRuntime, bytes: &[u8], digits: &str) -> Result<bool, Fail> {
    let wanted = bytes_of(rt, digits)?;
    Ok(wanted.as_slice() == bytes)
}

/// The parts of an envelope in one line.
fn line(
    rt: &HostRuntime,
    protected: &Blob,
    alg: i64,
    middle: &[u8],
    last: &Blob,
) -> Result<String, Fail> {
    let protected = hex_of(rt, protected.as_list())?;
    let middle = hex_of(rt, middle)?;
    let last = hex_of(rt, last.as_list())?;
    Ok(format!(in rt.alloc(); "{protected} {alg} {middle} {last}")?)
}

/// How a call ended that gives no value.
fn refusal<T: Drop>(answer: Result<T, CoseFault>) -> Option<CoseFault> {
    match answer {
        Ok(_) => None,
        Err(fault) => Some(fault),
    }
}

// ---- reading and writing

fn sign1_of(rt: &HostRuntime, digits: &str) -> Result<Result<Sign1, CoseFault>, Fail> {
    let bytes = bytes_of(rt, digits)?;
    Ok(read_sign1(rt.alloc(), bytes.as_slice()))
}

fn mac0_of(rt: &HostRuntime, digits: &str) -> Result<Result<Mac0, CoseFault>, Fail> {
    let bytes = bytes_of(rt, digits)?;
    Ok(read_mac0(rt.alloc(), bytes.as_slice()))
}

fn encrypt0_of(rt: &HostRuntime, digits: &str) -> Result<Result<Encrypt0, CoseFault>, Fail> {
    let bytes = bytes_of(rt, digits)?;
    Ok(read_encrypt0(rt.alloc(), bytes.as_slice()))
}

#[test]
fn what_is_no_sign1(rt: HostRuntime) -> Result<(), Fail> {
    for (input, place) in &SIGN1_FAULTS {
        let found = refusal(sign1_of(&rt, input)?);
        assert_eq!(rt; found, Some(CoseFault::BadShape(*place)), "{input}");
    }
    Ok(())
}

#[test]
fn what_is_no_mac0(rt: HostRuntime) -> Result<(), Fail> {
    for (input, place) in &MAC0_FAULTS {
        let found = refusal(mac0_of(&rt, input)?);
        assert_eq!(rt; found, Some(CoseFault::BadShape(*place)), "{input}");
    }
    Ok(())
}

#[test]
fn what_is_no_encrypt0(rt: HostRuntime) -> Result<(), Fail> {
    for (input, place) in &ENCRYPT0_FAULTS {
        let found = refusal(encrypt0_of(&rt, input)?);
        assert_eq!(rt; found, Some(CoseFault::BadShape(*place)), "{input}");
    }
    Ok(())
}

/// Whether a Sign1 has these parts.
fn sign1_has(rt: &HostRuntime, value: &Sign1, parts: &str) -> Result<bool, Fail> {
    let payload = value.payload.as_list();
    let shown = line(rt, &value.protected, value.alg, payload, &value.sig)?;
    Ok(shown.as_str() == parts)
}

/// Whether a Sign1 is written so.
fn sign1_gives(rt: &HostRuntime, value: &Sign1, digits: &str) -> Result<bool, Fail> {
    let written = write_sign1(rt.alloc(), value)?;
    is(rt, written.as_list(), digits)
}

/// Whether its item is spelled so.
fn item_gives(rt: &HostRuntime, value: &Sign1, digits: &str) -> Result<bool, Fail> {
    let item = sign1_item(rt.alloc(), value)?;
    let spelled = write_det(rt.alloc(), &item)?;
    is(rt, spelled.as_list(), digits)
}

fn mac0_has(rt: &HostRuntime, value: &Mac0, parts: &str) -> Result<bool, Fail> {
    let payload = value.payload.as_list();
    let shown = line(rt, &value.protected, value.alg, payload, &value.tag)?;
    Ok(shown.as_str() == parts)
}

fn mac0_gives(rt: &HostRuntime, value: &Mac0, digits: &str) -> Result<bool, Fail> {
    let written = write_mac0(rt.alloc(), value)?;
    is(rt, written.as_list(), digits)
}

fn encrypt0_has(rt: &HostRuntime, value: &Encrypt0, parts: &str) -> Result<bool, Fail> {
    let iv = value.iv.as_slice();
    let shown = line(rt, &value.protected, value.alg, iv, &value.sealed)?;
    Ok(shown.as_str() == parts)
}

fn encrypt0_gives(rt: &HostRuntime, value: &Encrypt0, digits: &str) -> Result<bool, Fail> {
    let written = write_encrypt0(rt.alloc(), value)?;
    is(rt, written.as_list(), digits)
}

#[test]
fn a_sign1_is_read_and_written(rt: HostRuntime) -> Result<(), Fail> {
    for (input, parts, written) in &SIGN1 {
        let value = sign1_of(&rt, input)??;
        assert!(rt; sign1_has(&rt, &value, parts)?, "{input}");
        assert!(rt; sign1_gives(&rt, &value, written)?, "{input}");
        assert!(rt; item_gives(&rt, &value, written)?, "{input}");
    }
    Ok(())
}

#[test]
fn a_mac0_is_read_and_written(rt: HostRuntime) -> Result<(), Fail> {
    for (input, parts, written) in &MAC0 {
        let value = mac0_of(&rt, input)??;
        assert!(rt; mac0_has(&rt, &value, parts)?, "{input}");
        assert!(rt; mac0_gives(&rt, &value, written)?, "{input}");
    }
    Ok(())
}

#[test]
fn an_encrypt0_is_read_and_written(rt: HostRuntime) -> Result<(), Fail> {
    for (input, parts, written) in &ENCRYPT0 {
        let value = encrypt0_of(&rt, input)??;
        assert!(rt; encrypt0_has(&rt, &value, parts)?, "{input}");
        assert!(rt; encrypt0_gives(&rt, &value, written)?, "{input}");
    }
    Ok(())
}

/// The algorithm of a Sign1 that begins an input, or the place of its first fault.
fn begins(rt: &HostRuntime, bytes: &[u8]) -> Result<Result<i64, usize>, Fail> {
    let (part, _read) = Part::open(rt.alloc(), bytes)?;
    match sign1_part(rt.alloc(), &part)? {
        Some(value) => Ok(Ok(value.alg)),
        None => Ok(Err(find_sign1_fault(rt.alloc(), &part)?)),
    }
}

#[test]
fn a_part_of_an_input_is_a_sign1(rt: HostRuntime) -> Result<(), Fail> {
    let good = b"\x84\x43\xa1\x01\x26\xa0\x41p\x41s\x00";
    assert_eq!(rt; begins(&rt, good)?, Ok(-7));
    let bad = b"\x84\x43\xa1\x01\x26\xf6\x41p\x41s";
    assert_eq!(rt; begins(&rt, bad)?, Err(5));
    Ok(())
}

fn named(rt: &HostRuntime, digits: &str) -> Result<Option<i64>, Fail> {
    let bytes = bytes_of(rt, digits)?;
    Ok(algorithm(rt.alloc(), bytes.as_slice())?)
}

static ALGORITHMS: [(&str, Option<i64>); 12] = [
    ("a10126", Some(-7)),
    ("a118013806", Some(-7)),
    ("bf0126ff", Some(-7)),
    ("a2012604416b", Some(-7)),
    ("a1011b7fffffffffffffff", Some(i64::MAX)),
    ("a1013b7fffffffffffffff", Some(i64::MIN)),
    ("a1011b8000000000000000", None),
    ("a1013b8000000000000000", None),
    ("a10126a0", None),
    ("a10226", None),
    ("820126", None),
    ("", None),
];

#[test]
fn algorithms_of_protected_headers(rt: HostRuntime) -> Result<(), Fail> {
    for (input, wanted) in &ALGORITHMS {
        assert_eq!(rt; named(&rt, input)?, *wanted, "{input}");
    }
    Ok(())
}

// ---- signatures

fn lab(rt: &HostRuntime) -> LabSuite {
    LabSuite::new(Vec::new(rt.alloc()))
}

fn payload(rt: &HostRuntime) -> Result<Blob, NoMemory> {
    Blob::from_slice(rt.alloc(), b"payload")
}

/// `payload` signed under a key.
fn signed(rt: &HostRuntime, suite: &mut LabSuite, key: &[u8]) -> Result<Sign1, CoseFault> {
    let Ok(payload) = payload(rt) else {
        return Err(CoseFault::NoMemory);
    };
    if !suite.holds(key) {
        return Err(CoseFault::NotOpened);
    }
    sign(rt.alloc(), suite, key, Pairs::new(rt.alloc()), payload)
}

fn verified(rt: &HostRuntime, value: &Sign1) -> Option<CoseFault> {
    refusal(verify(rt.alloc(), &mut lab(rt), PUBLIC, value))
}

#[test]
fn what_is_signed_is_verified(rt: HostRuntime) -> Result<(), Fail> {
    let mut suite = lab(&rt);
    let key = suite.load(rt.alloc(), b"\x01")?;
    assert_eq!(rt; key.as_slice(), PUBLIC);
    let value = signed(&rt, &mut suite, PUBLIC)?;
    assert!(rt; sign1_gives(&rt, &value, SIGNED)?);
    assert_eq!(rt; verified(&rt, &value), None);
    Ok(())
}

#[test]
fn what_is_signed(rt: HostRuntime) -> Result<(), Fail> {
    let text = sign1_text(rt.alloc(), b"\xa1\x01\x26", b"payload")?;
    assert!(rt; is(&rt, text.as_list(), SIGN1_TEXT)?);
    Ok(())
}

/// The protected header, the algorithm and the signature of one, and the payload of another.
fn mixed(one: Sign1, other: Sign1) -> Sign1 {
    Sign1 {
        protected: one.protected,
        alg: one.alg,
        unprotected: one.unprotected,
        payload: other.payload,
        sig: one.sig,
    }
}

/// The protected header of one, and the rest of another.
fn led(one: Sign1, other: Sign1) -> Sign1 {
    Sign1 {
        protected: one.protected,
        alg: other.alg,
        unprotected: other.unprotected,
        payload: other.payload,
        sig: other.sig,
    }
}

#[test]
fn the_header_as_received_is_verified(rt: HostRuntime) -> Result<(), Fail> {
    let value = sign1_of(&rt, LOOSELY_SIGNED)??;
    assert_eq!(rt; verified(&rt, &value), None);
    // the other header says the same, in other bytes
    let other = led(value, sign1_of(&rt, SIGNED)??);
    assert_eq!(rt; verified(&rt, &other), Some(CoseFault::NotVerified));
    Ok(())
}

#[test]
fn what_is_not_verified(rt: HostRuntime) -> Result<(), Fail> {
    let value = sign1_of(&rt, "d28443a10126a0417843736967")??;
    assert_eq!(rt; verified(&rt, &value), Some(CoseFault::NoAlgorithm(-7)));
    let value = mixed(sign1_of(&rt, SIGNED)??, value);
    assert_eq!(rt; verified(&rt, &value), Some(CoseFault::NotVerified));
    Ok(())
}

#[test]
fn what_is_not_signed(rt: HostRuntime) -> Result<(), Fail> {
    // the first call loads the key, and the second fails
    let mut suite = LabSuite::new(vec![in rt.alloc(); 2]?);
    let _key = suite.load(rt.alloc(), b"\x01")?;
    let failed = refusal(signed(&rt, &mut suite, PUBLIC));
    assert_eq!(rt; failed, Some(CoseFault::Failed));
    assert_eq!(rt; refusal(signed(&rt, &mut suite, PUBLIC)), None);
    Ok(())
}

#[test]
fn a_key_without_an_algorithm(rt: HostRuntime) -> Result<(), Fail> {
    let mut mute = MuteSuite::new(Vec::from_slice(rt.alloc(), b"key".as_slice())?);
    let payload = payload(&rt)?;
    let refused = refusal(sign(
        rt.alloc(),
        &mut mute,
        b"key",
        Pairs::new(rt.alloc()),
        payload,
    ));
    assert_eq!(rt; refused, Some(CoseFault::NoAlgorithm(0)));
    Ok(())
}

// ---- sealing and opening

/// Whether a text is sealed so.
fn seals(rt: &HostRuntime, alg: i64, plain: &[u8], digits: &str) -> Result<bool, Fail>
    requires { length plain.now ≤ 16777216 }
{
    let sealed = seal(rt.alloc(), &mut lab(rt), alg, &KEY, &IV, plain)?;
    is(rt, sealed.as_list(), digits)
}

/// Whether what is opened is the IV and a text.
fn is_text(answer: Result<([u8; 12], Blob), CoseFault>, plain: &[u8]) -> Result<bool, CoseFault> {
    match answer {
        Ok(both) => {
            let iv = both.0;
            let text = both.1;
            Ok(iv == IV && text.as_list() == plain)
        }
        Err(fault) => Err(fault),
    }
}

fn opens(rt: &HostRuntime, alg: i64, key: &[u8; 32], bytes: &[u8]) -> Result<bool, CoseFault> {
    is_text(open(rt.alloc(), &mut lab(rt), alg, key, bytes), PLAIN)
}

fn opens_etm(rt: &HostRuntime, key: &[u8; 32], bytes: &[u8]) -> Result<bool, CoseFault> {
    is_text(
        open_etm(rt.alloc(), &mut lab(rt), -65539, key, bytes),
        PLAIN,
    )
}

#[test]
fn what_is_sealed(rt: HostRuntime) -> Result<(), Fail> {
    assert!(rt; seals(&rt, -65538, PLAIN, SEALED)?);
    assert!(rt; seals(&rt, -65539, PLAIN, SEALED_LONG)?);
    assert!(rt; seals(&rt, -65538, b"", SEALED_NONE)?);
    for alg in [0, 1, 3, -65537, i64::MIN] {
        let refused = refusal(seal(rt.alloc(), &mut lab(&rt), alg, &KEY, &IV, PLAIN));
        assert_eq!(rt; refused, Some(CoseFault::NoAlgorithm(alg)));
    }
    let mut mute = MuteSuite::new(Vec::new(rt.alloc()));
    let sealed = seal(rt.alloc(), &mut mute, 1, &KEY, &IV, b"text")?;
    let wanted = "d08343a10101a1054c7477656c76652062797465734474657874";
    assert!(rt; is(&rt, sealed.as_list(), wanted)?);
    Ok(())
}

#[test]
fn texts_are_sealed_and_opened(rt: HostRuntime) -> Result<(), Fail> {
    for (plain, sealed, maced) in &SEALED_TEXTS {
        let plain = bytes_of(&rt, plain)?;
        // the prover reads no table
        let plain = plain.as_slice().split_at(plain.len().min(1000)).0;
        assert!(rt; seals(&rt, -65538, plain, sealed)?);
        let made = seal_etm(rt.alloc(), &mut lab(&rt), -65539, &KEY, &IV, plain)?;
        assert!(rt; is(&rt, made.as_list(), maced)?);
        let bytes = bytes_of(&rt, sealed)?;
        let opened = open(rt.alloc(), &mut lab(&rt), -65538, &KEY, bytes.as_slice());
        assert_eq!(rt; is_text(opened, plain), Ok(true));
        let bytes = bytes_of(&rt, maced)?;
        let opened = open_etm(rt.alloc(), &mut lab(&rt), -65539, &KEY, bytes.as_slice());
        assert_eq!(rt; is_text(opened, plain), Ok(true));
    }
    Ok(())
}

static KEYS: [(i64, [u8; 32], Result<bool, CoseFault>); 5] = [
    (-65538, KEY, Ok(true)),
    // the last byte of the key has no part in it
    (-65538, OTHER_KEY, Ok(true)),
    (-65538, [0; 32], Err(CoseFault::NotOpened)),
    (-65539, KEY, Err(CoseFault::NoAlgorithm(-65539))),
    (3, KEY, Err(CoseFault::NoAlgorithm(3))),
];

#[test]
fn what_is_opened(rt: HostRuntime) -> Result<(), Fail> {
    let sealed = bytes_of(&rt, SEALED)?;
    for (alg, key, wanted) in &KEYS {
        assert_eq!(rt; opens(&rt, *alg, key, sealed.as_slice()), *wanted);
    }
    Ok(())
}

static OPENED: [(i64, &str, Result<bool, CoseFault>); 4] = [
    (-65539, SEALED_LONG, Ok(true)),
    (-65538, SEALED_NONE, Ok(false)),
    (3, "d083", Err(CoseFault::BadShape(2))),
    (
        -65538,
        "d08347a1013a00010001a1054c7477656c7665206279746573430102ff",
        Err(CoseFault::NotOpened),
    ),
];

#[test]
fn what_is_not_opened(rt: HostRuntime) -> Result<(), Fail> {
    for (alg, input, wanted) in &OPENED {
        let bytes = bytes_of(&rt, input)?;
        assert_eq!(rt; opens(&rt, *alg, &KEY, bytes.as_slice()), *wanted);
    }
    Ok(())
}

static MACED_ROWS: [(&str, Result<bool, CoseFault>); 9] = [
    (MACED, Ok(true)),
    (LOOSELY_MACED, Ok(true)),
    (NO_INNER, Err(CoseFault::NotOpened)),
    (OTHER_INNER, Err(CoseFault::NotOpened)),
    (WRONG_HALF, Err(CoseFault::NotOpened)),
    (CUT_TAG, Err(CoseFault::NotOpened)),
    (OTHER_MAC, Err(CoseFault::NoAlgorithm(-65539))),
    (SEALED, Err(CoseFault::BadShape(0))),
    ("d18443a10105a08000", Err(CoseFault::BadShape(7))),
];

#[test]
fn encrypt_then_mac(rt: HostRuntime) -> Result<(), Fail> {
    let bytes = seal_etm(rt.alloc(), &mut lab(&rt), -65539, &KEY, &IV, PLAIN)?;
    assert!(rt; is(&rt, bytes.as_list(), MACED)?);
    for (input, wanted) in &MACED_ROWS {
        let bytes = bytes_of(&rt, input)?;
        assert_eq!(rt; opens_etm(&rt, &KEY, bytes.as_slice()), *wanted, "{input}");
    }
    Ok(())
}

/// What opening gives where a byte of a maced envelope is changed.
fn changed(rt: &HostRuntime, at: usize) -> Result<Result<bool, CoseFault>, Fail> {
    let mut bytes = bytes_of(rt, MACED)?;
    if let Some(byte) = bytes.get_mut(at) {
        *byte ^= 1;
    }
    Ok(opens_etm(rt, &KEY, bytes.as_slice()))
}

static CHANGED: [(usize, Result<bool, CoseFault>); 4] = [
    (60, Err(CoseFault::NotOpened)),
    (97, Err(CoseFault::NotOpened)),
    (128, Err(CoseFault::NotOpened)),
    (129, Ok(true)),
];

#[test]
fn a_changed_byte_is_not_opened(rt: HostRuntime) -> Result<(), Fail> {
    // of the inner envelope, the first of the tag, and the last; and there is no byte at 129
    for (at, wanted) in &CHANGED {
        assert_eq!(rt; changed(&rt, *at)?, *wanted);
    }
    let bytes = bytes_of(&rt, MACED)?;
    let found = opens_etm(&rt, &OTHER_KEY, bytes.as_slice());
    assert_eq!(rt; found, Err(CoseFault::NotOpened));
    Ok(())
}

#[test]
fn a_suite_without_encrypt_then_mac(rt: HostRuntime) -> Result<(), Fail> {
    let mut mute = MuteSuite::new(Vec::new(rt.alloc()));
    let refused = refusal(seal_etm(rt.alloc(), &mut mute, -65539, &KEY, &IV, PLAIN));
    assert_eq!(rt; refused, Some(CoseFault::NoAlgorithm(-65539)));
    let bytes = bytes_of(&rt, MACED)?;
    let refused = refusal(open_etm(rt.alloc(), &mut mute, -65539, &KEY, bytes.as_slice()));
    assert_eq!(rt; refused, Some(CoseFault::NoAlgorithm(-65539)));
    Ok(())
}
