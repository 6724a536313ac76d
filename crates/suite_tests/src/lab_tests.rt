//! The laboratory suite against values that Python's `hashlib` computed, and the laws over it and over other suites.
use crate::vectors::{KEYS, SEALS, SECRET, SECRETS};
use std::test::Fail;
use suite_laws::asking::{load_and_sign, load_and_sign_told};
use suite_laws::laws::{agree, issue_and_read, seal_and_open, sign_and_verify, two_keys};
use suite_laws::{Call, PlainSuite, Telling};
use suite_port::{Aead, CertReader, Kex, LabSuite, Signer, SuiteFault, Verifier};

const IV: [u8; 12] = *b"twelve bytes";

/// The bytes in hexadecimal digits.
fn hex_of(rt: &HostRuntime, bytes: &[u8]) -> Result<String, Fail> {
    Ok(hex::encode(rt.alloc(), bytes)?)
}

/// How a call of a suite ended.
fn ended<T: Drop>(answer: Result<T, SuiteFault>) -> &'static str {
    match answer {
        Ok(_) => "answered",
        Err(SuiteFault::NoAlgorithm) => "no algorithm",
        Err(SuiteFault::Failed) => "failed",
        Err(SuiteFault::NoMemory) => "no memory",
    }
}

/// What a verification ended in.
fn verdict(answer: Result<bool, SuiteFault>) -> &'static str {
    match answer {
        Ok(true) => "right",
        Ok(false) => "wrong",
        other => ended(other),
    }
}

/// Whether these bytes were opened.
fn is_text(opened: Option<Vec<u8>>, text: &[u8]) -> bool {
    match opened {
        Some(opened) => opened.as_slice() == text,
        None => false,
    }
}

#[test]
fn keys_and_signatures(rt: HostRuntime) -> Result<(), Fail> {
    let mut suite = LabSuite::new(Vec::new(rt.alloc()));
    for (private, public, text, wanted) in &KEYS {
        let private = hex::decode(rt.alloc(), private)?;
        let text = hex::decode(rt.alloc(), text)?;
        let key = suite.load(rt.alloc(), private.as_slice())?;
        assert_eq!(rt; hex_of(&rt, key.as_slice())?.as_str(), *public);
        assert!(rt; suite.holds(key.as_slice()));
        let signed = sign_and_verify(&mut suite, rt.alloc(), key.as_slice(), text.as_slice())?;
        assert_eq!(rt; signed.alg, -65537);
        assert!(rt; signed.verified);
        assert_eq!(rt; hex_of(&rt, signed.sig.as_slice())?.as_str(), *wanted);
    }
    assert!(rt; !suite.holds(b"\x83\x18\xc8\x00\x41\x02"));
    Ok(())
}

#[test]
fn what_is_verified(rt: HostRuntime) -> Result<(), Fail> {
    let mut suite = LabSuite::new(Vec::new(rt.alloc()));
    for (_, public, text, wanted) in &KEYS {
        let key = hex::decode(rt.alloc(), public)?;
        let text = hex::decode(rt.alloc(), text)?;
        let sig = hex::decode(rt.alloc(), wanted)?;
        let (key, text, sig) = (key.as_slice(), text.as_slice(), sig.as_slice());
        assert_eq!(rt;
            verdict(suite.verify(rt.alloc(), key, -65537, text, sig)),
            "right"
        );
        assert_eq!(rt;
            verdict(suite.verify(rt.alloc(), key, -65537, b"other", sig)),
            "wrong"
        );
        assert_eq!(rt;
            verdict(suite.verify(rt.alloc(), key, -65537, text, b"")),
            "wrong"
        );
        assert_eq!(rt;
            ended(suite.verify(rt.alloc(), key, -7, text, sig)),
            "no algorithm"
        );
    }
    // a key of the type 10, and bytes that are no key
    let other = b"\x83\x0a\x00\x41\x01";
    assert_eq!(rt;
        ended(suite.verify(rt.alloc(), other, -65537, b"", b"")),
        "no algorithm"
    );
    assert_eq!(rt;
        ended(suite.verify(rt.alloc(), b"\x83\x18", -65537, b"", b"")),
        "no algorithm"
    );
    assert!(rt; suite.alg_of(other).is_none());
    Ok(())
}

#[test]
fn calls_that_fail(rt: HostRuntime) -> Result<(), Fail> {
    let alloc = rt.alloc();
    let mut suite = LabSuite::new(vec![in alloc; 2, 4, 6]?);
    let key = suite.load(alloc, b"a")?;
    assert!(rt; suite.holds(key.as_slice()));
    assert_eq!(rt; ended(suite.sign(alloc, key.as_slice(), b"")), "failed");
    assert_eq!(rt; ended(suite.issue(alloc, key.as_slice())), "answered");
    // the fourth call fails even where the bytes are no key
    assert_eq!(rt; ended(suite.load(alloc, b"")), "failed");
    assert_eq!(rt; ended(suite.load(alloc, b"")), "no algorithm");
    assert_eq!(rt; ended(suite.issue(alloc, b"")), "failed");
    assert_eq!(rt;
        ended(suite.load(alloc, b"0123456789abcdef0123456789abcdefg")),
        "no algorithm"
    );
    assert!(rt; suite.holds(key.as_slice()));
    assert_eq!(rt; ended(suite.sign(alloc, key.as_slice(), b"")), "answered");
    Ok(())
}

#[test]
fn key_agreement(rt: HostRuntime) -> Result<(), Fail> {
    let alloc = rt.alloc();
    let mut suite = LabSuite::new(Vec::new(alloc));
    let (one, other) = (
        *b"0123456789abcdef0123456789abcdef",
        *b"fedcba9876543210fedcba9876543210",
    );
    let (finished, shared) = agree(&mut suite, alloc, b"LAB32", &one, &other)?;
    assert_eq!(rt; hex_of(&rt, finished.as_slice())?.as_str(), SECRET);
    assert_eq!(rt; hex_of(&rt, shared.as_slice())?.as_str(), SECRET);
    for (one, other, secret) in &SECRETS {
        let (finished, _) = agree(&mut suite, alloc, b"LAB32", one, other)?;
        assert_eq!(rt; hex_of(&rt, finished.as_slice())?.as_str(), *secret);
    }
    let (xa, private) = suite.first(alloc, b"LAB32", &one)?;
    assert!(rt; xa.as_slice() == one.as_slice() && private.as_slice() == one.as_slice());
    assert_eq!(rt; ended(suite.first(alloc, b"LAB3", &one)), "no algorithm");
    assert_eq!(rt;
        ended(suite.second(alloc, b"lab32", &other, &one)),
        "no algorithm"
    );
    assert_eq!(rt;
        ended(suite.second(alloc, b"LAB32", &other, b"")),
        "no algorithm"
    );
    assert_eq!(rt;
        ended(suite.finish(alloc, b"LAB32", &one, b"x")),
        "no algorithm"
    );
    assert_eq!(rt;
        ended(suite.finish(alloc, b"", &one, &other)),
        "no algorithm"
    );
    Ok(())
}

#[test]
fn sealing(rt: HostRuntime) -> Result<(), Fail> {
    let mut suite = LabSuite::new(Vec::new(rt.alloc()));
    let (short, long) = (*b"0123456789abcdef", *b"0123456789abcdefFEDCBA9876543210");
    for (plain, aad, with_short, with_long) in &SEALS {
        let plain = hex::decode(rt.alloc(), plain)?;
        let aad = hex::decode(rt.alloc(), aad)?;
        // the prover reads no table
        let plain = plain.as_slice().split_at(plain.len().min(1000)).0;
        let aad = aad.as_slice().split_at(aad.len().min(1000)).0;
        let sealed = suite.seal(rt.alloc(), -65538, short.as_slice(), &IV, aad, plain)?;
        assert_eq!(rt; hex_of(&rt, sealed.as_slice())?.as_str(), *with_short);
        let sealed = suite.seal(rt.alloc(), -65539, long.as_slice(), &IV, aad, plain)?;
        assert_eq!(rt; hex_of(&rt, sealed.as_slice())?.as_str(), *with_long);
        let opened = seal_and_open(
            &mut suite,
            rt.alloc(),
            -65538,
            short.as_slice(),
            &IV,
            aad,
            plain,
        )?;
        assert!(rt; is_text(opened, plain));
    }
    assert_eq!(rt; two_keys(&suite), (Some(256), Some(128)));
    assert!(rt; suite.key_bits(1).is_none());
    Ok(())
}

/// Whether the laboratory suite opens these bytes under one key, with these additional data.
fn is_opened(
    rt: &HostRuntime,
    suite: &mut LabSuite,
    aad: &[u8],
    sealed: &[u8],
) -> Result<bool, SuiteFault> {
    let opened = suite.open(rt.alloc(), -65538, b"0123456789abcdef", &IV, aad, sealed)?;
    Ok(opened.is_some())
}

#[test]
fn what_is_not_opened(rt: HostRuntime) -> Result<(), Fail> {
    let mut suite = LabSuite::new(Vec::new(rt.alloc()));
    let key = b"0123456789abcdef";
    let plain = b"a text of some length";
    let mut sealed = suite.seal(rt.alloc(), -65538, key, &IV, b"aad", plain)?;
    for at in 0..sealed.len() {
        flip(&mut sealed, at);
        assert!(rt; !is_opened(&rt, &mut suite, b"aad", sealed.as_slice())?);
        flip(&mut sealed, at);
    }
    assert!(rt; is_opened(&rt, &mut suite, b"aad", sealed.as_slice())?);
    assert!(rt; !is_opened(&rt, &mut suite, b"aae", sealed.as_slice())?);
    assert!(rt; !is_opened(&rt, &mut suite, b"", b"fifteen bytes..")?);
    Ok(())
}

/// Another value at a place, and the same again at the second time.
fn flip(bytes: &mut Vec<u8>, at: usize) {
    if let Some(byte) = bytes.get_mut(at) {
        *byte ^= 1;
    }
}

static NO_CERTIFICATES: [&str; 5] = [
    "",
    "FDO-LAB-CER",
    "FDO-LAB-CERT",
    "FDO-LAB-CERTabc",
    "FDO-LAB-CERt",
];

static ISSUED: [&[u8]; 3] = [b"\x83", b"\x83\x01\x00\x40", b"\x83\x0b\x02\x81\x41\x01"];

#[test]
fn certificates(rt: HostRuntime) -> Result<(), Fail> {
    let alloc = rt.alloc();
    let mut suite = LabSuite::new(Vec::new(alloc));
    let key = b"\x83\x18\xc8\x00\x45\x05\x0c\x13\x1a\x21";
    let leaf = suite.issue(alloc, key)?;
    assert_eq!(rt;
        hex_of(&rt, leaf.as_slice())?.as_str(),
        "46444f2d4c41422d434552548318c80045050c131a21"
    );
    assert!(rt;
        issue_and_read(&mut suite, alloc, b"\x83\x0a\x01\x40")?.as_slice()
            == b"\x83\x0a\x01\x40".as_slice()
    );
    for key in &ISSUED {
        let read = issue_and_read(&mut suite, alloc, key)?;
        assert_eq!(rt; read.as_slice(), *key);
    }
    for leaf in &NO_CERTIFICATES {
        assert_eq!(rt;
            ended(suite.leaf_key(alloc, leaf.as_bytes())),
            "no algorithm"
        );
    }
    assert_eq!(rt; ended(suite.issue(alloc, b"\x82\x0a\x01")), "no algorithm");
    Ok(())
}

#[test]
fn plain_suite(rt: HostRuntime) -> Result<(), Fail> {
    let alloc = rt.alloc();
    let mut suite = PlainSuite::new(Vec::from_slice(alloc, b"key".as_slice())?);
    assert!(rt; !suite.holds(b"other"));
    assert_eq!(rt; ended(suite.load(alloc, b"key")), "no algorithm");
    let key = b"key".as_slice();
    assert!(rt; suite.holds(key));
    let signed = sign_and_verify(&mut suite, alloc, key, b"text")?;
    assert!(rt; signed.verified && signed.alg == 7 && signed.sig.as_slice() == b"text".as_slice());
    let (finished, shared) = agree(&mut suite, alloc, b"any", &[1; 32], &[2; 32])?;
    assert!(rt; finished.as_slice() == b"any".as_slice() && shared.as_slice() == b"any".as_slice());
    let opened = seal_and_open(&mut suite, alloc, 1, b"0123456789abcdef", &IV, b"", b"text")?;
    assert!(rt; is_text(opened, b"text".as_slice()));
    assert!(rt; issue_and_read(&mut suite, alloc, b"key")?.as_slice() == b"key".as_slice());
    assert_eq!(rt; two_keys(&suite), (None, None));
    Ok(())
}

/// Whether a suite was asked to load a key and to sign a text with it, and nothing else.
fn are_load_and_sign(calls: &[Call], private: &[u8], signer: &[u8], signed: &[u8]) -> bool {
    match calls {
        [Call::Loaded { private: loaded }, Call::Signed { key, text }] => {
            loaded.as_slice() == private && key.as_slice() == signer && text.as_slice() == signed
        }
        _ => false,
    }
}

#[test]
fn answered_calls_are_told(rt: HostRuntime) -> Result<(), Fail> {
    let alloc = rt.alloc();
    let mut suite = Telling::new(alloc, LabSuite::new(vec![in alloc; 3, 5]?));
    let (key, _sig) = load_and_sign_told(&mut suite, alloc, b"\xff\x01", b"text")?;
    let key = key.as_slice();
    assert!(rt; are_load_and_sign(suite.calls(), b"\xff\x01", key, b"text"));
    // the load fails, and then the signature
    assert_eq!(rt;
        ended(load_and_sign(&mut suite, alloc, b"\x02", b"")),
        "failed"
    );
    assert_eq!(rt; suite.calls().len(), 2);
    assert_eq!(rt;
        ended(load_and_sign(&mut suite, alloc, b"\x02", b"")),
        "failed"
    );
    assert_eq!(rt; suite.calls().len(), 3);
    Ok(())
}

/// Each call at a suite that tells: one, then two, three, two and two more, and one that is refused.
#[test]
fn a_telling_suite_answers(rt: HostRuntime) -> Result<(), Fail> {
    let alloc = rt.alloc();
    let mut suite = Telling::new(alloc, LabSuite::new(Vec::new(alloc)));
    let key = suite.load(alloc, b"\x01")?;
    let key = key.as_slice();
    assert!(rt; suite.holds(key) && sign_and_verify(&mut suite, alloc, key, b"text")?.verified);
    assert_eq!(rt; suite.calls().len(), 3);
    let (finished, shared) = agree(&mut suite, alloc, b"LAB32", &[1; 32], &[2; 32])?;
    assert_eq!(rt; finished.as_slice(), shared.as_slice());
    assert_eq!(rt; suite.calls().len(), 6);
    let secret = b"0123456789abcdef";
    let opened = seal_and_open(&mut suite, alloc, -65538, secret, &IV, b"", b"text")?;
    assert!(rt; is_text(opened, b"text".as_slice()));
    assert_eq!(rt; suite.calls().len(), 8);
    assert_eq!(rt; issue_and_read(&mut suite, alloc, key)?.as_slice(), key);
    assert_eq!(rt; suite.calls().len(), 10);
    assert_eq!(rt; ended(suite.issue(alloc, b"\x82\x0a\x01")), "no algorithm");
    assert_eq!(rt; suite.calls().len(), 10);
    assert_eq!(rt; two_keys(&suite), (Some(256), Some(128)));
    Ok(())
}
