//! What a suite is asked for a voucher, by one that writes it down.
use crate::break_rows::BROKEN;
use crate::given::{key, lab};
use crate::voucher_rows::{FIVE, NO_ENTRIES};
use key_codec::PublicKey;
use suite_laws::{Call, Telling};
use suite_port::{LabSuite, Signer};
use voucher_chain::{ChainFault, MOST_ENTRIES, Voucher, check_chain, read_voucher};
use voucher_tool::extend_file;

fn telling(rt: &HostRuntime) -> Telling<LabSuite> {
    Telling::new(rt.alloc(), lab(rt))
}

/// How many signatures have been asked for, or None where the suite was asked for something else too.
fn verified(calls: &[Call]) -> Option<usize> {
    if calls
        .iter()
        .all(|call| matches!(call, Call::Verified { .. }))
    {
        Some(calls.len())
    } else {
        None
    }
}

// ---- checking

fn checks(rt: &HostRuntime, voucher: &Voucher) -> Option<usize> {
    let mut suite = telling(rt);
    if voucher.entries.as_list().len() > MOST_ENTRIES {
        return None;
    }
    let _ = check_chain(rt.alloc(), &mut suite, voucher);
    verified(suite.calls())
}

/// How many signatures of a voucher, given by its digits, its check asks for.
fn checks_of(rt: &HostRuntime, digits: &str) -> Option<usize> {
    match hex::decode(rt.alloc(), digits) {
        Ok(bytes) => checks_in(rt, bytes.as_slice()),
        Err(_) => None,
    }
}

fn checks_in(rt: &HostRuntime, bytes: &[u8]) -> Option<usize> {
    match read_voucher(rt.alloc(), bytes) {
        Ok(voucher) => checks(rt, &voucher),
        Err(_) => None,
    }
}

/// How many come up to a break: all before it, and its own where it is the signature that does not hold.
fn up_to(fault: ChainFault) -> usize {
    match fault {
        ChainFault::BadSignature(index) => (index as usize).saturating_add(1),
        ChainFault::BadPrevHash(index)
        | ChainFault::BadInfoHash(index)
        | ChainFault::NoAlgorithm(index) => index as usize,
        _ => 0,
    }
}

/// The number of the first row for which another number is asked.
fn first_other(rt: &HostRuntime) -> Option<usize> {
    let mut index: usize = 0;
    for (fault, digits) in &BROKEN {
        if checks_of(rt, digits) != Some(up_to(*fault)) {
            return Some(index);
        }
        index = index.saturating_add(1);
    }
    None
}

#[test]
fn signatures_are_asked_for_up_to_the_break(rt: HostRuntime) {
    assert_eq!(rt; checks_of(&rt, FIVE), Some(5));
    assert_eq!(rt; first_other(&rt), None);
}

// ---- one entry more

/// Whether the suite was asked to load a key and to sign once.
fn signed_once(calls: &[Call]) -> bool {
    matches!(calls, [Call::Loaded { .. }, Call::Signed { .. }])
}

/// Whether the holder of the private key 01 signs once for a longer voucher, and not for bytes that are none.
fn signs(rt: &HostRuntime, bytes: &[u8], next: &PublicKey) -> bool {
    let mut suite = telling(rt);
    suite.load(rt.alloc(), b"\x01").is_ok()
        && extend_file(rt.alloc(), &mut suite, bytes, next).is_ok()
        && signed_once(suite.calls())
        && extend_file(rt.alloc(), &mut suite, b"\x80", next).is_err()
        && signed_once(suite.calls())
}

fn signs_for(rt: &HostRuntime, bytes: &[u8]) -> bool {
    match key(rt, b"\x02") {
        Ok(next) => signs(rt, bytes, &next),
        Err(_) => false,
    }
}

fn signs_of(rt: &HostRuntime, digits: &str) -> bool {
    match hex::decode(rt.alloc(), digits) {
        Ok(bytes) => signs_for(rt, bytes.as_slice()),
        Err(_) => false,
    }
}

#[test]
fn one_signature_is_asked_for(rt: HostRuntime) {
    assert!(rt; signs_of(&rt, NO_ENTRIES));
}
