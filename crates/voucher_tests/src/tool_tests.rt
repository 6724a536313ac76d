//! The texts of vouchers, and longer vouchers as bytes.
use crate::given::{key, lab, loads};
use crate::voucher_rows::{
    FIVE, FIVE_TEXT, NO_ENTRIES, ONE_ENTRY, SHOWN, SHOWN_TEXT, STRONG, STRONG_TEXT,
};
use key_codec::PublicKey;
use suite_port::LabSuite;
use voucher_chain::{ChainFault, MOST_ENTRIES, Voucher, read_voucher};
use voucher_tool::{check, extend_file, refusal, show};

// ---- what is shown

pub(crate) fn is_shown(rt: &HostRuntime, voucher: &Voucher, text: &str) -> bool {
    match show(rt.alloc(), voucher) {
        Ok(shown) => shown.as_list() == text.as_bytes(),
        Err(_) => false,
    }
}

fn shows(rt: &HostRuntime, bytes: &[u8], text: &str) -> bool {
    match read_voucher(rt.alloc(), bytes) {
        Ok(voucher) => is_shown(rt, &voucher, text),
        Err(_) => false,
    }
}

/// Whether the voucher of these digits is shown so.
fn shows_of(rt: &HostRuntime, digits: &str, text: &str) -> bool {
    match hex::decode(rt.alloc(), digits) {
        Ok(bytes) => shows(rt, bytes.as_slice(), text),
        Err(_) => false,
    }
}

#[test]
fn vouchers_are_shown(rt: HostRuntime) {
    assert!(rt; shows_of(&rt, SHOWN, SHOWN_TEXT));
    assert!(rt; shows_of(&rt, STRONG, STRONG_TEXT));
}

// ---- what is checked

fn is_told(rt: &HostRuntime, suite: &mut LabSuite, voucher: &Voucher, text: &str) -> bool {
    if voucher.entries.as_list().len() > MOST_ENTRIES {
        return false;
    }
    match check(rt.alloc(), suite, voucher) {
        Ok(told) => told.as_list() == text.as_bytes(),
        Err(_) => false,
    }
}

fn is_refused(
    rt: &HostRuntime,
    suite: &mut LabSuite,
    voucher: &Voucher,
    wanted: ChainFault,
) -> bool {
    if voucher.entries.as_list().len() > MOST_ENTRIES {
        return false;
    }
    match check(rt.alloc(), suite, voucher) {
        Ok(_) => false,
        Err(fault) => fault == wanted,
    }
}

/// Whether the check of a voucher gives this text.
fn checks(rt: &HostRuntime, suite: &mut LabSuite, bytes: &[u8], text: &str) -> bool {
    match read_voucher(rt.alloc(), bytes) {
        Ok(voucher) => is_told(rt, suite, &voucher, text),
        Err(_) => false,
    }
}

/// Whether the check of a voucher gives this refusal.
fn refuses(rt: &HostRuntime, suite: &mut LabSuite, bytes: &[u8], wanted: ChainFault) -> bool {
    match read_voucher(rt.alloc(), bytes) {
        Ok(voucher) => is_refused(rt, suite, &voucher, wanted),
        Err(_) => false,
    }
}

/// Changes the last byte.
fn break_last(bytes: &mut [u8]) {
    if let Some(last) = bytes.last_mut() {
        *last = *last ^ 1;
    }
}

fn is_checked(rt: &HostRuntime, suite: &mut LabSuite, bytes: &mut [u8]) -> bool {
    let holds = checks(rt, suite, bytes, FIVE_TEXT);
    break_last(bytes);
    holds && refuses(rt, suite, bytes, ChainFault::BadSignature(4))
}

fn is_checked_of(rt: &HostRuntime, suite: &mut LabSuite, digits: &str) -> bool {
    match hex::decode(rt.alloc(), digits) {
        Ok(bytes) => {
            let mut bytes = bytes;
            is_checked(rt, suite, bytes.as_mut_slice())
        }
        Err(_) => false,
    }
}

fn is_checked_by_lab(rt: &HostRuntime, digits: &str) -> bool {
    let mut suite = lab(rt);
    is_checked_of(rt, &mut suite, digits)
}

#[test]
fn a_voucher_is_checked(rt: HostRuntime) {
    assert!(rt; is_checked_by_lab(&rt, FIVE));
}

// ---- what is extended

/// Whether bytes have these digits.
fn has_digits(rt: &HostRuntime, bytes: &[u8], digits: &str) -> bool {
    match hex::encode(rt.alloc(), bytes) {
        Ok(text) => text.as_str() == digits,
        Err(_) => false,
    }
}

fn is_longer(
    rt: &HostRuntime,
    suite: &mut LabSuite,
    bytes: &[u8],
    next: &PublicKey,
    digits: &str,
) -> bool {
    match extend_file(rt.alloc(), suite, bytes, next) {
        Ok(longer) => has_digits(rt, longer.as_list(), digits),
        Err(_) => false,
    }
}

fn is_not_longer(
    rt: &HostRuntime,
    suite: &mut LabSuite,
    bytes: &[u8],
    next: &PublicKey,
    wanted: ChainFault,
) -> bool {
    match extend_file(rt.alloc(), suite, bytes, next) {
        Ok(_) => false,
        Err(fault) => fault == wanted,
    }
}

/// Whether the holder of the private key 01 makes this voucher longer, and nobody makes one longer whose last byte, the
/// head of its entries, is cut off.
fn grows(rt: &HostRuntime, bytes: &[u8], next: &PublicKey, digits: &str) -> bool {
    let mut suite = lab(rt);
    loads(rt, &mut suite, b"\x01")
        && is_longer(rt, &mut suite, bytes, next, digits)
        && is_cut(rt, &mut suite, bytes, next)
}

fn is_cut(rt: &HostRuntime, suite: &mut LabSuite, bytes: &[u8], next: &PublicKey) -> bool {
    let end = bytes.len().saturating_sub(1);
    match bytes.get(..end) {
        Some(front) => is_not_longer(rt, suite, front, next, ChainFault::BadShape(end)),
        None => false,
    }
}

/// Whether the holder of the private key 02 is refused, who does not own this voucher.
fn is_refused_to_others(rt: &HostRuntime, bytes: &[u8], next: &PublicKey) -> bool {
    let mut suite = lab(rt);
    loads(rt, &mut suite, b"\x02")
        && is_not_longer(rt, &mut suite, bytes, next, ChainFault::BadSignature(0))
}

fn grows_to(rt: &HostRuntime, bytes: &[u8], digits: &str) -> bool {
    match key(rt, b"\x02") {
        Ok(next) => { grows(rt, bytes, &next, digits) && is_refused_to_others(rt, bytes, &next) }
        Err(_) => false,
    }
}

fn grows_of(rt: &HostRuntime, digits: &str, longer: &str) -> bool {
    match hex::decode(rt.alloc(), digits) {
        Ok(bytes) => grows_to(rt, bytes.as_slice(), longer),
        Err(_) => false,
    }
}

#[test]
fn a_file_is_extended(rt: HostRuntime) {
    assert!(rt; grows_of(&rt, NO_ENTRIES, ONE_ENTRY));
}

// ---- refusals

static REFUSALS: [(ChainFault, &str); 10] = [
    (ChainFault::BadCertHash, "refused badcerthash\n"),
    (ChainFault::BadPrevHash(1), "refused badprevhash 1\n"),
    (ChainFault::BadInfoHash(0), "refused badinfohash 0\n"),
    (ChainFault::BadSignature(254), "refused badsignature 254\n"),
    (ChainFault::NoAlgorithm(10), "refused noalgorithm 10\n"),
    (ChainFault::TooLong, "refused toolong\n"),
    (ChainFault::Failed, "refused failed\n"),
    (ChainFault::BadShape(0), ""),
    (ChainFault::NoMatch, ""),
    (ChainFault::NoMemory, ""),
];

/// Whether a refusal has this text; where it is empty, none.
fn says(rt: &HostRuntime, fault: ChainFault, text: &str) -> bool {
    match refusal(rt.alloc(), fault) {
        Ok(Some(line)) => line.as_list() == text.as_bytes(),
        Ok(None) => text.is_empty(),
        Err(_) => false,
    }
}

/// The number of the first refusal with another text.
fn first_unsaid(rt: &HostRuntime) -> Option<usize> {
    let mut index: usize = 0;
    for (fault, text) in &REFUSALS {
        if !says(rt, *fault, *text) {
            return Some(index);
        }
        index = index.saturating_add(1);
    }
    None
}

#[test]
fn refusals_have_their_texts(rt: HostRuntime) {
    assert_eq!(rt; first_unsaid(&rt), None);
}
