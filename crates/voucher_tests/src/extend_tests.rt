//! Vouchers that grow.
ghost use Rattle.std.specs.Prelude.{◌≡◌, true, IsTrue};
ghost use Rattle.cbor_core.specs.Deterministic.{det};
ghost use Rattle.key_codec.specs.Key.{item_of_key};
ghost use Rattle.suite_port.specs.Lab.{lab_held};
ghost use Rattle.voucher_chain.specs.Chain.{last_key};

use crate::break_tests::verdict;
use crate::given::{failing, key, lab, loads};
use crate::voucher_rows::{NO_ENTRIES, ONE_ENTRY, STRONG, STRONGER};
use key_codec::{PublicKey, key_bytes};
use suite_port::{LabSuite, Signer};
use voucher_chain::{ChainFault, MOST_ENTRIES, Voucher, extend, owner_key, read_voucher};

/// Whether the suite holds the key of a voucher's last owner.
fn holds_owner(rt: &HostRuntime, suite: &LabSuite, voucher: &Voucher) -> bool
    ensures { IsTrue result → lab_held suite.now (det (item_of_key (last_key voucher.now.header.key voucher.now.entries))) ≡ true }
{
    match key_bytes(rt.alloc(), owner_key(voucher)) {
        Ok(owner) => suite.holds(owner.as_list()),
        Err(_) => false,
    }
}

/// The longer voucher, where the suite holds the last owner's key.
fn longer(
    rt: &HostRuntime,
    suite: &mut LabSuite,
    voucher: &Voucher,
    next: &PublicKey,
) -> Result<Voucher, ChainFault> {
    if holds_owner(rt, suite, voucher) && voucher.entries.as_list().len() <= MOST_ENTRIES {
        extend(rt.alloc(), suite, voucher, next)
    } else {
        Err(ChainFault::NoMatch)
    }
}

/// Puts bytes in the place of others.
fn put(into: &mut Vec<u8>, bytes: &[u8]) -> Option<ChainFault> {
    into.clear();
    match into.extend_from_slice(bytes) {
        Ok(()) => None,
        Err(_) => Some(ChainFault::NoMemory),
    }
}

fn put_longer(
    rt: &HostRuntime,
    suite: &mut LabSuite,
    bytes: &mut Vec<u8>,
    voucher: &Voucher,
    next: &PublicKey,
) -> Option<ChainFault> {
    match longer(rt, suite, voucher, next) {
        Ok(longer) => put(bytes, longer.raw.as_list()),
        Err(fault) => Some(fault),
    }
}

fn grow_to(
    rt: &HostRuntime,
    suite: &mut LabSuite,
    bytes: &mut Vec<u8>,
    next: &PublicKey,
) -> Option<ChainFault> {
    match read_voucher(rt.alloc(), bytes.as_slice()) {
        Ok(voucher) => put_longer(rt, suite, bytes, &voucher, next),
        Err(fault) => Some(fault),
    }
}

/// Adds an entry for the laboratory key of these bytes to the bytes of a voucher, or tells why not and leaves them.
fn grow(
    rt: &HostRuntime,
    suite: &mut LabSuite,
    bytes: &mut Vec<u8>,
    next: &[u8],
) -> Option<ChainFault> {
    match key(rt, next) {
        Ok(next) => grow_to(rt, suite, bytes, &next),
        Err(_) => Some(ChainFault::NoMemory),
    }
}

// ---- byte for byte

/// Whether bytes have these digits.
fn has_digits(rt: &HostRuntime, bytes: &[u8], digits: &str) -> bool {
    match hex::encode(rt.alloc(), bytes) {
        Ok(text) => text.as_str() == digits,
        Err(_) => false,
    }
}

/// Whether a voucher, extended by the holder of a private key, has these digits.
fn extends(rt: &HostRuntime, from: &str, private: &[u8], next: &[u8], digits: &str) -> bool {
    let mut suite = lab(rt);
    loads(rt, &mut suite, private) && extends_by(rt, &mut suite, from, next, digits)
}

fn extends_by(
    rt: &HostRuntime,
    suite: &mut LabSuite,
    from: &str,
    next: &[u8],
    digits: &str,
) -> bool {
    match hex::decode(rt.alloc(), from) {
        Ok(bytes) => {
            let mut bytes = bytes;
            grow(rt, suite, &mut bytes, next).is_none() && has_digits(rt, bytes.as_slice(), digits)
        }
        Err(_) => false,
    }
}

/// A voucher grows as a writer in Python has it, byte for byte, with hashes of SHA-256 and of SHA-384.
#[test]
fn a_voucher_grows(rt: HostRuntime) {
    assert!(rt; extends(&rt, NO_ENTRIES, b"\x01", b"\x02", ONE_ENTRY));
    assert!(rt; extends(&rt, STRONG, b"\x02", b"\x04", STRONGER));
}

// ---- a signer that fails

/// Whether the first growth of a voucher fails with its signer, and the second, of the same bytes, succeeds.
fn fails_once(rt: &HostRuntime, suite: &mut LabSuite, digits: &str, grown: &str) -> bool {
    match hex::decode(rt.alloc(), digits) {
        Ok(bytes) => {
            let mut bytes = bytes;
            grow(rt, suite, &mut bytes, b"\x02") == Some(ChainFault::Failed)
                && has_digits(rt, bytes.as_slice(), digits)
                && grow(rt, suite, &mut bytes, b"\x02").is_none()
                && has_digits(rt, bytes.as_slice(), grown)
        }
        Err(_) => false,
    }
}

fn signer_fails(rt: &HostRuntime) -> bool {
    let mut suite = failing(rt, 2);
    loads(rt, &mut suite, b"\x01") && fails_once(rt, &mut suite, NO_ENTRIES, ONE_ENTRY)
}

#[test]
fn a_signer_that_fails(rt: HostRuntime) {
    assert!(rt; signer_fails(&rt));
}

// ---- 255 entries

/// Whether a voucher grows by 255 entries, which hold, and by no more.
fn grows_to_255(rt: &HostRuntime, suite: &mut LabSuite, bytes: &mut Vec<u8>) -> bool {
    for _entry in 0..255 {
        if grow(rt, suite, bytes, b"\x01").is_some() {
            return false;
        }
    }
    verdict(rt, bytes.as_slice()).is_none()
        && grow(rt, suite, bytes, b"\x01") == Some(ChainFault::TooLong)
}

fn joined(into: &mut Vec<u8>, front: &[u8], entries: &[u8], more: &[u8]) -> bool {
    into.extend_from_slice(front).is_ok()
        && into.extend_from_slice(b"\x99\x01\x00").is_ok()
        && into.extend_from_slice(entries).is_ok()
        && into.extend_from_slice(more).is_ok()
}

/// Whether the entries of a voucher of 255 with one more are too many to be read. In one without entries their head is
/// the last byte, and there stands the head of two bytes for 255; `one` has an entry after its first 129 bytes.
fn is_too_long(rt: &HostRuntime, bytes: &[u8], one: &[u8]) -> bool {
    match (bytes.get(..128), bytes.get(130..), one.get(129..)) {
        (Some(front), Some(entries), Some(more)) => {
            let mut all = Vec::new(rt.alloc());
            joined(&mut all, front, entries, more)
                && verdict(rt, all.as_slice()) == Some(ChainFault::TooLong)
        }
        _ => false,
    }
}

fn is_too_long_of(rt: &HostRuntime, bytes: &[u8], digits: &str) -> bool {
    match hex::decode(rt.alloc(), digits) {
        Ok(one) => is_too_long(rt, bytes, one.as_slice()),
        Err(_) => false,
    }
}

fn holds_255(rt: &HostRuntime, suite: &mut LabSuite, digits: &str) -> bool {
    match hex::decode(rt.alloc(), digits) {
        Ok(bytes) => {
            let mut bytes = bytes;
            grows_to_255(rt, suite, &mut bytes) && is_too_long_of(rt, bytes.as_slice(), ONE_ENTRY)
        }
        Err(_) => false,
    }
}

fn has_255(rt: &HostRuntime) -> bool {
    let mut suite = lab(rt);
    loads(rt, &mut suite, b"\x01") && holds_255(rt, &mut suite, NO_ENTRIES)
}

/// A voucher of 255 entries holds and grows no more, and 256 are not read.
#[test]
fn at_most_255_entries(rt: HostRuntime) {
    assert!(rt; has_255(&rt));
}
