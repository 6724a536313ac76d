//! Which fault or break of a voucher is told.
use crate::break_rows::{BROKEN, CHANGED, ENDS};
use crate::given::lab;
use crate::voucher_rows::FIVE;
use suite_port::LabSuite;
use voucher_chain::{ChainFault, MOST_ENTRIES, Voucher, check_chain, read_voucher};

/// The first fault or break of bytes, or None where they are a voucher whose chain holds.
pub(crate) fn verdict(rt: &HostRuntime, bytes: &[u8]) -> Option<ChainFault> {
    let mut suite = lab(rt);
    verdict_by(rt, &mut suite, bytes)
}

fn verdict_by(rt: &HostRuntime, suite: &mut LabSuite, bytes: &[u8]) -> Option<ChainFault> {
    match read_voucher(rt.alloc(), bytes) {
        Ok(voucher) => first_break(rt, suite, &voucher),
        Err(fault) => Some(fault),
    }
}

fn first_break(rt: &HostRuntime, suite: &mut LabSuite, voucher: &Voucher) -> Option<ChainFault> {
    if voucher.entries.as_list().len() > MOST_ENTRIES {
        return Some(ChainFault::TooLong);
    }
    check_chain(rt.alloc(), suite, voucher).err()
}

/// The same of bytes given by their digits.
fn verdict_of(rt: &HostRuntime, digits: &str) -> Option<ChainFault> {
    match hex::decode(rt.alloc(), digits) {
        Ok(bytes) => verdict(rt, bytes.as_slice()),
        Err(_) => Some(ChainFault::NoMatch),
    }
}

#[test]
fn a_chain_holds(rt: HostRuntime) {
    assert_eq!(rt; verdict_of(&rt, FIVE), None);
}

// ---- one clause broken

/// The number of the first row whose break is not told.
fn first_untold(rt: &HostRuntime) -> Option<usize> {
    let mut index: usize = 0;
    for (fault, digits) in &BROKEN {
        if verdict_of(rt, digits) != Some(*fault) {
            return Some(index);
        }
        index = index.saturating_add(1);
    }
    None
}

/// Each clause, broken alone at the first, the middle and the last entry, is told with its entry, and so is each break of
/// the certificates.
#[test]
fn a_broken_clause_is_told(rt: HostRuntime) {
    assert_eq!(rt; first_untold(&rt), None);
}

// ---- a changed byte

/// The first fault or break of bytes in which one is changed by these bits.
fn changed(rt: &HostRuntime, bytes: &mut [u8], place: usize, bits: u8) -> Option<ChainFault> {
    if let Some(byte) = bytes.get_mut(place) {
        *byte = *byte ^ bits;
    }
    verdict(rt, bytes)
}

fn changed_of(rt: &HostRuntime, digits: &str, place: usize, bits: u8) -> Option<ChainFault> {
    match hex::decode(rt.alloc(), digits) {
        Ok(bytes) => {
            let mut bytes = bytes;
            changed(rt, bytes.as_mut_slice(), place, bits)
        }
        Err(_) => Some(ChainFault::NoMatch),
    }
}

/// The place of the first row whose fault is not told.
fn first_unseen(rt: &HostRuntime) -> Option<usize> {
    for (place, bits, fault) in &CHANGED {
        if changed_of(rt, FIVE, *place, *bits) != Some(*fault) {
            return Some(*place);
        }
    }
    None
}

/// A changed byte is told by what it breaks first: each clause at each of five entries, and faults of the form.
#[test]
fn a_changed_byte_is_told(rt: HostRuntime) {
    assert_eq!(rt; first_unseen(&rt), None);
}

// ---- what is cut off

/// Whether the first bytes of a voucher, so many, are at fault at this place.
fn is_cut(rt: &HostRuntime, bytes: &[u8], count: usize, place: usize) -> bool {
    match bytes.get(..count) {
        Some(front) => verdict(rt, front) == Some(ChainFault::BadShape(place)),
        None => false,
    }
}

/// The length of the first proper prefix that is not refused at its place.
fn first_uncut(rt: &HostRuntime, bytes: &[u8]) -> Option<usize> {
    let mut place: usize = 0;
    for end in &ENDS {
        for count in place..*end {
            if !is_cut(rt, bytes, count, place) {
                return Some(count);
            }
        }
        place = *end;
    }
    None
}

fn first_uncut_of(rt: &HostRuntime, digits: &str) -> Option<usize> {
    match hex::decode(rt.alloc(), digits) {
        Ok(bytes) => first_uncut(rt, bytes.as_slice()),
        Err(_) => Some(0),
    }
}

/// Each proper prefix of a voucher is refused, at the place of the head that is cut off or whose content is.
#[test]
fn a_prefix_is_refused_at_its_place(rt: HostRuntime) {
    assert_eq!(rt; first_uncut_of(&rt, FIVE), None);
}
