//! Copies of vouchers and of their parts, and lists that are given back.
use crate::tool_tests::is_shown;
use crate::voucher_rows::{SHOWN, SHOWN_TEXT};
use voucher_chain::{Entries, RvDirective, RvInfo, Voucher, read_voucher};

/// Whether a copy is shown as the voucher is, and has its bytes.
fn is_copied(rt: &HostRuntime, voucher: &Voucher) -> bool {
    match voucher.copy(rt.alloc()) {
        Ok(copy) => {
            copy.raw.as_list() == voucher.raw.as_list()
                && copy.hmac_raw.as_list() == voucher.hmac_raw.as_list()
                && is_shown(rt, &copy, SHOWN_TEXT)
        }
        Err(_) => false,
    }
}

/// Whether the last entry that is given back has these bytes, and there are two.
fn gives_two(entries: Entries, last: &[u8]) -> bool {
    let mut all = entries.into_vec();
    match all.pop() {
        Some(entry) => entry.raw.as_list() == last && all.len() == 1,
        None => false,
    }
}

fn gives_entries(rt: &HostRuntime, voucher: &Voucher) -> bool {
    match voucher.entries.as_list() {
        [_first, second] => match voucher.entries.copy(rt.alloc()) {
            Ok(entries) => gives_two(entries, second.raw.as_list()),
            Err(_) => false,
        },
        _ => false,
    }
}

/// Whether the last of three instructions that are given back is RVDelaysec (13) with 10.
fn gives_instructions(directive: RvDirective) -> bool {
    let mut all = directive.into_vec();
    match all.pop() {
        Some(last) => {
            last.variable == 13
                && matches!(&last.value, Some(value) if value.as_list() == b"\x0a".as_slice())
                && all.len() == 2
        }
        None => false,
    }
}

fn gives_directives(rv: RvInfo) -> bool {
    let mut all = rv.into_vec();
    match all.pop() {
        Some(last) => gives_instructions(last) && all.len() == 2,
        None => false,
    }
}

fn gives_rv(rt: &HostRuntime, voucher: &Voucher) -> bool {
    match voucher.header.rv.copy(rt.alloc()) {
        Ok(rv) => gives_directives(rv),
        Err(_) => false,
    }
}

fn is_the_same(rt: &HostRuntime, bytes: &[u8]) -> bool {
    match read_voucher(rt.alloc(), bytes) {
        Ok(voucher) => {
            is_copied(rt, &voucher) && gives_entries(rt, &voucher) && gives_rv(rt, &voucher)
        }
        Err(_) => false,
    }
}

fn is_the_same_of(rt: &HostRuntime, digits: &str) -> bool {
    match hex::decode(rt.alloc(), digits) {
        Ok(bytes) => is_the_same(rt, bytes.as_slice()),
        Err(_) => false,
    }
}

/// A copy is shown as the voucher is, and what is given back has its parts in their order.
#[test]
fn a_copy_is_the_same(rt: HostRuntime) {
    assert!(rt; is_the_same_of(&rt, SHOWN));
}
