//! Single entries, checked by themselves.
use crate::given::lab;
use crate::voucher_rows::FIVE;
use key_codec::PublicKey;
use voucher_chain::{ChainFault, Entry, Header, Voucher, check_entry, read_voucher};

/// The first clause of an entry that does not hold, or None where it goes on from two texts in a row and a key.
fn entry_break(
    rt: &HostRuntime,
    index: u8,
    signer: &PublicKey,
    first: &[u8],
    second: &[u8],
    header: &Header,
    entry: &Entry,
) -> Option<ChainFault> {
    let mut suite = lab(rt);
    check_entry(
        rt.alloc(),
        &mut suite,
        index,
        signer,
        first,
        second,
        header,
        entry,
    )
    .err()
}

/// Whether an entry goes on from these texts and this key, and not from other texts, under another header or from another
/// key, each of which is told with the number given.
fn goes_on(
    rt: &HostRuntime,
    signer: &PublicKey,
    first: &[u8],
    second: &[u8],
    voucher: &Voucher,
    other: &Header,
    entry: &Entry,
) -> bool {
    let header = &voucher.header;
    entry_break(rt, 0, signer, first, second, header, entry).is_none()
        && entry_break(rt, 7, signer, first, first, header, entry)
            == Some(ChainFault::BadPrevHash(7))
        && entry_break(rt, 255, signer, first, second, other, entry)
            == Some(ChainFault::BadInfoHash(255))
        && entry_break(rt, 3, &entry.key, first, second, header, entry)
            == Some(ChainFault::BadSignature(3))
}

/// Whether the first two of a voucher's entries go on so, the first from two texts and the second from one.
fn go_on(rt: &HostRuntime, voucher: &Voucher, other: &Header) -> bool {
    let front = voucher.header.raw.as_list();
    let hmac = voucher.hmac_raw.as_list();
    match voucher.entries.as_list() {
        [first, second, ..] => {
            goes_on(rt, &voucher.header.key, front, hmac, voucher, other, first)
                && goes_on(
                    rt,
                    &first.key,
                    first.raw.as_list(),
                    b"",
                    voucher,
                    other,
                    second,
                )
        }
        _ => false,
    }
}

/// The header with another last byte of its GUID.
fn with_guid(header: Header) -> Header {
    let mut header = header;
    header.guid[15] = header.guid[15] ^ 1;
    header
}

fn go_on_in(rt: &HostRuntime, voucher: &Voucher) -> bool {
    match voucher.header.copy(rt.alloc()) {
        Ok(header) => go_on(rt, voucher, &with_guid(header)),
        Err(_) => false,
    }
}

fn are_read_and_go_on(rt: &HostRuntime, bytes: &[u8]) -> bool {
    match read_voucher(rt.alloc(), bytes) {
        Ok(voucher) => go_on_in(rt, &voucher),
        Err(_) => false,
    }
}

fn go_on_of(rt: &HostRuntime, digits: &str) -> bool {
    match hex::decode(rt.alloc(), digits) {
        Ok(bytes) => are_read_and_go_on(rt, bytes.as_slice()),
        Err(_) => false,
    }
}

#[test]
fn an_entry_goes_on(rt: HostRuntime) {
    assert!(rt; go_on_of(&rt, FIVE));
}
