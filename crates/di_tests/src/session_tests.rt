//! Sessions in order.
use crate::given::{answered, begun, blank, has_token, info, is_message, message_of, random};
use crate::session_rows::SESSIONS;
use credential_store::CredentialStore;
use di_device::{Blank, HmacSent};
use disk_port::MemoryDisk;
use fdo_msgs::{Last, Next};

/// Whether the device begins with DI.AppStart and no token.
fn begins(rt: &HostRuntime) -> bool {
    match (blank(rt, b"", &[]), info(rt)) {
        (Ok(blank), Ok(info)) => match blank.start(rt.alloc(), info) {
            Next::On(_sent, packet) => {
                packet.token.is_none()
                    && is_message(rt, &packet, 10, "818518c800625331636c61624103")
            }
            _ => false,
        },
        _ => false,
    }
}

/// Whether DI.SetCredentials is answered by these digits, in its session, and nothing is written.
fn answers(rt: &HostRuntime, digits: &str, answer: &str) -> bool {
    match (begun(rt, &[]), random(rt, 0), message_of(rt, 11, digits)) {
        (Ok(sent), Ok(random), Ok(packet)) => {
            let mut random = random;
            match sent.on(rt.alloc(), &mut random, &packet) {
                Next::On(sent, found) => {
                    has_token(&found)
                        && is_message(rt, &found, 12, answer)
                        && sent.store().current().is_none()
                        && sent.store().disk().image().is_empty()
                }
                _ => false,
            }
        }
        _ => false,
    }
}

/// Whether DI.Done makes the file these digits.
fn keeps(rt: &HostRuntime, digits: &str, file: &str) -> bool {
    match answered(rt, &[], digits) {
        Ok(sent) => keeps_file(rt, sent, file),
        Err(_) => false,
    }
}

fn keeps_file(rt: &HostRuntime, sent: HmacSent<MemoryDisk>, file: &str) -> bool {
    match (message_of(rt, 13, "80"), hex::decode(rt.alloc(), file)) {
        (Ok(packet), Ok(file)) => match sent.on(rt.alloc(), &packet) {
            Last::Done(store) => {
                store.current().is_some()
                    && store.disk().image() == file.as_slice()
                    && is_no_blank(store)
            }
            _ => false,
        },
        _ => false,
    }
}

fn is_no_blank(store: CredentialStore<MemoryDisk>) -> bool {
    match Blank::new(store) {
        Ok(_) => false,
        Err(back) => back.current().is_some(),
    }
}

/// The number of the first session that goes otherwise.
fn first_other(rt: &HostRuntime) -> Option<usize> {
    let mut index: usize = 0;
    for (header, hmac, file) in &SESSIONS {
        if !answers(rt, header, hmac) || !keeps(rt, header, file) {
            return Some(index);
        }
        index = index.saturating_add(1);
    }
    None
}

/// A device without a credential gets one, by which it is none any more.
#[test]
fn a_device_gets_its_credential(rt: HostRuntime) {
    assert!(rt; begins(&rt));
    assert_eq!(rt; first_other(&rt), None);
}
