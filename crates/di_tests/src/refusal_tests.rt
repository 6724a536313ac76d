//! What each state refuses, in the order of the causes, and that the store is as before.
use crate::given::{answered, begun, has_token, is_message, message, message_of, random};
use crate::session_rows::SESSIONS;
use cbor_core::NoMemory;
use credential_store::CredentialStore;
use di_device::HmacSent;
use disk_port::MemoryDisk;
use fdo_msgs::{Cause, Last, Next, Object, Packet};

/// Whether a refusal has the error message of these digits, in the session of the message, or none for the empty text.
fn is_reply(rt: &HostRuntime, reply: &Option<Packet>, digits: &str) -> bool {
    match reply {
        Some(packet) => has_token(packet) && is_message(rt, packet, 255, digits),
        None => digits.is_empty(),
    }
}

/// Whether a store has no credential, and its disk no byte and no call but those of its opening.
fn is_as_before(store: &CredentialStore<MemoryDisk>) -> bool {
    store.current().is_none() && store.disk().image().is_empty() && store.disk().calls() == 3
}

// ---- DI.SetCredentials

const HEADER: &str = "815820861865500707070707070707070707070707070780636c61628318c8004101f6";

/// The type and the body of a message, the draw that fails, and the cause and the error message.
type Row<'a> = (u8, &'a str, u64, Cause, &'a str);

static AT_HEADER: [Row; 18] = [
    // an error of the other end, whose code is told
    (255, "8518640b60f600", 0, Cause::Peer(100), ""),
    (255, "851901f40b60f600", 1, Cause::Peer(500), ""),
    (255, "80", 0, Cause::Peer(0), ""),
    (255, "", 0, Cause::Peer(0), ""),
    // another type
    (
        13,
        "80",
        0,
        Cause::Turn(13),
        "8518650d6f696e76616c6964206d657373616765f600",
    ),
    (
        10,
        "00",
        0,
        Cause::Turn(10),
        "8518650a6f696e76616c6964206d657373616765f600",
    ),
    (
        20,
        "80",
        1,
        Cause::Turn(20),
        "851865146f696e76616c6964206d657373616765f600",
    ),
    // the body
    (
        11,
        "",
        0,
        Cause::Body(0),
        "8518640b6c6d65737361676520626f6479f600",
    ),
    (
        11,
        "80",
        0,
        Cause::Body(0),
        "8518640b6c6d65737361676520626f6479f600",
    ),
    (
        11,
        "8100",
        0,
        Cause::Body(1),
        "8518640b6c6d65737361676520626f6479f600",
    ),
    (
        11,
        "814180",
        0,
        Cause::Body(1),
        "8518640b6c6d65737361676520626f6479f600",
    ),
    (
        11,
        "82414000",
        0,
        Cause::Body(0),
        "8518640b6c6d65737361676520626f6479f600",
    ),
    (
        11,
        "81414000",
        1,
        Cause::Body(1),
        "8518640b6c6d65737361676520626f6479f600",
    ),
    (
        11,
        "815820861865500707070707070707070707070707070780636c61628318c8004101f600",
        1,
        Cause::Body(35),
        "8518640b6c6d65737361676520626f6479f600",
    ),
    (
        11,
        "815820861866500707070707070707070707070707070780636c61628318c8004101f6",
        0,
        Cause::Body(1),
        "8518640b6c6d65737361676520626f6479f600",
    ),
    // the draws
    (
        11,
        HEADER,
        1,
        Cause::Outside(Object::Random),
        "851901f40b68696e7465726e616cf600",
    ),
    (
        11,
        HEADER,
        2,
        Cause::Outside(Object::Random),
        "851901f40b68696e7465726e616cf600",
    ),
    (
        11,
        "8158208618655007070707070707070707070707070707806362616c8318c8004101f6",
        2,
        Cause::Outside(Object::Random),
        "851901f40b68696e7465726e616cf600",
    ),
];

/// Whether a message where DI.SetCredentials is taken is refused so.
fn refuses_header(
    rt: &HostRuntime,
    packet: Result<Packet, NoMemory>,
    fail: u64,
    cause: Cause,
    reply: &str,
) -> bool {
    match (begun(rt, &[]), random(rt, fail), packet) {
        (Ok(sent), Ok(random), Ok(packet)) => {
            let mut random = random;
            match sent.on(rt.alloc(), &mut random, &packet) {
                Next::Stopped {
                    rest,
                    cause: found,
                    reply: answer,
                } => found == cause && is_reply(rt, &answer, reply) && is_as_before(&rest),
                _ => false,
            }
        }
        _ => false,
    }
}

fn first_at_header(rt: &HostRuntime) -> Option<usize> {
    let mut index: usize = 0;
    for (kind, body, fail, cause, reply) in &AT_HEADER {
        if !refuses_header(rt, message_of(rt, *kind, body), *fail, *cause, reply) {
            return Some(index);
        }
        index = index.saturating_add(1);
    }
    None
}

/// Each cause, and of two causes the first in their order, is told where a header is waited for.
#[test]
fn a_refused_header_leaves_the_store(rt: HostRuntime) {
    assert_eq!(rt; first_at_header(&rt), None);
}

/// A body of DI.SetCredentials whose DeviceInfo has so many letters, from 256 to 65,000.
fn long_body(rt: &HostRuntime, letters: usize) -> Result<Vec<u8>, NoMemory> {
    let mut body = Vec::new(rt.alloc());
    body.extend_from_slice(b"\x81\x59")?;
    push_short(&mut body, letters.saturating_add(31))?;
    body.extend_from_slice(b"\x86\x18\x65\x50")?;
    body.extend_from_slice(&[7; 16])?;
    body.extend_from_slice(b"\x80\x79")?;
    push_short(&mut body, letters)?;
    let end = body.len().saturating_add(letters);
    body.resize(end, 97)?;
    body.extend_from_slice(b"\x83\x18\xc8\x00\x41\x01\xf6")?;
    Ok(body)
}

/// A number in two bytes.
fn push_short(body: &mut Vec<u8>, number: usize) -> Result<(), NoMemory> {
    let number = u16::try_from(number).unwrap_or(0).to_be_bytes();
    body.extend_from_slice(number.as_slice())?;
    Ok(())
}

fn long_message(rt: &HostRuntime, letters: usize) -> Result<Packet, NoMemory> {
    match long_body(rt, letters) {
        Ok(body) => message(rt, 11, &body),
        Err(fault) => Err(fault),
    }
}

fn takes_long(rt: &HostRuntime, letters: usize) -> bool {
    match (begun(rt, &[]), random(rt, 0), long_message(rt, letters)) {
        (Ok(sent), Ok(random), Ok(packet)) => {
            let mut random = random;
            match sent.on(rt.alloc(), &mut random, &packet) {
                Next::On(sent, answer) => has_token(&answer) && is_as_before(sent.store()),
                _ => false,
            }
        }
        _ => false,
    }
}

/// A credential has at most 8,100 bytes. A failing draw comes before that.
#[test]
fn a_credential_that_is_too_big_is_refused(rt: HostRuntime) {
    let size = Cause::Size(8100);
    let reply = "8518650b6f696e76616c6964206d657373616765f600";
    let random = Cause::Outside(Object::Random);
    let failed = "851901f40b68696e7465726e616cf600";
    assert!(rt; takes_long(&rt, 8005));
    assert!(rt; refuses_header(&rt, long_message(&rt, 8006), 0, size, reply));
    assert!(rt; refuses_header(&rt, long_message(&rt, 8006), 2, random, failed));
}

/// Whether each proper front of a body of DI.SetCredentials is refused, with the place of what is cut.
fn refuses_fronts(rt: &HostRuntime, body: &[u8]) -> bool {
    for length in 0..body.len() {
        let place = if length == 0 { 0 } else { 1 };
        let front = message(rt, 11, body.split_at(length).0);
        let reply = "8518640b6c6d65737361676520626f6479f600";
        if !refuses_header(rt, front, 0, Cause::Body(place), reply) {
            return false;
        }
    }
    true
}

fn refuses_fronts_of(rt: &HostRuntime, digits: &str) -> bool {
    match hex::decode(rt.alloc(), digits) {
        Ok(body) => refuses_fronts(rt, &body),
        Err(_) => false,
    }
}

/// A body that is cut is refused.
#[test]
fn a_header_that_is_cut_is_refused(rt: HostRuntime) {
    for (header, _, _) in &SESSIONS {
        assert!(rt; refuses_fronts_of(&rt, header));
    }
}

// ---- DI.Done

static AT_DONE: [Row; 12] = [
    (255, "8518640c60f600", 0, Cause::Peer(100), ""),
    (255, "8000", 4, Cause::Peer(0), ""),
    (
        11,
        HEADER,
        0,
        Cause::Turn(11),
        "8518650b6f696e76616c6964206d657373616765f600",
    ),
    (
        10,
        "00",
        4,
        Cause::Turn(10),
        "8518650a6f696e76616c6964206d657373616765f600",
    ),
    (
        20,
        "80",
        0,
        Cause::Turn(20),
        "851865146f696e76616c6964206d657373616765f600",
    ),
    (
        13,
        "",
        0,
        Cause::Body(0),
        "8518640d6c6d65737361676520626f6479f600",
    ),
    (
        13,
        "00",
        0,
        Cause::Body(0),
        "8518640d6c6d65737361676520626f6479f600",
    ),
    (
        13,
        "8100",
        0,
        Cause::Body(0),
        "8518640d6c6d65737361676520626f6479f600",
    ),
    (
        13,
        "8000",
        0,
        Cause::Body(1),
        "8518640d6c6d65737361676520626f6479f600",
    ),
    (
        13,
        "a0",
        0,
        Cause::Body(0),
        "8518640d6c6d65737361676520626f6479f600",
    ),
    (
        13,
        "9f",
        0,
        Cause::Body(1),
        "8518640d6c6d65737361676520626f6479f600",
    ),
    (
        13,
        "8000",
        4,
        Cause::Body(1),
        "8518640d6c6d65737361676520626f6479f600",
    ),
];

/// Whether a message where DI.Done is taken is refused so.
fn refuses_done(
    rt: &HostRuntime,
    packet: Result<Packet, NoMemory>,
    fail: u64,
    cause: Cause,
    reply: &str,
) -> bool {
    match (answered(rt, &[fail], HEADER), packet) {
        (Ok(sent), Ok(packet)) => match sent.on(rt.alloc(), &packet) {
            Last::Stopped {
                rest,
                cause: found,
                reply: answer,
            } => found == cause && is_reply(rt, &answer, reply) && is_as_before(&rest),
            _ => false,
        },
        _ => false,
    }
}

fn first_at_done(rt: &HostRuntime) -> Option<usize> {
    let mut index: usize = 0;
    for (kind, body, fail, cause, reply) in &AT_DONE {
        if !refuses_done(rt, message_of(rt, *kind, body), *fail, *cause, reply) {
            return Some(index);
        }
        index = index.saturating_add(1);
    }
    None
}

/// Each cause, and of two causes the first in their order, is told where the end is waited for.
#[test]
fn a_refused_end_leaves_the_store(rt: HostRuntime) {
    assert_eq!(rt; first_at_done(&rt), None);
}

/// Whether the store is to be opened again where its disk fails at a call of the change, and the file has no credential before
/// the last one.
fn reopens(rt: &HostRuntime, call: u64) -> bool {
    match answered(rt, &[call.saturating_add(3)], HEADER) {
        Ok(sent) => reopens_from(rt, sent, call),
        Err(_) => false,
    }
}

fn reopens_from(rt: &HostRuntime, sent: HmacSent<MemoryDisk>, call: u64) -> bool {
    match message_of(rt, 13, "80") {
        Ok(packet) => match sent.on(rt.alloc(), &packet) {
            Last::Reopen { disk, reply } => {
                has_token(&reply)
                    && is_message(rt, &reply, 255, "851901f40d68696e7465726e616cf600")
                    && has_credential(rt, disk) == (call == 6)
            }
            _ => false,
        },
        Err(_) => false,
    }
}

fn has_credential(rt: &HostRuntime, disk: MemoryDisk) -> bool {
    match CredentialStore::open(rt.alloc(), disk) {
        Ok(store) => store.current().is_some(),
        Err(_) => false,
    }
}

/// A disk that fails at any call of the change is told, and holds no credential or this one.
#[test]
fn a_disk_that_fails_is_handed_back(rt: HostRuntime) {
    for call in 1..7u64 {
        assert!(rt; reopens(&rt, call));
    }
}
