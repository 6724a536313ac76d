//! Devices, messages and draws for the tests.
use cbor_core::{Blob, NoMemory, Text};
use credential_store::CredentialStore;
use di_device::{AppStartSent, Blank, HmacSent};
use disk_port::MemoryDisk;
use fdo_msgs::{MfgInfo, Next, Packet, Token};
use fdo_ports::ListRandom;
use key_codec::KeyBody;

/// A message with the token `t`.
pub(crate) fn message(rt: &HostRuntime, kind: u8, body: &[u8]) -> Result<Packet, NoMemory> {
    match (
        Vec::from_slice(rt.alloc(), b"t"),
        Blob::from_slice(rt.alloc(), body),
    ) {
        (Ok(token), Ok(body)) => Ok(Packet {
            token: Token::new(token),
            kind,
            body,
        }),
        _ => Err(NoMemory),
    }
}

/// A message whose body is given by its digits.
pub(crate) fn message_of(rt: &HostRuntime, kind: u8, digits: &str) -> Result<Packet, NoMemory> {
    match hex::decode(rt.alloc(), digits) {
        Ok(body) => message(rt, kind, &body),
        Err(_) => Err(NoMemory),
    }
}

/// Whether a message has the token `t`.
pub(crate) fn has_token(packet: &Packet) -> bool {
    match &packet.token {
        Some(token) => token.as_list() == b"t".as_slice(),
        None => false,
    }
}

/// Whether a message is of a type and has a body that is given by its digits.
pub(crate) fn is_message(rt: &HostRuntime, packet: &Packet, kind: u8, digits: &str) -> bool {
    match hex::decode(rt.alloc(), digits) {
        Ok(body) => packet.kind == kind && packet.body.as_list() == body.as_slice(),
        Err(_) => false,
    }
}

/// The draws 16 bytes 11 and 16 bytes 22, of which the one of a number, from 1, fails.
pub(crate) fn random(rt: &HostRuntime, fail: u64) -> Result<ListRandom, NoMemory> {
    let mut content = Vec::new(rt.alloc());
    content.push([0x11; 16])?;
    content.push([0x22; 16])?;
    let mut numbers = Vec::new(rt.alloc());
    numbers.push(fail)?;
    Ok(ListRandom::new(content, numbers))
}

/// What the device says of itself.
pub(crate) fn info(rt: &HostRuntime) -> Result<MfgInfo, NoMemory> {
    match (
        Text::from_str(rt.alloc(), "S1"),
        Text::from_str(rt.alloc(), "lab"),
        Blob::from_slice(rt.alloc(), b"\x03"),
    ) {
        (Ok(serial), Ok(info), Ok(body)) => Ok(MfgInfo {
            pk_type: 200,
            pk_enc: 0,
            serial,
            info,
            body: KeyBody::Bytes(body),
        }),
        _ => Err(NoMemory),
    }
}

/// A device over the disk with an image, on which the calls of these numbers fail.
pub(crate) fn blank(
    rt: &HostRuntime,
    image: &[u8],
    fail: &[u64],
) -> Result<Blank<MemoryDisk>, NoMemory> {
    match (
        Vec::from_slice(rt.alloc(), image),
        Vec::from_slice(rt.alloc(), fail),
    ) {
        (Ok(image), Ok(fail)) => blank_on(rt, MemoryDisk::new(image, fail)),
        _ => Err(NoMemory),
    }
}

fn blank_on(rt: &HostRuntime, disk: MemoryDisk) -> Result<Blank<MemoryDisk>, NoMemory> {
    match CredentialStore::open(rt.alloc(), disk) {
        Ok(store) => match Blank::new(store) {
            Ok(blank) => Ok(blank),
            Err(_) => Err(NoMemory),
        },
        Err(_) => Err(NoMemory),
    }
}

/// A device that has begun, over an empty disk on which the calls of these numbers fail; its opening makes three.
pub(crate) fn begun(rt: &HostRuntime, fail: &[u64]) -> Result<AppStartSent<MemoryDisk>, NoMemory> {
    match (blank(rt, b"", fail), info(rt)) {
        (Ok(blank), Ok(info)) => match blank.start(rt.alloc(), info) {
            Next::On(sent, packet) => {
                drop(packet);
                Ok(sent)
            }
            _ => Err(NoMemory),
        },
        _ => Err(NoMemory),
    }
}

/// A device that has answered a body of DI.SetCredentials.
pub(crate) fn answered(
    rt: &HostRuntime,
    fail: &[u64],
    digits: &str,
) -> Result<HmacSent<MemoryDisk>, NoMemory> {
    match (begun(rt, fail), random(rt, 0), message_of(rt, 11, digits)) {
        (Ok(sent), Ok(random), Ok(packet)) => {
            let mut random = random;
            match sent.on(rt.alloc(), &mut random, &packet) {
                Next::On(sent, answer) => {
                    drop(answer);
                    Ok(sent)
                }
                _ => Err(NoMemory),
            }
        }
        _ => Err(NoMemory),
    }
}
