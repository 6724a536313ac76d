ghost use Rattle.std.specs.Prelude.{◌≡◌, ok_or, IfOk};
ghost use Rattle.fdo_msgs.specs.declared.cause.Cause.TheVariants.{Body as Unread};
ghost use Rattle.fdo_msgs.specs.Kind.{prove_ov_hdr as prove_ov_hdr_kind, ov_next_entry as ov_next_entry_kind};
ghost use Rattle.fdo_rules.specs.Checks.{code_in, peer_code as code_of_peer};
ghost use Rattle.fdo_rules.specs.Moves.{awaited, said_by};
ghost use Rattle.fdo_rules.specs.Parts.{prove_ov_hdr, ov_next_entry};
ghost use Rattle.to2_device.specs.Hearing.{heard, read as read_as};
ghost use Rattle.to2_device.specs.Told.{Holds, Tells};

use cbor_core::NoMemory;
use fdo_msgs::{BodyFault, Cause, HeaderPayload, Msg, Packet, kind, read_body};
use fdo_rules::{OvNextEntry, ProveOvHdr, Unfit};
use std::alloc::Global;

/// Refuses an error of the other end, and then a type that the state does not take.
pub(crate) fn await_kind(alloc: Global, kind: u8, packet: &Packet) -> Result<(), Unfit>
    ensures { Holds (λ _. packet.now.body) (awaited kind packet.now) result }
{
    if packet.kind == kind::ERROR {
        return Err(Unfit::For(Cause::Peer(peer_code(alloc, packet)?)));
    }
    if packet.kind == kind {
        Ok(())
    } else {
        Err(Unfit::For(Cause::Turn(packet.kind)))
    }
}

/// The code of an error message, and 0 where its body is not of the form.
fn peer_code(alloc: Global, packet: &Packet) -> Result<u16, NoMemory>
    ensures { IfOk result (λ code. code ≡ code_of_peer packet.now.body) }
{
    match read_body(alloc, kind::ERROR, packet.body.as_list()) {
        Ok(message) => Ok(code_of(message)),
        Err(BodyFault::Body(_)) => Ok(0),
        Err(BodyFault::NoMemory) => Err(NoMemory),
    }
}

fn code_of(message: Msg) -> u16
    ensures { result ≡ code_in (Ok message) }
{
    match message {
        Msg::Error {
            code,
            kind: _,
            text: _,
            stamp: _,
            id: _,
        } => code,
        other => {
            drop(other);
            0
        }
    }
}

/// The message that a body says.
pub(crate) fn read(alloc: Global, kind: u8, body: &[u8]) -> Result<Msg, Unfit>
    ensures { Tells (read_as kind body.now) result }
{
    match read_body(alloc, kind, body) {
        Ok(message) => Ok(message),
        Err(BodyFault::Body(place)) => Err(Unfit::For(Cause::Body(place))),
        Err(BodyFault::NoMemory) => Err(Unfit::NoMemory),
    }
}

/// The message of the one type that the state takes.
fn hear(alloc: Global, kind: u8, packet: &Packet) -> Result<Msg, Unfit>
    ensures { Tells (heard kind packet.now) result }
{
    match await_kind(alloc, kind, packet) {
        Ok(()) => read(alloc, kind, packet.body.as_list()),
        Err(unfit) => Err(unfit),
    }
}

/// What TO2.ProveOVHdr says.
pub(crate) fn hear_header(alloc: Global, packet: &Packet) -> Result<ProveOvHdr, Unfit>
    ensures { Tells (said_by prove_ov_hdr prove_ov_hdr_kind packet.now) result }
{
    match hear(alloc, kind::PROVE_OV_HDR, packet) {
        Ok(message) => header_of(message),
        Err(unfit) => Err(unfit),
    }
}

fn header_of(message: Msg) -> Result<ProveOvHdr, Unfit>
    ensures { Tells (ok_or (prove_ov_hdr message) (Unread 0)) result }
{
    match message {
        Msg::ProveOvHdr {
            header,
            entries,
            hmac,
            hmac_raw,
            nonce,
            sig,
            xa,
            hello_hash,
            max_size,
            prove_dv,
            key,
            sign,
        } => Ok(ProveOvHdr {
            payload: HeaderPayload {
                header,
                entries,
                hmac,
                hmac_raw,
                nonce,
                sig,
                xa,
                hello_hash,
                max_size,
            },
            prove_dv,
            key,
            sign,
        }),
        other => {
            drop(other);
            Err(Unfit::For(Cause::Body(0)))
        }
    }
}

/// What TO2.OVNextEntry says.
pub(crate) fn hear_entry(alloc: Global, packet: &Packet) -> Result<OvNextEntry, Unfit>
    ensures { Tells (said_by ov_next_entry ov_next_entry_kind packet.now) result }
{
    match hear(alloc, kind::OV_NEXT_ENTRY, packet) {
        Ok(message) => entry_of(message),
        Err(unfit) => Err(unfit),
    }
}

fn entry_of(message: Msg) -> Result<OvNextEntry, Unfit>
    ensures { Tells (ok_or (ov_next_entry message) (Unread 0)) result }
{
    match message {
        Msg::OvNextEntry(number, entry) => Ok(OvNextEntry { number, entry }),
        other => {
            drop(other);
            Err(Unfit::For(Cause::Body(0)))
        }
    }
}
