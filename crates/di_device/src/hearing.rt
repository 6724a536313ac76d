ghost use Rattle.std.specs.Prelude.{◌≡◌, Ok, IfOk, IfErr};
ghost use Rattle.fdo_msgs.specs.Kind as kinds;
ghost use Rattle.fdo_rules.specs.Checks.{code_in, peer_code, said_in};
ghost use Rattle.fdo_rules.specs.Moves.{said_by};
ghost use Rattle.fdo_rules.specs.Parts.{di_done, set_credentials};
ghost use Rattle.di_device.specs.Steps.{IsAnswered};

use cbor_core::NoMemory;
use fdo_msgs::{BodyFault, Cause, Msg, Packet, kind, read_body};
use std::alloc::Global;
use voucher_chain::Header;

/// The header that a message gives where DI.SetCredentials is taken, or the first cause of its refusal.
pub(crate) fn hear_header(alloc: Global, packet: &Packet) -> Result<Result<Header, Cause>, NoMemory>
    ensures heard { IfOk result (λ heard. heard ≡ said_by set_credentials kinds.set_credentials packet.now) }
    ensures answered { IfOk result (λ heard. IfErr heard IsAnswered) }
{
    match packet.kind {
        kind::ERROR => Ok(Err(Cause::Peer(peer_code(alloc, packet)?))),
        kind::SET_CREDENTIALS => {
            match read_body(alloc, kind::SET_CREDENTIALS, packet.body.as_list()) {
                Ok(message) => Ok(header_of(message)),
                Err(BodyFault::Body(place)) => Ok(Err(Cause::Body(place))),
                Err(BodyFault::NoMemory) => Err(NoMemory),
            }
        }
        kind => Ok(Err(Cause::Turn(kind))),
    }
}

fn header_of(message: Msg) -> Result<Header, Cause>
    ensures header { result ≡ said_in set_credentials (Ok message) }
    ensures answered { IfErr result IsAnswered }
{
    match message {
        Msg::SetCredentials(header) => Ok(header),
        other => {
            drop(other);
            Err(Cause::Body(0))
        }
    }
}

/// Whether a message is DI.Done, or the first cause of its refusal where that is taken.
pub(crate) fn hear_done(alloc: Global, packet: &Packet) -> Result<Result<(), Cause>, NoMemory>
    ensures heard { IfOk result (λ heard. heard ≡ said_by di_done kinds.di_done packet.now) }
    ensures answered { IfOk result (λ heard. IfErr heard IsAnswered) }
{
    match packet.kind {
        kind::ERROR => Ok(Err(Cause::Peer(peer_code(alloc, packet)?))),
        kind::DI_DONE => match read_body(alloc, kind::DI_DONE, packet.body.as_list()) {
            Ok(message) => Ok(done_of(message)),
            Err(BodyFault::Body(place)) => Ok(Err(Cause::Body(place))),
            Err(BodyFault::NoMemory) => Err(NoMemory),
        },
        kind => Ok(Err(Cause::Turn(kind))),
    }
}

fn done_of(message: Msg) -> Result<(), Cause>
    ensures done { result ≡ said_in di_done (Ok message) }
    ensures answered { IfErr result IsAnswered }
{
    match message {
        Msg::DiDone => Ok(()),
        other => {
            drop(other);
            Err(Cause::Body(0))
        }
    }
}

/// The code of an error message, and 0 where its body is not of the form.
fn peer_code(alloc: Global, packet: &Packet) -> Result<u16, NoMemory>
    ensures { IfOk result (λ code. code ≡ peer_code packet.now.body) }
{
    match read_body(alloc, kind::ERROR, packet.body.as_list()) {
        Ok(message) => Ok(code_of(message)),
        Err(BodyFault::Body(_)) => Ok(0),
        Err(BodyFault::NoMemory) => Err(NoMemory),
    }
}

fn code_of(message: Msg) -> u16
    ensures { result ≡ code_in (Ok message) }
{
    match message {
        Msg::Error {
            code,
            kind: _,
            text: _,
            stamp: _,
            id: _,
        } => code,
        other => {
            drop(other);
            0
        }
    }
}
