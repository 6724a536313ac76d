ghost use Rattle.std.specs.Prelude.{◌≡◌, Ok, IfOk, Some};
ghost use Rattle.cbor_core.specs.Whole.{seen_at, ended as ended_at};
ghost use Rattle.fdo_msgs.specs.declared.msg.Msg.{Msg};
ghost use Rattle.fdo_msgs.specs.Body.{IsBody, is_kind as is_a_kind, msg_seen, row_seen, msg_place};
ghost use Rattle.fdo_msgs.specs.Reading.{ReadsBody, IsFault, body_at};
ghost use Rattle.fdo_msgs.specs.Said.{kind_of};

use crate::body_fault::BodyFault;
use crate::di::{read_app_start, read_di_done, read_set_credentials, read_set_hmac};
use crate::info::{read_device_info, read_owner_info};
use crate::kind;
use crate::msg::Msg;
use crate::owner_sign::{find_owner_sign_fault, read_owner_sign};
use crate::rows::{find_row_fault, shapes};
use crate::signed::Signed;
use crate::to0::{read_accept_owner, read_hello, read_hello_ack, read_hello_rv, read_hello_rv_ack};
use crate::to2::{
    read_device_ready, read_done, read_done2, read_error, read_get_ov_next_entry,
    read_hello_device, read_ov_next_entry, read_owner_ready,
};
use cbor_core::{CborFault, NoMemory, Part};
use std::alloc::Global;

/// The message that a body of a type says, all bytes of it. Of the types 65 to 71, whose bodies are sealed, the bytes are
/// the opened plain text.
#[tactic(auto, unfolding(crate::specs::Reading::body_at))]
pub fn read_body(alloc: Global, kind: u8, bytes: &[u8]) -> Result<Msg, BodyFault>
    // What is read is said: the bytes spell, to their end, an item, and where it stands is the message.
    ensures found { IfOk result (IsBody kind bytes.now) }
    // What is said is read, unless memory runs out.
    ensures only { (said : Msg) → IsBody kind bytes.now said → ReadsBody (Ok said) result }
    // Where the first fault stands.
    ensures exact { ReadsBody (body_at kind bytes.now) result }
    // It is a message of the type.
    ensures kind { IfOk result (λ msg. kind_of msg ≡ kind) }
{
    read_kind(alloc, kind, bytes)
}

#[tactic(auto, unfolding(crate::specs::Reading::body_at))]
fn read_kind(alloc: Global, kind: u8, bytes: &[u8]) -> Result<Msg, BodyFault>
    ensures { ReadsBody (body_at kind bytes.now) result }
{
    if is_kind(kind) {
        read_whole(alloc, kind, bytes)
    } else {
        Err(BodyFault::Body(0))
    }
}

/// Whether bodies of a type are read.
fn is_kind(kind: u8) -> bool
    ensures { result ≡ is_a_kind kind }
{
    kind == kind::OWNER_SIGN || Signed::of(kind).is_some() || shapes(kind).is_some()
}

fn read_whole(alloc: Global, kind: u8, bytes: &[u8]) -> Result<Msg, BodyFault>
    ensures { ReadsBody (seen_at (msg_seen kind) (msg_place kind) bytes.now) result }
{
    match Part::open(alloc, bytes) {
        Ok((part, read)) => match read_part(alloc, kind, &part)? {
            Some(msg) => ended(msg, read, bytes.len()),
            None => Err(BodyFault::Body(find_fault(alloc, kind, &part)?)),
        },
        Err(fault) => Err(body_fault(fault)),
    }
}

/// The message, where its body ends with it.
fn ended(msg: Msg, read: usize, length: usize) -> Result<Msg, BodyFault>
    ensures { ReadsBody (ended_at length read 0 (Some msg)) result }
{
    if read == length {
        Ok(msg)
    } else {
        drop(msg);
        Err(BodyFault::Body(read))
    }
}

#[tactic(auto, unfolding(crate::specs::Body::msg_seen))]
fn read_part(alloc: Global, kind: u8, part: &Part) -> Result<Option<Msg>, NoMemory>
    ensures { IfOk result (λ msg. msg ≡ msg_seen kind part.now.spot) }
{
    if kind == kind::OWNER_SIGN {
        return read_owner_sign(alloc, part);
    }
    match Signed::of(kind) {
        Some(signed) => signed.read(alloc, part),
        None => read_row(alloc, kind, part),
    }
}

#[tactic(auto, unfolding(crate::specs::Body::row_seen))]
fn read_row(alloc: Global, kind: u8, part: &Part) -> Result<Option<Msg>, NoMemory>
    ensures { IfOk result (λ msg. msg ≡ row_seen kind part.now.spot) }
{
    match kind {
        kind::APP_START => read_app_start(alloc, part),
        kind::SET_CREDENTIALS => read_set_credentials(alloc, part),
        kind::SET_HMAC => read_set_hmac(alloc, part),
        kind::DI_DONE => Ok(read_di_done(part)),
        kind::HELLO => Ok(read_hello(part)),
        kind::HELLO_ACK => read_hello_ack(alloc, part),
        kind::ACCEPT_OWNER => Ok(read_accept_owner(part)),
        kind::HELLO_RV => read_hello_rv(alloc, part),
        kind::HELLO_RV_ACK => read_hello_rv_ack(alloc, part),
        kind::HELLO_DEVICE => read_hello_device(alloc, part),
        kind::GET_OV_NEXT_ENTRY => Ok(read_get_ov_next_entry(part)),
        kind::OV_NEXT_ENTRY => read_ov_next_entry(alloc, part),
        kind::DEVICE_READY => read_device_ready(alloc, part),
        kind::OWNER_READY => Ok(read_owner_ready(part)),
        kind::DEVICE_INFO => read_device_info(alloc, part),
        kind::OWNER_INFO => read_owner_info(alloc, part),
        kind::DONE => read_done(alloc, part),
        kind::DONE2 => read_done2(alloc, part),
        kind::ERROR => read_error(alloc, part),
        _ => Ok(None),
    }
}

/// Where a body is at fault that says no message.
#[tactic(auto, unfolding(crate::specs::Body::msg_place))]
fn find_fault(alloc: Global, kind: u8, part: &Part) -> Result<usize, NoMemory>
    ensures { IfOk result (λ at. at ≡ msg_place kind part.now.spot) }
{
    if kind == kind::OWNER_SIGN {
        return find_owner_sign_fault(alloc, part);
    }
    if let Some(signed) = Signed::of(kind) {
        return signed.find_fault(alloc, part);
    }
    match shapes(kind) {
        Some(shapes) => find_row_fault(alloc, shapes, part),
        None => Ok(part.at()),
    }
}

fn body_fault(fault: CborFault) -> BodyFault
    ensures { IsFault fault result }
{
    match fault {
        CborFault::Truncated(place)
        | CborFault::Malformed(place)
        | CborFault::TooDeep(place)
        | CborFault::Duplicate(place)
        | CborFault::Float(place)
        | CborFault::NotDeterministic(place) => BodyFault::Body(place),
        CborFault::NoMemory => BodyFault::NoMemory,
    }
}
