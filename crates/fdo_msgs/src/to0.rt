//! The messages of TO0 and TO1 that are not signed (FIDO Device Onboard 1.1, sections 5.3 and 5.4).

ghost use Rattle.std.specs.Prelude.{◌≡◌, IfOk};
ghost use Rattle.fdo_msgs.specs.To0.{hello, hello_ack, accept_owner, hello_rv as hello_rv_seen, hello_rv_of, hello_rv_ack as hello_rv_ack_seen, hello_rv_ack_of};

use crate::msg::Msg;
use crate::value::{has_length, one, sig_info_part, sixteen_part, u32_part};
use cbor_core::{NoMemory, Part};
use std::alloc::Global;

pub(crate) fn read_hello(part: &Part) -> Option<Msg>
    ensures { result ≡ hello part.now.spot }
{
    if has_length(part, 0) {
        Some(Msg::Hello)
    } else {
        None
    }
}

pub(crate) fn read_hello_ack(alloc: Global, part: &Part) -> Result<Option<Msg>, NoMemory>
    ensures { IfOk result (λ msg. msg ≡ hello_ack part.now.spot) }
{
    let Some(nonce) = one(part) else {
        return Ok(None);
    };
    match sixteen_part(alloc, &nonce)? {
        Some(nonce) => Ok(Some(Msg::HelloAck(nonce))),
        None => Ok(None),
    }
}

pub(crate) fn read_accept_owner(part: &Part) -> Option<Msg>
    ensures { result ≡ accept_owner part.now.spot }
{
    let seconds = one(part)?;
    match u32_part(&seconds) {
        Some(seconds) => Some(Msg::AcceptOwner(seconds)),
        None => None,
    }
}

pub(crate) fn read_hello_rv(alloc: Global, part: &Part) -> Result<Option<Msg>, NoMemory>
    ensures { IfOk result (λ msg. msg ≡ hello_rv_seen part.now.spot) }
{
    match part.two() {
        Some((first, second)) => hello_rv(alloc, &first, &second),
        None => Ok(None),
    }
}

fn hello_rv(alloc: Global, guid: &Part, sig: &Part) -> Result<Option<Msg>, NoMemory>
    ensures { IfOk result (λ msg. msg ≡ hello_rv_of (guid.now.spot, sig.now.spot)) }
{
    let guid = sixteen_part(alloc, guid)?;
    let sig = sig_info_part(alloc, sig)?;
    match (guid, sig) {
        (Some(guid), Some(sig)) => Ok(Some(Msg::HelloRv(guid, sig))),
        _ => Ok(None),
    }
}

pub(crate) fn read_hello_rv_ack(alloc: Global, part: &Part) -> Result<Option<Msg>, NoMemory>
    ensures { IfOk result (λ msg. msg ≡ hello_rv_ack_seen part.now.spot) }
{
    match part.two() {
        Some((first, second)) => hello_rv_ack(alloc, &first, &second),
        None => Ok(None),
    }
}

fn hello_rv_ack(alloc: Global, nonce: &Part, sig: &Part) -> Result<Option<Msg>, NoMemory>
    ensures { IfOk result (λ msg. msg ≡ hello_rv_ack_of (nonce.now.spot, sig.now.spot)) }
{
    let nonce = sixteen_part(alloc, nonce)?;
    let sig = sig_info_part(alloc, sig)?;
    match (nonce, sig) {
        (Some(nonce), Some(sig)) => Ok(Some(Msg::HelloRvAck(nonce, sig))),
        _ => Ok(None),
    }
}
