//! The messages of TO2 that are not signed (FIDO Device Onboard 1.1, section 5.5), and errors (section 5.1).

ghost use Rattle.std.specs.Prelude.{◌≡◌, IfOk};
ghost use Rattle.fdo_msgs.specs.To2.{hello_device as hello_device_seen, hello_device_of, get_ov_next_entry, ov_next_entry as ov_next_entry_seen, ov_next_entry_of, device_ready as device_ready_seen, device_ready_of, owner_ready, done, done2, error as error_seen, error_of};

use crate::msg::Msg;
use crate::value::{
    maybe_hash_part, maybe_size_part, one, sig_info_part, sixteen_part, u8_part, u16_part, u64_part,
};
use cbor_core::{NoMemory, Part};
use std::alloc::Global;
use voucher_chain::read_entry_part;

pub(crate) fn read_hello_device(alloc: Global, part: &Part) -> Result<Option<Msg>, NoMemory>
    ensures { IfOk result (λ msg. msg ≡ hello_device_seen part.now.spot) }
{
    match part.six() {
        Some((size, guid, nonce, kex, cipher, sig)) => {
            hello_device(alloc, &size, &guid, &nonce, &kex, &cipher, &sig)
        }
        None => Ok(None),
    }
}

fn hello_device(
    alloc: Global,
    size: &Part,
    guid: &Part,
    nonce: &Part,
    kex: &Part,
    cipher: &Part,
    sig: &Part,
) -> Result<Option<Msg>, NoMemory>
    ensures { IfOk result (λ msg. msg ≡ hello_device_of (size.now.spot, guid.now.spot, nonce.now.spot, kex.now.spot, cipher.now.spot, sig.now.spot)) }
{
    let (Some(max_size), Some(cipher)) = (u16_part(size), cipher.integer()) else {
        return Ok(None);
    };
    let guid = sixteen_part(alloc, guid)?;
    let nonce = sixteen_part(alloc, nonce)?;
    let kex = kex.text(alloc)?;
    let sig = sig_info_part(alloc, sig)?;
    match (guid, nonce, kex, sig) {
        (Some(guid), Some(nonce), Some(kex), Some(sig)) => Ok(Some(Msg::HelloDevice {
            max_size,
            guid,
            nonce,
            kex,
            cipher,
            sig,
        })),
        _ => Ok(None),
    }
}

pub(crate) fn read_get_ov_next_entry(part: &Part) -> Option<Msg>
    ensures { result ≡ get_ov_next_entry part.now.spot }
{
    let n = one(part)?;
    match u8_part(&n) {
        Some(n) => Some(Msg::GetOvNextEntry(n)),
        None => None,
    }
}

pub(crate) fn read_ov_next_entry(alloc: Global, part: &Part) -> Result<Option<Msg>, NoMemory>
    ensures { IfOk result (λ msg. msg ≡ ov_next_entry_seen part.now.spot) }
{
    match part.two() {
        Some((first, second)) => ov_next_entry(alloc, &first, &second),
        None => Ok(None),
    }
}

fn ov_next_entry(alloc: Global, n: &Part, entry: &Part) -> Result<Option<Msg>, NoMemory>
    ensures { IfOk result (λ msg. msg ≡ ov_next_entry_of (n.now.spot, entry.now.spot)) }
{
    let Some(n) = u8_part(n) else {
        return Ok(None);
    };
    match read_entry_part(alloc, entry)? {
        Some(entry) => Ok(Some(Msg::OvNextEntry(n, entry))),
        None => Ok(None),
    }
}

pub(crate) fn read_device_ready(alloc: Global, part: &Part) -> Result<Option<Msg>, NoMemory>
    ensures { IfOk result (λ msg. msg ≡ device_ready_seen part.now.spot) }
{
    match part.two() {
        Some((first, second)) => device_ready(alloc, &first, &second),
        None => Ok(None),
    }
}

fn device_ready(alloc: Global, hmac: &Part, size: &Part) -> Result<Option<Msg>, NoMemory>
    ensures { IfOk result (λ msg. msg ≡ device_ready_of (hmac.now.spot, size.now.spot)) }
{
    let hmac = maybe_hash_part(alloc, hmac)?;
    match (hmac, maybe_size_part(size)) {
        (Some(hmac), Some(size)) => Ok(Some(Msg::DeviceReady { hmac, size })),
        _ => Ok(None),
    }
}

pub(crate) fn read_owner_ready(part: &Part) -> Option<Msg>
    ensures { result ≡ owner_ready part.now.spot }
{
    let size = one(part)?;
    match maybe_size_part(&size) {
        Some(size) => Some(Msg::OwnerReady { size }),
        None => None,
    }
}

pub(crate) fn read_done(alloc: Global, part: &Part) -> Result<Option<Msg>, NoMemory>
    ensures { IfOk result (λ msg. msg ≡ done part.now.spot) }
{
    let Some(nonce) = one(part) else {
        return Ok(None);
    };
    match sixteen_part(alloc, &nonce)? {
        Some(nonce) => Ok(Some(Msg::Done(nonce))),
        None => Ok(None),
    }
}

pub(crate) fn read_done2(alloc: Global, part: &Part) -> Result<Option<Msg>, NoMemory>
    ensures { IfOk result (λ msg. msg ≡ done2 part.now.spot) }
{
    let Some(nonce) = one(part) else {
        return Ok(None);
    };
    match sixteen_part(alloc, &nonce)? {
        Some(nonce) => Ok(Some(Msg::Done2(nonce))),
        None => Ok(None),
    }
}

pub(crate) fn read_error(alloc: Global, part: &Part) -> Result<Option<Msg>, NoMemory>
    ensures { IfOk result (λ msg. msg ≡ error_seen part.now.spot) }
{
    match part.five() {
        Some((code, kind, text, stamp, id)) => error(alloc, &code, &kind, &text, &stamp, &id),
        None => Ok(None),
    }
}

fn error(
    alloc: Global,
    code: &Part,
    kind: &Part,
    text: &Part,
    stamp: &Part,
    id: &Part,
) -> Result<Option<Msg>, NoMemory>
    ensures { IfOk result (λ msg. msg ≡ error_of (code.now.spot, kind.now.spot, text.now.spot, stamp.now.spot, id.now.spot)) }
{
    let (Some(code), Some(kind)) = (u16_part(code), u64_part(kind)) else {
        return Ok(None);
    };
    match text.text(alloc)? {
        Some(text) => Ok(Some(Msg::Error {
            code,
            kind,
            text,
            stamp: stamp.item(alloc)?,
            id: id.item(alloc)?,
        })),
        None => Ok(None),
    }
}
