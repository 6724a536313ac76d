//! The messages of device initialization (FIDO Device Onboard 1.1, section 5.2).

ghost use Rattle.std.specs.Prelude.{◌≡◌, IfOk};
ghost use Rattle.fdo_msgs.specs.Di.{app_start, set_credentials, set_hmac, di_done};

use crate::mfg::mfg_part;
use crate::msg::Msg;
use crate::value::{has_length, header_part, one};
use cbor_core::{NoMemory, Part};
use key_codec::read_hash_part;
use std::alloc::Global;

pub(crate) fn read_app_start(alloc: Global, part: &Part) -> Result<Option<Msg>, NoMemory>
    ensures { IfOk result (λ msg. msg ≡ app_start part.now.spot) }
{
    let Some(info) = one(part) else {
        return Ok(None);
    };
    match mfg_part(alloc, &info)? {
        Some(info) => Ok(Some(Msg::AppStart(info))),
        None => Ok(None),
    }
}

pub(crate) fn read_set_credentials(alloc: Global, part: &Part) -> Result<Option<Msg>, NoMemory>
    ensures { IfOk result (λ msg. msg ≡ set_credentials part.now.spot) }
{
    let Some(header) = one(part) else {
        return Ok(None);
    };
    match header_part(alloc, &header)? {
        Some(header) => Ok(Some(Msg::SetCredentials(header))),
        None => Ok(None),
    }
}

pub(crate) fn read_set_hmac(alloc: Global, part: &Part) -> Result<Option<Msg>, NoMemory>
    ensures { IfOk result (λ msg. msg ≡ set_hmac part.now.spot) }
{
    let Some(hmac) = one(part) else {
        return Ok(None);
    };
    match read_hash_part(alloc, &hmac)? {
        Some(hmac) => Ok(Some(Msg::SetHmac(hmac))),
        None => Ok(None),
    }
}

pub(crate) fn read_di_done(part: &Part) -> Option<Msg>
    ensures { result ≡ di_done part.now.spot }
{
    if has_length(part, 0) {
        Some(Msg::DiDone)
    } else {
        None
    }
}
