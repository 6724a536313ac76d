ghost use Rattle.std.specs.Prelude.{◌≡◌, IfOk};
ghost use Rattle.cbor_core.specs.Numbers.{integer_in};
ghost use Rattle.cbor_core.specs.Spots.{spot_item};
ghost use Rattle.fdo_msgs.specs.Mfg.{mfg_of, mfg_in, mfg_place, is_encoding as is_known_encoding, item_of_mfg};

use cbor_core::{Item, Items, NoMemory, Part, Text, integer, integer_item};
use key_codec::places::is_type;
use key_codec::{
    Form, KeyBody, KeyFault, find_encoded_fault, is_key_type, key_body_item, read_key_body,
};
use std::alloc::Global;

/// What a device says of itself at the factory (FIDO Device Onboard 1.1, section 5.2.1, DeviceMfgInfo).
#[derive(Debug, Drop)]
pub struct MfgInfo {
    /// The type of the device's key.
    pub pk_type: i64,
    /// The encoding of the device's key.
    pub pk_enc: i64,
    /// The serial number.
    pub serial: Text,
    /// DeviceInfo, as the voucher will have it.
    pub info: Text,
    /// The device's key, by its encoding.
    pub body: KeyBody,
}

impl MfgInfo {
    /// Equal information.
    pub fn copy(&self, alloc: Global) -> Result<MfgInfo, NoMemory>
        ensures { IfOk result (λ info. info ≡ self.now) }
    {
        Ok(MfgInfo {
            pk_type: self.pk_type,
            pk_enc: self.pk_enc,
            serial: self.serial.copy()?,
            info: self.info.copy()?,
            body: self.body.copy(alloc)?,
        })
    }
}

/// What a device says of itself, or None where the item is not of that form.
#[tactic(auto, unfolding(crate::specs::Mfg::mfg_in))]
fn read_mfg(alloc: Global, item: &Item) -> Result<Option<MfgInfo>, NoMemory>
    ensures { IfOk result (λ info. info ≡ mfg_in item.now) }
{
    match item {
        Item::Array(items) => match items.as_slice() {
            [kind, enc, serial, info, body] => read_parts(alloc, kind, enc, serial, info, body),
            _ => Ok(None),
        },
        _ => Ok(None),
    }
}

fn read_parts(
    alloc: Global,
    kind: &Item,
    enc: &Item,
    serial: &Item,
    info: &Item,
    body: &Item,
) -> Result<Option<MfgInfo>, NoMemory>
    ensures { IfOk result (λ mfg. mfg ≡ mfg_of (kind.now, enc.now, serial.now, info.now, body.now)) }
{
    let (Some(pk_type), Some(pk_enc)) = (integer(kind), integer(enc)) else {
        return Ok(None);
    };
    let (Item::Text(serial), Item::Text(info)) = (serial, info) else {
        return Ok(None);
    };
    if !is_key_type(pk_type) {
        return Ok(None);
    }
    match read_key_body(alloc, pk_enc, body) {
        Ok(body) => Ok(Some(MfgInfo {
            pk_type,
            pk_enc,
            serial: serial.copy()?,
            info: info.copy()?,
            body,
        })),
        Err(KeyFault::NoMemory) => Err(NoMemory),
        Err(_) => Ok(None),
    }
}

/// What a device says of itself, or None where the part is not of that form.
pub(crate) fn mfg_part(alloc: Global, part: &Part) -> Result<Option<MfgInfo>, NoMemory>
    ensures { IfOk result (λ info. info ≡ mfg_in (spot_item part.now.spot)) }
{
    let item = part.item(alloc)?;
    read_mfg(alloc, &item)
}

/// Where a part that is none is not of its form.
#[tactic(auto, unfolding(crate::specs::Mfg::mfg_place))]
pub(crate) fn find_mfg_fault(part: &Part) -> usize
    ensures { result ≡ mfg_place part.now.spot }
{
    let Some((kind, enc, serial, info, body)) = part.five() else {
        return part.at();
    };
    if !is_type(&kind) {
        kind.at()
    } else if !is_encoding(&enc) {
        enc.at()
    } else if !serial.is_text() {
        serial.at()
    } else if !info.is_text() {
        info.at()
    } else {
        find_encoded_fault(&enc, &body)
    }
}

fn is_encoding(part: &Part) -> bool
    ensures { result ≡ is_known_encoding (integer_in (spot_item part.now.spot)) }
{
    match part.integer() {
        Some(enc) => Form::of(enc).is_some(),
        None => false,
    }
}

/// The item that the information is written as.
pub(crate) fn mfg_item(alloc: Global, info: &MfgInfo) -> Result<Item, NoMemory>
    ensures { IfOk result (λ item. item ≡ item_of_mfg info.now) }
{
    let mut parts = Items::new(alloc);
    parts.push(integer_item(info.pk_type))?;
    parts.push(integer_item(info.pk_enc))?;
    parts.push(Item::Text(info.serial.copy()?))?;
    parts.push(Item::Text(info.info.copy()?))?;
    parts.push(key_body_item(alloc, &info.body)?)?;
    Ok(Item::Array(parts))
}
