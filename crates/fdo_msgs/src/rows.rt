ghost use Rattle.std.specs.Prelude.{◌≡◌, option_map, IfOk};
ghost use Rattle.cbor_core.specs.Spots.{spot_parts};
ghost use Rattle.fdo_msgs.specs.Row.{shapes_of, is_shape, place_at, parts_place, row_place};

use crate::info::{find_pairs_fault, pairs_part};
use crate::kind;
use crate::mfg::{find_mfg_fault, mfg_part};
use crate::shape::Shape;
use crate::value::{
    flag_part, has_length, header_part, maybe_hash_part, maybe_size_part, sig_info_part,
    sixteen_part, u8_part, u16_part, u32_part, u64_part,
};
use cbor_core::{NoMemory, Part};
use key_codec::{find_hash_fault, find_sig_info_fault, read_hash_part};
use std::alloc::Global;
use voucher_chain::{find_entry_fault, read_entry_part};

/// What the parts of the body of a type are, in their order, or None for a type whose body is no row of parts.
#[tactic(auto, unfolding(crate::specs::Row::shapes_of))]
pub fn shapes(kind: u8) -> Option<&'static [Shape]>
    ensures { option_map (λ shapes. shapes.now) result ≡ shapes_of kind }
{
    match kind {
        kind::APP_START => Some(&[Shape::Mfg]),
        kind::SET_CREDENTIALS => Some(&[Shape::Header]),
        kind::SET_HMAC => Some(&[Shape::Hash]),
        kind::DI_DONE | kind::HELLO => Some(&[]),
        kind::HELLO_ACK | kind::DONE | kind::DONE2 => Some(&[Shape::Sixteen]),
        kind::ACCEPT_OWNER => Some(&[Shape::U32]),
        kind::HELLO_RV | kind::HELLO_RV_ACK => Some(&[Shape::Sixteen, Shape::SigInfo]),
        kind::HELLO_DEVICE => Some(&[
            Shape::U16,
            Shape::Sixteen,
            Shape::Sixteen,
            Shape::Text,
            Shape::I64,
            Shape::SigInfo,
        ]),
        kind::GET_OV_NEXT_ENTRY => Some(&[Shape::U8]),
        kind::OV_NEXT_ENTRY => Some(&[Shape::U8, Shape::Entry]),
        kind::DEVICE_READY => Some(&[Shape::MaybeHash, Shape::MaybeSize]),
        kind::OWNER_READY => Some(&[Shape::MaybeSize]),
        kind::DEVICE_INFO => Some(&[Shape::Flag, Shape::Pairs]),
        kind::OWNER_INFO => Some(&[Shape::Flag, Shape::Flag, Shape::Pairs]),
        kind::ERROR => Some(&[Shape::U16, Shape::U64, Shape::Text, Shape::Any, Shape::Any]),
        _ => None,
    }
}

/// Where a body is at fault whose parts are not of these shapes.
pub(crate) fn find_row_fault(
    alloc: Global,
    shapes: &[Shape],
    body: &Part,
) -> Result<usize, NoMemory>
    ensures { IfOk result (λ at. at ≡ row_place shapes.now body.now.spot) }
{
    if has_length(body, shapes.len() as u64) {
        find_part_fault(alloc, shapes, body)
    } else {
        Ok(body.at())
    }
}

fn find_part_fault(alloc: Global, shapes: &[Shape], body: &Part) -> Result<usize, NoMemory>
    ensures { IfOk result (λ at. at ≡ parts_place body.now.spot.at shapes.now (spot_parts body.now.spot)) }
{
    let mut next = body.inside();
    for shape in shapes {
        let Some(part) = next else {
            return Ok(body.at());
        };
        let fits = is_of(alloc, *shape, &part)?;
        if !fits {
            return find_fault(alloc, *shape, &part);
        }
        next = part.after();
    }
    Ok(body.at())
}

/// Whether a part is of a shape.
fn is_of(alloc: Global, shape: Shape, part: &Part) -> Result<bool, NoMemory>
    ensures { IfOk result (λ is. is ≡ is_shape shape part.now.spot) }
{
    match shape {
        Shape::U8 => Ok(u8_part(part).is_some()),
        Shape::U16 => Ok(u16_part(part).is_some()),
        Shape::U32 => Ok(u32_part(part).is_some()),
        Shape::U64 => Ok(u64_part(part).is_some()),
        Shape::I64 => Ok(part.integer().is_some()),
        Shape::Flag => Ok(flag_part(part).is_some()),
        Shape::Text => Ok(part.is_text()),
        Shape::Sixteen => Ok(sixteen_part(alloc, part)?.is_some()),
        Shape::Any => Ok(true),
        Shape::SigInfo => Ok(sig_info_part(alloc, part)?.is_some()),
        Shape::Hash => Ok(read_hash_part(alloc, part)?.is_some()),
        Shape::MaybeHash => Ok(maybe_hash_part(alloc, part)?.is_some()),
        Shape::MaybeSize => Ok(maybe_size_part(part).is_some()),
        Shape::Mfg => Ok(mfg_part(alloc, part)?.is_some()),
        Shape::Header => Ok(header_part(alloc, part)?.is_some()),
        Shape::Entry => Ok(read_entry_part(alloc, part)?.is_some()),
        Shape::Pairs => Ok(pairs_part(alloc, part)?.is_some()),
    }
}

/// Where a part that is not of a shape is not of it: the offset of the first part inside that is at fault, or its own.
fn find_fault(alloc: Global, shape: Shape, part: &Part) -> Result<usize, NoMemory>
    ensures { IfOk result (λ at. at ≡ place_at shape part.now.spot) }
{
    match shape {
        Shape::SigInfo => Ok(find_sig_info_fault(part)),
        Shape::Hash | Shape::MaybeHash => Ok(find_hash_fault(part)),
        Shape::Mfg => Ok(find_mfg_fault(part)),
        Shape::Entry => find_entry_fault(alloc, part, None),
        Shape::Pairs => find_pairs_fault(alloc, part),
        _ => Ok(part.at()),
    }
}
