ghost use Rattle.std.specs.Prelude.{◌≡◌, IfOk};
ghost use Rattle.fdo_msgs.specs.OwnerSign.{to0d as to0d_seen, to0d_in, to0d_text, owner_sign_of, owner_sign_seen, owner_sign_place, is_to0d as is_a_to0d, owner_sign_text};

use crate::msg::{Msg, Nonce};
use crate::signed::Signed;
use crate::to1d::read_to1d;
use crate::value::{open_inside, put, put_bytes, sixteen_part, u32_part, voucher_part};
use cbor_core::{Blob, Item, NoMemory, Part, write_head};
use std::alloc::Global;
use voucher_chain::Voucher;

/// The message that a part is, or None where it is none of TO0.OwnerSign's form.
#[tactic(auto, unfolding(crate::specs::OwnerSign::owner_sign_seen))]
pub(crate) fn read_owner_sign(alloc: Global, part: &Part) -> Result<Option<Msg>, NoMemory>
    ensures { IfOk result (λ msg. msg ≡ owner_sign_seen part.now.spot) }
{
    match part.two() {
        Some((to0d, to1d)) => read_parts(alloc, &to0d, &to1d),
        None => Ok(None),
    }
}

fn read_parts(alloc: Global, to0d: &Part, to1d: &Part) -> Result<Option<Msg>, NoMemory>
    ensures { IfOk result (λ msg. msg ≡ owner_sign_of (to0d.now.spot, to1d.now.spot)) }
{
    let Some(to0d) = to0d.bytes(alloc)? else {
        return Ok(None);
    };
    let Some(said) = read_to0d(alloc, to0d.as_list())? else {
        return Ok(None);
    };
    match read_to1d(alloc, to1d)? {
        Some(to1d) => {
            let (voucher, wait, nonce) = said;
            Ok(Some(Msg::OwnerSign {
                to0d,
                voucher,
                wait,
                nonce,
                to1d,
            }))
        }
        None => Ok(None),
    }
}

/// The voucher, the seconds and the nonce that the bytes of to0d spell, to their end.
#[tactic(auto, unfolding(crate::specs::OwnerSign::to0d_in))]
fn read_to0d(alloc: Global, bytes: &[u8]) -> Result<Option<(Voucher, u32, Nonce)>, NoMemory>
    ensures { IfOk result (λ said. said ≡ to0d_in bytes.now) }
{
    match open_inside(alloc, bytes)? {
        Some(part) => to0d(alloc, &part),
        None => Ok(None),
    }
}

fn to0d(alloc: Global, part: &Part) -> Result<Option<(Voucher, u32, Nonce)>, NoMemory>
    ensures { IfOk result (λ said. said ≡ to0d_seen part.now.spot) }
{
    let Some((voucher, wait, nonce)) = part.three() else {
        return Ok(None);
    };
    let voucher = voucher_part(alloc, &voucher)?;
    let nonce = sixteen_part(alloc, &nonce)?;
    match (voucher, u32_part(&wait), nonce) {
        (Some(voucher), Some(wait), Some(nonce)) => Ok(Some((voucher, wait, nonce))),
        _ => Ok(None),
    }
}

/// Where a part that is none of the form is at fault.
#[tactic(auto, unfolding(crate::specs::OwnerSign::owner_sign_place))]
pub(crate) fn find_owner_sign_fault(alloc: Global, part: &Part) -> Result<usize, NoMemory>
    ensures { IfOk result (λ at. at ≡ owner_sign_place part.now.spot) }
{
    let Some((to0d, to1d)) = part.two() else {
        return Ok(part.at());
    };
    if is_to0d(alloc, &to0d)? {
        Signed::RvRedirect.find_fault(alloc, &to1d)
    } else {
        Ok(to0d.at())
    }
}

fn is_to0d(alloc: Global, part: &Part) -> Result<bool, NoMemory>
    ensures { IfOk result (λ is. is ≡ is_a_to0d part.now.spot) }
{
    match part.bytes(alloc)? {
        Some(bytes) => Ok(read_to0d(alloc, bytes.as_list())?.is_some()),
        None => Ok(false),
    }
}

// ---- writing

/// The bytes of to0d: a voucher as it stands, for how many seconds the owner wants to be registered, and NonceTO0Sign.
pub fn to0d_bytes(alloc: Global, voucher: &[u8], wait: u32, nonce: &Nonce) -> Result<Blob, NoMemory>
    ensures { IfOk result (λ to0d. to0d ≡ to0d_text voucher.now wait nonce.now) }
{
    let mut out = Vec::with_capacity(alloc, voucher.len())?;
    write_head(&mut out, 4, 3)?;
    out.extend_from_slice(voucher)?;
    put(alloc, &mut out, Item::Uint(u64::from(wait)))?;
    put_bytes(alloc, &mut out, nonce)?;
    Ok(Blob::new(out))
}

/// The body of a to0d and a to1d.
pub(crate) fn owner_sign_body(alloc: Global, to0d: &[u8], to1d: &[u8]) -> Result<Blob, NoMemory>
    ensures { IfOk result (λ body. body ≡ owner_sign_text to0d.now to1d.now) }
{
    let mut out = Vec::with_capacity(alloc, to0d.len())?;
    write_head(&mut out, 4, 2)?;
    put_bytes(alloc, &mut out, to0d)?;
    out.extend_from_slice(to1d)?;
    Ok(Blob::new(out))
}
