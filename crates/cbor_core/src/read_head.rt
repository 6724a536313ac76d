ghost use Rattle.std.specs.Prelude.{◌≡◌, ◌<◌, IfErr, Err};
ghost use Rattle.std.specs.Int.{w8, w16, w32, w64};
ghost use Rattle.cbor_core.specs.Head.{major_of, size_of};
ghost use Rattle.cbor_core.specs.Reading.{Gives, number_at, argument_at, other_at, head_at};

use crate::fault::CborFault;
use crate::head::{Head, Major, Size};

/// The head at the front of the bytes.
#[tactic(auto, unfolding(crate::specs::Reading::head_at))]
#[inline(always)]
pub(crate) fn read_head(place: usize, bytes: &[u8]) -> Result<(Head, &[u8]), CborFault>
    ensures gives { Gives (λ x. (x.0, x.1.now)) result (head_at place bytes.now) }
    ensures exact { IfErr result (λ e. (head_at place bytes.now) ≡ Err e) }
{
    match bytes {
        [] => Err(CborFault::Truncated(place)),
        [first, rest @ ..] => {
            let high = *first / 32;
            let low = *first % 32;
            if high == 7 {
                read_other(place, find_size(low), low, rest)
            } else {
                read_argument(place, find_major(high), find_size(low), low, rest)
            }
        }
    }
}

#[tactic(auto, unfolding(crate::specs::Reading::argument_at))]
#[inline(always)]
fn read_argument(
    place: usize,
    major: Major,
    size: Size,
    low: u8,
    rest: &[u8],
) -> Result<(Head, &[u8]), CborFault>
    ensures gives { Gives (λ x. (x.0, x.1.now)) result (argument_at place major size low rest.now) }
    ensures exact { IfErr result (λ e. (argument_at place major size low rest.now) ≡ Err e) }
{
    match size {
        Size::Inside => Ok((Head::Sized(major, true, low as u64), rest)),
        Size::One => {
            let (n, after) = read_u8(place, rest)?;
            Ok((Head::Sized(major, n >= 24, n as u64), after))
        }
        Size::Two => {
            let (n, after) = read_u16(place, rest)?;
            Ok((Head::Sized(major, n >= 1 << 8, n as u64), after))
        }
        Size::Four => {
            let (n, after) = read_u32(place, rest)?;
            Ok((Head::Sized(major, n >= 1 << 16, n as u64), after))
        }
        Size::Eight => {
            let (n, after) = read_u64(place, rest)?;
            Ok((Head::Sized(major, n >= 1 << 32, n), after))
        }
        Size::Reserved => Ok((Head::Reserved, rest)),
        Size::Indefinite => Ok((Head::Open(major), rest)),
    }
}

#[tactic(auto, unfolding(crate::specs::Reading::other_at))]
#[inline(always)]
fn read_other(place: usize, size: Size, low: u8, rest: &[u8]) -> Result<(Head, &[u8]), CborFault>
    ensures gives { Gives (λ x. (x.0, x.1.now)) result (other_at place size low rest.now) }
    ensures exact { IfErr result (λ e. (other_at place size low rest.now) ≡ Err e) }
{
    match size {
        Size::Inside => Ok((Head::Simple(low), rest)),
        Size::One => {
            let (n, after) = read_u8(place, rest)?;
            Ok((
                if n < 32 {
                    Head::Reserved
                } else {
                    Head::Simple(n)
                },
                after,
            ))
        }
        Size::Two => {
            let (_number, after) = read_u16(place, rest)?;
            Ok((Head::Float, after))
        }
        Size::Four => {
            let (_number, after) = read_u32(place, rest)?;
            Ok((Head::Float, after))
        }
        Size::Eight => {
            let (_number, after) = read_u64(place, rest)?;
            Ok((Head::Float, after))
        }
        Size::Reserved => Ok((Head::Reserved, rest)),
        Size::Indefinite => Ok((Head::Break, rest)),
    }
}

#[tactic(auto, unfolding(crate::specs::Head::major_of))]
#[inline(always)]
fn find_major(high: u8) -> Major
    requires { high < 7 }
    ensures { result ≡ major_of high }
{
    match high {
        0 => Major::Unsigned,
        1 => Major::Negative,
        2 => Major::Bytes,
        3 => Major::Text,
        4 => Major::Array,
        5 => Major::Map,
        _ => Major::Tag,
    }
}

#[tactic(auto, unfolding(crate::specs::Head::size_of))]
#[inline(always)]
fn find_size(low: u8) -> Size
    ensures { result ≡ size_of low }
{
    match low {
        0..=23 => Size::Inside,
        24 => Size::One,
        25 => Size::Two,
        26 => Size::Four,
        27 => Size::Eight,
        31 => Size::Indefinite,
        _ => Size::Reserved,
    }
}

#[inline(always)]
fn read_u8(place: usize, bytes: &[u8]) -> Result<(u8, &[u8]), CborFault>
    ensures gives { Gives (λ x. (x.0, x.1.now)) result (number_at place w8 bytes.now) }
    ensures exact { IfErr result (λ e. (number_at place w8 bytes.now) ≡ Err e) }
{
    if bytes.len() < 1 {
        return Err(CborFault::Truncated(place));
    }
    let (front, rest) = bytes.split_at(1);
    Ok((u8::from_be_bytes([front[0]]), rest))
}

#[inline(always)]
fn read_u16(place: usize, bytes: &[u8]) -> Result<(u16, &[u8]), CborFault>
    ensures gives { Gives (λ x. (x.0, x.1.now)) result (number_at place w16 bytes.now) }
    ensures exact { IfErr result (λ e. (number_at place w16 bytes.now) ≡ Err e) }
{
    if bytes.len() < 2 {
        return Err(CborFault::Truncated(place));
    }
    let (front, rest) = bytes.split_at(2);
    Ok((u16::from_be_bytes([front[0], front[1]]), rest))
}

#[inline(always)]
fn read_u32(place: usize, bytes: &[u8]) -> Result<(u32, &[u8]), CborFault>
    ensures gives { Gives (λ x. (x.0, x.1.now)) result (number_at place w32 bytes.now) }
    ensures exact { IfErr result (λ e. (number_at place w32 bytes.now) ≡ Err e) }
{
    if bytes.len() < 4 {
        return Err(CborFault::Truncated(place));
    }
    let (front, rest) = bytes.split_at(4);
    Ok((
        u32::from_be_bytes([front[0], front[1], front[2], front[3]]),
        rest,
    ))
}

#[inline(always)]
fn read_u64(place: usize, bytes: &[u8]) -> Result<(u64, &[u8]), CborFault>
    ensures gives { Gives (λ x. (x.0, x.1.now)) result (number_at place w64 bytes.now) }
    ensures exact { IfErr result (λ e. (number_at place w64 bytes.now) ≡ Err e) }
{
    if bytes.len() < 8 {
        return Err(CborFault::Truncated(place));
    }
    let (front, rest) = bytes.split_at(8);
    let number = u64::from_be_bytes([
        front[0], front[1], front[2], front[3], front[4], front[5], front[6], front[7],
    ]);
    Ok((number, rest))
}
