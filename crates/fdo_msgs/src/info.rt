ghost use Rattle.std.specs.Prelude.{◌≡◌, is_some, map, option_map, IfOk};
ghost use Rattle.cbor_core.specs.Spots.{Spot, spot_item, spot_parts};
ghost use Rattle.cbor_core.specs.Whole.{whole};
ghost use Rattle.service_info.specs.declared.pair.Pair.{Pair};
ghost use Rattle.voucher_chain.specs.Fault.{all_in, first_fault};
ghost use Rattle.fdo_msgs.specs.Info.{value_in, pair_of, pair_in, pairs_in, device_info as device_info_seen, device_info_of, owner_info as owner_info_seen, owner_info_of, pair_fault as fault_of_pair, pairs_fault as fault_of_pairs, pairs_place, item_of_pair, item_of_pairs};

use crate::msg::Msg;
use crate::value::{flag_part, open_inside};
use cbor_core::{Blob, Item, Items, NoMemory, Part};
use service_info::{InfoPairs, Pair};
use std::alloc::Global;

/// The pairs that a part is, or None where it is none.
#[tactic(auto, using(crate::proofs::PairLaws::pairs_said, crate::proofs::PairLaws::pairs_none))]
pub(crate) fn pairs_part(alloc: Global, part: &Part) -> Result<Option<InfoPairs>, NoMemory>
    ensures { IfOk result (λ pairs. pairs ≡ pairs_in (spot_item part.now.spot)) }
{
    if !part.is_array() {
        return Ok(None);
    }
    match read_all(alloc, part)? {
        Some(pairs) => Ok(Some(InfoPairs::new(pairs))),
        None => Ok(None),
    }
}

fn read_all(alloc: Global, part: &Part) -> Result<Option<Vec<Pair>>, NoMemory>
    ensures all { IfOk result (λ all. option_map (λ v. v.items) all ≡ all_in (λ s. pair_in (spot_item s)) (spot_parts part.now.spot)) }
    ensures items { map spot_item (spot_parts part.now.spot) ≡ inner (spot_item part.now.spot) }
{
    let mut all = Vec::new(alloc);
    let mut next = part.inside();
    while let Some(pair) = next {
        match read_pair(alloc, &pair)? {
            Some(value) => all.push(value)?,
            None => return Ok(None),
        }
        next = pair.after();
    }
    Ok(Some(all))
}

ghost use Rattle.cbor_core.specs.Parts.{inner};

fn read_pair(alloc: Global, part: &Part) -> Result<Option<Pair>, NoMemory>
    ensures { IfOk result (λ pair. pair ≡ pair_in (spot_item part.now.spot)) }
{
    match part.two() {
        Some((key, value)) => read_parts(alloc, &key, &value),
        None => Ok(None),
    }
}

fn read_parts(alloc: Global, key: &Part, value: &Part) -> Result<Option<Pair>, NoMemory>
    ensures { IfOk result (λ pair. pair ≡ pair_of (spot_item key.now.spot, spot_item value.now.spot)) }
{
    let Some(key) = key.text(alloc)? else {
        return Ok(None);
    };
    match read_value(alloc, value)? {
        Some(value) => Ok(Some(Pair { key, value })),
        None => Ok(None),
    }
}

/// Bytes that hold one item, to their end.
fn read_value(alloc: Global, part: &Part) -> Result<Option<Blob>, NoMemory>
    ensures { IfOk result (λ value. value ≡ value_in (spot_item part.now.spot)) }
{
    match part.bytes(alloc)? {
        Some(bytes) => {
            if is_item(alloc, bytes.as_list())? {
                Ok(Some(bytes))
            } else {
                Ok(None)
            }
        }
        None => Ok(None),
    }
}

fn is_item(alloc: Global, bytes: &[u8]) -> Result<bool, NoMemory>
    ensures { IfOk result (λ is. is ≡ is_some (whole bytes.now)) }
{
    Ok(open_inside(alloc, bytes)?.is_some())
}

// ---- the messages (FIDO Device Onboard 1.1, sections 5.5.10 and 5.5.11)

pub(crate) fn read_device_info(alloc: Global, part: &Part) -> Result<Option<Msg>, NoMemory>
    ensures { IfOk result (λ msg. msg ≡ device_info_seen part.now.spot) }
{
    match part.two() {
        Some((more, pairs)) => device_info(alloc, &more, &pairs),
        None => Ok(None),
    }
}

fn device_info(alloc: Global, more: &Part, pairs: &Part) -> Result<Option<Msg>, NoMemory>
    ensures { IfOk result (λ msg. msg ≡ device_info_of (more.now.spot, pairs.now.spot)) }
{
    let Some(more) = flag_part(more) else {
        return Ok(None);
    };
    match pairs_part(alloc, pairs)? {
        Some(pairs) => Ok(Some(Msg::DeviceInfo { more, pairs })),
        None => Ok(None),
    }
}

pub(crate) fn read_owner_info(alloc: Global, part: &Part) -> Result<Option<Msg>, NoMemory>
    ensures { IfOk result (λ msg. msg ≡ owner_info_seen part.now.spot) }
{
    match part.three() {
        Some((more, done, pairs)) => owner_info(alloc, &more, &done, &pairs),
        None => Ok(None),
    }
}

fn owner_info(
    alloc: Global,
    more: &Part,
    done: &Part,
    pairs: &Part,
) -> Result<Option<Msg>, NoMemory>
    ensures { IfOk result (λ msg. msg ≡ owner_info_of (more.now.spot, done.now.spot, pairs.now.spot)) }
{
    let (Some(more), Some(done)) = (flag_part(more), flag_part(done)) else {
        return Ok(None);
    };
    match pairs_part(alloc, pairs)? {
        Some(pairs) => Ok(Some(Msg::OwnerInfo { more, done, pairs })),
        None => Ok(None),
    }
}

// ---- where they are at fault

/// Where a part that is no pairs is not of its form.
pub(crate) fn find_pairs_fault(alloc: Global, part: &Part) -> Result<usize, NoMemory>
    ensures { IfOk result (λ at. at ≡ pairs_place part.now.spot) }
{
    match pairs_fault(alloc, part)? {
        Some(place) => Ok(place),
        None => Ok(part.at()),
    }
}

fn pairs_fault(alloc: Global, part: &Part) -> Result<Option<usize>, NoMemory>
    ensures { IfOk result (λ fault. fault ≡ fault_of_pairs part.now.spot) }
{
    if part.is_array() {
        first_pair_fault(alloc, part)
    } else {
        Ok(Some(part.at()))
    }
}

fn first_pair_fault(alloc: Global, part: &Part) -> Result<Option<usize>, NoMemory>
    ensures { IfOk result (λ fault. fault ≡ first_fault fault_of_pair (spot_parts part.now.spot)) }
{
    let mut next = part.inside();
    while let Some(pair) = next {
        if let Some(place) = pair_fault(alloc, &pair)? {
            return Ok(Some(place));
        }
        next = pair.after();
    }
    Ok(None)
}

fn pair_fault(alloc: Global, part: &Part) -> Result<Option<usize>, NoMemory>
    ensures { IfOk result (λ fault. fault ≡ fault_of_pair part.now.spot) }
{
    let Some((key, value)) = part.two() else {
        return Ok(Some(part.at()));
    };
    if !key.is_text() {
        Ok(Some(key.at()))
    } else if read_value(alloc, &value)?.is_none() {
        Ok(Some(value.at()))
    } else {
        Ok(None)
    }
}

// ---- writing

/// The item that pairs are written as.
pub(crate) fn pairs_item(alloc: Global, pairs: &InfoPairs) -> Result<Item, NoMemory>
    ensures { IfOk result (λ item. item ≡ item_of_pairs pairs.now) }
{
    let mut parts = Items::new(alloc);
    let all = pairs.as_list();
    for pair in all {
        parts.push(pair_item(alloc, pair)?)?;
    }
    Ok(Item::Array(parts))
}

fn pair_item(alloc: Global, pair: &Pair) -> Result<Item, NoMemory>
    ensures { IfOk result (λ item. item ≡ item_of_pair pair.now) }
{
    let mut parts = Items::new(alloc);
    parts.push(Item::Text(pair.key.copy()?))?;
    parts.push(Item::Bytes(pair.value.copy()?))?;
    Ok(Item::Array(parts))
}
