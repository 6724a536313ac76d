ghost use Rattle.std.specs.Prelude.{◌≡◌, ◌≤◌, ◌++◌, ◌+◌, IfOk, filter, length, map, option_and_then, option_map, unwrap_or, IfErr, Some, List, ℕ};
ghost use Rattle.std.specs.List.{flat_map, range_with_len};
ghost use Rattle.cbor_core.specs.declared.item.Item.{out-Item};
ghost use Rattle.cbor_core.specs.Shapes.{array_layer};
ghost use Rattle.service_info.specs.Devmod.{all_in, counted, listed as items_listed, lists_in, lists_needed, misplaced, named_in, named_layer, names_in_place, places_of, text_of};
ghost use Rattle.service_info.specs.Fault.{Answers, AnswersAs};

use crate::devmod::has_key;
use crate::devmod_key::DevmodKey;
use crate::info_fault::InfoFault;
use crate::named::Named;
use crate::pair::Pair;
use crate::texts::Texts;
use crate::value::read_item;
use cbor_core::{Item, NoMemory, Text};
use std::alloc::Global;

/// The lists of names, in order.
pub(crate) fn read_lists(alloc: Global, pairs: &[Pair]) -> Result<Vec<Named>, InfoFault>
    ensures { AnswersAs (λ v. v.items) (lists_needed pairs.now) result }
{
    match read_all_lists(alloc, pairs)? {
        Some(lists) => {
            if lists.is_empty() {
                Err(InfoFault::MissingDevmod(DevmodKey::Modules))
            } else {
                Ok(lists)
            }
        }
        None => Err(InfoFault::MissingDevmod(DevmodKey::Modules)),
    }
}

#[tactic(auto, using(crate::proofs::AllLaws::front_more, crate::proofs::AllLaws::front_none))]
fn read_all_lists(alloc: Global, pairs: &[Pair]) -> Result<Option<Vec<Named>>, NoMemory>
    ensures { IfOk result (λ lists. option_map (λ v. v.items) lists ≡ lists_in pairs.now) }
{
    let mut lists = Vec::new(alloc);
    for pair in pairs {
        if has_key(pair, DevmodKey::Modules) {
            match read_named(alloc, pair)? {
                Some(named) => lists.push(named)?,
                None => return Ok(None),
            }
        }
    }
    Ok(Some(lists))
}

fn read_named(alloc: Global, pair: &Pair) -> Result<Option<Named>, NoMemory>
    ensures { IfOk result (λ named. named ≡ named_in pair.now) }
{
    match read_item(alloc, pair.value.as_list())? {
        Some(item) => read_named_item(alloc, &item),
        None => Ok(None),
    }
}

fn read_named_item(alloc: Global, item: &Item) -> Result<Option<Named>, NoMemory>
    ensures { IfOk result (λ named. named ≡ named_layer (out-Item item.now)) }
{
    match item {
        Item::Array(items) => match items.as_slice() {
            [Item::Uint(start), Item::Uint(count), names @ ..] => read_counted(
                alloc, *start, *count, names,
            ),
            _ => Ok(None),
        },
        _ => Ok(None),
    }
}

fn read_counted(
    alloc: Global,
    start: u64,
    count: u64,
    items: &[Item],
) -> Result<Option<Named>, NoMemory>
    ensures { IfOk result (λ named. named ≡ option_and_then (counted start count) (all_in text_of (items_listed items.now))) }
{
    match read_texts(alloc, listed(items))? {
        Some(names) => {
            if names.len() as u64 == count {
                Ok(Some(Named {
                    start,
                    names: Texts::new(names),
                }))
            } else {
                Ok(None)
            }
        }
        None => Ok(None),
    }
}

fn listed(items: &[Item]) -> &[Item]
    ensures { result.now ≡ items_listed items.now }
{
    match items {
        [Item::Array(names)] => names.as_slice(),
        _ => items,
    }
}

#[tactic(auto, using(crate::proofs::AllLaws::front_more, crate::proofs::AllLaws::front_none))]
fn read_texts(alloc: Global, items: &[Item]) -> Result<Option<Vec<Text>>, NoMemory>
    ensures { IfOk result (λ texts. option_map (λ v. v.items) texts ≡ all_in text_of items.now) }
{
    let mut texts = Vec::new(alloc);
    for item in items {
        match item {
            Item::Text(text) => texts.push(text.copy()?)?,
            _ => return Ok(None),
        }
    }
    Ok(Some(texts))
}

/// The names of all lists, where they are for the places below `count`, in order.
pub(crate) fn placed_names(alloc: Global, count: u64, lists: Vec<Named>) -> Result<Texts, InfoFault>
    ensures { Answers (names_in_place count lists.items) result }
{
    match find_misplaced(count, lists.as_slice()) {
        Some(place) => Err(InfoFault::BadModules(place)),
        None => Ok(join_names(alloc, lists)?),
    }
}

fn find_misplaced(count: u64, lists: &[Named]) -> Option<u64>
    ensures { result ≡ misplaced count 0 (places_of lists.now) }
{
    let mut next = 0;
    for named in lists {
        match place_names(count, next, named.start, named.names.as_list().len() as u64) {
            Ok(after) => next = after,
            Err(place) => return Some(place),
        }
    }
    if next == count { None } else { Some(next) }
}

/// The place after so many names from `start` on, where `next` is the one that they are to begin at, or the first place
/// that is wrong.
#[tactic(auto, using(crate::proofs::PlaceLaws::placed_on, crate::proofs::PlaceLaws::wrong_start, crate::proofs::PlaceLaws::too_many))]
fn place_names(count: u64, next: u64, start: u64, names: u64) -> Result<u64, u64>
    requires { next ≤ count }
    ensures within { IfOk result (λ after. after ≤ count) }
    ensures ok { IfOk result (λ after. (places : List ℕ) → misplaced count next (range_with_len start names ++ places) ≡ misplaced count after places) }
    ensures err { IfErr result (λ place. (places : List ℕ) → misplaced count next (range_with_len start names ++ places) ≡ Some place) }
{
    if names == 0 {
        Ok(next)
    } else if start != next {
        Err(next)
    } else if count - next < names {
        Err(count)
    } else {
        Ok(next + names)
    }
}

fn join_names(alloc: Global, lists: Vec<Named>) -> Result<Texts, NoMemory>
    ensures { IfOk result (λ texts. texts ≡ flat_map (λ named. named.names) lists.items) }
{
    let mut all = Vec::new(alloc);
    for named in lists {
        let mut names = named.names.into_vec();
        all.append(&mut names)?;
    }
    Ok(Texts::new(all))
}
