ghost use Rattle.std.specs.Prelude.{◌≡◌, ◌++◌, ◌<◌, ◌≤◌, ◌∷◌, ◌^◌, [], true, IfOk, OnOk, length, map, take, drop, flat_map};
ghost use Rattle.std.specs.List.{concat};
ghost use Rattle.std.specs.Ordering.{nat_cmp, is_lt};
ghost use Rattle.std.specs.Cmp.Lexicographic.{slice_cmp};
ghost use Rattle.cbor_core.specs.declared.item.Item.{out-Item};
ghost use Rattle.cbor_core.specs.Head.{head};
ghost use Rattle.cbor_core.specs.Deterministic.{det, det_pairs, in_key_order, is_single_item};
ghost use Rattle.cbor_core.specs.Norm.{IsFit, IsReadBack};

use crate::blob::Blob;
use crate::item::Item;
use crate::keys::is_below;
use crate::no_memory::NoMemory;
use std::alloc::Global;
use std::collections::BTreeMap;

/// The deterministic spelling of an item: shortest arguments, definite lengths, and map keys in bytewise order.
pub fn write_det(alloc: Global, item: &Item) -> Result<Blob, NoMemory>
    ensures value { IfOk result (λ blob. blob ≡ det item.now) }
    // An item that is fit to be written is read back, its maps' pairs in order, whatever follows.
    ensures back { IsFit item.now → IfOk result (λ blob. IsReadBack item.now blob) }
{
    let mut out = Vec::with_capacity(alloc, 64)?;
    write_item(alloc, &mut out, item)?;
    Ok(Blob::new(out))
}

#[cycle(write)]
fn write_item(alloc: Global, out: &mut Vec<u8>, item: &Item) -> Result<(), NoMemory>
    ensures { OnOk result (out.new.items ≡ out.old.items ++ det item.now) }
{
    match item {
        Item::Uint(number) => write_head(out, 0, *number),
        Item::Nint(number) => write_head(out, 1, *number),
        Item::Bytes(bytes) => write_string(out, 2, bytes.as_list()),
        Item::Text(text) => write_string(out, 3, text.as_list().as_bytes()),
        Item::Array(items) => write_items(alloc, out, items.as_slice()),
        Item::Map(pairs) => write_map(alloc, out, pairs.as_slice()),
        Item::Tag(tag, content) => {
            write_head(out, 6, *tag)?;
            write_item(alloc, out, content.get())
        }
        Item::Simple(value) => write_head(out, 7, *value as u64),
    }
}

#[cycle(write)]
fn write_items(alloc: Global, out: &mut Vec<u8>, items: &[Item]) -> Result<(), NoMemory>
    ensures { OnOk result (out.new.items ≡ out.old.items ++ (head 4 (length items.now) ++ concat (map det items.now))) }
{
    write_head(out, 4, items.len() as u64)?;
    for item in items {
        write_item(alloc, out, item)?;
    }
    Ok(())
}

#[cycle(write)]
fn write_map(alloc: Global, out: &mut Vec<u8>, pairs: &[(Item, Item)]) -> Result<(), NoMemory>
    ensures { OnOk result (out.new.items ≡ out.old.items ++ det_pairs (in_key_order (map (λ p. (det p.0, det p.1)) pairs.now))) }
{
    match pairs {
        [(key, value)] => {
            write_head(out, 5, 1)?;
            write_item(alloc, out, key)?;
            write_item(alloc, out, value)
        }
        _ => write_several(alloc, out, pairs),
    }
}

/// Pairs whose keys stand in their order are written as they stand, and others are sorted.
#[cycle(write)]
fn write_several(alloc: Global, out: &mut Vec<u8>, pairs: &[(Item, Item)]) -> Result<(), NoMemory>
    ensures { OnOk result (out.new.items ≡ out.old.items ++ det_pairs (in_key_order (map (λ p. (det p.0, det p.1)) pairs.now))) }
{
    let start = out.len();
    let rise = write_keys(alloc, out, pairs)?;
    out.truncate(start);
    if rise {
        write_pairs(alloc, out, pairs)
    } else {
        write_sorted(alloc, out, pairs)
    }
}

/// Writes the keys, as long as nothing stands inside them and each is above the one before it. True where all are so.
#[cycle(write)]
#[tactic(auto, using(crate::proofs::Rising::front_more, crate::proofs::Rising::top_written, crate::proofs::Rising::order_written))]
fn write_keys(alloc: Global, out: &mut Vec<u8>, pairs: &[(Item, Item)]) -> Result<bool, NoMemory>
    ensures front { OnOk result (take (length out.old.items) out.new.items ≡ out.old.items) }
    ensures rise { IfOk result (λ rise. rise ≡ true → in_key_order (map (λ p. (det p.0, det p.1)) pairs.now) ≡ map (λ p. (det p.0, det p.1)) pairs.now) }
{
    let mut mark = out.len();
    for (key, _value) in pairs {
        if !is_single(key) {
            return Ok(false);
        }
        let end = out.len();
        if !write_above(alloc, out, mark, key)? {
            return Ok(false);
        }
        mark = end;
    }
    Ok(true)
}

/// Writes a key, and says whether it is above the one that stands at the end, from `mark`.
#[cycle(write)]
fn write_above(alloc: Global, out: &mut Vec<u8>, mark: usize, key: &Item) -> Result<bool, NoMemory>
    requires { mark ≤ length out.old.items }
    ensures text { OnOk result (out.new.items ≡ out.old.items ++ det key.now) }
    ensures above { IfOk result (λ above. above ≡ is_lt (slice_cmp nat_cmp (drop mark out.old.items) (det key.now))) }
{
    let end = out.len();
    write_item(alloc, out, key)?;
    let (front, text) = out.as_slice().split_at(end);
    Ok(is_below(front.split_at(mark).1, text))
}

fn is_single(item: &Item) -> bool
    ensures { result ≡ is_single_item (out-Item item.now) }
{
    match item {
        Item::Array(_) => false,
        Item::Map(_) => false,
        Item::Tag(_, _) => false,
        _ => true,
    }
}

#[cycle(write)]
fn write_pairs(alloc: Global, out: &mut Vec<u8>, pairs: &[(Item, Item)]) -> Result<(), NoMemory>
    ensures { OnOk result (out.new.items ≡ out.old.items ++ det_pairs (map (λ p. (det p.0, det p.1)) pairs.now)) }
{
    write_head(out, 5, pairs.len() as u64)?;
    for (key, value) in pairs {
        write_item(alloc, out, key)?;
        write_item(alloc, out, value)?;
    }
    Ok(())
}

#[cycle(write)]
fn write_sorted(alloc: Global, out: &mut Vec<u8>, pairs: &[(Item, Item)]) -> Result<(), NoMemory>
    ensures { OnOk result (out.new.items ≡ out.old.items ++ det_pairs (in_key_order (map (λ p. (det p.0, det p.1)) pairs.now))) }
{
    let mut spelled = BTreeMap::new(alloc);
    for (key, value) in pairs {
        let mut front = Vec::new(alloc);
        write_item(alloc, &mut front, key)?;
        let mut back = Vec::new(alloc);
        write_item(alloc, &mut back, value)?;
        spelled.insert(Blob::new(front), Blob::new(back))?;
    }
    write_spelled(out, &spelled)
}

fn write_spelled(out: &mut Vec<u8>, spelled: &BTreeMap<Blob, Blob>) -> Result<(), NoMemory>
    ensures { OnOk result (out.new.items ≡ out.old.items ++ det_pairs spelled.now.entries) }
{
    write_head(out, 5, spelled.len() as u64)?;
    for (key, value) in spelled.iter() {
        out.extend_from_slice(key.as_list())?;
        out.extend_from_slice(value.as_list())?;
    }
    Ok(())
}

fn write_string(out: &mut Vec<u8>, major: u8, bytes: &[u8]) -> Result<(), NoMemory>
    requires { major < 8 }
    ensures { OnOk result (out.new.items ≡ out.old.items ++ (head major (length bytes.now) ++ bytes.now)) }
{
    write_head(out, major, bytes.len() as u64)?;
    out.extend_from_slice(bytes)?;
    Ok(())
}

/// Writes a head of a major type below 8 with the shortest argument (RFC 8949, section 3). Where memory runs out, what
/// was written may be cut short.
#[tactic(auto, unfolding(crate::specs::Head::head))]
pub fn write_head(out: &mut Vec<u8>, major: u8, argument: u64) -> Result<(), NoMemory>
    requires { major < 8 }
    ensures { OnOk result (out.new.items ≡ out.old.items ++ head major argument) }
{
    let first = 32 * major;
    if argument < 24 {
        out.push(first + argument as u8)?;
    } else if argument < 1 << 8 {
        out.push(first + 24)?;
        out.push(argument as u8)?;
    } else if argument < 1 << 16 {
        out.push(first + 25)?;
        out.extend_from_slice(&(argument as u16).to_be_bytes())?;
    } else if argument < 1 << 32 {
        out.push(first + 26)?;
        out.extend_from_slice(&(argument as u32).to_be_bytes())?;
    } else {
        out.push(first + 27)?;
        out.extend_from_slice(&argument.to_be_bytes())?;
    }
    Ok(())
}
