ghost use Rattle.std.specs.Prelude.{ℕ, ◌≤◌, take, IfOk, ◌≡◌, [], length, false, true, OnOk, Err};
ghost use Rattle.cbor_core.specs.declared.head.Major.TheVariants as major;
ghost use Rattle.cbor_core.specs.Reading.{Gives, Fails, content_at, row_at, open_at, item_step, pair_step, key_spellings, admitted, demanded, sized_in, open_in, item_in, buried_sized, buried_open, buried_in, item_at, first_item};
ghost use Rattle.cbor_core.specs.declared.item.Item.{Item};
ghost use Rattle.cbor_core.specs.Keys.{Keeps};
ghost use Rattle.cbor_core.specs.Deterministic.{det};
ghost use Rattle.cbor_core.specs.Norm.{norm, IsFit};
ghost use Rattle.cbor_core.specs.Spelling.{Spells};

use crate::blob::Blob;
use crate::fault::CborFault;
use crate::head::{Head, Major};
use crate::item::{Item, Items, Pairs};
use crate::keys::{Keys, as_received};
use crate::read_head::read_head;
use crate::strings::{is_break, read_byte_chunks, read_bytes, read_text, read_text_chunks};
use crate::text::Text;
use sqlite_items::Boxed;
use std::alloc::Global;

/// The item at the front of the bytes, and how many bytes it takes. Bytes may follow. The first fault in reading
/// order is answered, and never `NotDeterministic`.
pub fn read_wire(alloc: Global, bytes: &[u8]) -> Result<(Item, usize), CborFault>
    // What is read is spelled so.
    ensures found { IfOk result (λ x. (x.1 ≤ length bytes.now) × Spells x.0 (take x.1 bytes.now)) }
    // What is spelled so is read, unless memory runs out.
    ensures only { (x : Item) (n : ℕ) → n ≤ length bytes.now → Spells x (take n bytes.now) → Gives {Y = Item × ℕ} (λ y. (y.0, y.1)) result (Ok (x, n)) }
    // Which fault it is.
    ensures exact { Gives (λ x. (x.0, x.1)) result (first_item false bytes.now) }
    // What is read is fit to be written.
    ensures fit { IfOk result (λ x. IsFit x.0) }
{
    read_first(alloc, false, bytes)
}

/// The same for the deterministic spelling alone: `NotDeterministic` is answered where the first fault in reading
/// order is a spelling that is not the deterministic one.
pub fn read_det(alloc: Global, bytes: &[u8]) -> Result<(Item, usize), CborFault>
    // What is read is the deterministic spelling, of an item whose maps' pairs are in order.
    ensures found { IfOk result (λ x. (x.1 ≤ length bytes.now) × (take x.1 bytes.now ≡ det x.0) × (norm x.0 ≡ x.0)) }
    // A deterministic spelling is read, unless memory runs out.
    ensures only { (x : Item) (n : ℕ) → n ≤ length bytes.now → IsFit x → take n bytes.now ≡ det x → Gives {Y = Item × ℕ} (λ y. (y.0, y.1)) result (Ok (norm x, n)) }
    // Which fault it is.
    ensures exact { Gives (λ x. (x.0, x.1)) result (first_item true bytes.now) }
    // What is read is fit to be written.
    ensures fit { IfOk result (λ x. IsFit x.0) }
{
    read_first(alloc, true, bytes)
}

fn read_first(alloc: Global, strict: bool, bytes: &[u8]) -> Result<(Item, usize), CborFault>
    ensures { Gives (λ x. (x.0, x.1)) result (first_item strict bytes.now) }
{
    match read_item(alloc, strict, bytes.len(), 16, bytes) {
        Ok((item, rest)) => Ok((item, bytes.len().saturating_sub(rest.len()))),
        Err(fault) => Err(fault),
    }
}

/// The item at the front of the bytes, with so many levels left for it and what is inside it.
#[cycle(reading)]
#[tactic(auto, unfolding(crate::specs::Reading::item_at))]
pub(crate) fn read_item(
    alloc: Global,
    strict: bool,
    total: usize,
    levels: usize,
    bytes: &[u8],
) -> Result<(Item, &[u8]), CborFault>
    ensures { Gives (λ x. (x.0, x.1.now)) result (item_at strict total levels bytes.now) }
{
    let place = total.saturating_sub(bytes.len());
    let (head, rest) = read_head(place, bytes)?;
    if levels == 0 {
        Err(refuse_buried(place, head, rest))
    } else {
        read_content(alloc, strict, total, levels - 1, place, head, rest)
    }
}

#[cycle(reading)]
fn read_content(
    alloc: Global,
    strict: bool,
    total: usize,
    levels: usize,
    place: usize,
    head: Head,
    rest: &[u8],
) -> Result<(Item, &[u8]), CborFault>
    ensures { Gives (λ x. (x.0, x.1.now)) result (item_in strict total (item_at strict total levels) place head rest.now) }
{
    match head {
        Head::Sized(major, shortest, n) => {
            read_sized(
                alloc, strict, total, levels, place, major, n, shortest, rest,
            )
        }
        Head::Open(major) => read_open(alloc, strict, total, levels, place, major, rest),
        Head::Simple(value) => Ok((Item::Simple(value), rest)),
        Head::Float => Err(CborFault::Float(place)),
        Head::Break => Err(CborFault::Malformed(place)),
        Head::Reserved => Err(CborFault::Malformed(place)),
    }
}

#[cycle(reading)]
fn read_sized(
    alloc: Global,
    strict: bool,
    total: usize,
    levels: usize,
    place: usize,
    major: Major,
    n: u64,
    shortest: bool,
    rest: &[u8],
) -> Result<(Item, &[u8]), CborFault>
    ensures { Gives (λ x. (x.0, x.1.now)) result (sized_in strict total (item_at strict total levels) place major n shortest rest.now) }
{
    match major {
        Major::Bytes => {
            let (content, after) = read_bytes(place, n, rest)?;
            demand(strict, shortest, place)?;
            Ok((Item::Bytes(Blob::from_slice(alloc, content)?), after))
        }
        Major::Text => {
            let (content, after) = read_text(place, n, rest)?;
            demand(strict, shortest, place)?;
            Ok((Item::Text(Text::from_str(alloc, content)?), after))
        }
        Major::Unsigned => {
            demand(strict, shortest, place)?;
            Ok((Item::Uint(n), rest))
        }
        Major::Negative => {
            demand(strict, shortest, place)?;
            Ok((Item::Nint(n), rest))
        }
        Major::Array => {
            demand(strict, shortest, place)?;
            let (items, after) = read_items(alloc, strict, total, levels, n, rest)?;
            Ok((Item::Array(items), after))
        }
        Major::Map => {
            demand(strict, shortest, place)?;
            let (pairs, after) = read_map(alloc, strict, total, levels, n, rest)?;
            Ok((Item::Map(pairs), after))
        }
        Major::Tag => {
            demand(strict, shortest, place)?;
            let (content, after) = read_item(alloc, strict, total, levels, rest)?;
            Ok((Item::Tag(n, Boxed::new(alloc, content)?), after))
        }
    }
}

#[cycle(reading)]
fn read_open(
    alloc: Global,
    strict: bool,
    total: usize,
    levels: usize,
    place: usize,
    major: Major,
    rest: &[u8],
) -> Result<(Item, &[u8]), CborFault>
    ensures { Gives (λ x. (x.0, x.1.now)) result (open_in strict total (item_at strict total levels) place major rest.now) }
{
    match major {
        Major::Bytes => {
            demand(strict, false, place)?;
            let (content, after) = read_byte_chunks(alloc, total, rest)?;
            Ok((Item::Bytes(content), after))
        }
        Major::Text => {
            demand(strict, false, place)?;
            let (content, after) = read_text_chunks(alloc, total, rest)?;
            Ok((Item::Text(content), after))
        }
        Major::Array => {
            demand(strict, false, place)?;
            let (items, after) = read_open_items(alloc, strict, total, levels, rest)?;
            Ok((Item::Array(items), after))
        }
        Major::Map => {
            demand(strict, false, place)?;
            let (pairs, after) = read_open_pairs(alloc, strict, total, levels, rest)?;
            Ok((Item::Map(pairs), after))
        }
        _ => Err(CborFault::Malformed(place)),
    }
}

#[inline(always)]
fn demand(strict: bool, deterministic: bool, place: usize) -> Result<(), CborFault>
    ensures { Gives (λ x. x) result (demanded strict deterministic place) }
{
    if strict && !deterministic {
        Err(CborFault::NotDeterministic(place))
    } else {
        Ok(())
    }
}

/// The fault of an item below the deepest level.
pub(crate) fn refuse_buried(place: usize, head: Head, rest: &[u8]) -> CborFault
    ensures gives { Fails result (buried_in place head rest.now) }
    ensures exact { buried_in place head rest.now ≡ Err result }
{
    match head {
        Head::Sized(Major::Bytes, _, n) => match read_bytes(place, n, rest) {
            Ok(_) => CborFault::TooDeep(place),
            Err(fault) => fault,
        },
        Head::Sized(Major::Text, _, n) => match read_text(place, n, rest) {
            Ok(_) => CborFault::TooDeep(place),
            Err(fault) => fault,
        },
        Head::Sized(_, _, _) => CborFault::TooDeep(place),
        Head::Open(Major::Bytes) => CborFault::TooDeep(place),
        Head::Open(Major::Text) => CborFault::TooDeep(place),
        Head::Open(Major::Array) => CborFault::TooDeep(place),
        Head::Open(Major::Map) => CborFault::TooDeep(place),
        Head::Open(_) => CborFault::Malformed(place),
        Head::Simple(_) => CborFault::TooDeep(place),
        Head::Float => CborFault::Float(place),
        Head::Break => CborFault::Malformed(place),
        Head::Reserved => CborFault::Malformed(place),
    }
}

#[cycle(reading)]
#[tactic(auto, using(crate::proofs::Loops::row_more, crate::proofs::Loops::row_fails, crate::proofs::Loops::row_ends))]
fn read_items(
    alloc: Global,
    strict: bool,
    total: usize,
    levels: usize,
    n: u64,
    bytes: &[u8],
) -> Result<(Items, &[u8]), CborFault>
    ensures { Gives (λ x. (x.0, x.1.now)) result (row_at (item_step (item_at strict total levels)) n [] bytes.now) }
{
    let mut items = Items::new(alloc);
    let mut rest = bytes;
    for _turn in 0..n {
        match next_item(alloc, strict, total, levels, &mut items, rest) {
            Ok(after) => rest = after,
            Err(fault) => return Err(fault),
        }
    }
    Ok((items, rest))
}

#[cycle(reading)]
#[tactic(auto, using(crate::proofs::Loops::open_more, crate::proofs::Loops::open_fails, crate::proofs::Loops::open_ends, crate::proofs::Loops::open_over))]
fn read_open_items(
    alloc: Global,
    strict: bool,
    total: usize,
    levels: usize,
    bytes: &[u8],
) -> Result<(Items, &[u8]), CborFault>
    ensures { Gives (λ x. (x.0, x.1.now)) result (open_at (item_step (item_at strict total levels)) total (length bytes.now) [] bytes.now) }
{
    let mut items = Items::new(alloc);
    let mut rest = bytes;
    for _turn in 0..bytes.len() {
        if is_break(rest) {
            return Ok((items, rest.split_at(1).1));
        }
        match next_item(alloc, strict, total, levels, &mut items, rest) {
            Ok(after) => rest = after,
            Err(fault) => return Err(fault),
        }
    }
    Err(CborFault::Truncated(total))
}

/// Reads an element and puts it behind those read before.
#[cycle(reading)]
fn next_item<'a>(
    alloc: Global,
    strict: bool,
    total: usize,
    levels: usize,
    items: &mut Items,
    bytes: &'a [u8],
) -> Result<&'a [u8], CborFault>
    ensures { Gives (λ rest. (items.new, rest.now)) result (item_step (item_at strict total levels) items.old bytes.now) }
{
    let (item, after) = read_item(alloc, strict, total, levels, bytes)?;
    items.push(item)?;
    Ok(after)
}

#[cycle(reading)]
#[tactic(auto, using(crate::proofs::Loops::row_more, crate::proofs::Loops::row_fails, crate::proofs::Loops::row_ends))]
fn read_pairs(
    alloc: Global,
    strict: bool,
    total: usize,
    levels: usize,
    n: u64,
    bytes: &[u8],
) -> Result<(Pairs, &[u8]), CborFault>
    ensures { Gives (λ x. (x.0, x.1.now)) result (row_at (pair_step strict total (item_at strict total levels)) n [] bytes.now) }
{
    let mut pairs = Pairs::new(alloc);
    let mut keys = Keys::new(alloc);
    let mut rest = bytes;
    for _turn in 0..n {
        match next_pair(alloc, strict, total, levels, &mut pairs, &mut keys, rest) {
            Ok(after) => rest = after,
            Err(fault) => return Err(fault),
        }
    }
    Ok((pairs, rest))
}

#[cycle(reading)]
#[tactic(auto, using(crate::proofs::Loops::open_more, crate::proofs::Loops::open_fails, crate::proofs::Loops::open_ends, crate::proofs::Loops::open_over))]
fn read_open_pairs(
    alloc: Global,
    strict: bool,
    total: usize,
    levels: usize,
    bytes: &[u8],
) -> Result<(Pairs, &[u8]), CborFault>
    ensures { Gives (λ x. (x.0, x.1.now)) result (open_at (pair_step strict total (item_at strict total levels)) total (length bytes.now) [] bytes.now) }
{
    let mut pairs = Pairs::new(alloc);
    let mut keys = Keys::new(alloc);
    let mut rest = bytes;
    for _turn in 0..bytes.len() {
        if is_break(rest) {
            return Ok((pairs, rest.split_at(1).1));
        }
        match next_pair(alloc, strict, total, levels, &mut pairs, &mut keys, rest) {
            Ok(after) => rest = after,
            Err(fault) => return Err(fault),
        }
    }
    Err(CborFault::Truncated(total))
}

#[cycle(reading)]
#[tactic(auto, unfolding(crate::specs::Reading::row_at))]
fn read_map(
    alloc: Global,
    strict: bool,
    total: usize,
    levels: usize,
    n: u64,
    bytes: &[u8],
) -> Result<(Pairs, &[u8]), CborFault>
    ensures { Gives (λ x. (x.0, x.1.now)) result (row_at (pair_step strict total (item_at strict total levels)) n [] bytes.now) }
{
    match n {
        0 => Ok((Pairs::new(alloc), bytes)),
        1 => read_one_pair(alloc, strict, total, levels, bytes),
        _ => read_pairs(alloc, strict, total, levels, n, bytes),
    }
}

/// The pair of a map that has one, whose key is compared with none.
#[cycle(reading)]
#[tactic(auto, using(crate::proofs::Singles::one_pair, crate::proofs::Singles::no_key, crate::proofs::Singles::no_value))]
fn read_one_pair(
    alloc: Global,
    strict: bool,
    total: usize,
    levels: usize,
    bytes: &[u8],
) -> Result<(Pairs, &[u8]), CborFault>
    ensures { Gives (λ x. (x.0, x.1.now)) result (row_at (pair_step strict total (item_at strict total levels)) 1 [] bytes.now) }
{
    match read_item(alloc, strict, total, levels, bytes) {
        Ok((key, rest)) => match read_item(alloc, strict, total, levels, rest) {
            Ok((value, after)) => {
                let mut pairs = Pairs::new(alloc);
                pairs.push((key, value))?;
                Ok((pairs, after))
            }
            Err(fault) => Err(fault),
        },
        Err(fault) => Err(fault),
    }
}

/// Reads a key and its value and puts them behind those read before. `keys` is what is kept of the keys before.
#[cycle(reading)]
#[tactic(auto, unfolding(crate::specs::Reading::pair_step))]
fn next_pair<'a>(
    alloc: Global,
    strict: bool,
    total: usize,
    levels: usize,
    pairs: &mut Pairs,
    keys: &mut Keys<'a>,
    bytes: &'a [u8],
) -> Result<&'a [u8], CborFault>
    requires { Keeps keys.old (key_spellings pairs.old) }
    ensures gives { Gives (λ rest. (pairs.new, rest.now)) result (pair_step strict total (item_at strict total levels) pairs.old bytes.now) }
    ensures keys { OnOk result (Keeps keys.new (key_spellings pairs.new)) }
{
    let place = total.saturating_sub(bytes.len());
    let (key, rest) = read_item(alloc, strict, total, levels, bytes)?;
    let received = as_received(place, bytes, rest);
    keys.admit(alloc, strict, place, pairs.as_slice(), &key, received)?;
    let (value, after) = read_item(alloc, strict, total, levels, rest)?;
    pairs.push((key, value))?;
    Ok(after)
}
