ghost use Rattle.std.specs.Prelude.{◌≡◌, ℕ, ◌+◌, ◌-◌, ◌<◌, ◌++◌, min, List, [], take, length, IfOk, IfErr, IsNone, IsSomeAnd, Some, None, nat_lt, if◌then◌else◌, true, false, Ok};
ghost use Rattle.std.specs.Option.{option_copied};
ghost use Rattle.cbor_core.specs.Chunks.{ChunkOf};
ghost use Rattle.cbor_core.specs.Counting.{count_in};
ghost use Rattle.cbor_core.specs.declared.item.Item.{Item, out-Item};
ghost use Rattle.cbor_core.specs.Reading.{Fails, first_item, breaks};
ghost use Rattle.cbor_core.specs.Spelling.{SpellsWithin, code};
ghost use Rattle.cbor_core.specs.Parts.{Stands, Next, entry_of, Inside, major_in, number_in, head_major, head_number, ContentOf, content_in};
ghost use Rattle.cbor_core.specs.Spots.{start, spot_item, spot_parts, cursor_spot, cursor_later, IsPlaced, IsFirst};

use crate::chunks::find_chunk;
use crate::counting::find_count;
use crate::fault::CborFault;
use crate::head::{Head, Major};
use crate::item::Item;
use crate::no_memory::NoMemory;
use crate::pass::pass_item;
use crate::read::read_item;
use crate::read_head::read_head;
use crate::strings::is_break;
use std::alloc::Global;

/// How many items follow in the same array or map.
#[derive(Clone, Copy, Debug, PartialEq, Eq)]
pub enum Left {
    Counted(u64),
    /// As many as stand before the break.
    ToBreak,
}

/// A data item in an input that is lent: the item, its place and its bytes. Only `open` and `item` allocate.
#[derive(Clone, Copy)]
pub struct Cursor<'a> {
    tail: &'a [u8],
    at: usize,
    levels: usize,
    left: Left,
}

impl<'a> Cursor<'a> {
    /// The item at the front of the bytes, and how many bytes it takes: the answers of `read_wire`. Memory is taken
    /// for the keys of maps that have several, which are compared, and for nothing else.
    pub fn open(alloc: Global, bytes: &'a [u8]) -> Result<(Cursor<'a>, usize), CborFault>
        ensures ok { IfOk result (λ p. (x : Item) × (first_item false bytes.now ≡ Ok (x, p.1)) × Stands p.0 bytes.now x (take p.1 bytes.now) [] × (p.0.at ≡ 0)) }
        ensures err { IfErr result (λ e. Fails e (first_item false bytes.now)) }
        // It stands at the outermost item.
        ensures placed { IfOk result (λ p. IsPlaced p.0 × (cursor_spot p.0 ≡ start bytes.now) × (cursor_later p.0 ≡ []) × (first_item false bytes.now ≡ Ok (spot_item (start bytes.now), p.1))) }
    {
        match pass_item(Some(alloc), bytes.len(), 16, bytes) {
            Ok(rest) => Ok((
                Cursor {
                    tail: bytes,
                    at: 0,
                    levels: 16,
                    left: Left::Counted(0),
                },
                bytes.len().saturating_sub(rest.len()),
            )),
            Err(fault) => Err(fault),
        }
    }

    /// The offset of the item's head in the input.
    pub fn at(&self) -> usize
        ensures { result ≡ self.now.at }
    {
        self.at
    }

    /// The number of the item's major type.
    pub fn major(&self) -> u8
        ensures { (input : List ℕ) (x : Item) (text : List ℕ) (later : List Item) → Stands self.now input x text later → result ≡ major_in (out-Item x) }
    {
        match read_head(0, self.tail) {
            Ok((head, _rest)) => find_code(head),
            Err(_) => 7,
        }
    }

    /// The argument of a number, a tag or a simple value.
    pub fn number(&self) -> Option<u64>
        ensures { (input : List ℕ) (x : Item) (text : List ℕ) (later : List Item) → Stands self.now input x text later → result ≡ number_in (out-Item x) }
    {
        match read_head(0, self.tail) {
            Ok((head, _rest)) => find_number(head),
            Err(_) => None,
        }
    }

    /// How many elements or pairs an array or a map has.
    pub fn count(&self) -> Option<u64>
        ensures { (input : List ℕ) (x : Item) (text : List ℕ) (later : List Item) → Stands self.now input x text later → result ≡ count_in (out-Item x) }
    {
        match read_head(0, self.tail) {
            Ok((head, rest)) => find_count(
                self.tail.len(),
                self.levels.saturating_sub(1),
                head,
                rest,
            ),
            Err(_) => None,
        }
    }

    /// The content of a string whose head has a definite length.
    pub fn content(&self) -> Option<&'a [u8]>
        ensures { (input : List ℕ) (x : Item) (text : List ℕ) (later : List Item) → Stands self.now input x text later → ContentOf (out-Item x) text (option_copied result) }
    {
        match read_head(0, self.tail) {
            Ok((head, rest)) => find_content(head, rest),
            Err(_) => None,
        }
    }

    /// The content of the chunk of a string with this index. A string of definite length is one chunk.
    pub fn chunk(&self, index: u64) -> Option<&'a [u8]>
        ensures { (input : List ℕ) (x : Item) (text : List ℕ) (later : List Item) → Stands self.now input x text later → ChunkOf (out-Item x) text index (option_copied result) }
    {
        match read_head(0, self.tail) {
            Ok((head, rest)) => find_chunk(self.tail.len(), index, head, rest),
            Err(_) => None,
        }
    }

    /// The item's bytes as received.
    pub fn raw(&self) -> &'a [u8]
        ensures { (input : List ℕ) (x : Item) (text : List ℕ) (later : List Item) → Stands self.now input x text later → result.now ≡ text }
    {
        let end = self.end();
        self.tail
            .split_at(self.tail.len().saturating_sub(end.len()))
            .0
    }

    /// The item itself.
    pub fn item(&self, alloc: Global) -> Result<Item, NoMemory>
        ensures { (input : List ℕ) (x : Item) (text : List ℕ) (later : List Item) → Stands self.now input x text later → IfOk result (λ y. y ≡ x) }
    {
        match read_item(alloc, false, self.tail.len(), self.levels, self.tail) {
            Ok((item, _rest)) => Ok(item),
            Err(_) => Err(NoMemory),
        }
    }

    /// The next element, key or value in the same array or map. None exactly at the last, and at the outermost item.
    pub fn after(&self) -> Option<Cursor<'a>>
        ensures next { (input : List ℕ) (x : Item) (text : List ℕ) (later : List Item) → Stands self.now input x text later → Next input (self.now.at + length text) later result }
        ensures first { IsPlaced self.now → IsFirst (cursor_later self.now) result }
    {
        match self.left {
            Left::Counted(0) => None,
            Left::Counted(left) => {
                let end = self.end();
                counted(self.moved(end), left, self.levels, end)
            }
            Left::ToBreak => {
                let end = self.end();
                to_break(self.moved(end), self.levels, end)
            }
        }
    }

    /// The first element, key or tagged item. None exactly where there is none.
    pub fn inside(&self) -> Option<Cursor<'a>>
        ensures inside { (input : List ℕ) (x : Item) (text : List ℕ) (later : List Item) → Stands self.now input x text later → Inside input self.now.at x result }
        ensures first { IsPlaced self.now → IsFirst (spot_parts (cursor_spot self.now)) result }
    {
        match read_head(0, self.tail) {
            Ok((head, rest)) => match find_entry(head) {
                Entry::Leaf => None,
                Entry::Counted(n) => counted(
                    self.moved(rest),
                    n,
                    self.levels.saturating_sub(1),
                    rest,
                ),
                Entry::ToBreak => to_break(self.moved(rest), self.levels.saturating_sub(1), rest),
            },
            Err(_) => None,
        }
    }

    /// The place of bytes that stand in the input behind the head.
    #[inline(always)]
    fn moved(&self, rest: &[u8]) -> usize
        ensures { result ≡ min (self.now.at + (length self.now.tail.now - length rest.now)) usize.MAX }
    {
        self.at
            .saturating_add(self.tail.len().saturating_sub(rest.len()))
    }

    /// The bytes after the item.
    fn end(&self) -> &'a [u8]
        ensures { (x : Item) (text rest : List ℕ) → SpellsWithin false self.now.levels x text → self.now.tail.now ≡ text ++ rest → result.now ≡ rest }
    {
        match pass_item(None, self.tail.len(), self.levels, self.tail) {
            Ok(rest) => rest,
            Err(_) => self.tail,
        }
    }
}

/// How the items inside an item stand.
#[derive(Clone, Copy, Debug, PartialEq, Eq)]
pub enum Entry {
    Leaf,
    Counted(u64),
    ToBreak,
}

#[inline(always)]
fn find_entry(head: Head) -> Entry
    ensures { result ≡ entry_of head }
{
    match head {
        Head::Sized(Major::Array, _, n) => Entry::Counted(n),
        Head::Sized(Major::Map, _, n) => Entry::Counted(n.saturating_mul(2)),
        Head::Sized(Major::Tag, _, _) => Entry::Counted(1),
        Head::Open(Major::Array) => Entry::ToBreak,
        Head::Open(Major::Map) => Entry::ToBreak,
        _ => Entry::Leaf,
    }
}

/// The first of `n` items.
#[inline(always)]
fn counted<'a>(at: usize, n: u64, levels: usize, tail: &'a [u8]) -> Option<Cursor<'a>>
    ensures none { n ≡ 0 → IsNone result }
    ensures some { 0 < n → IsSomeAnd result (λ c. (c.tail.now ≡ tail.now) × (c.at ≡ at) × (c.levels ≡ levels) × (c.left ≡ Left.Counted (n - 1))) }
{
    match n {
        0 => None,
        _ => Some(Cursor {
            tail,
            at,
            levels,
            left: Left::Counted(n - 1),
        }),
    }
}

/// The first item before a break.
#[inline(always)]
fn to_break<'a>(at: usize, levels: usize, tail: &'a [u8]) -> Option<Cursor<'a>>
    ensures none { breaks tail.now ≡ true → IsNone result }
    ensures some { breaks tail.now ≡ false → IsSomeAnd result (λ c. (c.tail.now ≡ tail.now) × (c.at ≡ at) × (c.levels ≡ levels) × (c.left ≡ Left.ToBreak)) }
{
    if is_break(tail) {
        None
    } else {
        Some(Cursor {
            tail,
            at,
            levels,
            left: Left::ToBreak,
        })
    }
}

#[inline(always)]
fn find_code(head: Head) -> u8
    ensures { result ≡ head_major head }
{
    match head {
        Head::Sized(major, _, _) => code_of(major),
        Head::Open(major) => code_of(major),
        _ => 7,
    }
}

#[inline(always)]
fn code_of(major: Major) -> u8
    ensures { result ≡ code major }
{
    match major {
        Major::Unsigned => 0,
        Major::Negative => 1,
        Major::Bytes => 2,
        Major::Text => 3,
        Major::Array => 4,
        Major::Map => 5,
        Major::Tag => 6,
    }
}

#[inline(always)]
fn find_number(head: Head) -> Option<u64>
    ensures { result ≡ head_number head }
{
    match head {
        Head::Sized(Major::Unsigned, _, n) => Some(n),
        Head::Sized(Major::Negative, _, n) => Some(n),
        Head::Sized(Major::Tag, _, n) => Some(n),
        Head::Simple(value) => Some(value as u64),
        _ => None,
    }
}

#[inline(always)]
pub(crate) fn find_content(head: Head, rest: &[u8]) -> Option<&[u8]>
    ensures { option_copied result ≡ content_in head rest.now }
{
    match head {
        Head::Sized(Major::Bytes, _, n) => front(n, rest),
        Head::Sized(Major::Text, _, n) => front(n, rest),
        _ => None,
    }
}

#[inline(always)]
fn front(n: u64, rest: &[u8]) -> Option<&[u8]>
    ensures { option_copied result ≡ (if nat_lt (length rest.now) n then None else Some (take n rest.now)) }
{
    if (rest.len() as u64) < n {
        return None;
    }
    Some(rest.split_at(n as usize).0)
}
