ghost use Rattle.std.specs.Prelude.{◌≡◌, [], map, false, Ok, IfOk, IfErr};
ghost use Rattle.cbor_core.specs.Counting.{count_in};
ghost use Rattle.cbor_core.specs.declared.item.Item.{out-Item};
ghost use Rattle.cbor_core.specs.Parts.{inner, major_in, number_in};
ghost use Rattle.cbor_core.specs.Reading.{Fails, first_item};
ghost use Rattle.cbor_core.specs.Spots.{start, spot_item, spot_raw, spot_parts, bytes_in, text_in, first_of};

use crate::blob::Blob;
use crate::cursor::Cursor;
use crate::fault::CborFault;
use crate::item::Item;
use crate::no_memory::NoMemory;
use crate::text::Text;
use std::alloc::Global;
use std::marker::Model;

/// A part of an input that is lent: a cursor that contracts see as its place and the places that follow.
#[derive(Drop)]
pub struct Part<'a> {
    cursor: Cursor<'a>,
}

impl<'a> Model for Part<'a> {
    ghost use Rattle.cbor_core.specs.Spots.{Standing, cursor_spot, cursor_later, IsPlaced};

    ghost Value = { Standing };

    ghost view = { λ p. record { spot = cursor_spot p.cursor; later = cursor_later p.cursor } };

    ghost invariant = { λ p. IsPlaced p.cursor };
}

impl<'a> Part<'a> {
    /// The outermost item, and how many bytes it takes: the answers of `read_wire`.
    pub fn open(alloc: Global, bytes: &'a [u8]) -> Result<(Part<'a>, usize), CborFault>
        ensures ok { IfOk result (λ p. (first_item false bytes.now ≡ Ok (spot_item (start bytes.now), p.1)) × (p.0 ≡ record { spot = start bytes.now; later = [] })) }
        ensures err { IfErr result (λ e. Fails e (first_item false bytes.now)) }
    {
        match Cursor::open(alloc, bytes) {
            Ok((cursor, read)) => Ok((Part { cursor }, read)),
            Err(fault) => Err(fault),
        }
    }

    /// The offset of the item's head in the input.
    pub fn at(&self) -> usize
        ensures { result ≡ self.now.spot.at }
    {
        self.cursor.at()
    }

    /// The number of the item's major type.
    pub fn major(&self) -> u8
        ensures { result ≡ major_in (out-Item (spot_item self.now.spot)) }
    {
        self.cursor.major()
    }

    /// The argument of a number, a tag or a simple value.
    pub fn number(&self) -> Option<u64>
        ensures { result ≡ number_in (out-Item (spot_item self.now.spot)) }
    {
        self.cursor.number()
    }

    /// How many elements or pairs an array or a map has.
    pub fn count(&self) -> Option<u64>
        ensures { result ≡ count_in (out-Item (spot_item self.now.spot)) }
    {
        self.cursor.count()
    }

    /// The item's bytes as received.
    pub fn raw(&self) -> &'a [u8]
        ensures { result.now ≡ spot_raw self.now.spot }
    {
        self.cursor.raw()
    }

    /// The item itself.
    pub fn item(&self, alloc: Global) -> Result<Item, NoMemory>
        ensures { IfOk result (λ item. item ≡ spot_item self.now.spot) }
    {
        self.cursor.item(alloc)
    }

    /// The content of a byte string, or None where the item is none.
    pub fn bytes(&self, alloc: Global) -> Result<Option<Blob>, NoMemory>
        ensures { IfOk result (λ content. content ≡ bytes_in (out-Item (spot_item self.now.spot))) }
    {
        if self.major() != 2 {
            return Ok(None);
        }
        match self.item(alloc)? {
            Item::Bytes(content) => Ok(Some(content)),
            _ => Ok(None),
        }
    }

    /// The content of a text, or None where the item is none.
    pub fn text(&self, alloc: Global) -> Result<Option<Text>, NoMemory>
        ensures { IfOk result (λ content. content ≡ text_in (out-Item (spot_item self.now.spot))) }
    {
        if self.major() != 3 {
            return Ok(None);
        }
        match self.item(alloc)? {
            Item::Text(content) => Ok(Some(content)),
            _ => Ok(None),
        }
    }

    /// The first element, key or tagged item. None exactly where there is none.
    pub fn inside(&self) -> Option<Part<'a>>
        ensures first { result ≡ first_of (spot_parts self.now.spot) }
        // They are the parts of the item.
        ensures items { map spot_item (spot_parts self.now.spot) ≡ inner (spot_item self.now.spot) }
    {
        match self.cursor.inside() {
            Some(cursor) => Some(Part { cursor }),
            None => None,
        }
    }

    /// The places inside are those of the item's parts.
    pub(crate) fn parts_say(&self)
        ensures { map spot_item (spot_parts self.now.spot) ≡ inner (spot_item self.now.spot) }
    {
        let _place = self.cursor.at();
    }

    /// The next element, key or value in the same array or map. None exactly at the last, and at the outermost item.
    pub fn after(&self) -> Option<Part<'a>>
        ensures { result ≡ first_of self.now.later }
    {
        match self.cursor.after() {
            Some(cursor) => Some(Part { cursor }),
            None => None,
        }
    }
}
