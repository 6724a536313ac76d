use crate::blob::Blob;
use crate::text::Text;
use sqlite_items::Boxed;

/// A CBOR data item (RFC 8949, section 3), without floating-point numbers, which FIDO Device Onboard never uses.
/// Contracts see the plain data: an `Array` of a list, a `Map` of a list of pairs, a `Tag` of an item.
#[derive(Debug, Drop)]
pub enum Item {
    /// An unsigned number (major type 0).
    Uint(u64),
    /// The number `-1 - n` (major type 1).
    Nint(u64),
    /// A byte string (major type 2).
    Bytes(Blob),
    /// A text string in UTF-8 (major type 3).
    Text(Text),
    /// An array (major type 4).
    Array(Items),
    /// A map (major type 5), its pairs in the order received.
    Map(Pairs),
    /// A tagged item (major type 6).
    Tag(u64, Boxed<Item>),
    /// A simple value (major type 7): 20 false, 21 true, 22 null.
    Simple(u8),
}

/// Items in order.
pub type Items = sqlite_items::Items<Item>;

/// Keys and values in order.
pub type Pairs = sqlite_items::Items<(Item, Item)>;
