ghost use Rattle.std.specs.Prelude.{◌≡◌, pos};
ghost use Rattle.cbor_core.specs.Numbers.{integer_in, item_of_integer, within_i64};

use crate::item::Item;

/// The number that an item is, where it is one of `i64`.
pub fn integer(item: &Item) -> Option<i64>
    ensures { result ≡ integer_in item.now }
{
    match item {
        Item::Uint(n) => within(*n),
        Item::Nint(n) => match within(*n) {
            Some(n) => Some(-1 - n),
            None => None,
        },
        _ => None,
    }
}

fn within(n: u64) -> Option<i64>
    ensures { result ≡ within_i64 n (pos n) }
{
    i64::try_from(n).ok()
}

/// A number as an item.
pub fn integer_item(number: i64) -> Item
    ensures { result ≡ item_of_integer number }
{
    if number < 0 {
        Item::Nint((-1 - number) as u64)
    } else {
        Item::Uint(number as u64)
    }
}
