ghost use Rattle.std.specs.Prelude.{◌≡◌, Ok, Err, MatchResult, MatchOption, Some, None};
ghost use Rattle.key_codec.specs.Fault.{shaped};
ghost use Rattle.key_codec.specs.Parts.{two_in, three_in, bytes_in, number_in, number_at, bytes_at};
ghost use Rattle.cbor_core.specs.Shapes.{labelled, is_number};
ghost use Rattle.cbor_core.specs.Numbers.{integer_in};

use crate::fault::KeyFault;
use cbor_core::{Blob, Item, integer};

/// The items of an array of two.
pub(crate) fn two(item: &Item) -> Result<(&Item, &Item), KeyFault>
    ensures { MatchResult result (λ p. two_in item.now ≡ Ok (p.0.now, p.1.now)) (λ e. two_in item.now ≡ Err e) }
{
    match item {
        Item::Array(items) => match items.as_slice() {
            [first, second] => Ok((first, second)),
            _ => Err(KeyFault::BadShape),
        },
        _ => Err(KeyFault::BadShape),
    }
}

/// The items of an array of three.
pub(crate) fn three(item: &Item) -> Result<(&Item, &Item, &Item), KeyFault>
    ensures { MatchResult result (λ p. three_in item.now ≡ Ok (p.0.now, p.1.now, p.2.now)) (λ e. three_in item.now ≡ Err e) }
{
    match item {
        Item::Array(items) => match items.as_slice() {
            [first, second, third] => Ok((first, second, third)),
            _ => Err(KeyFault::BadShape),
        },
        _ => Err(KeyFault::BadShape),
    }
}

/// The bytes of a byte string.
pub(crate) fn bytes(item: &Item) -> Result<&Blob, KeyFault>
    ensures { MatchResult result (λ b. bytes_in item.now ≡ Ok b.now) (λ e. bytes_in item.now ≡ Err e) }
{
    match item {
        Item::Bytes(bytes) => Ok(bytes),
        _ => Err(KeyFault::BadShape),
    }
}

/// A number of `i64`, and nothing else.
pub(crate) fn number(item: &Item) -> Result<i64, KeyFault>
    ensures { result ≡ number_in item.now }
{
    integer(item).ok_or(KeyFault::BadShape)
}

fn is_label(label: i64, key: &Item) -> bool
    ensures { result ≡ is_number label (integer_in key.now) }
{
    match integer(key) {
        Some(number) => number == label,
        None => false,
    }
}

/// The value beside the first key that is the label.
fn value_of(label: i64, pairs: &[(Item, Item)]) -> Result<&Item, KeyFault>
    ensures { MatchResult result (λ v. shaped (labelled label pairs.now) ≡ Ok v.now) (λ e. shaped (labelled label pairs.now) ≡ Err e) }
{
    for (key, value) in pairs {
        if is_label(label, key) {
            return Ok(value);
        }
    }
    Err(KeyFault::BadShape)
}

/// The number with a label.
pub(crate) fn labelled_number(label: i64, pairs: &[(Item, Item)]) -> Result<i64, KeyFault>
    ensures { result ≡ number_at label pairs.now }
{
    match value_of(label, pairs) {
        Ok(value) => number(value),
        Err(fault) => Err(fault),
    }
}

/// The byte string with a label.
pub(crate) fn labelled_bytes(label: i64, pairs: &[(Item, Item)]) -> Result<&Blob, KeyFault>
    ensures { MatchResult result (λ b. bytes_at label pairs.now ≡ Ok b.now) (λ e. bytes_at label pairs.now ≡ Err e) }
{
    match value_of(label, pairs) {
        Ok(value) => bytes(value),
        Err(fault) => Err(fault),
    }
}
