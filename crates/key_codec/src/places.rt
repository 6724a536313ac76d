//! Where the first part stands that is not of its form, in an item that is no key, hash or signature information.

ghost use Rattle.std.specs.Prelude.{◌≡◌, option_map};
ghost use Rattle.cbor_core.specs.declared.item.Item.{out-Item};
ghost use Rattle.cbor_core.specs.Spots.{spot_item, spot_parts};
ghost use Rattle.cbor_core.specs.Numbers.{integer_in};
ghost use Rattle.key_codec.specs.Places.{is_kind as is_known_kind, sig_info_place, hash_place, chain_place, cose_place, form_place, body_place as place_of_body, encoded_place, is_type as is_known_type, key_place, has_label as has_a_label, is_whole as is_whole_map, fits_label as fits_a_label, fits_number as fits_a_number, first_unfit, is_one_curve};
ghost use Rattle.cbor_core.specs.Shapes.{two_spots, three_spots};

use crate::cose::{CURVE, EC2, FAMILY, X, Y, is_curve};
use crate::encoding::Form;
use crate::kind::is_key_type;
use cbor_core::Part;
use hash_hmac::length_of;

/// Where signature information is not of its form.
#[tactic(auto, unfolding(crate::specs::Places::sig_info_place))]
pub fn find_sig_info_fault(part: &Part) -> usize
    ensures { result ≡ sig_info_place part.now.spot }
{
    match part.two() {
        Some((number, info)) => match number.integer() {
            Some(_) => info.at(),
            None => number.at(),
        },
        None => part.at(),
    }
}

/// Where a hash is not of its form: an unknown kind has the place of its number, another length that of the bytes.
#[tactic(auto, unfolding(crate::specs::Places::hash_place))]
pub fn find_hash_fault(part: &Part) -> usize
    ensures { result ≡ hash_place part.now.spot }
{
    match part.two() {
        Some((kind, bytes)) => {
            if is_kind(&kind) {
                bytes.at()
            } else {
                kind.at()
            }
        }
        None => part.at(),
    }
}

fn is_kind(part: &Part) -> bool
    ensures { result ≡ is_known_kind (integer_in (spot_item part.now.spot)) }
{
    match part.integer() {
        Some(kind) => length_of(kind).is_some(),
        None => false,
    }
}

/// Where a key is not of its form: an unknown type or encoding has the place of its number.
#[tactic(auto, unfolding(crate::specs::Places::key_place))]
pub fn find_key_fault(part: &Part) -> usize
    ensures { result ≡ key_place part.now.spot }
{
    match part.three() {
        Some((kind, enc, body)) => {
            if is_type(&kind) {
                find_encoded_fault(&enc, &body)
            } else {
                kind.at()
            }
        }
        None => part.at(),
    }
}

/// Whether a part is the number of a type of key.
pub fn is_type(part: &Part) -> bool
    ensures { result ≡ is_known_type (integer_in (spot_item part.now.spot)) }
{
    match part.integer() {
        Some(kind) => is_key_type(kind),
        None => false,
    }
}

/// Where an encoding and a key's body by it are not of their form.
#[tactic(auto, unfolding(crate::specs::Places::body_place))]
pub fn find_encoded_fault(enc: &Part, body: &Part) -> usize
    ensures { result ≡ encoded_place (integer_in (spot_item enc.now.spot)) enc.now.spot body.now.spot }
{
    match enc.integer() {
        Some(number) => match Form::of(number) {
            Some(form) => find_form_fault(form, body),
            None => enc.at(),
        },
        None => enc.at(),
    }
}

fn find_form_fault(form: Form, body: &Part) -> usize
    ensures { result ≡ form_place form body.now.spot }
{
    match form {
        Form::Bytes => body.at(),
        Form::Chain => find_chain_fault(body),
        Form::Cose => find_cose_fault(body),
    }
}

/// The first certificate that is no byte string, or the array.
#[tactic(auto, unfolding(crate::specs::Places::chain_place))]
pub fn find_chain_fault(body: &Part) -> usize
    ensures { result ≡ chain_place body.now.spot }
{
    if !body.is_array() {
        return body.at();
    }
    let mut next = body.inside();
    while let Some(certificate) = next {
        if !certificate.is_bytes() {
            return certificate.at();
        }
        next = certificate.after();
    }
    body.at()
}

/// A map that lacks a label, or the first value that is not of its label's form.
#[tactic(auto, unfolding(crate::specs::Places::cose_place))]
fn find_cose_fault(body: &Part) -> usize
    ensures { result ≡ cose_place body.now.spot }
{
    if is_whole(body) {
        find_unfit(body)
    } else {
        body.at()
    }
}

/// The first value that is not of its label's form, or the map.
fn find_unfit(body: &Part) -> usize
    ensures { result ≡ first_unfit body.now.spot.at (spot_parts body.now.spot) }
{
    let mut next = body.inside();
    while let Some(label) = next {
        let Some(value) = label.after() else {
            return body.at();
        };
        if !fits_label(&label, &value) {
            return value.at();
        }
        next = value.after();
    }
    body.at()
}

/// Whether it is a map with all labels of a COSE key.
fn is_whole(map: &Part) -> bool
    ensures { result ≡ is_whole_map map.now.spot }
{
    has_label(map, FAMILY) && has_label(map, CURVE) && has_label(map, X) && has_label(map, Y)
}

fn has_label(map: &Part, label: i64) -> bool
    ensures { result ≡ has_a_label label map.now.spot }
{
    map.labelled(label).is_some()
}

fn fits_label(key: &Part, value: &Part) -> bool
    ensures { result ≡ fits_a_label (integer_in (spot_item key.now.spot)) value.now.spot }
{
    match key.integer() {
        Some(label) => fits_number(label, value),
        None => true,
    }
}

fn fits_number(label: i64, value: &Part) -> bool
    ensures { result ≡ fits_a_number label value.now.spot }
{
    match label {
        FAMILY => value.integer() == Some(EC2),
        CURVE => names_curve(value),
        X | Y => value.is_bytes(),
        _ => true,
    }
}

fn names_curve(value: &Part) -> bool
    ensures { result ≡ is_one_curve (integer_in (spot_item value.now.spot)) }
{
    match value.integer() {
        Some(curve) => is_curve(curve),
        None => false,
    }
}
