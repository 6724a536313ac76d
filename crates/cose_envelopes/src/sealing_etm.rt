ghost use Rattle.std.specs.Prelude.{◌≡◌, ◌≤◌, ◌<◌, ◌^◌, ℕ, negsuc, drop, length, take, None, Some, Ok, IfOk};
ghost use Rattle.std.specs.Option.{option_map};
ghost use Rattle.std.specs.Str.{bytes_eq};
ghost use Rattle.cbor_core.specs.Deterministic.{det};
ghost use Rattle.hash_hmac.specs.Hmac.{hmac_sha256};
ghost use Rattle.cose_envelopes.specs.Asking.{AsksToOpen, AsksToSeal, asked_to_open, asked_to_open_etm, opening_of_mac, sealing};
ghost use Rattle.cose_envelopes.specs.Envelope.{item_of_mac0, IsWholeMac};
ghost use Rattle.cose_envelopes.specs.Fault.{Answers, known};
ghost use Rattle.cose_envelopes.specs.Opening.{inner_number, maced_value, mac0_at, sealed_bytes, sealed_etm, opening, opening_etm, opened_mac, or_not_opened};
ghost use Rattle.cose_envelopes.specs.Text.{mac0_structure};
ghost use Rattle.suite_port.specs.Sizes.{most_plain};

use crate::fault::CoseFault;
use crate::mac0::{Mac0, read_mac0, write_mac0};
use crate::protected::protected;
use crate::sealing::{open, seal_with};
use crate::text::mac0_text;
use cbor_core::{Blob, NoMemory};
use hash_hmac::{HMAC_SHA256, hmac_of};
use std::alloc::Global;
use suite_port::Suite;

/// The algorithm under which the first half of a key seals.
const INNER: i64 = -65_538;

/// Encrypt-then-MAC, with the number -65539: the written Mac0, under the last 16 bytes of a key, over the Encrypt0 of a
/// plain text of at most `MOST_PLAIN` bytes under the first 16. It is refused as `seal` is.
pub fn seal_etm<S: Suite>(
    alloc: Global,
    suite: &mut S,
    alg: i64,
    key: &[u8; 32],
    iv: &[u8; 12],
    plain: &[u8],
) -> Result<Blob, CoseFault>
    requires alg { alg ≡ negsuc 65538 }
    requires plain { length plain.now ≤ most_plain }
    ensures answer { Answers (known alg (option_map (λ bits. sealed_etm S.Aead.seals key.now iv.now plain.now) (S.Aead.bits alg))) result }
    // It is opened under the same key.
    ensures opened { IfOk result (λ bytes. opening_etm S.Aead.bits S.Aead.opens alg key.now bytes ≡ Ok (iv.now, plain.now)) }
    ensures held { S.Holder.held suite.new ≡ S.Holder.held suite.old }
    ensures faults { S.Holder.faults suite.new ≡ S.Holder.faults suite.old }
    ensures asked { (bits : ℕ) → S.Aead.bits alg ≡ Some bits → AsksToSeal (S.Holder.asked suite.old) (S.Holder.asked suite.new) (sealing inner_number (take 16 key.now) iv.now plain.now) result }
    ensures unasked { S.Aead.bits alg ≡ None → S.Holder.asked suite.new ≡ S.Holder.asked suite.old }
{
    match suite.key_bits(alg) {
        Some(bits) => match seal_both(alloc, suite, bits, key, iv, plain) {
            Ok(bytes) => Ok(bytes),
            Err(_) => Err(CoseFault::NoMemory),
        },
        None => Err(CoseFault::NoAlgorithm(alg)),
    }
}

/// The written Mac0, where the suite has the algorithm.
fn seal_both<S: Suite>(
    alloc: Global,
    suite: &mut S,
    bits: u16,
    key: &[u8; 32],
    iv: &[u8; 12],
    plain: &[u8],
) -> Result<Blob, NoMemory>
    requires bits { S.Aead.bits (negsuc 65538) ≡ Some bits }
    requires plain { length plain.now ≤ most_plain }
    ensures sealed { IfOk result (λ bytes. bytes ≡ sealed_etm S.Aead.seals key.now iv.now plain.now) }
    ensures opened { IfOk result (λ bytes. opening_etm S.Aead.bits S.Aead.opens (negsuc 65538) key.now bytes ≡ Ok (iv.now, plain.now)) }
    ensures held { S.Holder.held suite.new ≡ S.Holder.held suite.old }
    ensures faults { S.Holder.faults suite.new ≡ S.Holder.faults suite.old }
    ensures asked { AsksToSeal (S.Holder.asked suite.old) (S.Holder.asked suite.new) (sealing inner_number (take 16 key.now) iv.now plain.now) result }
{
    let payload = seal_with(alloc, suite, INNER, 128, key, iv, plain)?;
    write_maced(alloc, key, payload)
}

/// The written Mac0 over a payload, under the last 16 bytes of a key.
fn write_maced(alloc: Global, key: &[u8; 32], payload: Blob) -> Result<Blob, NoMemory>
    ensures value { IfOk result (λ bytes. bytes ≡ det (item_of_mac0 (maced_value (drop 16 key.now) payload))) }
    ensures read { IfOk result (λ bytes. mac0_at bytes ≡ Ok (maced_value (drop 16 key.now) payload)) }
{
    let value = maced(alloc, key, payload)?;
    write_mac0(alloc, &value)
}

fn maced(alloc: Global, key: &[u8; 32], payload: Blob) -> Result<Mac0, NoMemory>
    ensures value { IfOk result (λ value. value ≡ maced_value (drop 16 key.now) payload) }
    ensures whole { IfOk result IsWholeMac }
{
    let protected = protected(alloc, HMAC_SHA256)?;
    let text = mac0_text(alloc, protected.as_list(), payload.as_list())?;
    let tag = tag_of(alloc, key, text.as_list())?;
    Ok(Mac0 {
        protected,
        alg: HMAC_SHA256,
        payload,
        tag,
    })
}

/// The tag of a text under the last 16 bytes of a key.
#[tactic(auto, unfolding(hash_hmac::specs::Hmac::maced))]
fn tag_of(alloc: Global, key: &[u8; 32], text: &[u8]) -> Result<Blob, NoMemory>
    ensures tag { IfOk result (λ tag. tag ≡ hmac_sha256 (drop 16 key.now) text.now) }
    ensures short { IfOk result (λ tag. length tag < 2 ^ 63) }
{
    match hmac_of(HMAC_SHA256, key.split_at(16).1, text) {
        Some(tag) => Blob::from_slice(alloc, tag.content()),
        None => unreachable!(),
    }
}

/// Opens what `seal_etm` gives. The refusals come in this order: `BadShape`, exactly where the bytes spell no Mac0;
/// `NoAlgorithm(alg)`, exactly where `key_bits` gives none or the Mac0 names another algorithm than HMAC-SHA-256;
/// `NotOpened`, exactly where the tag is wrong, or the payload is no Encrypt0, names another algorithm or does not hold.
/// `NoMemory` may come at any place.
#[tactic(auto, using(crate::proofs::OpenLaws::opening_mac_fails))]
pub fn open_etm<S: Suite>(
    alloc: Global,
    suite: &mut S,
    alg: i64,
    key: &[u8; 32],
    bytes: &[u8],
) -> Result<([u8; 12], Blob), CoseFault>
    requires { alg ≡ negsuc 65538 }
    ensures answer { Answers (opening_etm S.Aead.bits S.Aead.opens alg key.now bytes.now) result }
    ensures held { S.Holder.held suite.new ≡ S.Holder.held suite.old }
    ensures faults { S.Holder.faults suite.new ≡ S.Holder.faults suite.old }
    ensures asked { AsksToOpen (S.Holder.asked suite.old) (S.Holder.asked suite.new) (asked_to_open_etm S.Aead.bits alg key.now bytes.now) result }
{
    match read_mac0(alloc, bytes) {
        Ok(value) => open_mac(alloc, suite, alg, key, &value),
        Err(fault) => Err(fault),
    }
}

fn open_mac<S: Suite>(
    alloc: Global,
    suite: &mut S,
    alg: i64,
    key: &[u8; 32],
    value: &Mac0,
) -> Result<([u8; 12], Blob), CoseFault>
    ensures answer { Answers (opened_mac S.Aead.bits S.Aead.opens alg key.now value.now) result }
    ensures held { S.Holder.held suite.new ≡ S.Holder.held suite.old }
    ensures faults { S.Holder.faults suite.new ≡ S.Holder.faults suite.old }
    ensures asked { AsksToOpen (S.Holder.asked suite.old) (S.Holder.asked suite.new) (opening_of_mac S.Aead.bits alg key.now value.now) result }
{
    if suite.key_bits(alg).is_none() || value.alg != HMAC_SHA256 {
        return Err(CoseFault::NoAlgorithm(alg));
    }
    match has_tag(alloc, key, value) {
        Ok(true) => open_inner(alloc, suite, key, value.payload.as_list()),
        Ok(false) => Err(CoseFault::NotOpened),
        Err(_) => Err(CoseFault::NoMemory),
    }
}

/// Whether the tag is the one under the last 16 bytes of a key.
fn has_tag(alloc: Global, key: &[u8; 32], value: &Mac0) -> Result<bool, NoMemory>
    ensures { IfOk result (λ is. is ≡ bytes_eq value.now.tag (hmac_sha256 (drop 16 key.now) (mac0_structure value.now.protected value.now.payload))) }
{
    let text = mac0_text(alloc, value.protected.as_list(), value.payload.as_list())?;
    let tag = tag_of(alloc, key, text.as_list())?;
    Ok(value.tag.as_list() == tag.as_list())
}

/// The inner envelope, whose every refusal is that it is not opened.
fn open_inner<S: Suite>(
    alloc: Global,
    suite: &mut S,
    key: &[u8; 32],
    bytes: &[u8],
) -> Result<([u8; 12], Blob), CoseFault>
    ensures answer { Answers (or_not_opened (opening S.Aead.bits S.Aead.opens inner_number key.now bytes.now)) result }
    ensures held { S.Holder.held suite.new ≡ S.Holder.held suite.old }
    ensures faults { S.Holder.faults suite.new ≡ S.Holder.faults suite.old }
    ensures asked { AsksToOpen (S.Holder.asked suite.old) (S.Holder.asked suite.new) (asked_to_open S.Aead.bits inner_number key.now bytes.now) result }
{
    match open(alloc, suite, INNER, key, bytes) {
        Ok(both) => Ok(both),
        Err(CoseFault::NoMemory) => Err(CoseFault::NoMemory),
        Err(_) => Err(CoseFault::NotOpened),
    }
}
