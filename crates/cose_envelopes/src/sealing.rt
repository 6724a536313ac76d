ghost use Rattle.std.specs.Prelude.{◌≡◌, ◌≤◌, ◌*◌, ◌/◌, ◌⊎◌, ℕ, length, None, Some, Ok, IfOk};
ghost use Rattle.std.specs.Option.{option_map};
ghost use Rattle.suite_port.specs.Asked.{Asks};
ghost use Rattle.suite_port.specs.Asked.Ask.{Opened};
ghost use Rattle.cose_envelopes.specs.Asking.{AsksToOpen, AsksToSeal, asked_to_open, opening_of, sealing};
ghost use Rattle.cose_envelopes.specs.Envelope.{IsWhole0};
ghost use Rattle.cose_envelopes.specs.Fault.{Answers, known};
ghost use Rattle.cose_envelopes.specs.Opening.{key_front, sealed_value, sealed_bytes, encrypt0_at, opened, opened_by, opening};
ghost use Rattle.cose_envelopes.specs.Text.{encrypt0_structure};
ghost use Rattle.suite_port.specs.Sizes.{most_plain};

use crate::encrypt0::{Encrypt0, read_encrypt0, write_encrypt0};
use crate::fault::CoseFault;
use crate::protected::protected;
use crate::text::encrypt0_text;
use cbor_core::{Blob, NoMemory};
use std::alloc::Global;
use suite_port::Suite;

/// The written Encrypt0 of a plain text of at most `MOST_PLAIN` bytes, under the first bits of a key. Its only refusals are
/// `NoAlgorithm(alg)`, exactly where `key_bits` gives none, and `NoMemory`.
pub fn seal<S: Suite>(
    alloc: Global,
    suite: &mut S,
    alg: i64,
    key: &[u8; 32],
    iv: &[u8; 12],
    plain: &[u8],
) -> Result<Blob, CoseFault>
    requires { length plain.now ≤ most_plain }
    // The envelope, or that the suite has no such algorithm.
    ensures answer { Answers (known alg (option_map (λ bits. sealed_bytes S.Aead.seals alg (key_front bits key.now) iv.now plain.now) (S.Aead.bits alg))) result }
    // It is opened under the same key.
    ensures opened { IfOk result (λ bytes. opening S.Aead.bits S.Aead.opens alg key.now bytes ≡ Ok (iv.now, plain.now)) }
    ensures held { S.Holder.held suite.new ≡ S.Holder.held suite.old }
    ensures faults { S.Holder.faults suite.new ≡ S.Holder.faults suite.old }
    ensures asked { (bits : ℕ) → S.Aead.bits alg ≡ Some bits → AsksToSeal (S.Holder.asked suite.old) (S.Holder.asked suite.new) (sealing alg (key_front bits key.now) iv.now plain.now) result }
    ensures unasked { S.Aead.bits alg ≡ None → S.Holder.asked suite.new ≡ S.Holder.asked suite.old }
{
    match suite.key_bits(alg) {
        Some(bits) => match seal_with(alloc, suite, alg, bits, key, iv, plain) {
            Ok(bytes) => Ok(bytes),
            Err(_) => Err(CoseFault::NoMemory),
        },
        None => Err(CoseFault::NoAlgorithm(alg)),
    }
}

/// The written Encrypt0, under an algorithm that the suite has.
pub(crate) fn seal_with<S: Suite>(
    alloc: Global,
    suite: &mut S,
    alg: i64,
    bits: u16,
    key: &[u8; 32],
    iv: &[u8; 12],
    plain: &[u8],
) -> Result<Blob, NoMemory>
    requires size { (bits ≡ 128) ⊎ (bits ≡ 256) }
    requires bits { S.Aead.bits alg ≡ Some bits }
    requires plain { length plain.now ≤ most_plain }
    ensures sealed { IfOk result (λ bytes. bytes ≡ sealed_bytes S.Aead.seals alg (key_front bits key.now) iv.now plain.now) }
    ensures opened { IfOk result (λ bytes. opening S.Aead.bits S.Aead.opens alg key.now bytes ≡ Ok (iv.now, plain.now)) }
    ensures held { S.Holder.held suite.new ≡ S.Holder.held suite.old }
    ensures faults { S.Holder.faults suite.new ≡ S.Holder.faults suite.old }
    ensures asked { AsksToSeal (S.Holder.asked suite.old) (S.Holder.asked suite.new) (sealing alg (key_front bits key.now) iv.now plain.now) result }
{
    let value = seal_value(alloc, suite, alg, bits, key, iv, plain)?;
    write_encrypt0(alloc, &value)
}

/// The Encrypt0 of a plain text.
fn seal_value<S: Suite>(
    alloc: Global,
    suite: &mut S,
    alg: i64,
    bits: u16,
    key: &[u8; 32],
    iv: &[u8; 12],
    plain: &[u8],
) -> Result<Encrypt0, NoMemory>
    requires size { (bits ≡ 128) ⊎ (bits ≡ 256) }
    requires bits { S.Aead.bits alg ≡ Some bits }
    requires plain { length plain.now ≤ most_plain }
    ensures value { IfOk result (λ value. value ≡ sealed_value S.Aead.seals alg (key_front bits key.now) iv.now plain.now) }
    ensures whole { IfOk result IsWhole0 }
    ensures held { S.Holder.held suite.new ≡ S.Holder.held suite.old }
    ensures faults { S.Holder.faults suite.new ≡ S.Holder.faults suite.old }
    ensures asked { Asks (S.Holder.asked suite.old) (S.Holder.asked suite.new) (sealing alg (key_front bits key.now) iv.now plain.now) result }
{
    let protected = protected(alloc, alg)?;
    let aad = encrypt0_text(alloc, protected.as_list())?;
    let front = front(bits, key);
    match suite.seal(alloc, alg, front, iv, aad.as_list(), plain) {
        Ok(sealed) => Ok(Encrypt0 {
            protected,
            alg,
            iv: *iv,
            sealed: Blob::new(sealed),
        }),
        Err(_) => Err(NoMemory),
    }
}

/// The first bits of a key.
fn front(bits: u16, key: &[u8; 32]) -> &[u8]
    requires { (bits ≡ 128) ⊎ (bits ≡ 256) }
    ensures front { result.now ≡ key_front bits key.now }
    ensures size { bits ≡ 8 * length result.now }
{
    if bits == 128 { key.split_at(16).0 } else { key }
}

/// The IV and the plain text of an Encrypt0, all of the bytes, under the first bits of a key. The refusals come in this
/// order: `BadShape`; `NoAlgorithm(alg)`, exactly where `key_bits` gives none or the envelope names another algorithm;
/// `NotOpened`. `NoMemory` may come at any place.
#[tactic(auto, using(crate::proofs::OpenLaws::opening_fails))]
pub fn open<S: Suite>(
    alloc: Global,
    suite: &mut S,
    alg: i64,
    key: &[u8; 32],
    bytes: &[u8],
) -> Result<([u8; 12], Blob), CoseFault>
    ensures answer { Answers (opening S.Aead.bits S.Aead.opens alg key.now bytes.now) result }
    ensures held { S.Holder.held suite.new ≡ S.Holder.held suite.old }
    ensures faults { S.Holder.faults suite.new ≡ S.Holder.faults suite.old }
    ensures asked { AsksToOpen (S.Holder.asked suite.old) (S.Holder.asked suite.new) (asked_to_open S.Aead.bits alg key.now bytes.now) result }
{
    match read_encrypt0(alloc, bytes) {
        Ok(value) => open_value(alloc, suite, alg, key, &value),
        Err(fault) => Err(fault),
    }
}

fn open_value<S: Suite>(
    alloc: Global,
    suite: &mut S,
    alg: i64,
    key: &[u8; 32],
    value: &Encrypt0,
) -> Result<([u8; 12], Blob), CoseFault>
    ensures answer { Answers (opened_by S.Aead.opens alg key.now value.now (S.Aead.bits alg)) result }
    ensures held { S.Holder.held suite.new ≡ S.Holder.held suite.old }
    ensures faults { S.Holder.faults suite.new ≡ S.Holder.faults suite.old }
    ensures asked { AsksToOpen (S.Holder.asked suite.old) (S.Holder.asked suite.new) (opening_of alg key.now value.now (S.Aead.bits alg)) result }
{
    match suite.key_bits(alg) {
        Some(bits) => {
            if value.alg == alg {
                open_with(alloc, suite, alg, bits, key, value)
            } else {
                Err(CoseFault::NoAlgorithm(alg))
            }
        }
        None => Err(CoseFault::NoAlgorithm(alg)),
    }
}

fn open_with<S: Suite>(
    alloc: Global,
    suite: &mut S,
    alg: i64,
    bits: u16,
    key: &[u8; 32],
    value: &Encrypt0,
) -> Result<([u8; 12], Blob), CoseFault>
    requires size { (bits ≡ 128) ⊎ (bits ≡ 256) }
    requires bits { S.Aead.bits alg ≡ Some bits }
    ensures answer { Answers (opened value.now.iv (S.Aead.opens alg (key_front bits key.now) value.now.iv (encrypt0_structure value.now.protected) value.now.sealed)) result }
    ensures held { S.Holder.held suite.new ≡ S.Holder.held suite.old }
    ensures faults { S.Holder.faults suite.new ≡ S.Holder.faults suite.old }
    ensures asked { AsksToOpen (S.Holder.asked suite.old) (S.Holder.asked suite.new) (Some (Opened alg (key_front bits key.now) value.now.iv (encrypt0_structure value.now.protected) value.now.sealed)) result }
{
    let aad = encrypt0_text(alloc, value.protected.as_list())?;
    let front = front(bits, key);
    match suite.open(
        alloc,
        alg,
        front,
        &value.iv,
        aad.as_list(),
        value.sealed.as_list(),
    ) {
        Ok(Some(plain)) => Ok((value.iv, Blob::new(plain))),
        Ok(None) => Err(CoseFault::NotOpened),
        Err(_) => Err(CoseFault::NoMemory),
    }
}
