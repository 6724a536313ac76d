ghost use Rattle.std.specs.Prelude.{◌≡◌, ◌≤◌, ℕ, List, Option, Result, length, ok_or};
ghost use Rattle.cose_envelopes.specs.Fault.{Answers, known};
ghost use Rattle.cose_envelopes.specs.declared.fault.CoseFault.{CoseFault};
ghost use Rattle.fdo_msgs.specs.declared.cause.Cause.TheVariants.{NoAlgorithm as Unknown};
ghost use Rattle.fdo_rules.specs.Channel.{by_opening, is_etm as is_etm_cipher, opened_under, sealed_under};
ghost use Rattle.fdo_rules.specs.Suite.{sealing_by};
ghost use Rattle.fdo_rules.specs.Unfit.{Checks};

use cbor_core::Blob;
use cose_envelopes::{CoseFault, open, open_etm, seal, seal_etm};
use fdo_msgs::Cause;
use fdo_rules::Unfit;
use std::alloc::Global;
use suite_port::Suite;

/// Encrypt-then-MAC, a number of our own.
const ETM: i64 = -65_539;

fn is_etm(cipher: i64) -> bool
    ensures { result ≡ is_etm_cipher cipher }
{
    cipher == ETM
}

/// The initialization vector and the plain text of an envelope.
pub(crate) fn open_under<S: Suite>(
    alloc: Global,
    suite: &mut S,
    cipher: i64,
    key: &[u8; 32],
    body: &[u8],
) -> Result<([u8; 12], Blob), Unfit>
    ensures told { Checks (opened_under (sealing_by S.Aead.bits S.Aead.seals S.Aead.opens) cipher key.now body.now) result }
    ensures held { S.Holder.held suite.new ≡ S.Holder.held suite.old }
    ensures faults { S.Holder.faults suite.new ≡ S.Holder.faults suite.old }
{
    if is_etm(cipher) {
        fit_opened(open_etm(alloc, suite, cipher, key, body))
    } else {
        fit_opened(open(alloc, suite, cipher, key, body))
    }
}

/// The envelope of a plain text under an initialization vector.
pub(crate) fn seal_under<S: Suite>(
    alloc: Global,
    suite: &mut S,
    cipher: i64,
    key: &[u8; 32],
    iv: &[u8; 12],
    plain: &[u8],
) -> Result<Blob, Unfit>
    requires { length plain.now ≤ 16777216 }
    ensures told { Checks (sealed_under (sealing_by S.Aead.bits S.Aead.seals S.Aead.opens) cipher key.now iv.now plain.now) result }
    ensures held { S.Holder.held suite.new ≡ S.Holder.held suite.old }
    ensures faults { S.Holder.faults suite.new ≡ S.Holder.faults suite.old }
{
    if is_etm(cipher) {
        fit_sealed(cipher, seal_etm(alloc, suite, cipher, key, iv, plain))
    } else {
        fit_sealed(cipher, seal(alloc, suite, cipher, key, iv, plain))
    }
}

/// What is opened, or the cause of a refusal: an envelope of another form is a fault of the body, and whatever else does not
/// open is not opened.
fn fit_opened(opened: Result<([u8; 12], Blob), CoseFault>) -> Result<([u8; 12], Blob), Unfit>
    ensures { (told : Result (List ℕ × List ℕ) CoseFault) → Answers told opened → Checks (by_opening told) result }
{
    match opened {
        Ok(both) => Ok(both),
        Err(CoseFault::BadShape(place)) => Err(Unfit::For(Cause::Body(place))),
        Err(CoseFault::NoMemory) => Err(Unfit::NoMemory),
        Err(_) => Err(Unfit::For(Cause::NotOpened)),
    }
}

/// What is sealed, or that the suite does not have the cipher.
fn fit_sealed(cipher: i64, sealed: Result<Blob, CoseFault>) -> Result<Blob, Unfit>
    ensures { (told : Option (List ℕ)) → Answers (known cipher told) sealed → Checks (ok_or told (Unknown cipher)) result }
{
    match sealed {
        Ok(bytes) => Ok(bytes),
        Err(CoseFault::NoMemory) => Err(Unfit::NoMemory),
        Err(_) => Err(Unfit::For(Cause::NoAlgorithm(cipher))),
    }
}
