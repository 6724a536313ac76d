ghost use Rattle.std.specs.Prelude.{◌≡◌, Some, IfOk, true};
ghost use Rattle.cose_envelopes.specs.Asking.{AsksToSign, AsksToVerify, verifying};
ghost use Rattle.cose_envelopes.specs.Envelope.{algorithm_in, protected_of};
ghost use Rattle.cose_envelopes.specs.Opening.{Counts, Refuses, Verifies};
ghost use Rattle.cose_envelopes.specs.Text.{sign1_structure};

use crate::fault::CoseFault;
use crate::protected::protected;
use crate::sign1::Sign1;
use crate::text::sign1_text;
use cbor_core::{Blob, Pairs};
use std::alloc::Global;
use suite_port::{Suite, SuiteFault};

/// Signs a payload under a key, named by its public bytes, that the suite holds. Its only refusals are `NoAlgorithm(0)`,
/// exactly where `alg_of` gives none for the key, `Failed` and `NoMemory`.
pub fn sign<S: Suite>(
    alloc: Global,
    suite: &mut S,
    key: &[u8],
    unprotected: Pairs,
    payload: Blob,
) -> Result<Sign1, CoseFault>
    requires { S.Holder.held suite.old key.now ≡ true }
    // The headers and the payload are those handed in; the protected header names the key's algorithm alone.
    ensures parts { IfOk result (λ value. (value.unprotected ≡ unprotected) × (value.payload ≡ payload) × (value.protected ≡ protected_of value.alg) × (S.Signer.algorithm key.now ≡ Some value.alg)) }
    // The signature is the suite's, over the text to be signed.
    ensures signed { IfOk result (λ value. S.Signer.signs key.now (sign1_structure value.protected value.payload) value.sig) }
    // `verify` takes it.
    ensures verified { IfOk result (λ value. S.Verifier.verifies key.now value.alg (sign1_structure value.protected value.payload) value.sig ≡ Some true) }
    // The protected header is read as naming the algorithm.
    ensures names { IfOk result (λ value. algorithm_in value.protected ≡ Some value.alg) }
    // Which refusal it is.
    ensures refused { Refuses (S.Signer.algorithm key.now) result }
    ensures held { S.Holder.held suite.new ≡ S.Holder.held suite.old }
    ensures faults { Counts (S.Holder.faults suite.old) (S.Holder.faults suite.new) result }
    ensures asked { AsksToSign (S.Holder.asked suite.old) (S.Holder.asked suite.new) key.now result }
{
    let Some(alg) = suite.alg_of(key) else {
        return Err(CoseFault::NoAlgorithm(0));
    };
    let protected = protected(alloc, alg)?;
    let text = sign1_text(alloc, protected.as_list(), payload.as_list())?;
    match suite.sign(alloc, key, text.as_list()) {
        Ok(sig) => Ok(Sign1 {
            protected,
            alg,
            unprotected,
            payload,
            sig: Blob::new(sig),
        }),
        Err(SuiteFault::NoAlgorithm) => Err(CoseFault::NoAlgorithm(0)),
        Err(SuiteFault::Failed) => Err(CoseFault::Failed),
        Err(SuiteFault::NoMemory) => Err(CoseFault::NoMemory),
    }
}

/// Checks the signature of an envelope under a key, named by its public bytes, over the protected header as received:
/// `NotVerified` or `NoAlgorithm`, with the envelope's number, by the suite's answer, or `NoMemory`.
pub fn verify<S: Suite>(
    alloc: Global,
    suite: &mut S,
    key: &[u8],
    value: &Sign1,
) -> Result<(), CoseFault>
    ensures answer { Verifies value.now.alg (S.Verifier.verifies key.now value.now.alg (sign1_structure value.now.protected value.now.payload) value.now.sig) result }
    ensures held { S.Holder.held suite.new ≡ S.Holder.held suite.old }
    ensures faults { S.Holder.faults suite.new ≡ S.Holder.faults suite.old }
    ensures asked { AsksToVerify (S.Holder.asked suite.old) (S.Holder.asked suite.new) (verifying key.now value.now) result }
{
    let text = sign1_text(alloc, value.protected.as_list(), value.payload.as_list())?;
    match suite.verify(alloc, key, value.alg, text.as_list(), value.sig.as_list()) {
        Ok(true) => Ok(()),
        Ok(false) => Err(CoseFault::NotVerified),
        Err(SuiteFault::NoAlgorithm) => Err(CoseFault::NoAlgorithm(value.alg)),
        Err(SuiteFault::Failed) => Err(CoseFault::Failed),
        Err(SuiteFault::NoMemory) => Err(CoseFault::NoMemory),
    }
}
