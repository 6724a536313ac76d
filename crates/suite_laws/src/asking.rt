ghost use Rattle.std.specs.Prelude.{◌≡◌, ◌≢◌, ◌++◌, ◌∷◌, ◌⊎◌, ℕ, List, [], None, true, Err, IfOk, IfErr};
ghost use Rattle.suite_port.specs.Answer.{Counts};
ghost use Rattle.suite_port.specs.Asked.Ask.{Loaded, Signed};
ghost use Rattle.suite_port.specs.declared.fault.SuiteFault.TheVariants.{NoAlgorithm};
ghost use Rattle.port_base.specs.Told.{grown};
ghost use Rattle.suite_laws.specs.Telling.{asks_of};

use crate::telling_suite::Telling;
use std::alloc::Global;
use suite_port::{Suite, SuiteFault};

/// Loads a private key and signs a text with it: the public key and the signature. A suite is asked for both, in this
/// order, and for nothing else; a call that is refused is not among what it was asked.
#[tactic(auto, using(crate::proofs::Tellings::asked_twice))]
pub fn load_and_sign<S: Suite>(
    suite: &mut S,
    alloc: Global,
    private: &[u8],
    text: &[u8],
) -> Result<(Vec<u8>, Vec<u8>), SuiteFault>
    ensures known { S.Signer.loads private.now ≡ true → ((key : List ℕ) → S.Signer.algorithm key ≢ None) → result ≢ Err NoAlgorithm }
    ensures faults { Counts (S.Holder.faults suite.old) (S.Holder.faults suite.new) result }
    ensures signed { IfOk result (λ r. S.Signer.signs r.0.items text.now r.1.items) }
    ensures asked { IfOk result (λ r. S.Holder.asked suite.new ≡ grown (S.Holder.asked suite.old) (Loaded private.now ∷ Signed r.0.items text.now ∷ [])) }
    ensures refused { IfErr result (λ _. (S.Holder.asked suite.new ≡ S.Holder.asked suite.old) ⊎ (S.Holder.asked suite.new ≡ grown (S.Holder.asked suite.old) (Loaded private.now ∷ []))) }
{
    let key = match suite.load(alloc, private) {
        Ok(key) => key,
        Err(fault) => return Err(fault),
    };
    match suite.sign(alloc, key.as_slice(), text) {
        Ok(sig) => Ok((key, sig)),
        Err(fault) => Err(fault),
    }
}

/// The same of a suite that tells: its record has these two calls more.
pub fn load_and_sign_told<S: Suite>(
    suite: &mut Telling<S>,
    alloc: Global,
    private: &[u8],
    text: &[u8],
) -> Result<(Vec<u8>, Vec<u8>), SuiteFault>
    ensures known { S.Signer.loads private.now ≡ true → ((key : List ℕ) → S.Signer.algorithm key ≢ None) → result ≢ Err NoAlgorithm }
    ensures faults { Counts (S.Holder.faults suite.old.suite) (S.Holder.faults suite.new.suite) result }
    ensures signed { IfOk result (λ r. S.Signer.signs r.0.items text.now r.1.items) }
    ensures asked { IfOk result (λ r. asks_of suite.new.calls.items ≡ asks_of suite.old.calls.items ++ Loaded private.now ∷ Signed r.0.items text.now ∷ []) }
    ensures refused { IfErr result (λ _. (asks_of suite.new.calls.items ≡ asks_of suite.old.calls.items) ⊎ (asks_of suite.new.calls.items ≡ asks_of suite.old.calls.items ++ Loaded private.now ∷ [])) }
{
    load_and_sign(suite, alloc, private, text)
}
