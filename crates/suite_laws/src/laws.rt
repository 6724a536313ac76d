ghost use Rattle.std.specs.Prelude.{◌≡◌, ◌≢◌, ◌≤◌, ◌*◌, ◌∷◌, [], ℕ, ℤ, negsuc, List, Some, None, true, false, Ok, Err, IfOk, IsSome, length};
ghost use Rattle.suite_port.specs.Answer.{Answers, Decides, Counts, maybe_bytes_of};
ghost use Rattle.suite_port.specs.Asked.Ask.{Signed as SignedAsk, Verified as VerifiedAsk};
ghost use Rattle.port_base.specs.Told.{grown};
ghost use Rattle.suite_port.specs.declared.fault.SuiteFault.TheVariants.{Failed, NoAlgorithm};
ghost use Rattle.suite_port.specs.Sizes.{most_plain};

use std::alloc::Global;
use suite_port::{Suite, SuiteFault};

/// What was signed, and whether it was verified.
#[derive(Debug, Drop)]
pub struct Signed {
    /// The number of the key's algorithm.
    pub alg: i64,
    /// The signature.
    pub sig: Vec<u8>,
    /// What `verify` answered.
    pub verified: bool,
}

/// Signs a text with a held key, and verifies the signature with the key's algorithm: it is right in every suite. A suite
/// is asked for both, in this order, and for nothing else.
#[tactic(auto, using(crate::proofs::Tellings::asked_twice))]
pub fn sign_and_verify<S: Suite>(
    suite: &mut S,
    alloc: Global,
    key: &[u8],
    text: &[u8],
) -> Result<Signed, SuiteFault>
    requires { S.Holder.held suite.old key.now ≡ true }
    ensures signed { IfOk result (λ r. (S.Signer.algorithm key.now ≡ Some r.alg) × S.Signer.signs key.now text.now r.sig.items) }
    ensures verified { IfOk result (λ r. (r.verified ≡ true) × (S.Verifier.verifies key.now r.alg text.now r.sig.items ≡ Some true)) }
    ensures known { S.Signer.algorithm key.now ≢ None → result ≢ Err NoAlgorithm }
    ensures asked { IfOk result (λ r. S.Holder.asked suite.new ≡ grown (S.Holder.asked suite.old) (SignedAsk key.now text.now ∷ VerifiedAsk key.now r.alg text.now r.sig.items ∷ [])) }
    ensures faults { Counts (S.Holder.faults suite.old) (S.Holder.faults suite.new) result }
    ensures held { S.Holder.held suite.new ≡ S.Holder.held suite.old }
{
    let Some(alg) = suite.alg_of(key) else {
        return Err(SuiteFault::NoAlgorithm);
    };
    match suite.sign(alloc, key, text) {
        Ok(sig) => verify(
            suite,
            alloc,
            key,
            text,
            Signed {
                alg,
                sig,
                verified: false,
            },
        ),
        Err(fault) => Err(fault),
    }
}

/// Verifies what was signed.
fn verify<S: Suite>(
    suite: &mut S,
    alloc: Global,
    key: &[u8],
    text: &[u8],
    signed: Signed,
) -> Result<Signed, SuiteFault>
    requires alg { S.Signer.algorithm key.now ≡ Some signed.alg }
    requires sig { S.Signer.signs key.now text.now signed.sig.items }
    ensures same { IfOk result (λ r. (r.alg ≡ signed.alg) × (r.sig.items ≡ signed.sig.items)) }
    ensures verified { IfOk result (λ r. (r.verified ≡ true) × (S.Verifier.verifies key.now signed.alg text.now signed.sig.items ≡ Some true)) }
    ensures asked { IfOk result (λ r. S.Holder.asked suite.new ≡ grown (S.Holder.asked suite.old) (VerifiedAsk key.now signed.alg text.now signed.sig.items ∷ [])) }
    ensures faults { (S.Holder.faults suite.new ≡ S.Holder.faults suite.old) × (result ≢ Err Failed) × (result ≢ Err NoAlgorithm) }
    ensures held { S.Holder.held suite.new ≡ S.Holder.held suite.old }
{
    match suite.verify(alloc, key, signed.alg, text, signed.sig.as_slice()) {
        Ok(verified) => Ok(Signed {
            alg: signed.alg,
            sig: signed.sig,
            verified,
        }),
        Err(fault) => Err(fault),
    }
}

/// The secrets of both ends of a key agreement, that of the end that began first: they are equal in every suite.
pub fn agree<S: Suite>(
    suite: &mut S,
    alloc: Global,
    name: &[u8],
    one: &[u8; 32],
    other: &[u8; 32],
) -> Result<(Vec<u8>, Vec<u8>), SuiteFault>
    ensures agree { IfOk result (λ secrets. secrets.0.items ≡ secrets.1.items) }
    ensures known { Decides (S.Kex.agrees name.now) result }
    ensures unfailing { result ≢ Err Failed }
{
    let (xa, private) = match suite.first(alloc, name, one) {
        Ok(begun) => begun,
        Err(fault) => return Err(fault),
    };
    let (xb, shared) = match suite.second(alloc, name, other, xa.as_slice()) {
        Ok(answered) => answered,
        Err(fault) => return Err(fault),
    };
    match suite.finish(alloc, name, private.as_slice(), xb.as_slice()) {
        Ok(finished) => Ok((finished, shared)),
        Err(fault) => Err(fault),
    }
}

/// Seals a text and opens it: it is opened in every suite.
pub fn seal_and_open<S: Suite>(
    suite: &mut S,
    alloc: Global,
    alg: i64,
    key: &[u8],
    iv: &[u8; 12],
    aad: &[u8],
    plain: &[u8],
) -> Result<Option<Vec<u8>>, SuiteFault>
    requires key { S.Aead.bits alg ≡ Some (8 * length key.now) }
    requires aad { length aad.now ≤ most_plain }
    requires plain { length plain.now ≤ most_plain }
    ensures { Answers maybe_bytes_of (Some (Some plain.now)) result }
{
    match suite.seal(alloc, alg, key, iv, aad, plain) {
        Ok(sealed) => suite.open(alloc, alg, key, iv, aad, sealed.as_slice()),
        Err(fault) => Err(fault),
    }
}

/// The key of a certificate that is issued for a key: it is that key in every suite.
pub fn issue_and_read<S: Suite>(
    suite: &mut S,
    alloc: Global,
    key: &[u8],
) -> Result<Vec<u8>, SuiteFault>
    ensures same { IfOk result (λ read. read.items ≡ key.now) }
    ensures known { Decides (S.CertReader.issues key.now) result }
    ensures faults { Counts (S.Holder.faults suite.old) (S.Holder.faults suite.new) result }
{
    match suite.issue(alloc, key) {
        Ok(leaf) => suite.leaf_key(alloc, leaf.as_slice()),
        Err(fault) => Err(fault),
    }
}

/// The bits of -65539 and of -65538: where a suite has the first, they are 256 and 128.
pub fn two_keys<S: Suite>(suite: &S) -> (Option<u16>, Option<u16>)
    ensures bits { (result.0 ≡ S.Aead.bits (negsuc 65538)) × (result.1 ≡ S.Aead.bits (negsuc 65537)) }
    ensures two { IsSome result.0 → (result.0 ≡ Some 256) × (result.1 ≡ Some 128) }
{
    (suite.key_bits(-65539), suite.key_bits(-65538))
}
