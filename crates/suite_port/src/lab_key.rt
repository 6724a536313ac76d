ghost use Rattle.std.specs.Prelude.{◌≡◌, ◌↔◌, ◌≤◌, ℕ, ℤ, List, Option, Some, None, Bool, true, Ok, Err, IfOk, MatchResult, length, if◌then◌else◌};
ghost use Rattle.suite_port.specs.Answer.{Answers, Decides, Counts, bytes_of, itself};
ghost use Rattle.suite_port.specs.Held.{Adds};
ghost use Rattle.suite_port.specs.Lab.{lab_held, lab_calls, is_failed};
ghost use Rattle.suite_port.specs.LabKey.{is_private, public_key as public_key_of, is_lab_key as is_lab_key_of, lab_algorithm, lab_signature, lab_verifies};
ghost use Rattle.port_base.specs.Scheduled.{fails_next, after_call, faults_of};
ghost use Rattle.suite_port.specs.declared.fault.SuiteFault.TheVariants.{NoAlgorithm, NoMemory as OutOfMemory};

use crate::bytes::{hash, owned};
use crate::fault::SuiteFault;
use crate::lab_suite::LabSuite;
use crate::signer::Signer;
use crate::verifier::Verifier;
use std::alloc::Global;

/// The number of the laboratory signature.
const SIGNATURE: i64 = -65537;

/// Whether a public key is of the type 200: its bytes begin an array of three with that number.
pub(crate) fn is_lab_key(key: &[u8]) -> bool
    ensures { result ≡ is_lab_key_of key.now }
{
    match key {
        [first, second, third, ..] => *first == 0x83 && *second == 0x18 && *third == 0xc8,
        _ => false,
    }
}

/// The public key of a private one, in deterministic CBOR (RFC 8949, section 4.2.1).
pub(crate) fn public_key(alloc: Global, private: &[u8]) -> Result<Vec<u8>, SuiteFault>
    requires { length private.now ≤ 32 }
    ensures { Answers bytes_of (Some (public_key_of private.now)) result }
{
    let mut key = Vec::from_slice(alloc, [0x83, 0x18, 0xc8, 0x00].as_slice())?;
    if private.len() < 24 {
        key.push(0x40 + private.len() as u8)?;
    } else {
        key.push(0x58)?;
        key.push(private.len() as u8)?;
    }
    key.extend_from_slice(private)?;
    Ok(key)
}

impl LabSuite {
    /// Holds a key from now on.
    fn hold(&mut self, alloc: Global, key: &[u8]) -> Result<(), SuiteFault>
        ensures held { MatchResult result (λ _. Adds (lab_held self.old) (lab_held self.new) key.now) (λ fault. (fault ≡ OutOfMemory) × (lab_held self.new ≡ lab_held self.old)) }
        ensures calls { lab_calls self.new ≡ lab_calls self.old }
    {
        let key = owned(alloc, key)?;
        Ok(self.keys.push(key)?)
    }
}

impl Verifier for LabSuite {
    ghost verifies = { lab_verifies };

    fn verify(
        &mut self,
        _alloc: Global,
        key: &[u8],
        alg: i64,
        text: &[u8],
        sig: &[u8],
    ) -> Result<bool, SuiteFault>
        ensures answer { Answers itself (lab_verifies key.now alg text.now sig.now) result }
        ensures same { self.new ≡ self.old }
    {
        if !is_lab_key(key) || alg != SIGNATURE {
            return Err(SuiteFault::NoAlgorithm);
        }
        Ok(sig == hash(b"FDO-LAB-SIG", key, text).as_slice())
    }
}

impl Signer for LabSuite {
    ghost loads = { is_private };

    ghost algorithm = { lab_algorithm };

    ghost signs = { λ key text sig. sig ≡ lab_signature key text };

    fn load(&mut self, alloc: Global, private: &[u8]) -> Result<Vec<u8>, SuiteFault>
        ensures known { Decides (is_private private.now) result }
        ensures key { IfOk result (λ key. key.items ≡ public_key_of private.now) }
        ensures held { MatchResult result (λ key. Adds (lab_held self.old) (lab_held self.new) key.items) (λ _. lab_held self.new ≡ lab_held self.old) }
        ensures faults { Counts (faults_of (lab_calls self.old)) (faults_of (lab_calls self.new)) result }
        ensures fails { is_failed result ≡ fails_next (lab_calls self.old) }
        ensures calls { lab_calls self.new ≡ after_call (lab_calls self.old) (is_failed result) }
    {
        if self.calls.fails() {
            return Err(SuiteFault::Failed);
        }
        if private.is_empty() || private.len() > 32 {
            return Err(SuiteFault::NoAlgorithm);
        }
        let key = public_key(alloc, private)?;
        match self.hold(alloc, key.as_slice()) {
            Ok(()) => Ok(key),
            Err(fault) => Err(fault),
        }
    }

    fn holds(&self, key: &[u8]) -> bool {
        self.keys.iter().any(|held| held.as_slice() == key)
    }

    fn alg_of(&self, key: &[u8]) -> Option<i64> {
        if is_lab_key(key) {
            Some(SIGNATURE)
        } else {
            None
        }
    }

    fn sign(&mut self, alloc: Global, key: &[u8], text: &[u8]) -> Result<Vec<u8>, SuiteFault>
        requires { lab_held self.old key.now ≡ true }
        ensures signed { IfOk result (λ sig. sig.items ≡ lab_signature key.now text.now) }
        ensures unknown { (result ≡ Err NoAlgorithm) ↔ (lab_algorithm key.now ≡ None) }
        ensures held { lab_held self.new ≡ lab_held self.old }
        ensures faults { Counts (faults_of (lab_calls self.old)) (faults_of (lab_calls self.new)) result }
        // a key without an algorithm is no numbered call
        ensures fails { is_lab_key_of key.now ≡ true → is_failed result ≡ fails_next (lab_calls self.old) }
        ensures calls { lab_calls self.new ≡ (if is_lab_key_of key.now then after_call (lab_calls self.old) (is_failed result) else lab_calls self.old) }
    {
        if !is_lab_key(key) {
            return Err(SuiteFault::NoAlgorithm);
        }
        if self.calls.fails() {
            return Err(SuiteFault::Failed);
        }
        owned(alloc, hash(b"FDO-LAB-SIG", key, text).as_slice())
    }
}
