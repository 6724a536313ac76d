ghost use Rattle.std.specs.Prelude.{◌≡◌, [], None, Some, true, false, refl};
ghost use Rattle.std.proofs.Common.{rules};
ghost use Rattle.envelope_tests.specs.Mute.{mute_held, mute_bits};

use std::alloc::Global;
use suite_port::{Aead, CertReader, Holder, Kex, Signer, Suite, SuiteFault, Verifier};

/// A suite that holds the one key that it was made with, and has no algorithm for it. It has one to
/// seal, which leaves texts as they are.
#[derive(Debug, Drop)]
pub struct MuteSuite {
    key: Vec<u8>,
}

impl MuteSuite {
    /// A suite that holds this key.
    pub fn new(key: Vec<u8>) -> MuteSuite
        ensures held { mute_held result key.items ≡ true }
    {
        MuteSuite { key }
    }
}

impl Holder for MuteSuite {
    ghost held = { mute_held };

    ghost faults = { λ _. 0 };

    ghost asked = { λ _. None };
}

impl Verifier for MuteSuite {
    ghost verifies = { λ _ _ _ _. None };

    fn verify(
        &mut self,
        _alloc: Global,
        _key: &[u8],
        _alg: i64,
        _text: &[u8],
        _sig: &[u8],
    ) -> Result<bool, SuiteFault> {
        Err(SuiteFault::NoAlgorithm)
    }
}

impl Signer for MuteSuite {
    ghost loads = { λ _. false };

    ghost algorithm = { λ _. None };

    ghost signs = { λ _ _ _. ⊥ };

    fn load(&mut self, _alloc: Global, _private: &[u8]) -> Result<Vec<u8>, SuiteFault> {
        Err(SuiteFault::NoAlgorithm)
    }

    fn holds(&self, key: &[u8]) -> bool {
        self.key.as_slice() == key
    }

    fn alg_of(&self, _key: &[u8]) -> Option<i64> {
        None
    }

    fn sign(&mut self, _alloc: Global, _key: &[u8], _text: &[u8]) -> Result<Vec<u8>, SuiteFault> {
        Err(SuiteFault::NoAlgorithm)
    }
}

impl Kex for MuteSuite {
    ghost agrees = { λ _. false };

    ghost first_of = { λ _ _. ([], []) };

    ghost second_of = { λ _ _ _. None };

    ghost finish_of = { λ _ _ _. None };

    ghost second_takes_first = { Prim.search rules };

    ghost ends_agree = { Prim.search rules };

    fn first(
        &mut self,
        _alloc: Global,
        _name: &[u8],
        _draw: &[u8; 32],
    ) -> Result<(Vec<u8>, Vec<u8>), SuiteFault> {
        Err(SuiteFault::NoAlgorithm)
    }

    fn second(
        &mut self,
        _alloc: Global,
        _name: &[u8],
        _draw: &[u8; 32],
        _xa: &[u8],
    ) -> Result<(Vec<u8>, Vec<u8>), SuiteFault> {
        Err(SuiteFault::NoAlgorithm)
    }

    fn finish(
        &mut self,
        _alloc: Global,
        _name: &[u8],
        _private: &[u8],
        _xb: &[u8],
    ) -> Result<Vec<u8>, SuiteFault> {
        Err(SuiteFault::NoAlgorithm)
    }
}

impl Aead for MuteSuite {
    ghost bits = { mute_bits };

    ghost seals = { λ _ _ _ _ plain. plain };

    ghost opens = { λ _ _ _ _ text. Some text };

    ghost opens_sealed = { λ _ _ _ _ _ _ _ _ _. refl };

    ghost two_keys = { Prim.search rules };

    fn key_bits(&self, alg: i64) -> Option<u16> {
        if alg == 1 { Some(128) } else { None }
    }

    fn seal(
        &mut self,
        alloc: Global,
        _alg: i64,
        _key: &[u8],
        _iv: &[u8; 12],
        _aad: &[u8],
        plain: &[u8],
    ) -> Result<Vec<u8>, SuiteFault> {
        Ok(Vec::from_slice(alloc, plain)?)
    }

    fn open(
        &mut self,
        alloc: Global,
        _alg: i64,
        _key: &[u8],
        _iv: &[u8; 12],
        _aad: &[u8],
        sealed: &[u8],
    ) -> Result<Option<Vec<u8>>, SuiteFault> {
        match Vec::from_slice(alloc, sealed) {
            Ok(plain) => Ok(Some(plain)),
            Err(error) => Err(error.into()),
        }
    }
}

impl CertReader for MuteSuite {
    ghost key_in = { λ _. None };

    ghost issues = { λ _. false };

    ghost certifies = { λ _ _. ⊥ };

    ghost issued_key = { Prim.search rules };

    fn leaf_key(&mut self, _alloc: Global, _leaf: &[u8]) -> Result<Vec<u8>, SuiteFault> {
        Err(SuiteFault::NoAlgorithm)
    }

    fn issue(&mut self, _alloc: Global, _device_key: &[u8]) -> Result<Vec<u8>, SuiteFault> {
        Err(SuiteFault::NoAlgorithm)
    }
}

impl Suite for MuteSuite {
    ghost verifies_signed = { Prim.search rules };
}
