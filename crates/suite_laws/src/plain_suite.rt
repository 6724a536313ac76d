ghost use Rattle.std.specs.Prelude.{◌≡◌, ◌∷◌, ℕ, List, None, Some, pos, true, false, refl};
ghost use Rattle.std.proofs.Common.{rules};
ghost use Rattle.std.specs.Str.{bytes_eq};
ghost use Rattle.suite_laws.specs.Plain.{plain_held, plain_verifies, plain_first, plain_second, plain_finish, plain_bits, plain_verified};

use std::alloc::Global;
use suite_port::{Aead, CertReader, Holder, Kex, Signer, Suite, SuiteFault, Verifier};

/// A suite that has nothing in common with the laboratory suite: it holds the one key that it was made with, loads
/// none, never fails, signs a text by the text itself, has every key agreement, and seals nothing.
#[derive(Debug, Drop)]
pub struct PlainSuite {
    key: Vec<u8>,
}

impl PlainSuite {
    /// A suite that holds this key.
    pub fn new(key: Vec<u8>) -> PlainSuite
        ensures held { plain_held result key.items ≡ true }
    {
        PlainSuite { key }
    }
}

impl Holder for PlainSuite {
    ghost held = { plain_held };

    ghost faults = { λ _. 0 };

    ghost asked = { λ _. None };
}

impl Verifier for PlainSuite {
    ghost verifies = { plain_verifies };

    fn verify(
        &mut self,
        _alloc: Global,
        _key: &[u8],
        alg: i64,
        text: &[u8],
        sig: &[u8],
    ) -> Result<bool, SuiteFault> {
        if alg != 7 {
            return Err(SuiteFault::NoAlgorithm);
        }
        Ok(sig == text)
    }
}

impl Signer for PlainSuite {
    ghost loads = { λ _. false };

    ghost algorithm = { λ _. Some (pos 7) };

    ghost signs = { λ _ text sig. sig ≡ text };

    fn load(&mut self, _alloc: Global, _private: &[u8]) -> Result<Vec<u8>, SuiteFault> {
        Err(SuiteFault::NoAlgorithm)
    }

    fn holds(&self, key: &[u8]) -> bool {
        self.key.as_slice() == key
    }

    fn alg_of(&self, _key: &[u8]) -> Option<i64> {
        Some(7)
    }

    fn sign(&mut self, alloc: Global, _key: &[u8], text: &[u8]) -> Result<Vec<u8>, SuiteFault> {
        Ok(Vec::from_slice(alloc, text)?)
    }
}

impl Kex for PlainSuite {
    ghost agrees = { λ _. true };

    ghost first_of = { plain_first };

    ghost second_of = { plain_second };

    ghost finish_of = { plain_finish };

    ghost second_takes_first = { Prim.search rules };

    ghost ends_agree = { Prim.search rules };

    fn first(
        &mut self,
        alloc: Global,
        _name: &[u8],
        draw: &[u8; 32],
    ) -> Result<(Vec<u8>, Vec<u8>), SuiteFault> {
        let private = Vec::from_slice(alloc, draw.as_slice())?;
        Ok((Vec::new(alloc), private))
    }

    fn second(
        &mut self,
        alloc: Global,
        name: &[u8],
        _draw: &[u8; 32],
        _xa: &[u8],
    ) -> Result<(Vec<u8>, Vec<u8>), SuiteFault> {
        let secret = Vec::from_slice(alloc, name)?;
        Ok((Vec::new(alloc), secret))
    }

    fn finish(
        &mut self,
        alloc: Global,
        name: &[u8],
        _private: &[u8],
        _xb: &[u8],
    ) -> Result<Vec<u8>, SuiteFault> {
        Ok(Vec::from_slice(alloc, name)?)
    }
}

impl Aead for PlainSuite {
    ghost bits = { plain_bits };

    ghost seals = { λ _ _ _ _ plain. plain };

    ghost opens = { λ _ _ _ _ text. Some text };

    ghost opens_sealed = { λ _ _ _ _ _ _ _ _ _. refl };

    ghost two_keys = { Prim.search rules };

    fn key_bits(&self, alg: i64) -> Option<u16> {
        if alg == 1 { Some(128) } else { None }
    }

    fn seal(
        &mut self,
        alloc: Global,
        _alg: i64,
        _key: &[u8],
        _iv: &[u8; 12],
        _aad: &[u8],
        plain: &[u8],
    ) -> Result<Vec<u8>, SuiteFault> {
        Ok(Vec::from_slice(alloc, plain)?)
    }

    fn open(
        &mut self,
        alloc: Global,
        _alg: i64,
        _key: &[u8],
        _iv: &[u8; 12],
        _aad: &[u8],
        sealed: &[u8],
    ) -> Result<Option<Vec<u8>>, SuiteFault> {
        match Vec::from_slice(alloc, sealed) {
            Ok(plain) => Ok(Some(plain)),
            Err(error) => Err(error.into()),
        }
    }
}

impl CertReader for PlainSuite {
    ghost key_in = { λ leaf. Some leaf };

    ghost issues = { λ _. true };

    ghost certifies = { λ key leaf. leaf ≡ key };

    ghost issued_key = { Prim.search rules };

    fn leaf_key(&mut self, alloc: Global, leaf: &[u8]) -> Result<Vec<u8>, SuiteFault> {
        Ok(Vec::from_slice(alloc, leaf)?)
    }

    fn issue(&mut self, alloc: Global, device_key: &[u8]) -> Result<Vec<u8>, SuiteFault> {
        Ok(Vec::from_slice(alloc, device_key)?)
    }
}

impl Suite for PlainSuite {
    ghost verifies_signed = { plain_verified };
}
