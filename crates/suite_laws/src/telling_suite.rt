ghost use Rattle.std.specs.Prelude.{◌≡◌, ◌++◌, ◌∷◌, [], Some, MatchResult, if◌then◌else◌};
ghost use Rattle.suite_port.specs.declared.fault.SuiteFault.TheVariants.{NoMemory as OutOfMemory};
ghost use Rattle.suite_laws.specs.Telling.{ask_of, asks_of, without_last};

use std::alloc::Global;
use suite_port::{Aead, CertReader, Holder, Kex, Signer, Suite, SuiteFault, Verifier};

/// A call of a suite, with its arguments.
#[derive(Debug, Drop)]
pub enum Call {
    Verified {
        key: Vec<u8>,
        alg: i64,
        text: Vec<u8>,
        sig: Vec<u8>,
    },
    Loaded {
        private: Vec<u8>,
    },
    Signed {
        key: Vec<u8>,
        text: Vec<u8>,
    },
    Began {
        name: Vec<u8>,
        draw: Vec<u8>,
    },
    Seconded {
        name: Vec<u8>,
        draw: Vec<u8>,
        xa: Vec<u8>,
    },
    Finished {
        name: Vec<u8>,
        private: Vec<u8>,
        xb: Vec<u8>,
    },
    Sealed {
        alg: i64,
        key: Vec<u8>,
        iv: Vec<u8>,
        aad: Vec<u8>,
        plain: Vec<u8>,
    },
    Opened {
        alg: i64,
        key: Vec<u8>,
        iv: Vec<u8>,
        aad: Vec<u8>,
        sealed: Vec<u8>,
    },
    LeafRead {
        leaf: Vec<u8>,
    },
    Issued {
        key: Vec<u8>,
    },
}

/// A suite that tells what another one, which it passes all calls on to, was asked.
#[derive(Debug, Drop)]
pub struct Telling<S> {
    suite: S,
    calls: Vec<Call>,
}

impl<S: Suite> Telling<S> {
    /// Nothing is asked yet.
    #[tactic(auto, unfolding(crate::specs::Telling::asks_of))]
    pub fn new(alloc: Global, suite: S) -> Telling<S>
        ensures asked { asks_of result.calls.items ≡ [] }
    {
        Telling {
            suite,
            calls: Vec::new(alloc),
        }
    }

    /// The calls that were answered.
    pub fn calls(&self) -> &[Call]
        ensures { result.now ≡ self.now.calls.items }
    {
        self.calls.as_slice()
    }
}

/// Adds a call before it is made.
#[tactic(auto, using(crate::proofs::Tellings::asks_noted))]
fn note(calls: &mut Vec<Call>, call: Call) -> Result<(), SuiteFault>
    ensures { MatchResult result (λ _. asks_of calls.new.items ≡ asks_of calls.old.items ++ ask_of call ∷ []) (λ fault. (fault ≡ OutOfMemory) × (asks_of calls.new.items ≡ asks_of calls.old.items)) }
{
    Ok(calls.push(call)?)
}

/// Takes the last call back where it was not answered.
#[tactic(auto, using(crate::proofs::Tellings::asks_shorter))]
fn settle(calls: &mut Vec<Call>, answered: bool)
    ensures { asks_of calls.new.items ≡ (if answered then asks_of calls.old.items else without_last (asks_of calls.old.items)) }
{
    if !answered {
        calls.truncate(calls.len().saturating_sub(1));
    }
}

impl<S: Suite> Holder for Telling<S> {
    ghost held = { λ s. S.Holder.held s.suite };

    ghost faults = { λ s. S.Holder.faults s.suite };

    ghost asked = { λ s. Some (asks_of s.calls.items) };
}

impl<S: Suite> Verifier for Telling<S> {
    ghost verifies = { S.Verifier.verifies };

    #[tactic(auto, using(crate::proofs::Tellings::settled))]
    fn verify(
        &mut self,
        alloc: Global,
        key: &[u8],
        alg: i64,
        text: &[u8],
        sig: &[u8],
    ) -> Result<bool, SuiteFault> {
        let call = Call::Verified {
            key: Vec::from_slice(alloc, key)?,
            alg,
            text: Vec::from_slice(alloc, text)?,
            sig: Vec::from_slice(alloc, sig)?,
        };
        note(&mut self.calls, call)?;
        let answer = self.suite.verify(alloc, key, alg, text, sig);
        settle(&mut self.calls, answer.is_ok());
        answer
    }
}

impl<S: Suite> Signer for Telling<S> {
    ghost loads = { S.Signer.loads };

    ghost algorithm = { S.Signer.algorithm };

    ghost signs = { S.Signer.signs };

    #[tactic(auto, using(crate::proofs::Tellings::settled))]
    fn load(&mut self, alloc: Global, private: &[u8]) -> Result<Vec<u8>, SuiteFault> {
        let call = Call::Loaded {
            private: Vec::from_slice(alloc, private)?,
        };
        note(&mut self.calls, call)?;
        let answer = self.suite.load(alloc, private);
        settle(&mut self.calls, answer.is_ok());
        answer
    }

    fn holds(&self, key: &[u8]) -> bool {
        self.suite.holds(key)
    }

    fn alg_of(&self, key: &[u8]) -> Option<i64> {
        self.suite.alg_of(key)
    }

    /// A key without an algorithm is refused before memory can run out.
    #[tactic(auto, using(crate::proofs::Tellings::settled))]
    fn sign(&mut self, alloc: Global, key: &[u8], text: &[u8]) -> Result<Vec<u8>, SuiteFault> {
        if self.suite.alg_of(key).is_none() {
            return Err(SuiteFault::NoAlgorithm);
        }
        let call = Call::Signed {
            key: Vec::from_slice(alloc, key)?,
            text: Vec::from_slice(alloc, text)?,
        };
        note(&mut self.calls, call)?;
        let answer = self.suite.sign(alloc, key, text);
        settle(&mut self.calls, answer.is_ok());
        answer
    }
}

impl<S: Suite> Kex for Telling<S> {
    ghost agrees = { S.Kex.agrees };

    ghost first_of = { S.Kex.first_of };

    ghost second_of = { S.Kex.second_of };

    ghost finish_of = { S.Kex.finish_of };

    ghost second_takes_first = { λ name one other. S.Kex.second_takes_first name one other };

    ghost ends_agree = { λ name one other xb shared. S.Kex.ends_agree name one other xb shared };

    #[tactic(auto, using(crate::proofs::Tellings::settled))]
    fn first(
        &mut self,
        alloc: Global,
        name: &[u8],
        draw: &[u8; 32],
    ) -> Result<(Vec<u8>, Vec<u8>), SuiteFault> {
        let call = Call::Began {
            name: Vec::from_slice(alloc, name)?,
            draw: Vec::from_slice(alloc, draw.as_slice())?,
        };
        note(&mut self.calls, call)?;
        let answer = self.suite.first(alloc, name, draw);
        settle(&mut self.calls, answer.is_ok());
        answer
    }

    #[tactic(auto, using(crate::proofs::Tellings::settled))]
    fn second(
        &mut self,
        alloc: Global,
        name: &[u8],
        draw: &[u8; 32],
        xa: &[u8],
    ) -> Result<(Vec<u8>, Vec<u8>), SuiteFault> {
        let call = Call::Seconded {
            name: Vec::from_slice(alloc, name)?,
            draw: Vec::from_slice(alloc, draw.as_slice())?,
            xa: Vec::from_slice(alloc, xa)?,
        };
        note(&mut self.calls, call)?;
        let answer = self.suite.second(alloc, name, draw, xa);
        settle(&mut self.calls, answer.is_ok());
        answer
    }

    #[tactic(auto, using(crate::proofs::Tellings::settled))]
    fn finish(
        &mut self,
        alloc: Global,
        name: &[u8],
        private: &[u8],
        xb: &[u8],
    ) -> Result<Vec<u8>, SuiteFault> {
        let call = Call::Finished {
            name: Vec::from_slice(alloc, name)?,
            private: Vec::from_slice(alloc, private)?,
            xb: Vec::from_slice(alloc, xb)?,
        };
        note(&mut self.calls, call)?;
        let answer = self.suite.finish(alloc, name, private, xb);
        settle(&mut self.calls, answer.is_ok());
        answer
    }
}

impl<S: Suite> Aead for Telling<S> {
    ghost bits = { S.Aead.bits };

    ghost seals = { S.Aead.seals };

    ghost opens = { S.Aead.opens };

    ghost opens_sealed = { λ alg key iv aad plain. S.Aead.opens_sealed alg key iv aad plain };

    ghost two_keys = { λ size. S.Aead.two_keys size };

    fn key_bits(&self, alg: i64) -> Option<u16> {
        self.suite.key_bits(alg)
    }

    #[tactic(auto, using(crate::proofs::Tellings::settled))]
    fn seal(
        &mut self,
        alloc: Global,
        alg: i64,
        key: &[u8],
        iv: &[u8; 12],
        aad: &[u8],
        plain: &[u8],
    ) -> Result<Vec<u8>, SuiteFault> {
        let call = Call::Sealed {
            alg,
            key: Vec::from_slice(alloc, key)?,
            iv: Vec::from_slice(alloc, iv.as_slice())?,
            aad: Vec::from_slice(alloc, aad)?,
            plain: Vec::from_slice(alloc, plain)?,
        };
        note(&mut self.calls, call)?;
        let answer = self.suite.seal(alloc, alg, key, iv, aad, plain);
        settle(&mut self.calls, answer.is_ok());
        answer
    }

    #[tactic(auto, using(crate::proofs::Tellings::settled))]
    fn open(
        &mut self,
        alloc: Global,
        alg: i64,
        key: &[u8],
        iv: &[u8; 12],
        aad: &[u8],
        sealed: &[u8],
    ) -> Result<Option<Vec<u8>>, SuiteFault> {
        let call = Call::Opened {
            alg,
            key: Vec::from_slice(alloc, key)?,
            iv: Vec::from_slice(alloc, iv.as_slice())?,
            aad: Vec::from_slice(alloc, aad)?,
            sealed: Vec::from_slice(alloc, sealed)?,
        };
        note(&mut self.calls, call)?;
        let answer = self.suite.open(alloc, alg, key, iv, aad, sealed);
        settle(&mut self.calls, answer.is_ok());
        answer
    }
}

impl<S: Suite> CertReader for Telling<S> {
    ghost key_in = { S.CertReader.key_in };

    ghost issues = { S.CertReader.issues };

    ghost certifies = { S.CertReader.certifies };

    ghost issued_key = { λ key leaf. S.CertReader.issued_key key leaf };

    #[tactic(auto, using(crate::proofs::Tellings::settled))]
    fn leaf_key(&mut self, alloc: Global, leaf: &[u8]) -> Result<Vec<u8>, SuiteFault> {
        let call = Call::LeafRead {
            leaf: Vec::from_slice(alloc, leaf)?,
        };
        note(&mut self.calls, call)?;
        let answer = self.suite.leaf_key(alloc, leaf);
        settle(&mut self.calls, answer.is_ok());
        answer
    }

    #[tactic(auto, using(crate::proofs::Tellings::settled))]
    fn issue(&mut self, alloc: Global, device_key: &[u8]) -> Result<Vec<u8>, SuiteFault> {
        let call = Call::Issued {
            key: Vec::from_slice(alloc, device_key)?,
        };
        note(&mut self.calls, call)?;
        let answer = self.suite.issue(alloc, device_key);
        settle(&mut self.calls, answer.is_ok());
        answer
    }
}

impl<S: Suite> Suite for Telling<S> {
    ghost verifies_signed = { λ key text sig alg. S.verifies_signed key text sig alg };
}
