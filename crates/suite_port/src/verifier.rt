ghost use Rattle.std.specs.Prelude.{◌≡◌, ℕ, ℤ, List, Option, Bool};
ghost use Rattle.suite_port.specs.Answer.{Answers, itself};
ghost use Rattle.suite_port.specs.Asked.{Asks};
ghost use Rattle.suite_port.specs.Asked.Ask.{Verified};

use crate::fault::SuiteFault;
use crate::holder::Holder;
use std::alloc::Global;

/// Checks signatures.
pub trait Verifier: Holder {
    /// Whether a signature is right, by the public bytes of a key, the number of an algorithm (COSE, RFC 9053), the
    /// text and the signature. None where the algorithm is none of the suite's for that key.
    ghost verifies: { List ℕ → ℤ → List ℕ → List ℕ → Option Bool };

    /// Whether `sig` is a signature over `text` with the algorithm `alg` under `key`. NoAlgorithm exactly where the
    /// suite has no such algorithm for that key.
    fn verify(
        &mut self,
        alloc: Global,
        key: &[u8],
        alg: i64,
        text: &[u8],
        sig: &[u8],
    ) -> Result<bool, SuiteFault>
        ensures answer { Answers itself (verifies key.now alg text.now sig.now) result }
        ensures held { Self.held self.new ≡ Self.held self.old }
        ensures faults { Self.faults self.new ≡ Self.faults self.old }
        ensures asked { Asks (Self.asked self.old) (Self.asked self.new) (Verified key.now alg text.now sig.now) result };
}
