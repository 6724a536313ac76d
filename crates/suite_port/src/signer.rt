ghost use Rattle.std.specs.Prelude.{◌≡◌, ◌↔◌, ℕ, ℤ, List, Option, None, Bool, true, Err, IfOk, MatchResult};
ghost use Rattle.suite_port.specs.Answer.{Decides, Counts};
ghost use Rattle.suite_port.specs.Asked.{Asks};
ghost use Rattle.suite_port.specs.Asked.Ask.{Loaded, Signed};
ghost use Rattle.suite_port.specs.Held.{Adds};
ghost use Rattle.suite_port.specs.declared.fault.SuiteFault.TheVariants.{NoAlgorithm};

use crate::fault::SuiteFault;
use crate::holder::Holder;
use std::alloc::Global;

/// Holds private keys and signs with them.
pub trait Signer: Holder {
    /// Whether these private bytes are a key of the suite.
    ghost loads: { List ℕ → Bool };

    /// The number of the algorithm (COSE, RFC 9053) with which the key with these public bytes signs. None where the
    /// suite has none for it.
    ghost algorithm: { List ℕ → Option ℤ };

    /// What `sign` may give: by the public bytes of the key, the text and the signature.
    ghost signs: { List ℕ → List ℕ → List ℕ → Type 0 };

    /// Holds the key with these private bytes from now on, and gives its public bytes. NoAlgorithm, unless the call
    /// fails, exactly where the private bytes are no key of the suite.
    fn load(&mut self, alloc: Global, private: &[u8]) -> Result<Vec<u8>, SuiteFault>
        ensures known { Decides (loads private.now) result }
        ensures held { MatchResult result (λ key. Adds (Self.held self.old) (Self.held self.new) key.items) (λ _. Self.held self.new ≡ Self.held self.old) }
        ensures faults { Counts (Self.faults self.old) (Self.faults self.new) result }
        ensures asked { Asks (Self.asked self.old) (Self.asked self.new) (Loaded private.now) result };

    /// Whether a `load` gave this key, or the suite was made with it.
    fn holds(&self, key: &[u8]) -> bool
        ensures { result ≡ Self.held self.now key.now };

    /// The number of the algorithm with which this key signs, where the suite has one for it.
    fn alg_of(&self, key: &[u8]) -> Option<i64>
        ensures { result ≡ algorithm key.now };

    /// A signature over `text` under `key`, which is held, with the algorithm that `alg_of` gives. NoAlgorithm exactly
    /// where it gives none.
    fn sign(&mut self, alloc: Global, key: &[u8], text: &[u8]) -> Result<Vec<u8>, SuiteFault>
        requires { Self.held self.old key.now ≡ true }
        ensures signed { IfOk result (λ sig. signs key.now text.now sig.items) }
        ensures unknown { (result ≡ Err NoAlgorithm) ↔ (algorithm key.now ≡ None) }
        ensures held { Self.held self.new ≡ Self.held self.old }
        ensures faults { Counts (Self.faults self.old) (Self.faults self.new) result }
        ensures asked { Asks (Self.asked self.old) (Self.asked self.new) (Signed key.now text.now) result };
}
