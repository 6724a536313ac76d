ghost use Rattle.std.specs.Prelude.{◌≡◌, ℕ, List, Option, Some, Bool, IfOk};
ghost use Rattle.suite_port.specs.Answer.{Answers, Decides, Counts, bytes_of};
ghost use Rattle.suite_port.specs.Asked.{Asks};
ghost use Rattle.suite_port.specs.Asked.Ask.{LeafRead, Issued};

use crate::fault::SuiteFault;
use crate::holder::Holder;
use std::alloc::Global;

/// Reads device certificates, and issues them.
pub trait CertReader: Holder {
    /// The key of a certificate. None where the bytes are no certificate of the suite.
    ghost key_in: { List ℕ → Option (List ℕ) };

    /// Whether the suite issues certificates for a key.
    ghost issues: { List ℕ → Bool };

    /// What `issue` may give: by the device's key and the certificate.
    ghost certifies: { List ℕ → List ℕ → Type 0 };

    /// The key of the certificate `leaf`. NoAlgorithm exactly where the bytes are no certificate of the suite.
    fn leaf_key(&mut self, alloc: Global, leaf: &[u8]) -> Result<Vec<u8>, SuiteFault>
        ensures answer { Answers bytes_of (key_in leaf.now) result }
        ensures held { Self.held self.new ≡ Self.held self.old }
        ensures faults { Self.faults self.new ≡ Self.faults self.old }
        ensures asked { Asks (Self.asked self.old) (Self.asked self.new) (LeafRead leaf.now) result };

    /// A certificate for a device's key. NoAlgorithm, unless the call fails, exactly where the suite issues none for it.
    fn issue(&mut self, alloc: Global, device_key: &[u8]) -> Result<Vec<u8>, SuiteFault>
        ensures known { Decides (issues device_key.now) result }
        ensures certified { IfOk result (λ leaf. certifies device_key.now leaf.items) }
        ensures held { Self.held self.new ≡ Self.held self.old }
        ensures faults { Counts (Self.faults self.old) (Self.faults self.new) result }
        ensures asked { Asks (Self.asked self.old) (Self.asked self.new) (Issued device_key.now) result };

    /// The key of an issued certificate is the device's key.
    ghost issued_key: { (key leaf : List ℕ) → certifies key leaf → key_in leaf ≡ Some key };
}
