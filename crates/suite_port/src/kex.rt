ghost use Rattle.std.specs.Prelude.{◌≡◌, ℕ, List, Option, Some, Bool, true, IsSome, length};
ghost use Rattle.suite_port.specs.Answer.{Answers, bytes_of, two_bytes_of, only_if};
ghost use Rattle.suite_port.specs.Asked.{Asks};
ghost use Rattle.suite_port.specs.Asked.Ask.{Began, Seconded, Finished};

use crate::fault::SuiteFault;
use crate::holder::Holder;
use std::alloc::Global;

/// Agrees on a secret with the other end (FIDO Device Onboard 1.1, section 3.6). The end that begins keeps a private
/// part and sends xA; the other end answers xB; both then have the shared secret.
pub trait Kex: Holder {
    /// Whether the suite has the key agreement of this name.
    ghost agrees: { List ℕ → Bool };

    /// xA and the private part, by the name and the 32 drawn bytes.
    ghost first_of: { List ℕ → List ℕ → List ℕ × List ℕ };

    /// xB and the shared secret, by the name, the 32 drawn bytes and xA. None where the suite has no such name, or
    /// the bytes are no xA of it.
    ghost second_of: { List ℕ → List ℕ → List ℕ → Option (List ℕ × List ℕ) };

    /// The shared secret, by the name, the private part and xB. None where the suite has no such name, or the bytes
    /// are no private part or no xB of it.
    ghost finish_of: { List ℕ → List ℕ → List ℕ → Option (List ℕ) };

    /// xA and a private part, of 32 drawn bytes. NoAlgorithm exactly where the suite has no such name, whatever is
    /// drawn.
    fn first(
        &mut self,
        alloc: Global,
        name: &[u8],
        draw: &[u8; 32],
    ) -> Result<(Vec<u8>, Vec<u8>), SuiteFault>
        ensures answer { Answers two_bytes_of (only_if (agrees name.now) (first_of name.now draw.now)) result }
        ensures held { Self.held self.new ≡ Self.held self.old }
        ensures faults { Self.faults self.new ≡ Self.faults self.old }
        ensures asked { Asks (Self.asked self.old) (Self.asked self.new) (Began name.now draw.now) result };

    /// xB and the shared secret, of 32 drawn bytes and the other end's xA. NoAlgorithm exactly where the suite has no
    /// such name or `xa` is no xA of it.
    fn second(
        &mut self,
        alloc: Global,
        name: &[u8],
        draw: &[u8; 32],
        xa: &[u8],
    ) -> Result<(Vec<u8>, Vec<u8>), SuiteFault>
        ensures answer { Answers two_bytes_of (second_of name.now draw.now xa.now) result }
        ensures held { Self.held self.new ≡ Self.held self.old }
        ensures faults { Self.faults self.new ≡ Self.faults self.old }
        ensures asked { Asks (Self.asked self.old) (Self.asked self.new) (Seconded name.now draw.now xa.now) result };

    /// The shared secret, of the private part that `first` gave and the other end's xB. NoAlgorithm exactly where the
    /// suite has no such name, or `private` or `xb` is none of it.
    fn finish(
        &mut self,
        alloc: Global,
        name: &[u8],
        private: &[u8],
        xb: &[u8],
    ) -> Result<Vec<u8>, SuiteFault>
        ensures answer { Answers bytes_of (finish_of name.now private.now xb.now) result }
        ensures held { Self.held self.new ≡ Self.held self.old }
        ensures faults { Self.faults self.new ≡ Self.faults self.old }
        ensures asked { Asks (Self.asked self.old) (Self.asked self.new) (Finished name.now private.now xb.now) result };

    /// The other end takes every xA that `first` gives.
    ghost second_takes_first: { (name one other : List ℕ) → agrees name ≡ true → length one ≡ 32 → length other ≡ 32 → IsSome (second_of name other (first_of name one).0) };

    /// Both ends agree: the end that began finishes with the secret that the other end has.
    ghost ends_agree: { (name one other xb shared : List ℕ) → agrees name ≡ true → length one ≡ 32 → length other ≡ 32 → second_of name other (first_of name one).0 ≡ Some (xb, shared) → finish_of name (first_of name one).1 xb ≡ Some shared };
}
