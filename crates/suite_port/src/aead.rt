ghost use Rattle.std.specs.Prelude.{◌≡◌, ◌⊎◌, ◌≤◌, ◌*◌, ℕ, ℤ, negsuc, List, Option, Some, IfSome, length};
ghost use Rattle.suite_port.specs.Answer.{Answers, bytes_of, maybe_bytes_of};
ghost use Rattle.suite_port.specs.Asked.{Asks};
ghost use Rattle.suite_port.specs.Asked.Ask.{Sealed, Opened};
ghost use Rattle.suite_port.specs.Sizes.{most_plain};

use crate::fault::SuiteFault;
use crate::holder::Holder;
use std::alloc::Global;

/// The most bytes of a plain text that is sealed, and of the additional data beside it.
pub const MOST_PLAIN: usize = 16_777_216;

/// Seals texts and opens them (authenticated encryption with additional data, RFC 5116).
pub trait Aead: Holder {
    /// How many bits the key of an algorithm has, by its number (COSE, RFC 9053). None where the suite has no such
    /// algorithm.
    ghost bits: { ℤ → Option ℕ };

    /// The sealed text, by the algorithm, the key, the IV, the additional data and the plain text.
    ghost seals: { ℤ → List ℕ → List ℕ → List ℕ → List ℕ → List ℕ };

    /// The plain text, by the algorithm, the key, the IV, the additional data and the sealed text. None where the
    /// sealed text does not hold under the others.
    ghost opens: { ℤ → List ℕ → List ℕ → List ℕ → List ℕ → Option (List ℕ) };

    /// How many bits the key of this algorithm has, 128 or 256. None where the suite has no such algorithm.
    fn key_bits(&self, alg: i64) -> Option<u16>
        ensures bits { result ≡ bits alg }
        ensures size { IfSome result (λ size. (size ≡ 128) ⊎ (size ≡ 256)) };

    /// The sealed text of `plain`. The key has the bits of the algorithm; the plain text and the additional data have
    /// at most `MOST_PLAIN` bytes each. It fails only for want of memory.
    fn seal(
        &mut self,
        alloc: Global,
        alg: i64,
        key: &[u8],
        iv: &[u8; 12],
        aad: &[u8],
        plain: &[u8],
    ) -> Result<Vec<u8>, SuiteFault>
        requires key { bits alg ≡ Some (8 * length key.now) }
        requires aad { length aad.now ≤ most_plain }
        requires plain { length plain.now ≤ most_plain }
        ensures answer { Answers bytes_of (Some (seals alg key.now iv.now aad.now plain.now)) result }
        ensures held { Self.held self.new ≡ Self.held self.old }
        ensures faults { Self.faults self.new ≡ Self.faults self.old }
        ensures asked { Asks (Self.asked self.old) (Self.asked self.new) (Sealed alg key.now iv.now aad.now plain.now) result };

    /// The plain text of `sealed`, or None where it does not hold under the key, the IV and the additional data. The
    /// key has the bits of the algorithm. It fails only for want of memory.
    fn open(
        &mut self,
        alloc: Global,
        alg: i64,
        key: &[u8],
        iv: &[u8; 12],
        aad: &[u8],
        sealed: &[u8],
    ) -> Result<Option<Vec<u8>>, SuiteFault>
        requires key { bits alg ≡ Some (8 * length key.now) }
        ensures answer { Answers maybe_bytes_of (Some (opens alg key.now iv.now aad.now sealed.now)) result }
        ensures held { Self.held self.new ≡ Self.held self.old }
        ensures faults { Self.faults self.new ≡ Self.faults self.old }
        ensures asked { Asks (Self.asked self.old) (Self.asked self.new) (Opened alg key.now iv.now aad.now sealed.now) result };

    /// What was sealed is opened under the same key, IV and additional data.
    ghost opens_sealed: { (alg : ℤ) (key iv aad plain : List ℕ) → bits alg ≡ Some (8 * length key) → length iv ≡ 12 → length aad ≤ most_plain → length plain ≤ most_plain → opens alg key iv aad (seals alg key iv aad plain) ≡ Some plain };

    /// The algorithm of two keys, -65539: where the suite has it, it has 256 bits, and -65538 has 128.
    ghost two_keys: { (size : ℕ) → bits (negsuc 65538) ≡ Some size → (size ≡ 256) × (bits (negsuc 65537) ≡ Some 128) };
}
