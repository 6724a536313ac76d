ghost use Rattle.std.specs.Prelude.{◌≡◌, ℕ, ℤ, List, Some, true};

use crate::aead::Aead;
use crate::cert_reader::CertReader;
use crate::kex::Kex;
use crate::signer::Signer;
use crate::verifier::Verifier;

/// All that the roles ask of cryptography. What `verify`, `alg_of`, `first`, `second`, `finish`, `key_bits`, `seal`,
/// `open` and `leaf_key` answer is, want of memory aside, a function of their arguments alone.
pub trait Suite: Verifier + Signer + Kex + Aead + CertReader {
    /// What was signed under a key is verified with the key's algorithm.
    ghost verifies_signed: { (key text sig : List ℕ) (alg : ℤ) → Self.Signer.algorithm key ≡ Some alg → Self.Signer.signs key text sig → Self.Verifier.verifies key alg text sig ≡ Some true };
}
