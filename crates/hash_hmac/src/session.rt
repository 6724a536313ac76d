ghost use Rattle.std.specs.Prelude.{◌≡◌, ◌⊎◌, ◌-◌, ◌/◌, drop, replicate};
ghost use Rattle.hash_hmac.specs.Session.{derivation_text, derived_key};

use crate::bytes::padded;
use crate::hmac::hmac_sha256;

/// The key of a session, from the secret that both ends share, in the form of the key derivation function of FIDO
/// Device Onboard 1.1, section 3.6.4, with a label of our own: the first `bits` bits, 128 or 256, of one HMAC-SHA-256.
/// The key stands in front of the array, 16 or 32 bytes; the bytes past it are zero.
#[tactic(auto, unfolding(crate::specs::Session::derived_key))]
pub fn session_key(shared: &[u8], bits: u16) -> [u8; 32]
    requires { (bits ≡ 128) ⊎ (bits ≡ 256) }
    ensures key { result ≡ derived_key shared.now bits }
    ensures zeros { drop (bits / 8) result ≡ replicate (32 - bits / 8) 0 }
{
    let mac = hmac_sha256(shared, &text(bits));
    padded(mac.as_slice().split_at(bits as usize / 8).0)
}

/// What is hashed for a key of so many bits.
fn text(bits: u16) -> [u8; 33]
    ensures { result ≡ derivation_text bits }
{
    let [high, low] = bits.to_be_bytes();
    let mut all = *b"\x01FDO-KDF\x00AutomaticOnboardTunnel\x00\x00";
    all[31] = high;
    all[32] = low;
    all
}
