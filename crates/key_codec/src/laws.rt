//! Laws of the definitions of `specs/`, for callers to cite.

ghost use Rattle.std.specs.Prelude.{◌≡◌, ◌↔◌, length, Ok};
ghost use Rattle.cbor_core.specs.Deterministic.{det};
ghost use Rattle.cbor_core.specs.Norm.{norm, IsFit};
ghost use Rattle.hash_hmac.specs.declared.hash.Hash.{Hash};
ghost use Rattle.hash_hmac.specs.Value.{IsConsistent};
ghost use Rattle.key_codec.specs.declared.key.PublicKey.{PublicKey};
ghost use Rattle.key_codec.specs.declared.sig_info.SigInfo.{SigInfo};
ghost use Rattle.cbor_core.specs.Numbers.{IsI64};
ghost use Rattle.key_codec.specs.Key.{key_in, item_of_key, IsKey};
ghost use Rattle.key_codec.specs.Hash.{hash_in, item_of_hash};
ghost use Rattle.key_codec.specs.SigInfo.{sig_info_in, item_of_sig_info};

use cbor_core::laws::equal_spellings;

/// A key is read from the item that it is written as, and from the item that its bytes are read as, which is the same.
pub fn keys_are_read_back()
    ensures back { (key : PublicKey) → IsKey key → key_in (item_of_key key) ≡ Ok key }
    ensures wire { (key : PublicKey) → IsKey key → key_in (norm (item_of_key key)) ≡ Ok key }
    ensures same { (key : PublicKey) → norm (item_of_key key) ≡ item_of_key key }
{}

/// Two keys are equal exactly where their deterministic spellings are.
pub fn equal_keys()
    ensures { (key other : PublicKey) → IsKey key → IsKey other → IsFit (item_of_key key) → IsFit (item_of_key other) → (det (item_of_key key) ≡ det (item_of_key other)) ↔ (key ≡ other) }
{
    equal_spellings()
}

/// The same for hashes, each of which is fit to be written.
pub fn hashes_are_read_back()
    ensures back { (hash : Hash) → length hash.bytes ≡ 48 → IsConsistent hash → hash_in (item_of_hash hash) ≡ Ok hash }
    ensures wire { (hash : Hash) → length hash.bytes ≡ 48 → IsConsistent hash → hash_in (norm (item_of_hash hash)) ≡ Ok hash }
    ensures same { (hash : Hash) → norm (item_of_hash hash) ≡ item_of_hash hash }
    ensures fit { (hash : Hash) → IsConsistent hash → IsFit (item_of_hash hash) }
{}

/// The same for signature information.
pub fn sig_infos_are_read_back()
    ensures back { (sig : SigInfo) → IsI64 sig.kind → sig_info_in (item_of_sig_info sig) ≡ Ok sig }
    ensures wire { (sig : SigInfo) → IsI64 sig.kind → sig_info_in (norm (item_of_sig_info sig)) ≡ Ok sig }
    ensures same { (sig : SigInfo) → norm (item_of_sig_info sig) ≡ item_of_sig_info sig }
{}
