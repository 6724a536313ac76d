ghost use Rattle.std.specs.Prelude.{◌≡◌};
ghost use Rattle.voucher_map.specs.Keys.{same_key as are_same};

use key_codec::PublicKey;

/// Whether two keys have the same type, encoding and body. It takes no memory.
pub fn same_key(one: &PublicKey, other: &PublicKey) -> bool
    ensures { result ≡ are_same one.now other.now }
{
    one.same(other)
}
