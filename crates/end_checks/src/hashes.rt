ghost use Rattle.std.specs.Prelude.{◌≡◌};
ghost use Rattle.fdo_rules.specs.Checks.{is_hash_of};

use hash_hmac::{Hash, hash_of};

/// Whether a hash is that of a text, by its own kind.
pub fn is_hash_of(hash: &Hash, text: &[u8]) -> bool
    ensures { result ≡ is_hash_of hash.now text.now }
{
    match hash_of(hash.kind, text, &[]) {
        Some(told) => same(&told, hash),
        None => false,
    }
}

ghost use Rattle.voucher_chain.specs.Chain.{same_hash};

fn same(a: &Hash, b: &Hash) -> bool
    ensures { result ≡ same_hash a.now b.now }
{
    a.kind == b.kind && a.len == b.len && a.bytes.as_slice() == b.bytes.as_slice()
}
