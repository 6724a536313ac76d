ghost use Rattle.std.specs.Prelude.{◌≡◌, pos};
ghost use Rattle.std.specs.Str.{bytes_eq};
ghost use Rattle.hash_hmac.specs.Hmac.{maced};
ghost use Rattle.voucher_chain.specs.Chain.{same_hash, told_of};
ghost use Rattle.fdo_rules.specs.Checks.{is_hash_of as is_the_hash_of, is_true, verified, wants};
ghost use Rattle.to2_device.specs.Told.{Tells};

use cose_envelopes::{CoseFault, Sign1, verify};
use fdo_msgs::Cause;
use fdo_rules::Unfit;
use hash_hmac::{HMac, Hash, hash_of, hmac_of};
use key_codec::{PublicKey, key_bytes};
use std::alloc::Global;
use suite_port::Suite;

/// Refuses what does not hold.
pub(crate) fn want(holds: bool, cause: Cause) -> Result<(), Unfit>
    ensures { Tells (wants holds cause) result }
{
    if holds {
        Ok(())
    } else {
        Err(Unfit::For(cause))
    }
}

/// Whether bytes are equal.
pub(crate) fn same_bytes(one: &[u8], other: &[u8]) -> bool
    ensures { result ≡ bytes_eq one.now other.now }
{
    one == other
}

/// Refuses a signature that is not right under a key.
pub(crate) fn check_signature<S: Suite>(
    alloc: Global,
    suite: &mut S,
    key: &PublicKey,
    sign: &Sign1,
) -> Result<(), Unfit>
    ensures told { Tells (verified S.Verifier.verifies key.now sign.now) result }
    ensures held { S.Holder.held suite.new ≡ S.Holder.held suite.old }
    ensures faults { S.Holder.faults suite.new ≡ S.Holder.faults suite.old }
{
    let key = key_bytes(alloc, key)?;
    match verify(alloc, suite, key.as_list(), sign) {
        Ok(()) => Ok(()),
        Err(CoseFault::NotVerified) => Err(Unfit::For(Cause::NotVerified)),
        Err(CoseFault::NoAlgorithm(number)) => Err(Unfit::For(Cause::NoAlgorithm(number))),
        Err(_) => Err(Unfit::NoMemory),
    }
}

/// Whether a hash is that of a text, by its own kind.
pub(crate) fn is_hash_of(hash: &Hash, text: &[u8]) -> bool
    ensures { result ≡ is_the_hash_of hash.now text.now }
{
    match hash_of(hash.kind, text, &[]) {
        Some(told) => same(&told, hash),
        None => false,
    }
}

/// Whether an HMAC is that of a text under a secret, by its own kind.
pub(crate) fn is_mac_of(hmac: &HMac, secret: &[u8], text: &[u8]) -> bool
    ensures { result ≡ is_true (told_of hmac.now (maced hmac.now.kind secret.now text.now)) }
{
    match hmac_of(hmac.kind, secret, text) {
        Some(told) => same(&told, hmac),
        None => false,
    }
}

fn same(one: &Hash, other: &Hash) -> bool
    ensures { result ≡ same_hash one.now other.now }
{
    one.kind == other.kind && one.len == other.len && one.bytes.as_slice() == other.bytes.as_slice()
}
