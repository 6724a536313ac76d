ghost use Rattle.std.specs.Prelude.{◌≡◌};
ghost use Rattle.fdo_rules.specs.Checks.{verified, verified_by};
ghost use Rattle.fdo_rules.specs.Unfit.{Checks};

use cose_envelopes::{CoseFault, Sign1, verify};
use fdo_msgs::Cause;
use fdo_rules::Unfit;
use key_codec::{PublicKey, key_bytes};
use std::alloc::Global;
use suite_port::Suite;

/// Refuses an envelope that isn't signed under a key.
pub fn verified<S: Suite>(
    alloc: Global,
    suite: &mut S,
    key: &PublicKey,
    sign: &Sign1,
) -> Result<(), Unfit>
    ensures checked { Checks (verified S.Verifier.verifies key.now sign.now) result }
    ensures held { S.Holder.held suite.new ≡ S.Holder.held suite.old }
    ensures faults { S.Holder.faults suite.new ≡ S.Holder.faults suite.old }
{
    let key = key_bytes(alloc, key)?;
    verified_by(alloc, suite, key.as_list(), sign)
}

/// Refuses an envelope that isn't signed under the key with these public bytes.
pub fn verified_by<S: Suite>(
    alloc: Global,
    suite: &mut S,
    key: &[u8],
    sign: &Sign1,
) -> Result<(), Unfit>
    ensures checked { Checks (verified_by S.Verifier.verifies key.now sign.now) result }
    ensures held { S.Holder.held suite.new ≡ S.Holder.held suite.old }
    ensures faults { S.Holder.faults suite.new ≡ S.Holder.faults suite.old }
{
    match verify(alloc, suite, key, sign) {
        Ok(()) => Ok(()),
        Err(CoseFault::NotVerified) => Err(Unfit::For(Cause::NotVerified)),
        Err(CoseFault::NoAlgorithm(alg)) => Err(Unfit::For(Cause::NoAlgorithm(alg))),
        Err(_) => Err(Unfit::NoMemory),
    }
}
