ghost use Rattle.std.specs.Prelude.{◌≡◌, ◌≤◌, length, IfOk};
ghost use Rattle.voucher_chain.specs.Extended.{Counts, IsExtended};
ghost use Rattle.voucher_chain.specs.Reading.{most_entries, voucher_at};
ghost use Rattle.voucher_tool.specs.Longer.{AsksFile, AsksRaw, IsLonger, RefusesFile, RefusesVoucher, UnlessMemory};

use cbor_core::Blob;
use key_codec::{PublicKey, key_bytes};
use std::alloc::Global;
use suite_port::Suite;
use voucher_chain::{ChainFault, Voucher, extend, owner_key, read_voucher};

/// The bytes of the voucher with one more entry, made of the bytes of one. The refusals come in this order: those of
/// `read_voucher`; `BadSignature` with the number of entries, exactly where the suite does not hold the last owner's key;
/// those of `extend`. `NoMemory` may come at any place.
#[tactic(auto, using(crate::proofs::Again::longer_file, crate::proofs::Asking::asks_nothing))]
pub fn extend_file<S: Suite>(
    alloc: Global,
    suite: &mut S,
    bytes: &[u8],
    next: &PublicKey,
) -> Result<Blob, ChainFault>
    // All that the voucher had, and an entry that goes on from it to the next owner; it is read back.
    ensures longer { IfOk result (IsLonger S.Verifier.verifies bytes.now next.now) }
    // Which refusal it is.
    ensures refused { RefusesFile (S.Holder.held suite.old) S.Signer.algorithm bytes.now result }
    ensures held { S.Holder.held suite.new ≡ S.Holder.held suite.old }
    ensures faults { Counts (S.Holder.faults suite.old) (S.Holder.faults suite.new) result }
    // One signature is asked of the suite, over the new entry, and none where the bytes are refused.
    ensures asked { AsksFile S.Verifier.verifies (S.Holder.asked suite.old) (S.Holder.asked suite.new) next.now (voucher_at bytes.now) result }
{
    match read_voucher(alloc, bytes) {
        Ok(voucher) => extend_voucher(alloc, suite, &voucher, next),
        Err(fault) => Err(fault),
    }
}

ghost use Rattle.voucher_tool.specs.Longer.{IsRawExtended};

fn extend_voucher<S: Suite>(
    alloc: Global,
    suite: &mut S,
    voucher: &Voucher,
    next: &PublicKey,
) -> Result<Blob, ChainFault>
    requires { length voucher.now.entries ≤ most_entries }
    ensures longer { IfOk result (IsRawExtended S.Verifier.verifies voucher.now next.now) }
    ensures refused { UnlessMemory (RefusesVoucher (S.Holder.held suite.old) S.Signer.algorithm voucher.now) result }
    ensures held { S.Holder.held suite.new ≡ S.Holder.held suite.old }
    ensures faults { Counts (S.Holder.faults suite.old) (S.Holder.faults suite.new) result }
    ensures asked { AsksRaw S.Verifier.verifies (S.Holder.asked suite.old) (S.Holder.asked suite.new) next.now voucher.now result }
{
    let owner = key_bytes(alloc, owner_key(voucher))?;
    if !suite.holds(owner.as_list()) {
        let count = voucher.entries.as_list().len();
        return Err(ChainFault::BadSignature(count as u8));
    }
    match extend(alloc, suite, voucher, next) {
        Ok(longer) => Ok(raw_of(longer)),
        Err(fault) => Err(fault),
    }
}

fn raw_of(voucher: Voucher) -> Blob
    ensures { result ≡ voucher.raw }
{
    let Voucher { raw, .. } = voucher;
    raw
}
