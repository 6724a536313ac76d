ghost use Rattle.std.specs.Prelude.{◌≡◌, ◌≤◌, ◌++◌, [], ◌∷◌, List, length, true, Some, IfOk};
ghost use Rattle.cbor_core.specs.Deterministic.{det};
ghost use Rattle.key_codec.specs.declared.key.PublicKey.{PublicKey};
ghost use Rattle.voucher_chain.specs.Chain.{Chain, last_key, owner_bytes};
ghost use Rattle.voucher_chain.specs.Extended.{AreSized, AsksLonger, AsksNext, Counts, IsExtended, IsReadAgain, IsReadBack, IsSignedWith, Refuses, RefusesNext};
ghost use Rattle.voucher_chain.specs.Reading.{most_entries};

use crate::chain::owner_key;
use crate::entry::{Entry, payload_item_of};
use crate::fault::ChainFault;
use crate::strengths::{hash_kind_of, strength};
use crate::voucher::{
    Entries, MOST_ENTRIES, Voucher, are_bytes, copy_chain, copy_entries, voucher_raw,
};
use cbor_core::{Blob, NoMemory, Pairs, write_det};
use cose_envelopes::{CoseFault, Sign1, sign, write_sign1};
use hash_hmac::{Hash, hash_of};
use key_codec::{PublicKey, key_bytes};
use std::alloc::Global;
use suite_port::Suite;

/// The voucher with one more entry, which names the next owner's key and is signed under the last one's, which the suite
/// holds. The refusals come in this order: `TooLong`, exactly where the voucher has `MOST_ENTRIES` entries; `NoAlgorithm` with the
/// number of its entries, exactly where `alg_of` gives none for the last owner's key; `Failed`; `NoMemory` may come at any
/// place.
pub fn extend<S: Suite>(
    alloc: Global,
    suite: &mut S,
    voucher: &Voucher,
    next: &PublicKey,
) -> Result<Voucher, ChainFault>
    requires held { S.Holder.held suite.old (owner_bytes voucher.now) ≡ true }
    requires few { length voucher.now.entries ≤ most_entries }
    // All that the voucher had, its header, HMAC and entries byte for byte, and an entry that goes on from it to the next owner.
    ensures longer { IfOk result (IsExtended S.Verifier.verifies voucher.now next.now) }
    // A chain that holds is kept, with the next owner's key as its last.
    ensures keeps { IfOk result (λ longer. (keys : List PublicKey) → Chain S.Verifier.verifies voucher.now keys → Chain S.Verifier.verifies longer (keys ++ next.now ∷ [])) }
    ensures owner { IfOk result (λ longer. last_key longer.header.key longer.entries ≡ next.now) }
    // Where the voucher was read, and the next owner's key is of the form, it is read from its bytes as it stands.
    ensures back { IfOk result (IsReadBack voucher.now next.now) }
    // The new entry is signed with the algorithm that the suite has for the last owner's key.
    ensures algorithm { IfOk result (IsSignedWith (S.Signer.algorithm (owner_bytes voucher.now)) voucher.now.entries) }
    // Which refusal it is.
    ensures refused { Refuses (S.Signer.algorithm (owner_bytes voucher.now)) (length voucher.now.entries) result }
    ensures held { S.Holder.held suite.new ≡ S.Holder.held suite.old }
    ensures faults { Counts (S.Holder.faults suite.old) (S.Holder.faults suite.new) result }
    // One signature is asked of the suite, over the new entry.
    ensures asked { AsksLonger (S.Holder.asked suite.old) (S.Holder.asked suite.new) (owner_bytes voucher.now) voucher.now.entries result }
{
    lengthen(alloc, suite, voucher, next)
}

fn lengthen<S: Suite>(
    alloc: Global,
    suite: &mut S,
    voucher: &Voucher,
    next: &PublicKey,
) -> Result<Voucher, ChainFault>
    requires held { S.Holder.held suite.old (owner_bytes voucher.now) ≡ true }
    requires few { length voucher.now.entries ≤ most_entries }
    ensures longer { IfOk result (IsExtended S.Verifier.verifies voucher.now next.now) }
    ensures sizes { IfOk result (λ longer. AreSized voucher.now longer) }
    ensures algorithm { IfOk result (IsSignedWith (S.Signer.algorithm (owner_bytes voucher.now)) voucher.now.entries) }
    ensures refused { Refuses (S.Signer.algorithm (owner_bytes voucher.now)) (length voucher.now.entries) result }
    ensures held { S.Holder.held suite.new ≡ S.Holder.held suite.old }
    ensures faults { Counts (S.Holder.faults suite.old) (S.Holder.faults suite.new) result }
    ensures asked { AsksLonger (S.Holder.asked suite.old) (S.Holder.asked suite.new) (owner_bytes voucher.now) voucher.now.entries result }
{
    let count = voucher.entries.as_list().len();
    if count >= MOST_ENTRIES {
        return Err(ChainFault::TooLong);
    }
    let entry = next_entry(alloc, suite, voucher, count as u8, next)?;
    let longer = with_entry(alloc, voucher, entry)?;
    are_bytes(voucher.raw.as_list());
    are_bytes(longer.raw.as_list());
    Ok(longer)
}

ghost use Rattle.voucher_chain.specs.Extended.{IsNext};

/// The entry that goes on from a voucher.
fn next_entry<S: Suite>(
    alloc: Global,
    suite: &mut S,
    voucher: &Voucher,
    index: u8,
    next: &PublicKey,
) -> Result<Entry, ChainFault>
    requires held { S.Holder.held suite.old (owner_bytes voucher.now) ≡ true }
    ensures next { IfOk result (IsNext S.Verifier.verifies voucher.now next.now) }
    // It is read from its bytes as it stands.
    ensures back { IfOk result (IsReadAgain next.now) }
    ensures algorithm { IfOk result (λ entry. S.Signer.algorithm (owner_bytes voucher.now) ≡ Some entry.sign.alg) }
    ensures refused { RefusesNext (S.Signer.algorithm (owner_bytes voucher.now)) index result }
    ensures held { S.Holder.held suite.new ≡ S.Holder.held suite.old }
    ensures faults { Counts (S.Holder.faults suite.old) (S.Holder.faults suite.new) result }
    ensures asked { AsksNext (λ entry. entry.sign) (S.Holder.asked suite.old) (S.Holder.asked suite.new) (owner_bytes voucher.now) result }
{
    let bits = strength(&voucher.header.key);
    let (first, second) = texts_before(voucher);
    let prev = hash_by(bits, first, second);
    let hdr = hash_by(
        bits,
        &voucher.header.guid,
        voucher.header.info.as_list().as_bytes(),
    );
    let signer = key_bytes(alloc, owner_key(voucher))?;
    let payload = payload_bytes(alloc, &prev, &hdr, next)?;
    let sign = sign_payload(alloc, suite, index, signer.as_list(), payload)?;
    let raw = write_sign1(alloc, &sign)?;
    are_bytes(raw.as_list());
    Ok(Entry {
        raw,
        prev,
        hdr,
        extra: None,
        key: next.copy(alloc)?,
        sign,
    })
}

ghost use Rattle.voucher_chain.specs.Chain.{front, last_bytes};
ghost use Rattle.voucher_chain.specs.Entry.{item_of_payload};
ghost use Rattle.voucher_chain.specs.Extended.{hash_kind};
ghost use Rattle.hash_hmac.specs.Value.{IsConsistent};
ghost use Rattle.voucher_chain.specs.Match.{IsHashOf};

/// What stands before the next entry, as two texts in a row.
fn texts_before(voucher: &Voucher) -> (&[u8], &[u8])
    ensures { result.0.now ++ result.1.now ≡ last_bytes (front voucher.now) voucher.now.entries }
{
    match voucher.entries.as_list().last() {
        Some(entry) => (entry.raw.as_list(), &[]),
        None => (voucher.header.raw.as_list(), voucher.hmac_raw.as_list()),
    }
}

/// The hash of two texts in a row, of the kind of a strength.
fn hash_by(bits: u16, first: &[u8], second: &[u8]) -> Hash
    ensures kind { result.kind ≡ hash_kind bits }
    ensures hash { IsHashOf result (first.now ++ second.now) }
    ensures consistent { IsConsistent result }
{
    match hash_of(hash_kind_of(bits), first, second) {
        Some(hash) => hash,
        None => unreachable!(),
    }
}

fn payload_bytes(alloc: Global, prev: &Hash, hdr: &Hash, next: &PublicKey) -> Result<Blob, NoMemory>
    ensures { IfOk result (λ bytes. bytes ≡ det (item_of_payload prev.now hdr.now next.now)) }
{
    let item = payload_item_of(alloc, prev, hdr, next)?;
    write_det(alloc, &item)
}

ghost use Rattle.cose_envelopes.specs.Envelope.{algorithm_in, protected_of};
ghost use Rattle.cose_envelopes.specs.Text.{sign1_structure};

fn sign_payload<S: Suite>(
    alloc: Global,
    suite: &mut S,
    index: u8,
    key: &[u8],
    payload: Blob,
) -> Result<Sign1, ChainFault>
    requires { S.Holder.held suite.old key.now ≡ true }
    ensures parts { IfOk result (λ sign. (sign.unprotected ≡ []) × (sign.payload ≡ payload)) }
    ensures protected { IfOk result (λ sign. (sign.protected ≡ protected_of sign.alg) × (algorithm_in sign.protected ≡ Some sign.alg)) }
    ensures algorithm { IfOk result (λ sign. S.Signer.algorithm key.now ≡ Some sign.alg) }
    ensures signed { IfOk result (λ sign. S.Verifier.verifies key.now sign.alg (sign1_structure sign.protected sign.payload) sign.sig ≡ Some true) }
    ensures refused { RefusesNext (S.Signer.algorithm key.now) index result }
    ensures held { S.Holder.held suite.new ≡ S.Holder.held suite.old }
    ensures faults { Counts (S.Holder.faults suite.old) (S.Holder.faults suite.new) result }
    ensures asked { AsksNext (λ sign. sign) (S.Holder.asked suite.old) (S.Holder.asked suite.new) key.now result }
{
    match sign(alloc, suite, key, Pairs::new(alloc), payload) {
        Ok(signed) => Ok(signed),
        Err(CoseFault::Failed) => Err(ChainFault::Failed),
        Err(CoseFault::NoAlgorithm(_)) => Err(ChainFault::NoAlgorithm(index)),
        Err(_) => Err(ChainFault::NoMemory),
    }
}

ghost use Rattle.voucher_chain.specs.declared.entry.Entry.{Entry};
ghost use Rattle.voucher_chain.specs.Voucher.{voucher_with};

/// The voucher with one more entry.
fn with_entry(alloc: Global, voucher: &Voucher, entry: Entry) -> Result<Voucher, NoMemory>
    ensures { IfOk result (λ longer. longer ≡ voucher_with voucher.now.header voucher.now.hmac voucher.now.hmac_raw voucher.now.chain (voucher.now.entries ++ entry ∷ [])) }
{
    let mut entries = copy_entries(alloc, voucher.entries.as_list())?;
    entries.push(entry)?;
    let hmac_raw = voucher.hmac_raw.copy()?;
    let raw = voucher_raw(
        alloc,
        &voucher.header,
        hmac_raw.as_list(),
        &voucher.chain,
        entries.as_slice(),
    )?;
    Ok(Voucher {
        raw,
        header: voucher.header.copy(alloc)?,
        hmac: voucher.hmac,
        hmac_raw,
        chain: copy_chain(alloc, &voucher.chain)?,
        entries: Entries::new(entries),
    })
}
