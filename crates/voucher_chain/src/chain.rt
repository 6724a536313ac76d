ghost use Rattle.std.specs.Prelude.{◌≡◌, ◌≤◌, ◌++◌, ◌⊎◌, ℕ, List, length, flat_map, Option, Ok, Err, IfOk, IfErr};
ghost use Rattle.cbor_core.specs.Deterministic.{det};
ghost use Rattle.key_codec.specs.declared.key.PublicKey.{PublicKey};
ghost use Rattle.key_codec.specs.Key.{item_of_key};
ghost use Rattle.cose_envelopes.specs.Asking.{verifying};
ghost use Rattle.voucher_chain.specs.declared.fault.ChainFault.{ChainFault};
ghost use Rattle.voucher_chain.specs.declared.fault.ChainFault.TheVariants.{BadCertHash as WrongCertificates, NoMemory as OutOfMemory};
ghost use Rattle.voucher_chain.specs.Broken.{BreaksEntry, IsFirstBreak};
ghost use Rattle.voucher_chain.specs.Chain.{AsksToCheck, AsksToCheckAll, Chain, Follows, checked, certificates_break, entry_break, first_break, front, hash_break, last_key, links_break, signature_break, signature_told};
ghost use Rattle.voucher_chain.specs.Fault.{Answers, or_else};
ghost use Rattle.voucher_chain.specs.Reading.{most_entries};

use crate::entry::Entry;
use crate::fault::ChainFault;
use crate::header::Header;
use crate::voucher::Voucher;
use cbor_core::{Blob, NoMemory};
use cose_envelopes::{CoseFault, Sign1, verify};
use hash_hmac::{Hash, hash_of};
use key_codec::{PublicKey, X5Chain, key_bytes};
use std::alloc::Global;
use suite_port::Suite;

/// The key of the last owner: the last entry's, or the header's. It takes no memory.
pub fn owner_key(voucher: &Voucher) -> &PublicKey
    ensures { result.now ≡ last_key voucher.now.header.key voucher.now.entries }
{
    match voucher.entries.as_list().last() {
        Some(entry) => &entry.key,
        None => &voucher.header.key,
    }
}

/// Whether an entry goes on from what stands before it, given as two texts in a row, and from the owner before. The
/// refusals come in this order: `BadPrevHash`, `BadInfoHash`, `NoAlgorithm`, `BadSignature`; a hash of a kind that is none
/// of a hash's is `NoAlgorithm` in that hash's place. `NoMemory` may come at any place.
pub fn check_entry<S: Suite>(
    alloc: Global,
    suite: &mut S,
    index: u8,
    signer: &PublicKey,
    prev_first: &[u8],
    prev_second: &[u8],
    header: &Header,
    entry: &Entry,
) -> Result<(), ChainFault>
    // Ok says that the entry goes on from them.
    ensures found { IfOk result (λ _. Follows S.Verifier.verifies header.now (prev_first.now ++ prev_second.now) signer.now entry.now) }
    // An entry that does is Ok, unless memory runs out.
    ensures only { Follows S.Verifier.verifies header.now (prev_first.now ++ prev_second.now) signer.now entry.now → Answers (Ok tt) result }
    // An error is `NoMemory`, or names the first part of the entry that does not hold.
    ensures broken { IfErr result (λ f. (f ≡ OutOfMemory) ⊎ BreaksEntry S.Verifier.verifies header.now index (prev_first.now ++ prev_second.now) signer.now entry.now f) }
    // The first part that does not hold is the error, unless memory runs out.
    ensures only_broken { (f : ChainFault) → BreaksEntry S.Verifier.verifies header.now index (prev_first.now ++ prev_second.now) signer.now entry.now f → Answers (Err f) result }
    // The first clause that does not hold.
    ensures exact { Answers (checked (entry_break S.Verifier.verifies header.now index (prev_first.now ++ prev_second.now) signer.now entry.now)) result }
    ensures held { S.Holder.held suite.new ≡ S.Holder.held suite.old }
    ensures faults { S.Holder.faults suite.new ≡ S.Holder.faults suite.old }
    // Where both hashes hold and the suite has the algorithm, it is asked once; a refusal has the number given.
    ensures asked { AsksToCheck (S.Holder.asked suite.old) (S.Holder.asked suite.new) (verifying (det (item_of_key signer.now)) entry.now.sign) index result }
{
    check_link(
        alloc,
        suite,
        index,
        signer,
        prev_first,
        prev_second,
        header,
        entry,
    )
}

#[tactic(auto, unfolding(crate::specs::Chain::entry_break), using(crate::proofs::AskLaws::unasked_prev, crate::proofs::AskLaws::unasked_info))]
fn check_link<S: Suite>(
    alloc: Global,
    suite: &mut S,
    index: u8,
    signer: &PublicKey,
    prev_first: &[u8],
    prev_second: &[u8],
    header: &Header,
    entry: &Entry,
) -> Result<(), ChainFault>
    ensures answer { Answers (checked (entry_break S.Verifier.verifies header.now index (prev_first.now ++ prev_second.now) signer.now entry.now)) result }
    ensures held { S.Holder.held suite.new ≡ S.Holder.held suite.old }
    ensures faults { S.Holder.faults suite.new ≡ S.Holder.faults suite.old }
    ensures asked { AsksToCheck (S.Holder.asked suite.old) (S.Holder.asked suite.new) (verifying (det (item_of_key signer.now)) entry.now.sign) index result }
{
    let unknown = ChainFault::NoAlgorithm(index);
    check_hash(
        &entry.prev,
        prev_first,
        prev_second,
        unknown,
        ChainFault::BadPrevHash(index),
    )?;
    let info = header.info.as_list().as_bytes();
    check_hash(
        &entry.hdr,
        &header.guid,
        info,
        unknown,
        ChainFault::BadInfoHash(index),
    )?;
    check_signature(alloc, suite, index, signer, &entry.sign)
}

/// Refuses a hash that is not that of two texts in a row.
fn check_hash(
    hash: &Hash,
    first: &[u8],
    second: &[u8],
    unknown: ChainFault,
    wrong: ChainFault,
) -> Result<(), ChainFault>
    ensures answer { result ≡ checked (hash_break unknown wrong hash.now (first.now ++ second.now)) }
    ensures named { IfErr result (λ f. (f ≡ unknown) ⊎ (f ≡ wrong)) }
{
    match is_hash_of(hash, first, second) {
        Some(true) => Ok(()),
        Some(false) => Err(wrong),
        None => Err(unknown),
    }
}

ghost use Rattle.std.specs.Prelude.{◌↔◌, Some, true};
ghost use Rattle.voucher_chain.specs.Chain.{hash_told, same_hash};
ghost use Rattle.voucher_chain.specs.Match.{IsHashOf};

/// Whether a hash is that of two texts in a row, by its own kind. None where that is none of a hash's.
#[tactic(auto, using(crate::proofs::ChainLaws::told_holds, crate::proofs::ChainLaws::holds_told))]
pub(crate) fn is_hash_of(hash: &Hash, first: &[u8], second: &[u8]) -> Option<bool>
    ensures told { result ≡ hash_told hash.now (first.now ++ second.now) }
    ensures is { (result ≡ Some true) ↔ IsHashOf hash.now (first.now ++ second.now) }
{
    match hash_of(hash.kind, first, second) {
        Some(told) => Some(same(&told, hash)),
        None => None,
    }
}

fn same(a: &Hash, b: &Hash) -> bool
    ensures { result ≡ same_hash a.now b.now }
{
    a.kind == b.kind && a.len == b.len && a.bytes.as_slice() == b.bytes.as_slice()
}

fn check_signature<S: Suite>(
    alloc: Global,
    suite: &mut S,
    index: u8,
    signer: &PublicKey,
    sign: &Sign1,
) -> Result<(), ChainFault>
    ensures answer { Answers (checked (signature_break index (signature_told S.Verifier.verifies signer.now sign.now))) result }
    ensures held { S.Holder.held suite.new ≡ S.Holder.held suite.old }
    ensures faults { S.Holder.faults suite.new ≡ S.Holder.faults suite.old }
    ensures asked { AsksToCheck (S.Holder.asked suite.old) (S.Holder.asked suite.new) (verifying (det (item_of_key signer.now)) sign.now) index result }
{
    let key = key_bytes(alloc, signer)?;
    match verify(alloc, suite, key.as_list(), sign) {
        Ok(()) => Ok(()),
        Err(CoseFault::NotVerified) => Err(ChainFault::BadSignature(index)),
        Err(CoseFault::NoMemory) => Err(ChainFault::NoMemory),
        Err(_) => Err(ChainFault::NoAlgorithm(index)),
    }
}

/// Checks the chain of owners: the hash of the certificates first, then entry by entry. `NoMemory` may come at any place.
pub fn check_chain<S: Suite>(
    alloc: Global,
    suite: &mut S,
    voucher: &Voucher,
) -> Result<(), ChainFault>
    requires { length voucher.now.entries ≤ most_entries }
    // Ok says that the chain holds, with some owners' keys.
    ensures found { IfOk result (λ _. (keys : List PublicKey) × Chain S.Verifier.verifies voucher.now keys) }
    // A chain that holds is Ok, unless memory runs out.
    ensures only { (keys : List PublicKey) → Chain S.Verifier.verifies voucher.now keys → Answers (Ok tt) result }
    // An error is `NoMemory`, or names the first break.
    ensures broken { IfErr result (λ f. (f ≡ OutOfMemory) ⊎ IsFirstBreak S.Verifier.verifies voucher.now f) }
    // The first break is the error, unless memory runs out.
    ensures only_broken { (f : ChainFault) → IsFirstBreak S.Verifier.verifies voucher.now f → Answers (Err f) result }
    // The first break, with its first clause that does not hold.
    ensures exact { Answers (checked (first_break S.Verifier.verifies voucher.now)) result }
    ensures held { S.Holder.held suite.new ≡ S.Holder.held suite.old }
    ensures faults { S.Holder.faults suite.new ≡ S.Holder.faults suite.old }
    // The suite is asked for each entry's signature once, in their order, up to the first break.
    ensures asked { AsksToCheckAll (S.Holder.asked suite.old) (S.Holder.asked suite.new) voucher.now.header.key voucher.now.entries result }
{
    check_all(alloc, suite, voucher)
}

#[tactic(auto, unfolding(crate::specs::Chain::first_break), using(crate::proofs::AskLaws::unasked_chain))]
fn check_all<S: Suite>(alloc: Global, suite: &mut S, voucher: &Voucher) -> Result<(), ChainFault>
    requires { length voucher.now.entries ≤ most_entries }
    ensures answer { Answers (checked (first_break S.Verifier.verifies voucher.now)) result }
    ensures held { S.Holder.held suite.new ≡ S.Holder.held suite.old }
    ensures faults { S.Holder.faults suite.new ≡ S.Holder.faults suite.old }
    ensures asked { AsksToCheckAll (S.Holder.asked suite.old) (S.Holder.asked suite.new) voucher.now.header.key voucher.now.entries result }
{
    check_certificates(alloc, &voucher.chain, &voucher.header.chain_hash)?;
    check_entries(alloc, suite, voucher)
}

fn check_certificates(
    alloc: Global,
    chain: &Option<X5Chain>,
    hash: &Option<Hash>,
) -> Result<(), ChainFault>
    ensures answer { Answers (checked (certificates_break chain.now hash.now)) result }
    ensures named { IfErr result (λ f. (f ≡ OutOfMemory) ⊎ (f ≡ WrongCertificates)) }
{
    match (chain, hash) {
        (None, None) => Ok(()),
        (Some(chain), Some(hash)) => {
            let bytes = in_a_row(alloc, chain.as_list())?;
            check_hash(
                hash,
                bytes.as_list(),
                &[],
                ChainFault::BadCertHash,
                ChainFault::BadCertHash,
            )
        }
        _ => Err(ChainFault::BadCertHash),
    }
}

/// The bytes of all certificates.
fn in_a_row(alloc: Global, certificates: &[Blob]) -> Result<Blob, NoMemory>
    ensures { IfOk result (λ bytes. bytes ≡ flat_map (λ certificate. certificate) certificates.now) }
{
    let mut all = Vec::new(alloc);
    for certificate in certificates {
        all.extend_from_slice(certificate.as_list())?;
    }
    Ok(Blob::new(all))
}

fn check_entries<S: Suite>(
    alloc: Global,
    suite: &mut S,
    voucher: &Voucher,
) -> Result<(), ChainFault>
    requires { length voucher.now.entries ≤ most_entries }
    ensures answer { Answers (checked (links_break S.Verifier.verifies voucher.now.header 0 (front voucher.now) voucher.now.header.key voucher.now.entries)) result }
    ensures held { S.Holder.held suite.new ≡ S.Holder.held suite.old }
    ensures faults { S.Holder.faults suite.new ≡ S.Holder.faults suite.old }
    ensures asked { AsksToCheckAll (S.Holder.asked suite.old) (S.Holder.asked suite.new) voucher.now.header.key voucher.now.entries result }
{
    let mut index: u8 = 0;
    let mut signer = &voucher.header.key;
    let mut first = voucher.header.raw.as_list();
    let mut second = voucher.hmac_raw.as_list();
    let entries = voucher.entries.as_list();
    for entry in entries {
        match check_link(
            alloc,
            suite,
            index,
            signer,
            first,
            second,
            &voucher.header,
            entry,
        ) {
            Ok(()) => {}
            Err(fault) => return Err(fault),
        }
        index = index.saturating_add(1);
        signer = &entry.key;
        first = entry.raw.as_list();
        second = &[];
    }
    Ok(())
}
