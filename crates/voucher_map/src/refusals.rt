ghost use Rattle.std.specs.Prelude.{◌≡◌, Some, length, option_map};
ghost use Rattle.voucher_chain.specs.Fault.{or_else};
ghost use Rattle.voucher_map.specs.Map.{owner_refusal, replacing_refusal, kept_refusal, voucher_refusal, held_of, same_guid, seen_refusal, promote_refusal, extend_refusal, export_refusal, guid_of, HasFew, AllHaveFew};

use crate::entries::{candidate_in, entry_of, is_candidate, is_kept, voucher_of};
use crate::fault::StoreFault;
use crate::kept::Kept;
use crate::keys::same_key;
use crate::seen::Seen;
use key_codec::PublicKey;
use voucher_chain::{ChainFault, Guid, MOST_ENTRIES, Voucher, owner_key};

/// Why a voucher whose chain holds is not kept, but for want of room: its last owner's key is another one, or its GUID is kept
/// under another header or as a candidate, or as long a chain of it is kept, or one with a candidate. It takes no memory.
#[tactic(auto, using(crate::proofs::FewLaws::entry_few))]
pub fn refuse_voucher(mine: &PublicKey, voucher: &Voucher, entries: &[Kept]) -> Option<StoreFault>
    requires few { AllHaveFew entries.now }
    ensures { result ≡ voucher_refusal mine.now voucher.now entries.now }
{
    if !same_key(owner_key(voucher), mine) {
        return Some(StoreFault::NotOurs);
    }
    let guid = voucher.header.guid;
    if is_candidate(&guid, entries) {
        return Some(StoreFault::Clash(guid));
    }
    match entry_of(&guid, entries) {
        Some(entry) => refuse_kept(voucher, entry),
        None => None,
    }
}

/// Why a voucher does not take the place of the entry that has its GUID.
fn refuse_kept(voucher: &Voucher, entry: &Kept) -> Option<StoreFault>
    requires few { HasFew entry.now }
    ensures { result ≡ kept_refusal voucher.now (Some entry.now) }
{
    let kept = voucher_of(entry);
    if kept.header.raw != voucher.header.raw {
        return Some(StoreFault::Clash(voucher.header.guid));
    }
    let count = kept.entries.as_list().len();
    if voucher.entries.as_list().len() <= count {
        return Some(StoreFault::Older(count as u8));
    }
    match candidate_in(entry) {
        Some(candidate) => Some(StoreFault::Replacing(candidate.header.guid)),
        None => None,
    }
}

/// The GUID of the candidate of the base that a GUID names; None where no base is held under it.
fn held_of(guid: &Guid, entries: &[Kept]) -> Option<Option<Guid>>
    ensures { result ≡ option_map (λ held. option_map guid_of held.1) (held_of guid.now entries.now) }
{
    match entry_of(guid, entries) {
        Some(Kept::Held { candidate, .. }) => match candidate {
            Some(voucher) => Some(Some(voucher.header.guid)),
            None => Some(None),
        },
        _ => None,
    }
}

fn same_guid(one: Option<Guid>, other: Option<Guid>) -> bool
    ensures { result ≡ same_guid one other }
{
    match (one, other) {
        (None, None) => true,
        (Some(one), Some(other)) => one == other,
        _ => false,
    }
}

/// Why a candidate is not set, but for want of room: the base that a session saw is not held, or has another candidate now, or
/// the new GUID is kept. It takes no memory.
pub fn refuse_candidate(seen: &Seen, candidate: &Voucher, entries: &[Kept]) -> Option<StoreFault>
    ensures { result ≡ seen_refusal seen.now candidate.now entries.now }
{
    let Some(now) = held_of(&seen.base, entries) else {
        return Some(StoreFault::Unknown);
    };
    if !same_guid(seen.candidate, now) {
        return Some(StoreFault::Changed(now));
    }
    let guid = candidate.header.guid;
    if is_kept(&guid, entries) {
        return Some(StoreFault::Clash(guid));
    }
    None
}

/// Why a candidate does not take its base's place: the base is not held, or has another candidate now. It takes no memory.
pub fn refuse_promotion(base: &Guid, candidate: &Guid, entries: &[Kept]) -> Option<StoreFault>
    ensures { result ≡ promote_refusal base.now candidate.now entries.now }
{
    let Some(now) = held_of(base, entries) else {
        return Some(StoreFault::Unknown);
    };
    if !same_guid(Some(*candidate), now) {
        return Some(StoreFault::Changed(now));
    }
    None
}

/// Why a voucher is not extended to another owner's key, up to the signature: its GUID names no entry, or it was sent to
/// another one, or it has a candidate, or its last owner's key is not `mine`, or it is too long, or the suite has no
/// algorithm for `mine`. It takes no memory.
pub fn refuse_export(
    mine: &PublicKey,
    algorithm: Option<i64>,
    next: &PublicKey,
    guid: &Guid,
    entries: &[Kept],
) -> Option<StoreFault>
    ensures { result ≡ export_refusal mine.now algorithm next.now guid.now entries.now }
{
    match entry_of(guid, entries) {
        None => Some(StoreFault::Unknown),
        Some(Kept::Sent(voucher)) => {
            if same_key(owner_key(voucher), next) {
                None
            } else {
                Some(StoreFault::Sent)
            }
        }
        Some(Kept::Held { base, candidate }) => refuse_base(mine, algorithm, base, candidate),
    }
}

fn refuse_base(
    mine: &PublicKey,
    algorithm: Option<i64>,
    base: &Voucher,
    candidate: &Option<Voucher>,
) -> Option<StoreFault>
    ensures { result ≡ or_else (replacing_refusal candidate.now) (or_else (owner_refusal mine.now base.now) (extend_refusal algorithm (length base.now.entries))) }
{
    if let Some(voucher) = candidate {
        return Some(StoreFault::Replacing(voucher.header.guid));
    }
    if !same_key(owner_key(base), mine) {
        return Some(StoreFault::NotOurs);
    }
    refuse_length(algorithm, base.entries.as_list().len())
}

fn refuse_length(algorithm: Option<i64>, count: usize) -> Option<StoreFault>
    ensures { result ≡ extend_refusal algorithm count }
{
    if count >= MOST_ENTRIES {
        return Some(StoreFault::Chain(ChainFault::TooLong));
    }
    match algorithm {
        Some(_) => None,
        None => Some(StoreFault::Chain(ChainFault::NoAlgorithm(count as u8))),
    }
}
