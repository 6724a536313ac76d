ghost use Rattle.std.specs.Prelude.{◌≡◌, pos, None, Some, option_map, IfOk, IfErr};
ghost use Rattle.voucher_store.specs.Read.{Reads, Blames};
ghost use Rattle.voucher_store.specs.Snapshot.{EntrySpots, first_spots_by, second_spots_by, entry_spots, is_kind, is_kind_of, kind_place, kept_by, entry_by, entry_at, held_spots, sent_spots};
ghost use Rattle.voucher_store.specs.Entries.{spots_of};
ghost use Rattle.voucher_store.specs.Writing.{IsSound, IsSoundEntry};
ghost use Rattle.cbor_core.specs.Shapes.{two_spots, three_spots, four_spots};

use crate::fault::ImageFault;
use crate::parts::{fault_at, is_number, read_candidate, read_voucher_part};
use cbor_core::Part;
use std::alloc::Global;
use voucher_chain::Voucher;
use voucher_map::Kept;

/// Where the parts of an entry stand.
#[derive(Drop)]
pub(crate) struct EntryParts<'a> {
    /// The kind of the first voucher's HMAC, in version 2.
    kind: Option<Part<'a>>,
    /// The base, or the voucher that was sent.
    first: Part<'a>,
    /// A base's candidate or null.
    candidate: Option<Part<'a>>,
}

/// An entry of version 1, or of version 2.
#[tactic(auto, unfolding(crate::specs::Snapshot::entry_at))]
pub(crate) fn read_entry(alloc: Global, old: bool, part: &Part) -> Result<Kept, ImageFault>
    ensures read { Reads (entry_at old part.now.spot) result }
    ensures sound { IfOk result IsSoundEntry }
{
    match entry_parts(old, part) {
        Ok(parts) => read_parts(alloc, &parts),
        Err(fault) => Err(fault),
    }
}

fn entry_parts<'a>(old: bool, part: &Part<'a>) -> Result<EntryParts<'a>, ImageFault>
    ensures ok { IfOk result (λ parts. entry_spots old part.now.spot ≡ Ok (spots_of parts)) }
    ensures err { IfErr result (Blames (entry_spots old part.now.spot)) }
{
    if old {
        first_parts(part)
    } else {
        second_parts(part)
    }
}

ghost use Rattle.std.specs.Prelude.{Ok};

fn first_parts<'a>(part: &Part<'a>) -> Result<EntryParts<'a>, ImageFault>
    ensures ok { IfOk result (λ parts. first_spots_by part.now.spot.at (three_spots part.now.spot) (two_spots part.now.spot) ≡ Ok (spots_of parts)) }
    ensures err { IfErr result (Blames (first_spots_by part.now.spot.at (three_spots part.now.spot) (two_spots part.now.spot))) }
{
    if let Some((number, base, candidate)) = part.three() {
        return held(number, None, base, candidate);
    }
    match part.two() {
        Some((number, voucher)) => sent(number, None, voucher),
        None => Err(fault_at(part)),
    }
}

fn second_parts<'a>(part: &Part<'a>) -> Result<EntryParts<'a>, ImageFault>
    ensures ok { IfOk result (λ parts. second_spots_by part.now.spot.at (four_spots part.now.spot) (three_spots part.now.spot) ≡ Ok (spots_of parts)) }
    ensures err { IfErr result (Blames (second_spots_by part.now.spot.at (four_spots part.now.spot) (three_spots part.now.spot))) }
{
    if let Some((number, kind, base, candidate)) = part.four() {
        return held(number, Some(kind), base, candidate);
    }
    match part.three() {
        Some((number, kind, voucher)) => sent(number, Some(kind), voucher),
        None => Err(fault_at(part)),
    }
}

ghost use Rattle.voucher_store.specs.Snapshot.{numbered};
ghost use Rattle.voucher_store.specs.Entries.{spot_of};

/// A base and its candidate, behind the number 0.
fn held<'a>(
    number: Part<'a>,
    kind: Option<Part<'a>>,
    base: Part<'a>,
    candidate: Part<'a>,
) -> Result<EntryParts<'a>, ImageFault>
    ensures ok { IfOk result (λ parts. numbered (pos 0) number.entry.spot (held_spots (spot_of kind.entry) base.entry.spot candidate.entry.spot) ≡ Ok (spots_of parts)) }
    ensures err { IfErr result (Blames (numbered (pos 0) number.entry.spot (held_spots (spot_of kind.entry) base.entry.spot candidate.entry.spot))) }
{
    if !is_number(&number, 0) {
        return Err(fault_at(&number));
    }
    Ok(EntryParts {
        kind,
        first: base,
        candidate: Some(candidate),
    })
}

/// A voucher that was sent, behind the number 1.
fn sent<'a>(
    number: Part<'a>,
    kind: Option<Part<'a>>,
    voucher: Part<'a>,
) -> Result<EntryParts<'a>, ImageFault>
    ensures ok { IfOk result (λ parts. numbered (pos 1) number.entry.spot (sent_spots (spot_of kind.entry) voucher.entry.spot) ≡ Ok (spots_of parts)) }
    ensures err { IfErr result (Blames (numbered (pos 1) number.entry.spot (sent_spots (spot_of kind.entry) voucher.entry.spot))) }
{
    if !is_number(&number, 1) {
        return Err(fault_at(&number));
    }
    Ok(EntryParts {
        kind,
        first: voucher,
        candidate: None,
    })
}

/// Whether a kind is that of an HMAC.
fn is_kind(part: &Option<Part>) -> bool
    ensures { result ≡ is_kind (spot_of part.now) }
{
    match part {
        Some(part) => is_number(part, 5) || is_number(part, 6),
        None => true,
    }
}

/// Whether a kind is that of the voucher's HMAC.
fn is_kind_of(voucher: &Voucher, part: &Option<Part>) -> bool
    ensures { result ≡ is_kind_of voucher.now (spot_of part.now) }
{
    match part {
        Some(part) => is_number(part, voucher.hmac.kind),
        None => true,
    }
}

ghost use Rattle.voucher_store.specs.declared.fault.ImageFault.TheVariants as image;

fn kind_fault(parts: &EntryParts) -> ImageFault
    ensures { result ≡ image.Foreign (kind_place (spots_of parts.now)) }
{
    match &parts.kind {
        Some(part) => fault_at(part),
        None => fault_at(&parts.first),
    }
}

fn read_parts(alloc: Global, parts: &EntryParts) -> Result<Kept, ImageFault>
    ensures read { Reads (entry_by (spots_of parts.now)) result }
    ensures sound { IfOk result IsSoundEntry }
{
    if !is_kind(&parts.kind) {
        return Err(kind_fault(parts));
    }
    match read_voucher_part(alloc, &parts.first) {
        Ok(voucher) => read_kept(alloc, parts, voucher),
        Err(fault) => Err(fault),
    }
}

fn read_kept(alloc: Global, parts: &EntryParts, voucher: Voucher) -> Result<Kept, ImageFault>
    requires { IsSound voucher }
    ensures read { Reads (kept_by (spots_of parts.now) voucher) result }
    ensures sound { IfOk result IsSoundEntry }
{
    if !is_kind_of(&voucher, &parts.kind) {
        return Err(kind_fault(parts));
    }
    let Some(part) = &parts.candidate else {
        return Ok(Kept::Sent(voucher));
    };
    match read_candidate(alloc, part) {
        Ok(candidate) => Ok(Kept::Held {
            base: voucher,
            candidate,
        }),
        Err(fault) => Err(fault),
    }
}
