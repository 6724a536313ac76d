ghost use Rattle.std.specs.Prelude.{◌≡◌, ◌≤◌, length, option_map, Ok, IfOk, []};
ghost use Rattle.cbor_core.specs.declared.item.Item.{out-Item};
ghost use Rattle.cbor_core.specs.Spots.{spot_item, spot_parts};
ghost use Rattle.voucher_chain.specs.declared.voucher.Voucher.{Voucher};
ghost use Rattle.voucher_chain.specs.Fault.{Answers, Reads, all_in};
ghost use Rattle.voucher_chain.specs.Reading.{IsVoucher, voucher_at, bounded};
ghost use Rattle.voucher_chain.specs.Voucher.{voucher_seen, voucher_values, voucher_place, entries_inside, entry_inside, certificates_in, mac_in, header_inside, is_mac as is_mac_kind, mac_place, later_parts_place, entries_part_place, entries_place, voucher_with};

use crate::deep::find_deep_entry;
use crate::entry::{Entry, find_entry_fault, read_entry_part};
use crate::fault::{ChainFault, shape_fault};
use crate::header::{Header, is_version, read_header};
use cbor_core::{Blob, Item, NoMemory, Part, write_det, write_head};
use hash_hmac::{HMAC_SHA256, HMAC_SHA384, HMac};
use key_codec::{
    KeyFault, X5Chain, chain_item, find_chain_fault, hash_item, read_chain, read_hash_part,
};
use std::alloc::Global;
use std::marker::Model;

/// Entries in order. Contracts see the list of them.
#[derive(Debug, Drop)]
pub struct Entries {
    entries: Vec<Entry>,
}

impl Model for Entries {
    ghost use Rattle.std.specs.Prelude.{List};
    ghost use Rattle.voucher_chain.specs.declared.entry.Entry.{Entry};

    ghost Value = { List Entry };

    ghost view = { λ e. e.entries.items };

    ghost use Rattle.cbor_core.specs.contracts.item.Item as item;
    ghost use Rattle.std.specs.Coded.{codes};

    ghost coded = { Prim.hlevel (codes, item.the_row.coded) };
}

impl Entries {
    pub fn new(entries: Vec<Entry>) -> Entries
        ensures { result ≡ entries.items }
    {
        Entries { entries }
    }

    pub fn as_list(&self) -> &[Entry]
        ensures { result.now ≡ self.now }
    {
        self.entries.as_slice()
    }

    pub fn into_vec(self) -> Vec<Entry>
        ensures { result.items ≡ self }
    {
        let Entries { entries } = self;
        entries
    }

    /// Equal entries.
    pub fn copy(&self, alloc: Global) -> Result<Entries, NoMemory>
        ensures { IfOk result (λ copy. copy ≡ self.now) }
    {
        let entries = copy_entries(alloc, self.entries.as_slice())?;
        Ok(Entries { entries })
    }
}

pub(crate) fn copy_entries(alloc: Global, entries: &[Entry]) -> Result<Vec<Entry>, NoMemory>
    ensures { IfOk result (λ all. all.items ≡ entries.now) }
{
    let mut all = Vec::new(alloc);
    for entry in entries {
        all.push(entry.copy(alloc)?)?;
    }
    Ok(all)
}

/// The most entries of a voucher.
pub const MOST_ENTRIES: usize = 255;

/// An ownership voucher (FIDO Device Onboard 1.1, section 3.4.2).
#[derive(Debug, Drop)]
pub struct Voucher {
    /// Its bytes as received, which spell the other fields.
    pub raw: Blob,
    pub header: Header,
    /// The device's HMAC of the header: of the kind 5 (HMAC-SHA-256) or 6 (HMAC-SHA-384).
    pub hmac: HMac,
    /// The bytes of the HMAC as received.
    pub hmac_raw: Blob,
    /// The certificates of the device.
    pub chain: Option<X5Chain>,
    /// At most `MOST_ENTRIES`.
    pub entries: Entries,
}

impl Voucher {
    /// An equal voucher.
    pub fn copy(&self, alloc: Global) -> Result<Voucher, NoMemory>
        ensures { IfOk result (λ copy. copy ≡ self.now) }
    {
        Ok(Voucher {
            raw: self.raw.copy()?,
            header: self.header.copy(alloc)?,
            hmac: self.hmac,
            hmac_raw: self.hmac_raw.copy()?,
            chain: copy_chain(alloc, &self.chain)?,
            entries: self.entries.copy(alloc)?,
        })
    }
}

pub(crate) fn copy_chain(
    alloc: Global,
    chain: &Option<X5Chain>,
) -> Result<Option<X5Chain>, NoMemory>
    ensures { IfOk result (λ copy. copy ≡ chain.now) }
{
    match chain {
        Some(chain) => Ok(Some(chain.copy(alloc)?)),
        None => Ok(None),
    }
}

/// The voucher that bytes spell, all of them. `BadShape` comes exactly where they are none of the form, `TooLong` exactly
/// where one has more than `MOST_ENTRIES` entries; its only other refusal is `NoMemory`.
pub fn read_voucher(alloc: Global, bytes: &[u8]) -> Result<Voucher, ChainFault>
    // What is read is spelled.
    ensures found { IfOk result (IsVoucher bytes.now) }
    // What is spelled is read, unless memory runs out.
    ensures only { (voucher : Voucher) → IsVoucher bytes.now voucher → Answers (Ok voucher) result }
    // Which refusal it is, and where the first fault stands.
    ensures exact { Answers (voucher_at bytes.now) result }
    // It keeps the bytes that were read.
    ensures raw { IfOk result (λ voucher. voucher.raw ≡ bytes.now) }
{
    read_bounded(alloc, bytes)
}

fn read_bounded(alloc: Global, bytes: &[u8]) -> Result<Voucher, ChainFault>
    ensures { Answers (voucher_at bytes.now) result }
{
    match read_whole(alloc, bytes) {
        Ok(voucher) => {
            if voucher.entries.as_list().len() <= MOST_ENTRIES {
                Ok(voucher)
            } else {
                Err(ChainFault::TooLong)
            }
        }
        Err(fault) => Err(fault),
    }
}

ghost use Rattle.cbor_core.specs.Whole.{seen_at};

fn read_whole(alloc: Global, bytes: &[u8]) -> Result<Voucher, ChainFault>
    ensures { Reads (seen_at voucher_seen voucher_place bytes.now) result }
{
    match Part::open(alloc, bytes) {
        Ok((part, read)) => match read_part(alloc, &part)? {
            Some(voucher) => {
                if read == bytes.len() {
                    Ok(voucher)
                } else {
                    Err(ChainFault::BadShape(read))
                }
            }
            None => Err(ChainFault::BadShape(find_fault(alloc, &part)?)),
        },
        Err(fault) => Err(shape_fault(fault)),
    }
}

#[tactic(auto, unfolding(crate::specs::Voucher::voucher_seen))]
fn read_part(alloc: Global, part: &Part) -> Result<Option<Voucher>, NoMemory>
    ensures { IfOk result (λ voucher. voucher ≡ voucher_seen part.now.spot) }
{
    match part.five() {
        Some((version, header, hmac, chain, entries)) => {
            if is_version(&version) {
                read_parts(alloc, part, &header, &hmac, &chain, &entries)
            } else {
                Ok(None)
            }
        }
        None => Ok(None),
    }
}

fn read_parts(
    alloc: Global,
    voucher: &Part,
    header: &Part,
    hmac: &Part,
    chain: &Part,
    entries: &Part,
) -> Result<Option<Voucher>, NoMemory>
    ensures { IfOk result (λ value. value ≡ voucher_values voucher.now.spot header.now.spot hmac.now.spot chain.now.spot entries.now.spot) }
{
    let Some(mac) = read_mac(alloc, hmac)? else {
        return Ok(None);
    };
    let header = read_header_part(alloc, header)?;
    let chain = read_certificates(alloc, chain)?;
    let entries = read_entries(alloc, entries)?;
    match (header, chain, entries) {
        (Some(header), Some(chain), Some(entries)) => Ok(Some(Voucher {
            raw: Blob::from_slice(alloc, voucher.raw())?,
            header,
            hmac: mac,
            hmac_raw: Blob::from_slice(alloc, hmac.raw())?,
            chain,
            entries,
        })),
        _ => Ok(None),
    }
}

/// The header that a byte string holds.
fn read_header_part(alloc: Global, part: &Part) -> Result<Option<Header>, NoMemory>
    ensures { IfOk result (λ header. header ≡ header_inside (spot_item part.now.spot)) }
{
    match part.bytes(alloc)? {
        Some(bytes) => read_header_bytes(alloc, bytes.as_list()),
        None => Ok(None),
    }
}

ghost use Rattle.voucher_chain.specs.Fault.{value_in};
ghost use Rattle.voucher_chain.specs.Header.{header_at};

fn read_header_bytes(alloc: Global, bytes: &[u8]) -> Result<Option<Header>, NoMemory>
    ensures { IfOk result (λ header. header ≡ value_in (header_at bytes.now)) }
{
    match read_header(alloc, bytes) {
        Ok(header) => Ok(Some(header)),
        Err(ChainFault::NoMemory) => Err(NoMemory),
        Err(_) => Ok(None),
    }
}

fn read_mac(alloc: Global, part: &Part) -> Result<Option<HMac>, NoMemory>
    ensures { IfOk result (λ hmac. hmac ≡ mac_in (spot_item part.now.spot)) }
{
    match read_hash_part(alloc, part)? {
        Some(hash) => {
            if is_mac(hash.kind) {
                Ok(Some(hash))
            } else {
                Ok(None)
            }
        }
        None => Ok(None),
    }
}

fn is_mac(kind: i64) -> bool
    ensures { result ≡ is_mac_kind kind }
{
    matches!(kind, HMAC_SHA256 | HMAC_SHA384)
}

fn read_certificates(alloc: Global, part: &Part) -> Result<Option<Option<X5Chain>>, NoMemory>
    ensures { IfOk result (λ chain. chain ≡ certificates_in (spot_item part.now.spot)) }
{
    if part.is_null() {
        return Ok(Some(None));
    }
    if !part.is_array() {
        return Ok(None);
    }
    let item = part.item(alloc)?;
    match read_chain(alloc, &item) {
        Ok(chain) => Ok(Some(Some(chain))),
        Err(KeyFault::NoMemory) => Err(NoMemory),
        Err(_) => Ok(None),
    }
}

fn read_entries(alloc: Global, part: &Part) -> Result<Option<Entries>, NoMemory>
    ensures { IfOk result (λ all. all ≡ entries_inside part.now.spot) }
{
    if !part.is_array() {
        return Ok(None);
    }
    match read_all(alloc, part)? {
        Some(entries) => Ok(Some(Entries { entries })),
        None => Ok(None),
    }
}

fn read_all(alloc: Global, part: &Part) -> Result<Option<Vec<Entry>>, NoMemory>
    ensures { IfOk result (λ all. option_map (λ v. v.items) all ≡ all_in entry_inside (spot_parts part.now.spot)) }
{
    let mut all = Vec::new(alloc);
    let mut next = part.inside();
    while let Some(entry) = next {
        match read_entry_inside(alloc, &entry)? {
            Some(value) => all.push(value)?,
            None => return Ok(None),
        }
        next = entry.after();
    }
    Ok(Some(all))
}

/// An entry in which nothing stands too deep.
fn read_entry_inside(alloc: Global, part: &Part) -> Result<Option<Entry>, NoMemory>
    ensures { IfOk result (λ entry. entry ≡ entry_inside part.now.spot) }
{
    match find_deep_entry(part) {
        Some(_) => Ok(None),
        None => read_entry_part(alloc, part),
    }
}

// ---- where it is at fault

#[tactic(auto, unfolding(crate::specs::Voucher::voucher_place))]
fn find_fault(alloc: Global, part: &Part) -> Result<usize, NoMemory>
    ensures { IfOk result (λ at. at ≡ voucher_place part.now.spot) }
{
    let Some((version, header, hmac, chain, entries)) = part.five() else {
        return Ok(part.at());
    };
    if !is_version(&version) {
        return Ok(version.at());
    }
    if read_header_part(alloc, &header)?.is_none() {
        return Ok(header.at());
    }
    find_later_fault(alloc, &hmac, &chain, &entries)
}

fn find_later_fault(
    alloc: Global,
    hmac: &Part,
    chain: &Part,
    entries: &Part,
) -> Result<usize, NoMemory>
    ensures { IfOk result (λ at. at ≡ later_parts_place hmac.now.spot chain.now.spot entries.now.spot) }
{
    if read_mac(alloc, hmac)?.is_none() {
        return Ok(find_mac_fault(hmac));
    }
    if read_certificates(alloc, chain)?.is_none() {
        return Ok(find_chain_fault(chain));
    }
    if entries.is_array() {
        find_entries_fault(alloc, entries)
    } else {
        Ok(entries.at())
    }
}

/// Where an HMAC is not of its form: another kind has the place of its number, another length that of the bytes.
fn find_mac_fault(part: &Part) -> usize
    ensures { result ≡ mac_place part.now.spot }
{
    match part.two() {
        Some((kind, bytes)) => match kind.integer() {
            Some(number) => {
                if is_mac(number) {
                    bytes.at()
                } else {
                    kind.at()
                }
            }
            None => kind.at(),
        },
        None => part.at(),
    }
}

fn find_entries_fault(alloc: Global, part: &Part) -> Result<usize, NoMemory>
    ensures { IfOk result (λ at. at ≡ entries_place part.now.spot.at (spot_parts part.now.spot)) }
{
    let mut next = part.inside();
    while let Some(entry) = next {
        if read_entry_inside(alloc, &entry)?.is_none() {
            return find_entry_fault(alloc, &entry, find_deep_entry(&entry));
        }
        next = entry.after();
    }
    Ok(part.at())
}

// ---- writing

/// The voucher of a header, its HMAC, of the kind 5 or 6, and the device's certificates, without entries, in the
/// deterministic encoding.
pub fn write_voucher(
    alloc: Global,
    header: Header,
    hmac: HMac,
    chain: Option<X5Chain>,
) -> Result<Voucher, NoMemory>
    requires { is_mac_kind hmac.kind ≡ true }
    ensures voucher { IfOk result (λ voucher. voucher ≡ voucher_with header hmac (det (item_of_hash hmac)) chain []) }
    // Where the header is one that its bytes spell, and the HMAC is of the form, it is read from its bytes as it stands.
    ensures back { IsHeader header.raw header → IsConsistent hmac → IfOk result (λ voucher. IsVoucher voucher.raw voucher) }
{
    let hmac_raw = hash_bytes(alloc, &hmac)?;
    let entries = Vec::new(alloc);
    let raw = voucher_raw(alloc, &header, hmac_raw.as_list(), &chain, &entries)?;
    are_bytes(raw.as_list());
    are_some(&chain);
    Ok(Voucher {
        raw,
        header,
        hmac,
        hmac_raw,
        chain,
        entries: Entries { entries },
    })
}

ghost use Rattle.std.specs.Prelude.{◌≢◌, Some, true, OnOk, ◌++◌};
ghost use Rattle.std.specs.Prelude.{flat_map};
ghost use Rattle.voucher_chain.specs.declared.entry.Entry.{Entry};
ghost use Rattle.cbor_core.specs.Deterministic.{det};
ghost use Rattle.key_codec.specs.Hash.{item_of_hash};

fn hash_bytes(alloc: Global, hash: &HMac) -> Result<Blob, NoMemory>
    ensures { IfOk result (λ bytes. bytes ≡ det (item_of_hash hash.now)) }
{
    let item = hash_item(alloc, hash)?;
    write_det(alloc, &item)
}

ghost use Rattle.voucher_chain.specs.Reading.{IsInMemory};
ghost use Rattle.voucher_chain.specs.Header.{IsHeader};
ghost use Rattle.hash_hmac.specs.Value.{IsConsistent};
ghost use Rattle.voucher_chain.specs.Voucher.{item_of_certificates, voucher_bytes};

/// The bytes of a voucher, in which its HMAC and its entries stand as they were received.
pub(crate) fn voucher_raw(
    alloc: Global,
    header: &Header,
    hmac_raw: &[u8],
    chain: &Option<X5Chain>,
    entries: &[Entry],
) -> Result<Blob, NoMemory>
    ensures { IfOk result (λ bytes. bytes ≡ voucher_bytes header.now.raw hmac_raw.now chain.now entries.now) }
{
    let certificates = certificates_bytes(alloc, chain)?;
    let mut out = Vec::with_capacity(alloc, 64)?;
    write_head(&mut out, 4, 5)?;
    write_head(&mut out, 0, 101)?;
    write_head(&mut out, 2, header.raw.as_list().len() as u64)?;
    out.extend_from_slice(header.raw.as_list())?;
    out.extend_from_slice(hmac_raw)?;
    out.extend_from_slice(certificates.as_list())?;
    write_head(&mut out, 4, entries.len() as u64)?;
    put_entries(&mut out, entries)?;
    Ok(Blob::new(out))
}

/// What holds of any certificates: there is one.
#[tactic(auto, using(crate::proofs::NewBack::some_not))]
fn are_some(chain: &Option<X5Chain>)
    ensures { chain.now ≢ Some [] }
{
    match chain {
        Some(chain) => {
            let _all = chain.as_list();
        }
        None => {}
    }
}

/// What holds of any bytes in memory.
pub(crate) fn are_bytes(bytes: &[u8])
    ensures { IsInMemory bytes.now }
{}

fn certificates_bytes(alloc: Global, chain: &Option<X5Chain>) -> Result<Blob, NoMemory>
    ensures { IfOk result (λ bytes. bytes ≡ det (item_of_certificates chain.now)) }
{
    let item = match chain {
        Some(chain) => chain_item(alloc, chain)?,
        None => Item::Simple(22),
    };
    write_det(alloc, &item)
}

fn put_entries(out: &mut Vec<u8>, entries: &[Entry]) -> Result<(), NoMemory>
    ensures { OnOk result (out.new.items ≡ out.old.items ++ flat_map (λ (e : Entry). e.raw) entries.now) }
{
    for entry in entries {
        out.extend_from_slice(entry.raw.as_list())?;
    }
    Ok(())
}
