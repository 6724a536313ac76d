ghost use Rattle.std.specs.Prelude.{◌≡◌, ◌++◌, option_map, IfOk};
ghost use Rattle.std.specs.List.{concat};
ghost use Rattle.fdo_msgs.specs.Payloads.{header_of, header_seen, header_in, header_text, front_texts, rest_texts};
ghost use Rattle.cbor_core.specs.Shapes.{four_of};
ghost use Rattle.cbor_core.specs.Spots.{spot_parts};
ghost use Rattle.fdo_msgs.specs.Value.{front_four, eight_spots};

use crate::msg::Nonce;
use crate::value::{
    header_part, open_inside, put, put_bytes, sig_info_part, sixteen_part, u8_part, u16_part,
};
use cbor_core::{Blob, Item, NoMemory, Part, write_head};
use hash_hmac::{HMac, Hash};
use key_codec::{SigInfo, hash_item, read_hash_part, sig_info_item};
use std::alloc::Global;
use voucher_chain::Header;

/// The payload of TO2.ProveOVHdr (FIDO Device Onboard 1.1, section 5.5.3).
#[derive(Debug, Drop)]
pub struct HeaderPayload {
    pub header: Header,
    /// How many entries the voucher has.
    pub entries: u8,
    /// The voucher's HMAC.
    pub hmac: HMac,
    /// The bytes of the HMAC as received.
    pub hmac_raw: Blob,
    /// NonceTO2ProveOV.
    pub nonce: Nonce,
    pub sig: SigInfo,
    /// The owner's half of the key exchange.
    pub xa: Blob,
    /// The hash of the body of TO2.HelloDevice.
    pub hello_hash: Hash,
    /// The most bytes of a message that the owner takes, or 0.
    pub max_size: u16,
}

impl HeaderPayload {
    /// What a payload says, to its end.
    #[tactic(auto, unfolding(crate::specs::Payloads::header_in))]
    pub(crate) fn read(alloc: Global, payload: &[u8]) -> Result<Option<HeaderPayload>, NoMemory>
        ensures { IfOk result (λ said. said ≡ header_in payload.now) }
    {
        match open_inside(alloc, payload)? {
            Some(part) => read_part(alloc, &part),
            None => Ok(None),
        }
    }

    /// The payload, in which the HMAC stands as it was received.
    pub fn write(&self, alloc: Global) -> Result<Blob, NoMemory>
        ensures { IfOk result (λ payload. payload ≡ header_text self.now) }
    {
        let mut out = Vec::with_capacity(alloc, 256)?;
        write_head(&mut out, 4, 8)?;
        self.put_front(alloc, &mut out)?;
        self.put_rest(alloc, &mut out)?;
        Ok(Blob::new(out))
    }

    fn put_front(&self, alloc: Global, out: &mut Vec<u8>) -> Result<(), NoMemory>
        ensures { IfOk result (λ _. out.new.items ≡ out.old.items ++ concat (front_texts self.now)) }
    {
        put_bytes(alloc, out, self.header.raw.as_list())?;
        put(alloc, out, Item::Uint(u64::from(self.entries)))?;
        out.extend_from_slice(self.hmac_raw.as_list())?;
        put_bytes(alloc, out, &self.nonce)
    }

    fn put_rest(&self, alloc: Global, out: &mut Vec<u8>) -> Result<(), NoMemory>
        ensures { IfOk result (λ _. out.new.items ≡ out.old.items ++ concat (rest_texts self.now)) }
    {
        put(alloc, out, sig_info_item(alloc, &self.sig)?)?;
        put_bytes(alloc, out, self.xa.as_list())?;
        put(alloc, out, hash_item(alloc, &self.hello_hash)?)?;
        put(alloc, out, Item::Uint(u64::from(self.max_size)))
    }
}

fn read_part(alloc: Global, part: &Part) -> Result<Option<HeaderPayload>, NoMemory>
    ensures { IfOk result (λ said. said ≡ header_seen part.now.spot) }
{
    match eight(part) {
        Some((header, entries, hmac, nonce, sig, xa, hello_hash, size)) => read_parts(
            alloc,
            &header,
            &entries,
            &hmac,
            &nonce,
            &sig,
            &xa,
            &hello_hash,
            &size,
        ),
        None => Ok(None),
    }
}

fn read_parts(
    alloc: Global,
    header: &Part,
    entries: &Part,
    hmac: &Part,
    nonce: &Part,
    sig: &Part,
    xa: &Part,
    hello_hash: &Part,
    size: &Part,
) -> Result<Option<HeaderPayload>, NoMemory>
    ensures { IfOk result (λ said. said ≡ header_of (header.now.spot, entries.now.spot, hmac.now.spot, nonce.now.spot, sig.now.spot, xa.now.spot, hello_hash.now.spot, size.now.spot)) }
{
    let (Some(entries), Some(max_size)) = (u8_part(entries), u16_part(size)) else {
        return Ok(None);
    };
    let hmac_raw = Blob::from_slice(alloc, hmac.raw())?;
    let header = header_part(alloc, header)?;
    let hmac = read_hash_part(alloc, hmac)?;
    let nonce = sixteen_part(alloc, nonce)?;
    let sig = sig_info_part(alloc, sig)?;
    let xa = xa.bytes(alloc)?;
    let hello_hash = read_hash_part(alloc, hello_hash)?;
    match (header, hmac, nonce, sig, xa, hello_hash) {
        (Some(header), Some(hmac), Some(nonce), Some(sig), Some(xa), Some(hello_hash)) => {
            Ok(Some(HeaderPayload {
                header,
                entries,
                hmac,
                hmac_raw,
                nonce,
                sig,
                xa,
                hello_hash,
                max_size,
            }))
        }
        _ => Ok(None),
    }
}

/// The parts of an array of eight.
fn eight<'a>(
    part: &Part<'a>,
) -> Option<
    (
        Part<'a>,
        Part<'a>,
        Part<'a>,
        Part<'a>,
        Part<'a>,
        Part<'a>,
        Part<'a>,
        Part<'a>,
    ),
>
    ensures { option_map (λ p. (p.0.spot, p.1.spot, p.2.spot, p.3.spot, p.4.spot, p.5.spot, p.6.spot, p.7.spot)) result ≡ eight_spots part.now.spot }
{
    if !part.is_array() {
        return None;
    }
    let (first, second, third, fourth) = front_parts(part)?;
    let (fifth, sixth, seventh, eighth) = four_after(&fourth)?;
    Some((first, second, third, fourth, fifth, sixth, seventh, eighth))
}

/// The first four parts.
fn front_parts<'a>(part: &Part<'a>) -> Option<(Part<'a>, Part<'a>, Part<'a>, Part<'a>)>
    ensures { option_map (λ p. ((p.0.spot, p.1.spot, p.2.spot, p.3.spot), p.3.later)) result ≡ front_four (spot_parts part.now.spot) }
{
    let first = part.inside()?;
    let second = first.after()?;
    let third = second.after()?;
    let fourth = third.after()?;
    Some((first, second, third, fourth))
}

/// The parts after one, where they are four.
fn four_after<'a>(part: &Part<'a>) -> Option<(Part<'a>, Part<'a>, Part<'a>, Part<'a>)>
    ensures { option_map (λ p. (p.0.spot, p.1.spot, p.2.spot, p.3.spot)) result ≡ four_of part.now.later }
{
    let first = part.after()?;
    let second = first.after()?;
    let third = second.after()?;
    let fourth = third.after()?;
    match fourth.after() {
        None => Some((first, second, third, fourth)),
        Some(_) => None,
    }
}
