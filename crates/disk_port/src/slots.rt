ghost use Rattle.std.specs.Prelude.{◌≡◌, ◌+◌, ◌<◌, ◌≤◌, ◌^◌, ◌++◌, None, Some, MatchOption, IfOk, IsTrue, OnOk, length, drop};
ghost use Rattle.byteorder.specs.Endian.{big_bytes};
ghost use Rattle.fdo_ports.specs.Count.{Counts};
ghost use Rattle.disk_port.specs.Story.{seen};
ghost use Rattle.disk_port.specs.Told.{Told, IfTold, rests};
ghost use Rattle.disk_port.specs.Slots.{slot, is_newer, payload, body_of, IsPayload, base, stands, next_change, change_after, is_shut, AreApart, Changes, IsChanged};
ghost use Rattle.disk_port.specs.Found.{standing_found};

use crate::disk::Disk;
use crate::found::Found;
use crate::gated::put_gated;
use crate::next_change::{NextChange, generation_after};
use crate::side::Side;
use byteorder::{BigEndian, ByteOrder};
use fdo_ports::Failed;
use std::alloc::{AllocError, Global};

/// How a file is divided into two slots, of which one counts: it holds a body, and each change writes the other slot. A
/// slot is a gate, one byte that is 1 where the slot is open, the generation in 8 bytes, the length of the body in 4,
/// both most significant byte first, and the body.
#[derive(Clone, Copy, Debug)]
pub struct Slots {
    /// The offset of the second slot.
    pub second: u64,
    /// The greatest length of a body.
    pub most: u32,
}

impl Slots {
    /// Where a slot begins.
    pub fn base(self, side: Side) -> u64
        ensures { result ≡ base self side }
    {
        match side {
            Side::First => 0,
            Side::Second => self.second,
        }
    }

    /// The open slot that counts in the image of a file, or None where no slot is open. It takes no memory.
    pub fn found<'a>(self, image: &'a [u8]) -> Option<Found<'a>>
        ensures { standing_found result ≡ stands self image.now }
    {
        let first = open_slot(self.most, image);
        let second = open_slot(self.most, from(image, self.second));
        match (first, second) {
            (None, None) => None,
            (Some(first), None) => Some(Found::new(Side::First, first.0, first.1)),
            (None, Some(second)) => Some(Found::new(Side::Second, second.0, second.1)),
            (Some(first), Some(second)) => {
                if is_newer(second.0, first.0) {
                    Some(Found::new(Side::Second, second.0, second.1))
                } else {
                    Some(Found::new(Side::First, first.0, first.1))
                }
            }
        }
    }

    /// The next change of a file with this image. It takes no memory.
    pub fn next_change(self, image: &[u8]) -> NextChange
        ensures { result ≡ next_change self image.now }
    {
        let (side, generation) = match self.found(image) {
            Some(found) => (found.side.other(), generation_after(found.generation)),
            None => (Side::First, 1),
        };
        NextChange {
            side,
            generation,
            shut: is_shut(from(image, self.base(side))),
            other_shut: is_shut(from(image, self.base(side.other()))),
        }
    }

    /// The bytes behind the gate of a slot of this generation that holds this body: what a change writes.
    #[tactic(auto, using(crate::proofs::TwoSlots::payload_body, crate::proofs::TwoSlots::payload_whole, crate::proofs::TwoSlots::payload_long), unfolding(crate::specs::Slots::payload))]
    pub fn payload(self, alloc: Global, generation: u64, body: &[u8]) -> Result<Vec<u8>, AllocError>
        requires { length body.now ≤ self.most }
        ensures bytes { IfOk result (λ bytes. bytes.items ≡ payload generation body.now) }
        ensures body { IfOk result (λ bytes. body_of bytes.items ≡ body.now) }
        ensures whole { IfOk result (λ bytes. IsPayload generation bytes.items) }
        ensures length { IfOk result (λ bytes. length bytes.items ≡ 12 + length body.now) }
    {
        let mut bytes = Vec::from_slice(alloc, &payload_head(generation, body.len() as u32))?;
        bytes.extend_from_slice(body)?;
        Ok(bytes)
    }

    /// Makes the next change of a file: writes a body into the slot that doesn't count, so that a crash at any moment leaves a
    /// file that stands for what it stood for before the change or after it. `bytes` are those of `payload`. It makes
    /// six calls, or four where the slot's gate stands closed already, and takes no memory. The answer is the change
    /// after it.
    #[tactic(auto, using(crate::proofs::TwoSlots::change_told, crate::proofs::TwoSlots::change_done, crate::proofs::TwoSlots::payload_some))]
    pub fn change<D: Disk>(
        self,
        disk: &mut D,
        change: NextChange,
        bytes: &[u8],
    ) -> Result<NextChange, Failed>
        requires apart { AreApart self }
        requires place { self.second < 2 ^ 63 }
        requires rests { IsTrue (rests (D.told disk.old)) }
        requires next { IfTold (λ s. change ≡ next_change self (seen s)) (D.told disk.old) }
        requires bytes { IsPayload change.generation bytes.now }
        requires most { length bytes.now ≤ 12 + self.most }
        ensures told { Told (Changes self change (body_of bytes.now) result) (D.told disk.old) (D.told disk.new) }
        ensures done { OnOk result (IfTold (λ s. IsChanged self change (body_of bytes.now) (change_after change) (seen s)) (D.told disk.new)) }
        ensures next { IfOk result (λ next. next ≡ change_after change) }
        ensures rests { OnOk result (IsTrue (rests (D.told disk.new))) }
        ensures faults { Counts (D.faults disk.old) (D.faults disk.new) result }
        ensures object { D.object disk.new ≡ D.object disk.old }
    {
        match put_gated(disk, self.base(change.side), change.shut, bytes) {
            Ok(()) => Ok(change.after()),
            Err(failed) => Err(failed),
        }
    }
}

/// The generation and the length of a slot.
fn payload_head(generation: u64, length: u32) -> [u8; 12]
    ensures { result ≡ big_bytes 8 generation ++ big_bytes 4 length }
{
    let mut head = [0; 12];
    BigEndian::write_u64(&mut head[..8], generation);
    BigEndian::write_u32(&mut head[8..], length);
    head
}

/// Whether one generation counts as greater than another: 0 does so against 2^64 - 1.
#[tactic(auto, unfolding(crate::specs::Slots::is_newer))]
pub fn is_newer(one: u64, other: u64) -> bool
    ensures { result ≡ is_newer one other }
{
    if one == 0 && other == u64::MAX {
        true
    } else if one == u64::MAX && other == 0 {
        false
    } else {
        other < one
    }
}

/// The bytes from an offset on.
pub fn from(bytes: &[u8], at: u64) -> &[u8]
    ensures { result.now ≡ drop at bytes.now }
{
    bytes.split_at(bytes.len().min(at as usize)).1
}

/// Whether a gate stands at the front and is closed.
pub fn is_shut(bytes: &[u8]) -> bool
    ensures { result ≡ is_shut bytes.now }
{
    match bytes {
        [] => false,
        [gate, ..] => *gate != 1,
    }
}

/// The generation and the body of the slot at the front of some bytes, where it is open.
#[tactic(auto, unfolding(crate::specs::Slots::slot))]
pub fn open_slot(most: u32, bytes: &[u8]) -> Option<(u64, &[u8])>
    ensures { MatchOption result (slot most bytes.now ≡ None) (λ r. slot most bytes.now ≡ Some (r.0, r.1.now)) }
{
    let [1, behind @ ..] = bytes else {
        return None;
    };
    if behind.len() < 12 {
        return None;
    }
    let length = BigEndian::read_u32(behind.split_at(8).1);
    let body = behind.split_at(12).1;
    if length > most || body.len() < length as usize {
        return None;
    }
    Some((
        BigEndian::read_u64(behind),
        body.split_at(length as usize).0,
    ))
}
