ghost use Rattle.std.specs.Prelude.{◌≡◌, ◌<◌, ◌+◌, ◌≤◌, ◌^◌, Some, IfSome, IfOk, IsTrue, option_map, take, OnOk, length};
ghost use Rattle.fdo_ports.specs.Count.{Counts};
ghost use Rattle.disk_port.specs.Told.{Told, IfTold, rests};
ghost use Rattle.journal.specs.Records.{framed};
ghost use Rattle.journal.specs.Areas.{base_of, areas_for, AreApart, area_at, stands, cursor};
ghost use Rattle.journal.specs.Found.{area_read, standing_found, IsWithin};
ghost use Rattle.journal.specs.Changing.{snapshot, IsCurrent, IsFresh, HasRoom, HasMore, Appends, Rewrites, cursor_after_record, cursor_after_snapshot};

use crate::cursor::Cursor;
use crate::open_area::OpenArea;
use crate::records_end::survey;
use disk_port::slots::{from, is_newer, is_shut, open_slot};
use disk_port::{Disk, NextChange, Side, generation_after, put_gated};
use fdo_ports::Failed;

/// How a file is divided into two areas, of which one counts. An area is a gate, one byte that is 1 where the area is open, a
/// generation in 8 bytes, the length of the snapshot in 4, both most significant byte first, the snapshot, and records
/// one behind another.
#[derive(Clone, Copy, Debug)]
pub struct Areas {
    /// How many bytes an area has, which is the offset of the second.
    pub room: u64,
    /// The greatest length of a snapshot.
    pub most: u32,
}

impl Areas {
    /// The areas of a store whose vouchers take at most so many bytes.
    pub fn for_limit(limit: u32) -> Areas
        ensures { result ≡ areas_for limit }
    {
        Areas {
            room: 2 * limit as u64 + 4096,
            most: limit.saturating_add(4096),
        }
    }

    /// Where an area begins.
    pub fn base(self, side: Side) -> u64
        ensures { result ≡ base_of self side }
    {
        match side {
            Side::First => 0,
            Side::Second => self.room,
        }
    }

    /// An area in the image of a file, where it is open.
    #[tactic(auto, using(crate::proofs::Finding::closed_area, crate::proofs::Finding::cut_area, crate::proofs::Finding::open_area))]
    fn open_area<'a>(self, side: Side, image: &'a [u8]) -> Option<OpenArea<'a>>
        ensures read { option_map (area_read self) result ≡ area_at self side image.now }
        ensures side { IfSome result (λ r. r.side ≡ side) }
        ensures within { IfSome result (IsWithin self) }
    {
        let bytes = front(from(image, self.base(side)), self.room);
        let Some((generation, snapshot)) = open_slot(self.most, bytes) else {
            return None;
        };
        let records = from(bytes, 13 + snapshot.len() as u64);
        if records.is_empty() {
            return None;
        }
        Some(OpenArea {
            side,
            generation,
            snapshot,
            records,
        })
    }

    /// The area that counts in the image of a file, or None where none is open. It takes no memory.
    pub fn found<'a>(self, image: &'a [u8]) -> Option<OpenArea<'a>>
        ensures found { standing_found self result ≡ stands self image.now }
        ensures within { IfSome result (IsWithin self) }
    {
        let first = self.open_area(Side::First, image);
        let second = self.open_area(Side::Second, image);
        match (first, second) {
            (None, None) => None,
            (Some(first), None) => Some(first),
            (None, Some(second)) => Some(second),
            (Some(first), Some(second)) => {
                if is_newer(second.generation, first.generation) {
                    Some(second)
                } else {
                    Some(first)
                }
            }
        }
    }

    /// Where the journal of a file with this image goes on. It takes no memory.
    pub fn cursor(self, image: &[u8]) -> Cursor
        requires { self.room < 2 ^ 62 }
        ensures { result ≡ cursor self image.now }
    {
        let (side, generation, place) = match self.found(image) {
            Some(found) => {
                let first = self.base(found.side) + (13 + found.snapshot.len() as u64);
                let end = survey(first, found.records);
                (
                    found.side.other(),
                    generation_after(found.generation),
                    Some(end.place),
                )
            }
            None => (Side::First, 1, None),
        };
        Cursor {
            next: NextChange {
                side,
                generation,
                shut: is_shut(from(image, self.base(side))),
                other_shut: is_shut(from(image, self.base(side.other()))),
            },
            place,
        }
    }

    /// Writes one more record, with this body, behind those that count, at the place that the cursor says: `bytes` are those of
    /// `framed`. A crash at any moment leaves a file that stands for the bodies before the change, or for these and this
    /// one. It makes four calls and takes no memory. The answer is the cursor after it.
    #[tactic(auto, using(crate::proofs::Joining::record_made, crate::proofs::Joining::record_failed, crate::proofs::Joining::record_more, crate::proofs::Joining::record_current))]
    pub fn append<D: Disk>(
        self,
        disk: &mut D,
        now: Cursor,
        place: u64,
        body: &[u8],
        bytes: &[u8],
    ) -> Result<Cursor, Failed>
        requires rests { IsTrue (rests (D.told disk.old)) }
        requires current { IfTold (IsCurrent self now) (D.told disk.old) }
        requires at { now.place ≡ Some place }
        requires small { place < 2 ^ 63 }
        requires room { HasRoom self now place body.now }
        requires bytes { bytes.now ≡ framed body.now }
        requires short { length body.now < 2 ^ 32 }
        requires some { 0 < length bytes.now }
        ensures told { Told (Appends self place body.now result) (D.told disk.old) (D.told disk.new) }
        ensures more { OnOk result (Told (HasMore self body.now) (D.told disk.old) (D.told disk.new)) }
        ensures next { IfOk result (λ next. next ≡ cursor_after_record body.now place now) }
        ensures current { OnOk result (IfTold (IsCurrent self (cursor_after_record body.now place now)) (D.told disk.new)) }
        ensures rests { OnOk result (IsTrue (rests (D.told disk.new))) }
        ensures faults { Counts (D.faults disk.old) (D.faults disk.new) result }
        ensures object { D.object disk.new ≡ D.object disk.old }
    {
        match put_gated(disk, place, true, bytes) {
            Ok(()) => Ok(Cursor {
                next: now.next,
                place: Some(place + (5 + body.len() as u64)),
            }),
            Err(failed) => Err(failed),
        }
    }

    /// Writes a snapshot with this body into the area that doesn't count: `bytes` are those of `snapshot`. A crash at any moment
    /// leaves a file that stands for the bodies before the change, or for this one. It makes six calls, or four where the
    /// area's gate stands closed already, and takes no memory. The answer is the cursor after it.
    #[tactic(auto, using(crate::proofs::Joining::snapshot_made, crate::proofs::Joining::snapshot_failed, crate::proofs::Joining::snapshot_stands, crate::proofs::Joining::snapshot_current))]
    pub fn rewrite<D: Disk>(
        self,
        disk: &mut D,
        now: Cursor,
        body: &[u8],
        bytes: &[u8],
    ) -> Result<Cursor, Failed>
        requires apart { AreApart self }
        requires place { self.room < 2 ^ 62 }
        requires rests { IsTrue (rests (D.told disk.old)) }
        requires current { IfTold (IsCurrent self now) (D.told disk.old) }
        requires bytes { bytes.now ≡ snapshot now.next.generation body.now }
        requires short { length body.now ≤ self.most }
        requires some { 0 < length bytes.now }
        ensures told { Told (Rewrites self now.next body.now result) (D.told disk.old) (D.told disk.new) }
        ensures fresh { OnOk result (IfTold (IsFresh self now.next body.now) (D.told disk.new)) }
        ensures next { IfOk result (λ next. next ≡ cursor_after_snapshot self body.now now) }
        ensures current { OnOk result (IfTold (IsCurrent self (cursor_after_snapshot self body.now now)) (D.told disk.new)) }
        ensures rests { OnOk result (IsTrue (rests (D.told disk.new))) }
        ensures faults { Counts (D.faults disk.old) (D.faults disk.new) result }
        ensures object { D.object disk.new ≡ D.object disk.old }
    {
        let base = self.base(now.next.side);
        match put_gated(disk, base, now.next.shut, bytes) {
            Ok(()) => Ok(Cursor {
                next: now.next.after(),
                place: Some(base + (13 + body.len() as u64)),
            }),
            Err(failed) => Err(failed),
        }
    }
}

/// The first bytes of some, at most so many.
fn front(bytes: &[u8], count: u64) -> &[u8]
    ensures { result.now ≡ take count bytes.now }
{
    bytes.split_at(bytes.len().min(count as usize)).0
}
