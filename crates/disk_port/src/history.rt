ghost use Rattle.std.specs.Prelude.{◌≡◌, ◌++◌, [], ◌∷◌, OnOk, OnErr, IfOk, length, min, take, drop, ◌≤◌};
ghost use Rattle.disk_port.specs.Story.{Wrote, Synced, readable, seen, with_events, put};
ghost use Rattle.disk_port.specs.Told.{Copies};
ghost use Rattle.disk_port.specs.History.{events_of};
ghost use Rattle.disk_port.specs.Picked.{picked, left_of};
ghost use Rattle.disk_port.specs.declared.kept.Kept.TheVariants as kept;

use crate::bytes::Bytes;
use crate::kept::Kept;
use crate::putting::put_piece;
use crate::stops::Pick;
use std::alloc::{AllocError, Global};
use std::marker::Model;

/// The bytes of a disk in memory, what they were at first, and each write and sync since.
#[derive(Debug, Drop)]
pub struct History {
    first: Option<Bytes>,
    bytes: Vec<u8>,
    calls: Vec<Kept>,
}

impl Model for History {
    ghost use Rattle.std.specs.Prelude.{◌≡◌};
    ghost use Rattle.disk_port.specs.Story.{Story, readable};
    ghost use Rattle.disk_port.specs.History.{story_told, first_of, events_of};

    ghost Value = { Story };

    ghost view = { λ h. story_told h.first h.bytes.items h.calls.items };

    ghost invariant = { λ h. h.bytes.items ≡ readable (first_of h.first h.bytes.items) (events_of h.calls.items) };
}

impl History {
    /// These bytes, to which nothing was done yet.
    pub fn new(image: Vec<u8>) -> History
        ensures { result ≡ record { image = image.items; events = [] } }
    {
        let alloc = *image.allocator();
        History {
            first: None,
            bytes: image,
            calls: Vec::new(alloc),
        }
    }

    /// The bytes as they are now.
    pub fn bytes(&self) -> &[u8]
        ensures { result.now ≡ seen self.now }
    {
        self.bytes.as_slice()
    }

    /// What is left where the disk is stopped.
    pub fn picked(&self, pick: Pick) -> Result<Bytes, AllocError>
        ensures { IfOk result (λ left. left ≡ picked pick self.now.image self.now.events) }
    {
        let alloc = *self.bytes.allocator();
        let first = match &self.first {
            Some(first) => first.as_list(),
            None => self.bytes.as_slice(),
        };
        Ok(Bytes::new(replay(alloc, first, self.calls.as_slice(), pick)?))
    }

    /// Copies bytes from offset `at` on to the front of `into`, as many as stand there and fit, and says how many.
    pub fn read(&self, at: u64, into: &mut [u8]) -> usize
        ensures count { result ≤ length into.old }
        ensures copied { Copies at into.old into.new result (seen self.now) }
    {
        let bytes = self.bytes.as_slice();
        let from = bytes.split_at(bytes.len().min(at as usize)).1;
        copy_front(into, from)
    }

    /// Writes a piece.
    #[tactic(auto, using(crate::proofs::Histories::events_more))]
    pub fn write(&mut self, at: u64, piece: &[u8]) -> Result<(), AllocError>
        ensures ok { OnOk result (self.new ≡ with_events (Wrote at piece.now ∷ []) self.old) }
        ensures err { OnErr result (self.new ≡ self.old) }
    {
        if self.first.is_none() {
            let alloc = *self.bytes.allocator();
            self.first = Some(Bytes::new(self.bytes.to_vec(alloc)?));
        }
        write_piece(&mut self.bytes, &mut self.calls, at, piece)
    }

    /// Syncs.
    #[tactic(auto, using(crate::proofs::Histories::events_more))]
    pub fn sync(&mut self) -> Result<(), AllocError>
        ensures ok { OnOk result (self.new ≡ with_events (Synced ∷ []) self.old) }
        ensures err { OnErr result (self.new ≡ self.old) }
    {
        self.calls.push(Kept::Synced)?;
        Ok(())
    }
}

/// What the calls leave of some bytes where they are stopped.
#[tactic(auto, using(crate::proofs::Histories::readable_more, crate::proofs::Histories::picked_more))]
fn replay(alloc: Global, first: &[u8], calls: &[Kept], pick: Pick) -> Result<Vec<u8>, AllocError>
    ensures { IfOk result (λ left. left.items ≡ picked pick first.now (events_of calls.now)) }
{
    let mut now = first.to_vec(alloc)?;
    let mut left = first.to_vec(alloc)?;
    for call in calls {
        match call {
            Kept::Wrote(at, piece) => {
                put_piece(&mut now, *at, piece.as_list())?;
                pick_piece(alloc, &mut left, pick, *at, piece.as_list())?;
            }
            Kept::Synced => {
                left = now.to_vec(alloc)?;
            }
        }
    }
    Ok(left)
}

/// Copies as many bytes from the front of `from` to the front of `into` as both have, and says how many.
fn copy_front(into: &mut [u8], from: &[u8]) -> usize
    ensures count { result ≡ min (length into.old) (length from.now) }
    ensures copied { into.new ≡ take result from.now ++ drop result into.old }
{
    let count = into.len().min(from.len());
    into.split_at_mut(count)
        .0
        .copy_from_slice(from.split_at(count).0);
    count
}

/// What is left of a write that was not synced.
fn pick_piece(
    alloc: Global,
    list: &mut Vec<u8>,
    pick: Pick,
    at: u64,
    piece: &[u8],
) -> Result<(), AllocError>
    ensures { OnOk result (list.new.items ≡ left_of pick at piece.now list.old.items) }
{
    match pick {
        Pick::None => Ok(()),
        Pick::All => put_piece(list, at, piece),
        Pick::Byte(byte) => {
            let bytes = vec![in alloc; byte; piece.len()]?;
            put_piece(list, at, bytes.as_slice())
        }
    }
}

/// Writes a piece into some bytes and keeps the call.
fn write_piece(
    bytes: &mut Vec<u8>,
    calls: &mut Vec<Kept>,
    at: u64,
    piece: &[u8],
) -> Result<(), AllocError>
    ensures bytes { OnOk result (bytes.new.items ≡ put at piece.now bytes.old.items) }
    ensures calls { OnOk result (calls.new.items ≡ calls.old.items ++ kept.Wrote at piece.now ∷ []) }
    ensures same_bytes { OnErr result (bytes.new.items ≡ bytes.old.items) }
    ensures same_calls { OnErr result (calls.new.items ≡ calls.old.items) }
{
    let alloc = *bytes.allocator();
    calls.push(Kept::Wrote(at, Bytes::new(piece.to_vec(alloc)?)))?;
    match put_piece(bytes, at, piece) {
        Ok(()) => Ok(()),
        Err(failed) => {
            let _unwritten = calls.pop();
            Err(failed)
        }
    }
}
