ghost use Rattle.std.specs.Prelude.{◌≡◌, ◌≤◌, IfOk, IfErr, MatchResult};
ghost use Rattle.disk_port.specs.Told.{Told};
ghost use Rattle.voucher_map.specs.Finding.{finding, find_in};
ghost use Rattle.voucher_store.specs.Writing.{IsMap};
ghost use Rattle.voucher_store.specs.Store.{Opens, Holds, Refuses, BlamesDisk, disk_opened};

use crate::fault::OpenFault;
use crate::map::VoucherMap;
use crate::renewing::{Ready, prepare};
use disk_port::{Disk, Pick, Stops};
use journal::Cursor;
use std::alloc::Global;
use std::marker::Model;
use voucher_chain::Guid;
use voucher_map::{Found, Kept};

/// The vouchers of a party on a disk. It is opened and read; its changes are not made yet.
#[derive(Drop)]
pub struct VoucherStore<D: Disk> {
    disk: D,
    limit: u32,
    map: VoucherMap,
    cursor: Cursor,
}

impl<D: Disk> Model for VoucherStore<D> {
    ghost use Rattle.voucher_store.specs.Store.{StoreView, IsOpen};

    ghost Value = { StoreView D };

    ghost view = { λ s. record { disk = s.disk; limit = s.limit; entries = s.map } };

    ghost use Rattle.cbor_core.specs.contracts.item.Item as item;
    ghost use Rattle.std.specs.Coded.{codes};

    ghost coded = { Prim.hlevel (codes, item.the_row.coded) };

    ghost invariant = { λ s. IsOpen s.limit (D.told s.disk) s.map s.cursor };
}

impl<D: Disk> VoucherStore<D> {
    /// Opens the file on a disk, for vouchers that take at most `limit` bytes. It begins with a sync. A file without an open
    /// area holds none. A snapshot of version 1 is written anew, as version 2, by one change before the answer.
    pub fn open(alloc: Global, disk: D, limit: u32) -> Result<VoucherStore<D>, (D, OpenFault)>
        requires limit { 4096 ≤ limit }
        // A crash at any moment of it leaves what the disk might have left before, or what stands for the same.
        ensures told { Told (Opens limit result) (D.told disk) (D.told (disk_opened result)) }
        ensures content { IfOk result (λ store. Holds limit (D.told disk) store.entries) }
        ensures now { IfOk result (λ store. Holds limit (D.told store.disk) store.entries) }
        ensures limit { IfOk result (λ store. store.limit ≡ limit) }
        // What is read can be kept again.
        ensures kept { IfOk result (λ store. IsMap store.entries) }
        ensures refuses { IfErr result (λ e. Refuses limit e.1 (D.told disk)) }
        ensures faults { MatchResult result (λ store. D.faults store.disk ≡ D.faults disk) (λ e. BlamesDisk e.1 (D.faults disk) (D.faults e.0)) }
        ensures object { D.object (disk_opened result) ≡ D.object disk }
    {
        let mut disk = disk;
        match prepare(alloc, limit, &mut disk) {
            Ok(Ready { map, now }) => Ok(VoucherStore {
                disk,
                limit,
                map,
                cursor: now,
            }),
            Err(fault) => Err((disk, fault)),
        }
    }

    /// The entries, in the order kept. It takes no memory.
    pub fn list(&self) -> &[Kept]
        ensures list { result.now ≡ self.now.entries }
        // The disk holds them.
        ensures held { Holds self.now.limit (D.told self.now.disk) self.now.entries }
    {
        self.map.as_list()
    }

    /// What is kept under a GUID. It takes no memory.
    pub fn find(&self, guid: &Guid) -> Found<'_>
        ensures { finding result ≡ find_in guid.now self.now.entries }
    {
        self.map.find(guid)
    }

    /// Hands the disk back.
    pub fn release(self) -> D
        ensures { result ≡ self.disk }
    {
        let VoucherStore { disk, .. } = self;
        disk
    }

    /// The disk.
    pub fn disk(&self) -> &D
        ensures { result.now ≡ self.now.disk }
    {
        &self.disk
    }
}

impl<D: Stops> VoucherStore<D> {
    /// Stops the disk at this call from now on. Nothing else changes.
    #[tactic(auto, using(crate::proofs::OpenLaws::open_same))]
    pub fn stop_at(&mut self, call: u64, pick: Pick)
        ensures same { self.new ≡ record self.old { disk = self.new.disk } }
        ensures told { D.Disk.told self.new.disk ≡ D.Disk.told self.old.disk }
        ensures faults { D.Disk.faults self.new.disk ≡ D.Disk.faults self.old.disk }
        ensures object { D.Disk.object self.new.disk ≡ D.Disk.object self.old.disk }
    {
        self.disk.stop_at(call, pick);
    }
}
