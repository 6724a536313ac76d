ghost use Rattle.std.specs.Prelude.{◌≡◌, ◌≤◌, ◌+◌, true, List, IfOk, IfErr, length, IsTrue};
ghost use Rattle.disk_port.specs.Story.{seen};
ghost use Rattle.disk_port.specs.Told.{Told, IfTold, rests};
ghost use Rattle.journal.specs.Areas.{areas_for};
ghost use Rattle.journal.specs.Changing.{IsCurrent};
ghost use Rattle.voucher_map.specs.Map.{snapshot_length};
ghost use Rattle.voucher_map.specs.declared.kept.Kept.{Kept as Entry};
ghost use Rattle.voucher_store.specs.Changing.{Changes};
ghost use Rattle.voucher_store.specs.Writing.{IsMap};
ghost use Rattle.voucher_store.specs.Store.{IsLoaded, Refuses, IsOwn, CountsOpening, Holds, IsOpen, Fits, snapshot_events, MakesReady, Opens};

use crate::fault::OpenFault;
use crate::image::has_room;
use crate::loading::{Loaded, load};
use crate::map::VoucherMap;
use crate::size::snapshot_length;
use crate::writing::snapshot_body;
use disk_port::Disk;
use journal::{Areas, Cursor, snapshot};
use std::alloc::Global;
use voucher_map::Kept;

/// What a store is made of.
pub(crate) struct Ready {
    pub(crate) map: VoucherMap,
    pub(crate) now: Cursor,
}

/// Syncs and reads a file, and writes a body of version 1 anew.
#[tactic(auto, using(crate::proofs::OpenLaws::load_refused, crate::proofs::OpenLaws::content_loaded, crate::proofs::LoadLaws::own_refuses, crate::proofs::OpenLaws::loaded_rests, crate::proofs::OpenLaws::loaded_there))]
pub(crate) fn prepare<D: Disk>(alloc: Global, limit: u32, disk: &mut D) -> Result<Ready, OpenFault>
    requires { 4096 ≤ limit }
    ensures told { Told (Opens limit result) (D.told disk.old) (D.told disk.new) }
    ensures ready { IfOk result (λ r. IsOpen limit (D.told disk.new) r.map r.now) }
    ensures content { IfOk result (λ r. Holds limit (D.told disk.old) r.map) }
    ensures kept { IfOk result (λ r. IsMap r.map) }
    ensures refuses { IfErr result (λ fault. Refuses limit fault (D.told disk.old)) }
    ensures faults { CountsOpening result (D.faults disk.old) (D.faults disk.new) }
    ensures object { D.object disk.new ≡ D.object disk.old }
{
    match load(alloc, limit, disk) {
        Ok(loaded) => make_ready(alloc, limit, disk, loaded),
        Err(fault) => Err(fault),
    }
}

/// Makes what was read ready: a body of version 1 is written anew.
#[tactic(auto, using(crate::proofs::OpenLaws::makes_nothing, crate::proofs::OpenLaws::ready_loaded, crate::proofs::OpenLaws::current_loaded, crate::proofs::OpenLaws::content_loaded))]
fn make_ready<D: Disk>(
    alloc: Global,
    limit: u32,
    disk: &mut D,
    loaded: Loaded,
) -> Result<Ready, OpenFault>
    requires limit { 4096 ≤ limit }
    requires rests { rests (D.told disk.old) ≡ true }
    requires loaded { IfTold (λ s. IsLoaded limit loaded.map loaded.now loaded.old (seen s)) (D.told disk.old) }
    requires kept { IsMap loaded.map }
    ensures told { Told (MakesReady limit loaded.map loaded.now loaded.old result) (D.told disk.old) (D.told disk.new) }
    ensures ready { IfOk result (λ r. IsOpen limit (D.told disk.new) r.map r.now) }
    ensures same { IfOk result (λ r. r.map ≡ loaded.map) }
    ensures own { IfErr result IsOwn }
    ensures faults { CountsOpening result (D.faults disk.old) (D.faults disk.new) }
    ensures object { D.object disk.new ≡ D.object disk.old }
{
    let Loaded { map, now, old } = loaded;
    if !old {
        return Ok(Ready { map, now });
    }
    match write_snapshot(alloc, limit, disk, map.as_list(), now) {
        Ok(now) => Ok(Ready { map, now }),
        Err(fault) => Err(fault),
    }
}

/// Writes a snapshot of these entries into the area that doesn't count. A crash at any moment leaves a file that stands for the
/// entries from before, or for these.
#[tactic(auto, using(crate::proofs::SnapLaws::areas_apart, crate::proofs::SnapLaws::snapshot_some, crate::proofs::SnapLaws::snapshot_short))]
pub(crate) fn write_snapshot<D: Disk>(
    alloc: Global,
    limit: u32,
    disk: &mut D,
    entries: &[Kept],
    now: Cursor,
) -> Result<Cursor, OpenFault>
    requires limit { 4096 ≤ limit }
    requires rests { rests (D.told disk.old) ≡ true }
    requires current { IfTold (IsCurrent (areas_for limit) now) (D.told disk.old) }
    requires kept { IsMap entries.now }
    ensures told { (before : List Entry) → Holds limit (D.told disk.old) before → Told (Changes limit (snapshot_events limit now.next entries.now) before entries.now result) (D.told disk.old) (D.told disk.new) }
    ensures ready { IfOk result (λ next. IsOpen limit (D.told disk.new) entries.now next) }
    ensures own { IfErr result IsOwn }
    ensures faults { CountsOpening result (D.faults disk.old) (D.faults disk.new) }
    ensures object { D.object disk.new ≡ D.object disk.old }
{
    let areas = Areas::for_limit(limit);
    let Ok(body) = snapshot_body(alloc, entries) else {
        return Err(OpenFault::NoMemory);
    };
    // What is kept has room, so it is memory that lacks.
    if !fits(areas, limit, now, body.as_list().len(), entries) {
        return Err(OpenFault::NoMemory);
    }
    let Ok(bytes) = snapshot(alloc, now.next.generation, body.as_list()) else {
        return Err(OpenFault::NoMemory);
    };
    match areas.rewrite(disk, now, body.as_list(), bytes.as_slice()) {
        Ok(next) => Ok(next),
        Err(_) => Err(OpenFault::Disk),
    }
}

/// Whether a snapshot of so many bytes has room in the area that it goes to. It takes no memory.
#[tactic(auto, using(crate::proofs::SnapLaws::fits_all))]
fn fits(areas: Areas, limit: u32, now: Cursor, size: usize, entries: &[Kept]) -> bool
    requires { areas ≡ areas_for limit }
    ensures { result ≡ true → Fits limit now.next size entries.now }
{
    if size as u64 > areas.most as u64 {
        return false;
    }
    let base = areas.base(now.next.side);
    has_room(base + (13 + size as u64), base + areas.room, entries) && is_within(limit, entries)
}

/// Whether entries have room in a snapshot of version 1 within a limit. It takes no memory.
fn is_within(limit: u32, entries: &[Kept]) -> bool
    ensures { result ≡ true → snapshot_length entries.now ≤ limit }
{
    match snapshot_length(entries) {
        Some(length) => length <= limit as u64,
        None => false,
    }
}
