ghost use Rattle.std.specs.Prelude.{◌≡◌, ◌≤◌, ◌<◌, ◌^◌, true, IfOk, IfErr};
ghost use Rattle.disk_port.specs.Story.{seen};
ghost use Rattle.disk_port.specs.Told.{Told, IfTold, rests};
ghost use Rattle.journal.specs.Areas.{areas_for, stands};
ghost use Rattle.journal.specs.Changing.{IsCurrent};
ghost use Rattle.voucher_store.specs.Writing.{IsMap};
ghost use Rattle.voucher_store.specs.Store.{is_first_version, is_old, IsLoaded, Loads, Refuses, IsForeign, IsOwn, CountsOpening, Holds, Renews, IsOpen};

use crate::fault::{ImageFault, OpenFault};
use crate::image::read_image;
use crate::map::VoucherMap;
use disk_port::Disk;
use journal::{Areas, Cursor};
use std::alloc::Global;

/// What a file holds.
pub(crate) struct Loaded {
    pub(crate) map: VoucherMap,
    pub(crate) now: Cursor,
    /// Whether its snapshot is of version 1.
    pub(crate) old: bool,
}

/// Syncs and reads a file.
#[tactic(auto, using(crate::proofs::LoadLaws::synced_told, crate::proofs::LoadLaws::unsynced_told, crate::proofs::LoadLaws::synced_loaded, crate::proofs::LoadLaws::synced_refuses))]
pub(crate) fn load<D: Disk>(alloc: Global, limit: u32, disk: &mut D) -> Result<Loaded, OpenFault>
    ensures told { Told (Loads result) (D.told disk.old) (D.told disk.new) }
    ensures loaded { IfOk result (λ l. IfTold (λ s. IsLoaded limit l.map l.now l.old (seen s)) (D.told disk.old)) }
    ensures kept { IfOk result (λ l. IsMap l.map) }
    ensures refuses { IfErr result (λ fault. Refuses limit fault (D.told disk.old)) }
    ensures faults { CountsOpening result (D.faults disk.old) (D.faults disk.new) }
    ensures object { D.object disk.new ≡ D.object disk.old }
{
    match disk.sync() {
        Ok(()) => load_synced(alloc, limit, disk),
        Err(_) => Err(OpenFault::Disk),
    }
}

/// Reads a file.
#[tactic(auto, using(crate::proofs::LoadLaws::loaded_bytes, crate::proofs::LoadLaws::foreign_bytes, crate::proofs::LoadLaws::own_refuses))]
fn load_synced<D: Disk>(alloc: Global, limit: u32, disk: &mut D) -> Result<Loaded, OpenFault>
    ensures told { D.told disk.new ≡ D.told disk.old }
    ensures loaded { IfOk result (λ l. IfTold (λ s. IsLoaded limit l.map l.now l.old (seen s)) (D.told disk.old)) }
    ensures kept { IfOk result (λ l. IsMap l.map) }
    ensures refuses { IfErr result (λ fault. Refuses limit fault (D.told disk.old)) }
    ensures faults { CountsOpening result (D.faults disk.old) (D.faults disk.new) }
    ensures object { D.object disk.new ≡ D.object disk.old }
{
    match read_all(alloc, disk) {
        Ok(image) => load_image(alloc, limit, image.as_slice()),
        Err(fault) => Err(fault),
    }
}

/// What an image holds.
fn load_image(alloc: Global, limit: u32, image: &[u8]) -> Result<Loaded, OpenFault>
    ensures loaded { IfOk result (λ l. IsLoaded limit l.map l.now l.old image.now) }
    ensures kept { IfOk result (λ l. IsMap l.map) }
    ensures foreign { IfErr result (IsForeign limit image.now) }
{
    match read_image(alloc, limit, image) {
        Ok(map) => {
            let areas = Areas::for_limit(limit);
            Ok(Loaded {
                map,
                now: areas.cursor(image),
                old: is_old(areas, image),
            })
        }
        Err(ImageFault::Foreign(place)) => Err(OpenFault::Foreign(place)),
        Err(ImageFault::NoMemory) => Err(OpenFault::NoMemory),
    }
}

/// Whether the snapshot that counts is of version 1.
fn is_old(areas: Areas, image: &[u8]) -> bool
    ensures { result ≡ is_old (stands areas image.now) }
{
    match areas.found(image) {
        Some(found) => is_first_version(found.snapshot),
        None => false,
    }
}

fn is_first_version(body: &[u8]) -> bool
    ensures { result ≡ is_first_version body.now }
{
    match body {
        [_, version, ..] => *version == 1,
        _ => false,
    }
}

/// All bytes of a file.
#[tactic(auto, using(crate::proofs::LoadLaws::read_whole))]
fn read_all<D: Disk>(alloc: Global, disk: &mut D) -> Result<Vec<u8>, OpenFault>
    ensures bytes { IfOk result (λ bytes. IfTold (λ s. bytes.items ≡ seen s) (D.told disk.old)) }
    ensures told { D.told disk.new ≡ D.told disk.old }
    ensures own { IfErr result IsOwn }
    ensures faults { CountsOpening result (D.faults disk.old) (D.faults disk.new) }
    ensures object { D.object disk.new ≡ D.object disk.old }
{
    let Ok(length) = disk.len() else {
        return Err(OpenFault::Disk);
    };
    let Ok(mut bytes) = vec![in alloc; 0u8; length as usize] else {
        return Err(OpenFault::NoMemory);
    };
    match disk.read_at(0, bytes.as_mut_slice()) {
        Ok(count) => {
            bytes.truncate(count);
            Ok(bytes)
        }
        Err(_) => Err(OpenFault::Disk),
    }
}
