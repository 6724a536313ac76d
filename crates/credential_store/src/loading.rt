ghost use Rattle.std.specs.Prelude.{◌≡◌, true, Some, IfOk, IfErr, IfSome};
ghost use Rattle.disk_port.specs.Story.{seen};
ghost use Rattle.disk_port.specs.Slots.{next_change};
ghost use Rattle.disk_port.specs.Told.{Told, IfTold, rests};
ghost use Rattle.credential_store.specs.Body.{IsKept};
ghost use Rattle.credential_store.specs.Image.{credential_slots, Opens, Renews, Holds};
ghost use Rattle.credential_store.specs.Loading.{MakesReady};
ghost use Rattle.credential_store.specs.Store.{CountsOpening, IsLoaded, IsOwn, IsReady, IsForeign, Loads, Refuses};

use crate::fault::{ImageFault, OpenFault};
use crate::image::{SLOTS, is_old, read_image};
use crate::slot::slot_bytes;
use disk_port::{Disk, NextChange};
use std::alloc::Global;
use voucher_chain::Credential;

/// What a file holds.
pub(crate) struct Loaded {
    credential: Option<Credential>,
    next: NextChange,
    /// Whether its body is of version 1.
    old: bool,
}

/// What a store is made of.
pub(crate) struct Ready {
    pub(crate) credential: Option<Credential>,
    pub(crate) next: NextChange,
}

/// Syncs and reads a file, and writes a body of version 1 anew.
#[tactic(auto, using(crate::proofs::OpenLaws::load_refused, crate::proofs::OpenLaws::content_loaded, crate::proofs::OpenLaws::own_refuses))]
pub(crate) fn prepare<D: Disk>(alloc: Global, disk: &mut D) -> Result<Ready, OpenFault>
    ensures told { Told (Opens result) (D.told disk.old) (D.told disk.new) }
    ensures ready { IfOk result (λ ready. IsReady (D.told disk.new) ready.credential ready.next) }
    ensures content { IfOk result (λ ready. Holds (D.told disk.old) ready.credential) }
    ensures kept { IfOk result (λ ready. IfSome ready.credential IsKept) }
    ensures refuses { IfErr result (λ fault. Refuses fault (D.told disk.old)) }
    ensures faults { CountsOpening result (D.faults disk.old) (D.faults disk.new) }
    ensures object { D.object disk.new ≡ D.object disk.old }
{
    match load(alloc, disk) {
        Ok(loaded) => make_ready(alloc, disk, loaded),
        Err(fault) => Err(fault),
    }
}

/// Makes what was read ready: a body of version 1 is written anew.
#[tactic(auto, using(crate::proofs::OpenLaws::makes_nothing, crate::proofs::OpenLaws::ready_loaded))]
fn make_ready<D: Disk>(alloc: Global, disk: &mut D, loaded: Loaded) -> Result<Ready, OpenFault>
    requires rests { rests (D.told disk.old) ≡ true }
    requires loaded { IfTold (λ s. IsLoaded loaded.credential loaded.next loaded.old (seen s)) (D.told disk.old) }
    requires kept { IfSome loaded.credential IsKept }
    ensures told { Told (MakesReady loaded result) (D.told disk.old) (D.told disk.new) }
    ensures ready { IfOk result (λ ready. IsReady (D.told disk.new) ready.credential ready.next) }
    ensures same { IfOk result (λ ready. ready.credential ≡ loaded.credential) }
    ensures own { IfErr result IsOwn }
    ensures faults { CountsOpening result (D.faults disk.old) (D.faults disk.new) }
    ensures object { D.object disk.new ≡ D.object disk.old }
{
    let Loaded {
        credential,
        next,
        old,
    } = loaded;
    match credential {
        Some(credential) => {
            if old {
                renew(alloc, disk, credential, next)
            } else {
                Ok(Ready {
                    credential: Some(credential),
                    next,
                })
            }
        }
        None => Ok(Ready {
            credential: None,
            next,
        }),
    }
}

/// Syncs and reads a file.
#[tactic(auto, using(crate::proofs::OpenLaws::synced_told, crate::proofs::OpenLaws::unsynced_told, crate::proofs::OpenLaws::synced_loaded, crate::proofs::OpenLaws::synced_refuses))]
fn load<D: Disk>(alloc: Global, disk: &mut D) -> Result<Loaded, OpenFault>
    ensures told { Told (Loads result) (D.told disk.old) (D.told disk.new) }
    ensures loaded { IfOk result (λ l. IfTold (λ s. IsLoaded l.credential l.next l.old (seen s)) (D.told disk.old)) }
    ensures kept { IfOk result (λ l. IfSome l.credential IsKept) }
    ensures refuses { IfErr result (λ fault. Refuses fault (D.told disk.old)) }
    ensures faults { CountsOpening result (D.faults disk.old) (D.faults disk.new) }
    ensures object { D.object disk.new ≡ D.object disk.old }
{
    match disk.sync() {
        Ok(()) => load_synced(alloc, disk),
        Err(_) => Err(OpenFault::Disk),
    }
}

/// Reads a file.
#[tactic(auto, using(crate::proofs::OpenLaws::loaded_bytes, crate::proofs::OpenLaws::foreign_bytes, crate::proofs::OpenLaws::own_refuses))]
fn load_synced<D: Disk>(alloc: Global, disk: &mut D) -> Result<Loaded, OpenFault>
    ensures told { D.told disk.new ≡ D.told disk.old }
    ensures loaded { IfOk result (λ l. IfTold (λ s. IsLoaded l.credential l.next l.old (seen s)) (D.told disk.old)) }
    ensures kept { IfOk result (λ l. IfSome l.credential IsKept) }
    ensures refuses { IfErr result (λ fault. Refuses fault (D.told disk.old)) }
    ensures faults { CountsOpening result (D.faults disk.old) (D.faults disk.new) }
    ensures object { D.object disk.new ≡ D.object disk.old }
{
    match read_all(alloc, disk) {
        Ok(image) => load_image(alloc, image.as_slice()),
        Err(fault) => Err(fault),
    }
}

/// What an image holds.
fn load_image(alloc: Global, image: &[u8]) -> Result<Loaded, OpenFault>
    ensures loaded { IfOk result (λ l. IsLoaded l.credential l.next l.old image.now) }
    ensures kept { IfOk result (λ l. IfSome l.credential IsKept) }
    ensures foreign { IfErr result (IsForeign image.now) }
{
    match read_image(alloc, image) {
        Ok(credential) => Ok(Loaded {
            credential,
            next: SLOTS.next_change(image),
            old: is_old(image),
        }),
        Err(ImageFault::Foreign(place)) => Err(OpenFault::Foreign(place)),
        Err(ImageFault::NoMemory) => Err(OpenFault::NoMemory),
    }
}

/// All bytes of a file.
#[tactic(auto, using(crate::proofs::OpenLaws::read_whole))]
fn read_all<D: Disk>(alloc: Global, disk: &mut D) -> Result<Vec<u8>, OpenFault>
    ensures bytes { IfOk result (λ bytes. IfTold (λ s. bytes.items ≡ seen s) (D.told disk.old)) }
    ensures told { D.told disk.new ≡ D.told disk.old }
    ensures own { IfErr result IsOwn }
    ensures faults { CountsOpening result (D.faults disk.old) (D.faults disk.new) }
    ensures object { D.object disk.new ≡ D.object disk.old }
{
    let Ok(length) = disk.len() else {
        return Err(OpenFault::Disk);
    };
    let Ok(mut bytes) = vec![in alloc; 0u8; length as usize] else {
        return Err(OpenFault::NoMemory);
    };
    match disk.read_at(0, bytes.as_mut_slice()) {
        Ok(count) => {
            bytes.truncate(count);
            Ok(bytes)
        }
        Err(_) => Err(OpenFault::Disk),
    }
}

/// Writes the credential of a file anew.
#[tactic(auto, using(crate::proofs::OpenLaws::renews_nothing))]
fn renew<D: Disk>(
    alloc: Global,
    disk: &mut D,
    credential: Credential,
    next: NextChange,
) -> Result<Ready, OpenFault>
    requires rests { rests (D.told disk.old) ≡ true }
    requires next { IfTold (λ s. next ≡ next_change credential_slots (seen s)) (D.told disk.old) }
    requires content { Holds (D.told disk.old) (Some credential) }
    requires kept { IsKept credential }
    ensures told { Told (Renews credential result) (D.told disk.old) (D.told disk.new) }
    ensures ready { IfOk result (λ ready. IsReady (D.told disk.new) ready.credential ready.next) }
    ensures same { IfOk result (λ ready. ready.credential ≡ Some credential) }
    ensures own { IfErr result IsOwn }
    ensures faults { CountsOpening result (D.faults disk.old) (D.faults disk.new) }
    ensures object { D.object disk.new ≡ D.object disk.old }
{
    match slot_bytes(alloc, next.generation, &credential) {
        Ok(bytes) => match SLOTS.change(disk, next, bytes.as_slice()) {
            Ok(next) => Ok(Ready {
                credential: Some(credential),
                next,
            }),
            Err(_) => Err(OpenFault::Disk),
        },
        // It is one byte longer than a body of version 1, which has at most 8,000, so it is memory that lacks.
        Err(_) => Err(OpenFault::NoMemory),
    }
}
