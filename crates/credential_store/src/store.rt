ghost use Rattle.std.specs.Prelude.{◌≡◌, ◌≤◌, true, None, Some, IfOk, IfErr, IfSome, IsSome, IsTrue, MatchResult, OnOk, OnErr, length, option_copied};
ghost use Rattle.fdo_ports.specs.Count.{Counts};
ghost use Rattle.disk_port.specs.Slots.{next_change};
ghost use Rattle.disk_port.specs.Story.{seen};
ghost use Rattle.disk_port.specs.Told.{IfTold, Told, rests};
ghost use Rattle.credential_store.specs.Body.{body_of_credential, IsKept};
ghost use Rattle.credential_store.specs.Image.{Commits, Holds, Opens, credential_slots};
ghost use Rattle.credential_store.specs.Store.{disk_after, disk_opened, Blames, IsTooBig, Refuses};

use crate::fault::{OpenFault, ReserveFault};
use crate::image::SLOTS;
use crate::loading::{Ready, prepare};
use crate::reserved::Reserved;
use crate::slot::slot_bytes;
use disk_port::{Disk, NextChange, Pick, Stops};
use std::alloc::Global;
use std::marker::Model;
use voucher_chain::Credential;

/// The credential of a device on a disk, or none, and one that is reserved to take its place.
#[derive(Drop)]
pub struct CredentialStore<D: Disk> {
    disk: D,
    credential: Option<Credential>,
    reserved: Option<Reserved>,
    next: NextChange,
}

impl<D: Disk> Model for CredentialStore<D> {
    ghost use Rattle.credential_store.specs.Image.{IsSound};
    ghost use Rattle.credential_store.specs.Reserved.{credential_reserved, generation_reserved};
    ghost use Rattle.credential_store.specs.Store.{StoreView};

    ghost Value = { StoreView D };

    ghost view = { λ s. record { disk = s.disk; credential = s.credential; reserved = credential_reserved s.reserved } };

    ghost invariant = { λ s. IsSound (D.told s.disk) s.credential (generation_reserved s.next.generation s.reserved) s.next };
}

impl<D: Disk> CredentialStore<D> {
    /// Opens the file on a disk. It begins with a sync. A file without an open slot holds no credential. A body of version 1
    /// is written anew, as version 2, by one change before the answer.
    #[tactic(auto, using(crate::proofs::StoreLaws::ready_sound))]
    pub fn open(alloc: Global, disk: D) -> Result<CredentialStore<D>, (D, OpenFault)>
        // A crash at any moment of it leaves what the disk might have left before, or what stands for the same.
        ensures told { Told (Opens result) (D.told disk) (D.told (disk_opened result)) }
        ensures content { IfOk result (λ store. Holds (D.told disk) store.credential) }
        ensures now { IfOk result (λ store. Holds (D.told store.disk) store.credential) }
        ensures reserved { IfOk result (λ store. store.reserved ≡ None) }
        // What is read can be kept again.
        ensures kept { IfOk result (λ store. IfSome store.credential IsKept) }
        ensures refuses { IfErr result (λ e. Refuses e.1 (D.told disk)) }
        ensures faults { MatchResult result (λ store. D.faults store.disk ≡ D.faults disk) (λ e. Blames e.1 (D.faults disk) (D.faults e.0)) }
        ensures object { D.object (disk_opened result) ≡ D.object disk }
    {
        let mut disk = disk;
        match prepare(alloc, &mut disk) {
            Ok(Ready { credential, next }) => Ok(CredentialStore {
                disk,
                credential,
                reserved: None,
                next,
            }),
            Err(fault) => Err((disk, fault)),
        }
    }

    /// The credential, or None.
    #[tactic(auto, using(crate::proofs::StoreLaws::sound_holds))]
    pub fn current(&self) -> Option<&Credential>
        ensures current { option_copied result ≡ self.now.credential }
        // The disk holds it.
        ensures held { Holds (D.told self.now.disk) self.now.credential }
    {
        self.credential.as_ref()
    }

    /// Reserves the credential that the next commit makes current, in the place of one that is reserved. Where it is refused,
    /// it is handed back.
    #[tactic(auto, using(crate::proofs::StoreLaws::sound_reserved))]
    pub fn reserve(
        &mut self,
        alloc: Global,
        next: Credential,
    ) -> Result<(), (Credential, ReserveFault)>
        requires kept { IsKept next }
        ensures reserved { OnOk result (self.new ≡ record self.old { reserved = Some next }) }
        ensures fits { OnOk result (length (body_of_credential next) ≤ 8100) }
        ensures refused { OnErr result (self.new ≡ self.old) }
        ensures given_back { IfErr result (λ e. e.0 ≡ next) }
        ensures too_big { IfErr result (λ e. IsTooBig next e.1) }
    {
        let generation = self.next.generation;
        match slot_bytes(alloc, generation, &next) {
            Ok(bytes) => {
                self.reserved = Some(Reserved {
                    credential: next,
                    generation,
                    bytes,
                });
                Ok(())
            }
            Err(fault) => Err((next, fault)),
        }
    }

    /// Makes the reserved credential current. It takes no memory. Where the disk fails, it is handed back to be opened again,
    /// and holds the credential from before or the one that was reserved.
    pub fn commit(self) -> Result<CredentialStore<D>, D>
        requires reserved { IsSome self.reserved }
        // A crash at any moment of it leaves the credential from before or the reserved one.
        ensures told { Told (Commits self.reserved result) (D.told self.disk) (D.told (disk_after result)) }
        ensures done { IfOk result (λ store. (store.credential ≡ self.reserved) × (store.reserved ≡ None)) }
        ensures now { IfOk result (λ store. Holds (D.told store.disk) store.credential) }
        ensures faults { Counts (D.faults self.disk) (D.faults (disk_after result)) result }
        ensures object { D.object (disk_after result) ≡ D.object self.disk }
    {
        let CredentialStore {
            disk,
            credential: _,
            reserved,
            next,
        } = self;
        let Some(reserved) = reserved else {
            unreachable!();
        };
        commit_reserved(disk, reserved, next)
    }

    /// Hands the disk back.
    pub fn release(self) -> D
        ensures { result ≡ self.disk }
    {
        let CredentialStore { disk, .. } = self;
        disk
    }

    /// The disk.
    pub fn disk(&self) -> &D
        ensures { result.now ≡ self.now.disk }
    {
        &self.disk
    }
}

impl<D: Stops> CredentialStore<D> {
    /// Stops the disk at this call from now on. Nothing else changes.
    #[tactic(auto, using(crate::proofs::StoreLaws::sound_same))]
    pub fn stop_at(&mut self, call: u64, pick: Pick)
        ensures same { self.new ≡ record self.old { disk = self.new.disk } }
        ensures told { D.Disk.told self.new.disk ≡ D.Disk.told self.old.disk }
        ensures faults { D.Disk.faults self.new.disk ≡ D.Disk.faults self.old.disk }
        ensures object { D.Disk.object self.new.disk ≡ D.Disk.object self.old.disk }
    {
        self.disk.stop_at(call, pick);
    }
}

/// Writes a reserved credential.
fn commit_reserved<D: Disk>(
    disk: D,
    reserved: Reserved,
    next: NextChange,
) -> Result<CredentialStore<D>, D>
    requires rests { IsTrue (rests (D.told disk)) }
    requires next { IfTold (λ s. next ≡ next_change credential_slots (seen s)) (D.told disk) }
    requires generation { reserved.generation ≡ next.generation }
    ensures told { Told (Commits (Some reserved.credential) result) (D.told disk) (D.told (disk_after result)) }
    ensures done { IfOk result (λ store. (store.credential ≡ Some reserved.credential) × (store.reserved ≡ None)) }
    ensures now { IfOk result (λ store. Holds (D.told store.disk) store.credential) }
    ensures faults { Counts (D.faults disk) (D.faults (disk_after result)) result }
    ensures object { D.object (disk_after result) ≡ D.object disk }
{
    let mut disk = disk;
    let Reserved {
        credential,
        generation: _,
        bytes,
    } = reserved;
    match SLOTS.change(&mut disk, next, bytes.as_slice()) {
        Ok(next) => Ok(CredentialStore {
            disk,
            credential: Some(credential),
            reserved: None,
            next,
        }),
        Err(_) => Err(disk),
    }
}
