ghost use Rattle.std.specs.Prelude.{◌≡◌, None, IsSome, MatchResult};
ghost use Rattle.di_device.specs.Steps.{Starts};

use crate::app_start_sent::AppStartSent;
use credential_store::CredentialStore;
use disk_port::{Disk, Pick, Stops};
use fdo_msgs::{MfgInfo, Msg, Next, Packet};
use std::alloc::Global;

/// A device without a credential.
#[derive(Drop)]
pub struct Blank<D: Disk> {
    store: CredentialStore<D>,
}

impl<D: Disk> Blank<D> {
    /// The device over a store. A store that holds a credential is handed back.
    pub fn new(store: CredentialStore<D>) -> Result<Blank<D>, CredentialStore<D>>
        ensures { MatchResult result (λ blank. (blank.store ≡ store) × (store.credential ≡ None)) (λ back. (back ≡ store) × IsSome store.credential) }
    {
        if store.current().is_some() {
            Err(store)
        } else {
            Ok(Blank { store })
        }
    }

    /// Begins with DI.AppStart (10), which says what the device is. It is never refused.
    pub fn start(self, alloc: Global, info: MfgInfo) -> Next<AppStartSent<D>, CredentialStore<D>>
        ensures step { Starts (λ s. s.store) info self.store result }
    {
        let Blank { store } = self;
        let message = Msg::AppStart(info);
        let packet = Packet::of(alloc, None, &message);
        drop(message);
        match packet {
            Ok(packet) => Next::On(AppStartSent { store }, packet),
            Err(_) => Next::NoMemory(store),
        }
    }

    /// Gives up; the store is handed back.
    pub fn stop(self) -> CredentialStore<D>
        ensures { result ≡ self.store }
    {
        let Blank { store } = self;
        store
    }

    /// The store.
    pub fn store(&self) -> &CredentialStore<D>
        ensures { result.now ≡ self.now.store }
    {
        &self.store
    }
}

impl<D: Stops> Blank<D> {
    /// Stops the store's disk at this call from now on. Nothing else changes.
    pub fn stop_at(&mut self, call: u64, pick: Pick)
        ensures same { self.new.store ≡ record self.old.store { disk = self.new.store.disk } }
        ensures told { D.Disk.told self.new.store.disk ≡ D.Disk.told self.old.store.disk }
        ensures faults { D.Disk.faults self.new.store.disk ≡ D.Disk.faults self.old.store.disk }
        ensures object { D.Disk.object self.new.store.disk ≡ D.Disk.object self.old.store.disk }
    {
        self.store.stop_at(call, pick);
    }
}
