ghost use Rattle.std.specs.Prelude.{◌≡◌};

use crate::idle::Idle;
use crate::session::Session;
use cbor_core::Blob;
use credential_store::CredentialStore;
use disk_port::{Disk, Pick, Stops};
use fdo_msgs::Nonce;
use fdo_rules::ProveOvHdr;
use to2_channel::Channel;

/// A device that has proved itself, and takes TO2.SetupDevice (65).
#[derive(Drop)]
pub struct DeviceProved<D: Disk> {
    pub(crate) session: Session<D>,
    pub(crate) shown: ProveOvHdr,
    /// NonceTO2SetupDv.
    pub(crate) setup_dv: Nonce,
    /// The device's half of the key exchange.
    pub(crate) xb: Blob,
    pub(crate) channel: Channel,
    ghost unused: { channel.used ≡ 0 },
}

impl<D: Disk> DeviceProved<D> {
    /// Gives the session up.
    pub fn stop(self) -> Idle<D>
        ensures { result ≡ self.session.idle }
    {
        let DeviceProved {
            session,
            shown: _,
            setup_dv: _,
            xb: _,
            channel: _,
        } = self;
        session.stop()
    }

    /// The store.
    pub fn store(&self) -> &CredentialStore<D>
        ensures { result.now ≡ self.now.session.idle.store }
    {
        self.session.idle.store()
    }
}

impl<D: Stops> DeviceProved<D> {
    ghost use Rattle.to2_device.specs.Stopping.{StopsAt};

    /// Stops the store's disk at this call from now on. Nothing else changes.
    pub fn stop_at(&mut self, call: u64, pick: Pick)
        ensures store { StopsAt D.Disk self.old.session.idle.store self.new.session.idle.store }
        ensures me { self.new.session.idle.me ≡ self.old.session.idle.me }
    {
        self.session.idle.stop_at(call, pick);
    }
}
