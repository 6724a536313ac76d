ghost use Rattle.std.specs.Prelude.{◌≡◌, Some, IfErr, IsSome};
ghost use Rattle.voucher_chain.specs.declared.credential.Credential.{Credential};
ghost use Rattle.fdo_rules.specs.DeviceDi.{HmacSent as Sent, by_done, committed, done_row};
ghost use Rattle.fdo_rules.specs.Moves.{refused};
ghost use Rattle.fdo_rules.specs.Row.{Row};
ghost use Rattle.di_device.specs.Steps.{Finishes, IsAnswered};

use crate::hearing::hear_done;
use crate::replying::{reply_to, token_of};
use cbor_core::NoMemory;
use credential_store::CredentialStore;
use disk_port::{Disk, Pick, Stops};
use fdo_msgs::{Cause, Last, Object, Packet, error_packet};
use std::alloc::Global;

/// A device that has answered the HMAC of its voucher's header, and takes DI.Done (13). The credential to come is reserved.
#[derive(Drop)]
pub struct HmacSent<D: Disk> {
    pub(crate) store: CredentialStore<D>,
    ghost reserved: { IsSome store.reserved },
}

impl<D: Disk> HmacSent<D> {
    /// Ends the protocol: the credential is kept. Where the disk fails, the store is to be opened again from it, and holds no
    /// credential or this one.
    #[tactic(auto, unfolding(fdo_rules::specs::DeviceDi::done_row))]
    pub fn on(
        self,
        alloc: Global,
        packet: &Packet,
    ) -> Last<CredentialStore<D>, CredentialStore<D>, D>
        // The credential that was reserved is the one that the device kept at DI.SetCredentials.
        ensures step { (sent : Sent) → self.store.reserved ≡ Some sent.next → Finishes D.Disk (done_row sent packet.now) self.store result }
    {
        match hear_done(alloc, packet) {
            Ok(heard) => self.heard(alloc, packet, heard),
            Err(_) => Last::NoMemory(self.stop()),
        }
    }

    /// At DI.Done, or with the first cause of a refusal.
    fn heard(
        self,
        alloc: Global,
        packet: &Packet,
        heard: Result<(), Cause>,
    ) -> Last<CredentialStore<D>, CredentialStore<D>, D>
        requires answered { IfErr heard IsAnswered }
        ensures step { (c : Credential) → self.store.reserved ≡ Some c → Finishes D.Disk (by_done packet.now c heard) self.store result }
    {
        match heard {
            Ok(()) => self.keep(alloc, packet),
            Err(cause) => self.refuse(alloc, cause, packet),
        }
    }

    /// At DI.Done. The error message for a disk that fails is made first.
    fn keep(self, alloc: Global, packet: &Packet) -> Last<CredentialStore<D>, CredentialStore<D>, D>
        ensures step { (c : Credential) → self.store.reserved ≡ Some c → Finishes D.Disk (Row.Stores (Some c) (committed packet.now c)) self.store result }
    {
        match disk_error(alloc, packet) {
            Ok(reply) => {
                let HmacSent { store } = self;
                match store.commit() {
                    Ok(store) => Last::Done(store),
                    Err(disk) => Last::Reopen { disk, reply },
                }
            }
            Err(_) => Last::NoMemory(self.stop()),
        }
    }

    /// A refusal, whose error message is made first.
    fn refuse(
        self,
        alloc: Global,
        cause: Cause,
        packet: &Packet,
    ) -> Last<CredentialStore<D>, CredentialStore<D>, D>
        requires answered { IsAnswered cause }
        ensures step { Finishes D.Disk (Row.Ends (refused packet.now cause)) self.store result }
    {
        match reply_to(alloc, &cause, packet) {
            Ok(reply) => Last::Stopped {
                rest: self.stop(),
                cause,
                reply,
            },
            Err(_) => Last::NoMemory(self.stop()),
        }
    }

    /// Gives up; the store is handed back.
    pub fn stop(self) -> CredentialStore<D>
        ensures store { result ≡ self.store }
        ensures reserved { IsSome result.reserved }
    {
        let HmacSent { store } = self;
        store
    }

    /// The store.
    pub fn store(&self) -> &CredentialStore<D>
        ensures { result.now ≡ self.now.store }
    {
        &self.store
    }
}

ghost use Rattle.std.specs.Prelude.{IfOk};
ghost use Rattle.fdo_msgs.specs.Refusal.{error_of};
ghost use Rattle.fdo_msgs.specs.declared.cause.Cause.TheVariants.{Outside};
ghost use Rattle.fdo_msgs.specs.declared.cause.Object.TheVariants as object;

/// The error message for a disk that failed at a message.
fn disk_error(alloc: Global, packet: &Packet) -> Result<Packet, NoMemory>
    ensures { IfOk result (λ reply. reply ≡ error_of (Outside object.Disk) packet.now.kind packet.now.token) }
{
    let token = token_of(packet)?;
    error_packet(alloc, &Cause::Outside(Object::Disk), packet.kind, token)
}

impl<D: Stops> HmacSent<D> {
    /// Stops the store's disk at this call from now on. Nothing else changes.
    pub fn stop_at(&mut self, call: u64, pick: Pick)
        ensures same { self.new.store ≡ record self.old.store { disk = self.new.store.disk } }
        ensures told { D.Disk.told self.new.store.disk ≡ D.Disk.told self.old.store.disk }
        ensures faults { D.Disk.faults self.new.store.disk ≡ D.Disk.faults self.old.store.disk }
        ensures object { D.Disk.object self.new.store.disk ≡ D.Disk.object self.old.store.disk }
    {
        self.store.stop_at(call, pick);
    }
}
