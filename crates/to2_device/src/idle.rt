ghost use Rattle.std.specs.Prelude.{◌≡◌, IsSome};

use crate::hello_sent::HelloSent;
use crate::making::hello_packet;
use crate::replying::reply_to;
use crate::session::Session;
use cbor_core::{Blob, NoMemory};
use credential_store::CredentialStore;
use disk_port::{Disk, Pick, Stops};
use fdo_msgs::{Cause, Next, Nonce, Object, Packet};
use fdo_ports::{Failed, Random};
use fdo_rules::{Offer, Unfit};
use std::alloc::Global;
use voucher_chain::Credential;

/// A device with a credential, and without a session.
#[derive(Drop)]
pub struct Idle<D: Disk> {
    pub(crate) store: CredentialStore<D>,
    /// The bytes of its attestation key.
    pub(crate) me: Blob,
    ghost held: { IsSome store.credential },
}

impl<D: Disk> Idle<D> {
    ghost use Rattle.std.specs.Prelude.{◌≤◌, None, IfSome, MatchResult};
    ghost use Rattle.fdo_rules.specs.DeviceTo2.{hello_row, with_nonce};
    ghost use Rattle.to2_device.specs.Credential.{credential_in};
    ghost use Rattle.to2_device.specs.Lent.{source_alone, unsigned};
    ghost use Rattle.to2_device.specs.Steps.{Gives, Keeps, Refuses, Steps};
    ghost use Rattle.to2_device.specs.Views.{greeting};

    /// The device over a store, with the bytes of its attestation key. A store without a credential is handed back.
    pub fn new(store: CredentialStore<D>, me: Blob) -> Result<Idle<D>, CredentialStore<D>>
        ensures { MatchResult result (λ idle. (idle.store ≡ store) × (idle.me ≡ me)) (λ back. (back ≡ store) × (store.credential ≡ None)) }
    {
        if store.current().is_some() {
            Ok(Idle { store, me })
        } else {
            Err(store)
        }
    }

    /// Begins a session with TO2.HelloDevice (60). It draws NonceTO2ProveOV, and is stopped only where the draw fails.
    pub fn hello<N: Random>(
        self,
        alloc: Global,
        random: &mut N,
        offer: Offer,
    ) -> Next<HelloSent<D>, Idle<D>>
        requires size { IfSome offer.info_size (λ size. size ≤ 65535) }
        ensures step { Steps unsigned greeting (hello_row (credential_in self.store.credential) self.me offer) (source_alone N.Random random.old) result (source_alone N.Random random.new) }
        ensures idle { Keeps (λ s. s.session.idle) self result }
    {
        let nonce = random.draw16();
        self.greet(alloc, offer, nonce)
    }

    /// With the draw.
    fn greet(
        self,
        alloc: Global,
        offer: Offer,
        nonce: Result<[u8; 16], Failed>,
    ) -> Next<HelloSent<D>, Idle<D>>
        ensures moved { Gives greeting (with_nonce (credential_in self.store.credential) self.me offer nonce) result }
        ensures idle { Keeps (λ s. s.session.idle) self result }
    {
        match nonce {
            Ok(nonce) => self.greet_with(alloc, offer, nonce),
            Err(_) => Next::Stopped {
                rest: self,
                cause: Cause::Outside(Object::Random),
                reply: None,
            },
        }
    }

    fn greet_with(self, alloc: Global, offer: Offer, nonce: Nonce) -> Next<HelloSent<D>, Idle<D>>
        ensures moved { Gives greeting (with_nonce (credential_in self.store.credential) self.me offer (Ok nonce)) result }
        ensures idle { Keeps (λ s. s.session.idle) self result }
    {
        match self.make_hello(alloc, &offer, nonce) {
            Ok((packet, hello)) => Next::On(
                HelloSent {
                    session: Session {
                        idle: self,
                        offer,
                        token: None,
                    },
                    nonce,
                    hello,
                },
                packet,
            ),
            Err(_) => Next::NoMemory(self),
        }
    }

    ghost use Rattle.std.specs.Prelude.{IfOk};
    ghost use Rattle.fdo_msgs.specs.Kind.{hello_device};
    ghost use Rattle.fdo_rules.specs.DeviceTo2.{hello_body};

    /// TO2.HelloDevice, and its body once more.
    fn make_hello(
        &self,
        alloc: Global,
        offer: &Offer,
        nonce: Nonce,
    ) -> Result<(Packet, Blob), NoMemory>
        ensures packet { IfOk result (λ made. made.0 ≡ record { token = None; kind = hello_device; body = hello_body offer.now (credential_in self.now.store.credential).guid nonce }) }
        ensures body { IfOk result (λ made. made.1 ≡ hello_body offer.now (credential_in self.now.store.credential).guid nonce) }
    {
        let packet = hello_packet(alloc, offer, self.credential().guid, nonce)?;
        let hello = packet.body.copy()?;
        Ok((packet, hello))
    }

    /// The credential.
    pub(crate) fn credential(&self) -> &Credential
        ensures { result.now ≡ credential_in self.now.store.credential }
    {
        match self.store.current() {
            Some(credential) => credential,
            None => unreachable!(),
        }
    }

    /// Refuses a message, or gives up where memory ran out. The error message is made first.
    pub(crate) fn refuse<T>(self, alloc: Global, why: Unfit, packet: &Packet) -> Next<T, Idle<D>>
        ensures { Refuses why packet.now self result }
    {
        let cause = match why {
            Unfit::For(cause) => cause,
            Unfit::NoMemory => return Next::NoMemory(self),
        };
        match reply_to(alloc, &cause, packet) {
            Ok(reply) => Next::Stopped {
                rest: self,
                cause,
                reply,
            },
            Err(_) => Next::NoMemory(self),
        }
    }

    /// Hands the store back.
    pub fn release(self) -> CredentialStore<D>
        ensures store { result ≡ self.store }
        ensures held { IsSome result.credential }
    {
        let Idle { store, me: _ } = self;
        store
    }

    /// Itself: it has no session to give up.
    pub fn stop(self) -> Idle<D>
        ensures { result ≡ self }
    {
        self
    }

    /// The store.
    pub fn store(&self) -> &CredentialStore<D>
        ensures { result.now ≡ self.now.store }
    {
        &self.store
    }
}

impl<D: Stops> Idle<D> {
    ghost use Rattle.to2_device.specs.Stopping.{StopsAt};

    /// Stops the store's disk at this call from now on. Nothing else changes.
    pub fn stop_at(&mut self, call: u64, pick: Pick)
        ensures store { StopsAt D.Disk self.old.store self.new.store }
        ensures me { self.new.me ≡ self.old.me }
    {
        self.store.stop_at(call, pick);
    }
}
