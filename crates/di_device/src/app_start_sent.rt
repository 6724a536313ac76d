ghost use Rattle.std.specs.Prelude.{◌≡◌, IfErr};
ghost use Rattle.fdo_ports.specs.Draw.{Drawn, drawn};
ghost use Rattle.credential_store.specs.Body.{IsKept};
ghost use Rattle.credential_store.specs.Store.{IsTooBig};
ghost use Rattle.fdo_rules.specs.DeviceDi.{by_header, credentials_row, fits_credential, if_fits, with_first, with_second, with_secret};
ghost use Rattle.fdo_rules.specs.Moves.{refused};
ghost use Rattle.fdo_rules.specs.Row.{Row};
ghost use Rattle.di_device.specs.Steps.{Answers, IsAnswered};

use crate::hearing::hear_header;
use crate::hmac_sent::HmacSent;
use crate::replying::{reply_to, token_of};
use crate::secret::secret_of;
use cbor_core::NoMemory;
use credential_store::{CredentialStore, ReserveFault};
use disk_port::{Disk, Pick, Stops};
use end_checks::{credential_of, header_hmac};
use fdo_msgs::{Cause, Msg, Next, Object, Packet};
use fdo_ports::{Failed, Random};
use hash_hmac::HMac;
use std::alloc::Global;
use voucher_chain::{Credential, Header};

/// The most bytes that the body of a credential has in its store.
const MOST_CREDENTIAL: u64 = 8_100;

/// A device that has said what it is, and takes DI.SetCredentials (11).
#[derive(Drop)]
pub struct AppStartSent<D: Disk> {
    pub(crate) store: CredentialStore<D>,
}

impl<D: Disk> AppStartSent<D> {
    /// Takes the voucher's header, and answers its HMAC under a new secret (12). The credential to come is reserved. A
    /// refusal, and running out of memory, leave the store.
    #[tactic(auto, unfolding(fdo_rules::specs::DeviceDi::credentials_row), using(crate::proofs::Steps::gives_up))]
    pub fn on<N: Random>(
        self,
        alloc: Global,
        random: &mut N,
        packet: &Packet,
    ) -> Next<HmacSent<D>, CredentialStore<D>>
        ensures step { Answers (λ s. s.store) (credentials_row packet.now) self.store (drawn N.Random random.old) result (drawn N.Random random.new) }
    {
        match hear_header(alloc, packet) {
            Ok(heard) => self.heard(alloc, random, packet, heard),
            Err(_) => Next::NoMemory(self.stop()),
        }
    }

    /// With the header, or the first cause of a refusal.
    fn heard<N: Random>(
        self,
        alloc: Global,
        random: &mut N,
        packet: &Packet,
        heard: Result<Header, Cause>,
    ) -> Next<HmacSent<D>, CredentialStore<D>>
        requires answered { IfErr heard IsAnswered }
        ensures step { Answers (λ s. s.store) (by_header packet.now heard) self.store (drawn N.Random random.old) result (drawn N.Random random.new) }
    {
        match heard {
            Ok(header) => self.draw(alloc, random, packet, &header),
            Err(cause) => self.refuse(alloc, cause, packet),
        }
    }

    /// With the header.
    #[tactic(auto, using(crate::proofs::Steps::draws_then))]
    fn draw<N: Random>(
        self,
        alloc: Global,
        random: &mut N,
        packet: &Packet,
        header: &Header,
    ) -> Next<HmacSent<D>, CredentialStore<D>>
        ensures step { Answers (λ s. s.store) (Row.Draws (with_first packet.now header.now)) self.store (drawn N.Random random.old) result (drawn N.Random random.new) }
    {
        let one = random.draw16();
        self.draw_again(alloc, random, packet, header, one)
    }

    /// With the first draw of the secret.
    fn draw_again<N: Random>(
        self,
        alloc: Global,
        random: &mut N,
        packet: &Packet,
        header: &Header,
        one: Result<[u8; 16], Failed>,
    ) -> Next<HmacSent<D>, CredentialStore<D>>
        ensures step { Answers (λ s. s.store) (with_first packet.now header.now one) self.store (drawn N.Random random.old) result (drawn N.Random random.new) }
    {
        match one {
            Ok(one) => self.draw_second(alloc, random, packet, header, one),
            Err(_) => self.refuse(alloc, Cause::Outside(Object::Random), packet),
        }
    }

    /// The second draw.
    fn draw_second<N: Random>(
        self,
        alloc: Global,
        random: &mut N,
        packet: &Packet,
        header: &Header,
        one: [u8; 16],
    ) -> Next<HmacSent<D>, CredentialStore<D>>
        ensures step { Answers (λ s. s.store) (Row.Draws (with_second packet.now header.now one)) self.store (drawn N.Random random.old) result (drawn N.Random random.new) }
    {
        let two = random.draw16();
        self.with_draws(alloc, packet, header, one, two)
    }

    /// With both draws.
    fn with_draws(
        self,
        alloc: Global,
        packet: &Packet,
        header: &Header,
        one: [u8; 16],
        two: Result<[u8; 16], Failed>,
    ) -> Next<HmacSent<D>, CredentialStore<D>>
        ensures step { (before : Drawn) → Answers (λ s. s.store) (with_second packet.now header.now one two) self.store before result before }
    {
        match two {
            Ok(two) => self.with_secret(alloc, packet, header, secret_of(one, two)),
            Err(_) => self.refuse(alloc, Cause::Outside(Object::Random), packet),
        }
    }

    /// With the secret.
    #[tactic(auto, using(crate::proofs::Steps::gives_up))]
    fn with_secret(
        self,
        alloc: Global,
        packet: &Packet,
        header: &Header,
        secret: [u8; 32],
    ) -> Next<HmacSent<D>, CredentialStore<D>>
        ensures step { (before : Drawn) → Answers (λ s. s.store) (with_secret packet.now header.now secret) self.store before result before }
    {
        match credential_of(alloc, header, secret) {
            Ok(credential) => self.reserve(alloc, packet, header, credential),
            Err(_) => Next::NoMemory(self.stop()),
        }
    }

    /// With the credential to come. The answer is made before it is reserved.
    #[tactic(auto, using(crate::proofs::Steps::gives_up))]
    fn reserve(
        self,
        alloc: Global,
        packet: &Packet,
        header: &Header,
        credential: Credential,
    ) -> Next<HmacSent<D>, CredentialStore<D>>
        requires kept { IsKept credential }
        ensures step { (before : Drawn) → Answers (λ s. s.store) (if_fits packet.now header.now credential (fits_credential credential)) self.store before result before }
    {
        let hmac = header_hmac(header, &credential.secret);
        match hmac_packet(alloc, packet, hmac) {
            Ok(answer) => {
                let AppStartSent { mut store } = self;
                match store.reserve(alloc, credential) {
                    Ok(()) => Next::On(HmacSent { store }, answer),
                    Err((credential, fault)) => AppStartSent { store }.refuse_credential(
                        alloc,
                        packet,
                        header,
                        &credential,
                        fault,
                    ),
                }
            }
            Err(_) => Next::NoMemory(self.stop()),
        }
    }

    /// A credential is not reserved.
    #[tactic(auto, using(crate::proofs::Steps::gives_up, crate::proofs::Steps::too_big))]
    fn refuse_credential(
        self,
        alloc: Global,
        packet: &Packet,
        header: &Header,
        credential: &Credential,
        fault: ReserveFault,
    ) -> Next<HmacSent<D>, CredentialStore<D>>
        requires too_big { IsTooBig credential.now fault }
        ensures step { (before : Drawn) → Answers (λ s. s.store) (if_fits packet.now header.now credential.now (fits_credential credential.now)) self.store before result before }
    {
        match fault {
            ReserveFault::TooBig(_) => self.refuse(alloc, Cause::Size(MOST_CREDENTIAL), packet),
            ReserveFault::NoMemory => Next::NoMemory(self.stop()),
        }
    }

    /// A refusal, whose error message is made first.
    #[tactic(auto, using(crate::proofs::Steps::gives_up))]
    fn refuse(
        self,
        alloc: Global,
        cause: Cause,
        packet: &Packet,
    ) -> Next<HmacSent<D>, CredentialStore<D>>
        requires answered { IsAnswered cause }
        ensures step { (before : Drawn) → Answers (λ s. s.store) (Row.Ends (refused packet.now cause)) self.store before result before }
    {
        match reply_to(alloc, &cause, packet) {
            Ok(reply) => Next::Stopped {
                rest: self.stop(),
                cause,
                reply,
            },
            Err(_) => Next::NoMemory(self.stop()),
        }
    }

    /// Gives up; the store is handed back.
    pub fn stop(self) -> CredentialStore<D>
        ensures { result ≡ self.store }
    {
        let AppStartSent { store } = self;
        store
    }

    /// The store.
    pub fn store(&self) -> &CredentialStore<D>
        ensures { result.now ≡ self.now.store }
    {
        &self.store
    }
}

ghost use Rattle.std.specs.Prelude.{IfOk};
ghost use Rattle.fdo_msgs.specs.Kind as kinds;
ghost use Rattle.fdo_msgs.specs.Said.{body_of};
ghost use Rattle.fdo_msgs.specs.declared.msg.Msg.TheVariants as msg;

/// DI.SetHMAC, in the session of the message that it answers.
fn hmac_packet(alloc: Global, packet: &Packet, hmac: HMac) -> Result<Packet, NoMemory>
    ensures { IfOk result (λ answer. answer ≡ record { token = packet.now.token; kind = kinds.set_hmac; body = body_of (msg.SetHmac hmac) }) }
{
    let token = token_of(packet)?;
    let message = Msg::SetHmac(hmac);
    let answer = Packet::of(alloc, token, &message);
    drop(message);
    answer
}

impl<D: Stops> AppStartSent<D> {
    /// Stops the store's disk at this call from now on. Nothing else changes.
    pub fn stop_at(&mut self, call: u64, pick: Pick)
        ensures same { self.new.store ≡ record self.old.store { disk = self.new.store.disk } }
        ensures told { D.Disk.told self.new.store.disk ≡ D.Disk.told self.old.store.disk }
        ensures faults { D.Disk.faults self.new.store.disk ≡ D.Disk.faults self.old.store.disk }
        ensures object { D.Disk.object self.new.store.disk ≡ D.Disk.object self.old.store.disk }
    {
        self.store.stop_at(call, pick);
    }
}
