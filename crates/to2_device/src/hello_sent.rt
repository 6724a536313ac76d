ghost use Rattle.std.specs.Prelude.{◌≡◌, true, IfOk, MatchResult};
ghost use Rattle.fdo_rules.specs.DeviceTo2.{claims_checks, header_checks, is_own as is_own_header, is_own_mac, prove_ov_hdr_row, shown_checks, walk_from, with_token};
ghost use Rattle.fdo_rules.specs.Suite.{suite_of};
ghost use Rattle.to2_device.specs.Lent.{lent};
ghost use Rattle.to2_device.specs.Steps.{Keeps, Steps};
ghost use Rattle.to2_device.specs.Told.{Tells};
ghost use Rattle.to2_device.specs.Views.{greeting, idle_walked, on_the_walk, self_of, walk_of};

use crate::checks::{check_signature, is_hash_of, is_mac_of, same_bytes, want};
use crate::hearing::hear_header;
use crate::idle::Idle;
use crate::session::Session;
use crate::walk::Walk;
use crate::walked::Walked;
use cbor_core::Blob;
use credential_store::CredentialStore;
use disk_port::{Disk, Pick, Stops};
use fdo_msgs::{Cause, Next, Nonce, Packet};
use fdo_ports::Random;
use fdo_rules::{ProveOvHdr, Unfit};
use std::alloc::Global;
use suite_port::Suite;
use voucher_chain::{ChainFault, Credential};

/// A device that has said hello, and takes TO2.ProveOVHdr (61).
#[derive(Drop)]
pub struct HelloSent<D: Disk> {
    pub(crate) session: Session<D>,
    /// NonceTO2ProveOV.
    pub(crate) nonce: Nonce,
    /// The body of TO2.HelloDevice.
    pub(crate) hello: Blob,
}

impl<D: Disk> HelloSent<D> {
    /// Takes the voucher's header, asks for its first entry (62), or where it has none proves itself (64). The suite's signer
    /// holds the attestation key.
    pub fn on<S: Suite, N: Random>(
        self,
        alloc: Global,
        suite: &mut S,
        random: &mut N,
        packet: &Packet,
    ) -> Next<Walked<D>, Idle<D>>
        requires held { S.Holder.held suite.old self.session.idle.me ≡ true }
        ensures step { Steps S.Signer.signs on_the_walk (prove_ov_hdr_row (suite_of S.Verifier.verifies S.Signer.algorithm S.Kex.agrees S.Kex.first_of S.Kex.second_of S.Kex.finish_of S.Aead.bits S.Aead.seals S.Aead.opens S.CertReader.key_in S.CertReader.issues) (greeting self) packet.now) (lent N.Random random.old S.Holder suite.old) result (lent N.Random random.new S.Holder suite.new) }
        ensures idle { Keeps idle_walked self.session.idle result }
        ensures held { S.Holder.held suite.new ≡ S.Holder.held suite.old }
    {
        match self.check(alloc, suite, packet) {
            Ok(shown) => match self.walk(shown, packet) {
                Ok(walk) => walk.go_on(alloc, suite, random, packet),
                Err(idle) => Next::NoMemory(idle),
            },
            Err(why) => self.stop().refuse(alloc, why, packet),
        }
    }

    /// The first cause of a refusal.
    #[tactic(auto, unfolding(fdo_rules::specs::DeviceTo2::header_checks))]
    fn check<S: Suite>(
        &self,
        alloc: Global,
        suite: &mut S,
        packet: &Packet,
    ) -> Result<ProveOvHdr, Unfit>
        ensures told { Tells (header_checks (suite_of S.Verifier.verifies S.Signer.algorithm S.Kex.agrees S.Kex.first_of S.Kex.second_of S.Kex.finish_of S.Aead.bits S.Aead.seals S.Aead.opens S.CertReader.key_in S.CertReader.issues) (greeting self.now) packet.now) result }
        ensures held { S.Holder.held suite.new ≡ S.Holder.held suite.old }
        ensures faults { S.Holder.faults suite.new ≡ S.Holder.faults suite.old }
    {
        match hear_header(alloc, packet) {
            Ok(shown) => self.check_heard(alloc, suite, shown),
            Err(why) => Err(why),
        }
    }

    ghost use Rattle.std.specs.Prelude.{Ok};
    ghost use Rattle.fdo_rules.specs.Checks.{◌>>=◌ as ◌then◌};

    /// What the owner shows, where that is right.
    fn check_heard<S: Suite>(
        &self,
        alloc: Global,
        suite: &mut S,
        shown: ProveOvHdr,
    ) -> Result<ProveOvHdr, Unfit>
        ensures told { Tells (shown_checks (suite_of S.Verifier.verifies S.Signer.algorithm S.Kex.agrees S.Kex.first_of S.Kex.second_of S.Kex.finish_of S.Aead.bits S.Aead.seals S.Aead.opens S.CertReader.key_in S.CertReader.issues) (greeting self.now) shown then λ _. Ok shown) result }
        ensures held { S.Holder.held suite.new ≡ S.Holder.held suite.old }
        ensures faults { S.Holder.faults suite.new ≡ S.Holder.faults suite.old }
    {
        match self.check_shown(alloc, suite, &shown) {
            Ok(()) => Ok(shown),
            Err(why) => Err(why),
        }
    }

    /// Of what the owner shows.
    fn check_shown<S: Suite>(
        &self,
        alloc: Global,
        suite: &mut S,
        shown: &ProveOvHdr,
    ) -> Result<(), Unfit>
        ensures told { Tells (shown_checks (suite_of S.Verifier.verifies S.Signer.algorithm S.Kex.agrees S.Kex.first_of S.Kex.second_of S.Kex.finish_of S.Aead.bits S.Aead.seals S.Aead.opens S.CertReader.key_in S.CertReader.issues) (greeting self.now) shown.now) result }
        ensures held { S.Holder.held suite.new ≡ S.Holder.held suite.old }
        ensures faults { S.Holder.faults suite.new ≡ S.Holder.faults suite.old }
    {
        check_signature(alloc, suite, &shown.key, &shown.sign)?;
        self.check_claims(shown)
    }

    /// The nonce, the hash of TO2.HelloDevice, and that the voucher is the device's.
    fn check_claims(&self, shown: &ProveOvHdr) -> Result<(), Unfit>
        ensures { Tells (claims_checks (greeting self.now) shown.now) result }
    {
        want(same_bytes(&shown.payload.nonce, &self.nonce), Cause::Nonce)?;
        want(
            is_hash_of(&shown.payload.hello_hash, self.hello.as_list()),
            Cause::HashDiffers,
        )?;
        want(
            is_own(self.session.idle.credential(), shown),
            Cause::Chain(ChainFault::NoMatch),
        )
    }

    /// The walk begins at the header. Where memory runs out the device is handed back.
    fn walk(self, shown: ProveOvHdr, packet: &Packet) -> Result<Walk<D>, Idle<D>>
        ensures walk { IfOk result (λ walk. walk_of walk ≡ walk_from (with_token (self_of self.session) packet.now) shown) }
        ensures idle { MatchResult result (λ walk. walk.session.idle ≡ self.session.idle) (λ idle. idle ≡ self.session.idle) }
    {
        let HelloSent {
            session,
            nonce: _,
            hello: _,
        } = self;
        let session = session.hear_token(packet)?;
        Ok(Walk {
            session,
            shown,
            index: 0,
            last: None,
        })
    }

    /// Gives the session up.
    pub fn stop(self) -> Idle<D>
        ensures { result ≡ self.session.idle }
    {
        let HelloSent {
            session,
            nonce: _,
            hello: _,
        } = self;
        session.stop()
    }

    /// The store.
    pub fn store(&self) -> &CredentialStore<D>
        ensures { result.now ≡ self.now.session.idle.store }
    {
        self.session.idle.store()
    }
}

/// Whether the hash of the header's key and the header's HMAC are the credential's.
fn is_own(credential: &Credential, shown: &ProveOvHdr) -> bool
    ensures { result ≡ is_own_header credential.now shown.now }
{
    is_hash_of(&credential.key_hash, shown.payload.header.key_raw.as_list())
        && has_own_mac(credential, shown)
}

fn has_own_mac(credential: &Credential, shown: &ProveOvHdr) -> bool
    ensures { result ≡ is_own_mac credential.now shown.now }
{
    shown.payload.hmac.kind == credential.alg as i64
        && is_mac_of(
            &shown.payload.hmac,
            &credential.secret,
            shown.payload.header.raw.as_list(),
        )
}

impl<D: Stops> HelloSent<D> {
    ghost use Rattle.to2_device.specs.Stopping.{StopsAt};

    /// Stops the store's disk at this call from now on. Nothing else changes.
    pub fn stop_at(&mut self, call: u64, pick: Pick)
        ensures store { StopsAt D.Disk self.old.session.idle.store self.new.session.idle.store }
        ensures me { self.new.session.idle.me ≡ self.old.session.idle.me }
    {
        self.session.idle.stop_at(call, pick);
    }
}
