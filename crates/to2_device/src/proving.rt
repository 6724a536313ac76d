ghost use Rattle.std.specs.Prelude.{◌≡◌, ◌++◌, true, Some};
ghost use Rattle.fdo_ports.specs.Draw.{Drawn};
ghost use Rattle.fdo_rules.specs.Checks.{fits_peer as peer_takes};
ghost use Rattle.fdo_rules.specs.DeviceTo2.{by_owner, claims_of, owner_checks, proved_with, proves, with_setup, with_signature, with_xb1, with_xb2};
ghost use Rattle.fdo_rules.specs.Made.{signed_bytes, text_to_sign};
ghost use Rattle.fdo_rules.specs.Row.Row.{Draws, Signs};
ghost use Rattle.fdo_rules.specs.Suite.{suite_of};
ghost use Rattle.to2_device.specs.Lent.{lent, lending};
ghost use Rattle.fdo_msgs.specs.declared.cause.Cause.TheVariants.{Outside};
ghost use Rattle.fdo_msgs.specs.declared.cause.Object.TheVariants as object;
ghost use Rattle.fdo_rules.specs.declared.unfit.Unfit.TheVariants.{For};
ghost use Rattle.to2_device.specs.Steps.{Gives, Keeps, Refuses, Steps};
ghost use Rattle.to2_device.specs.Told.{Tells};
ghost use Rattle.to2_device.specs.Views.{idle_walked, on_the_walk, walk_of};

use crate::checks::{check_signature, want};
use crate::device_proved::DeviceProved;
use crate::idle::Idle;
use crate::making::secret_of;
use crate::replying::copy_token;
use crate::walk::Walk;
use crate::walked::Walked;
use cbor_core::{Blob, NoMemory};
use cose_envelopes::{CoseFault, Sign1, sign, write_sign1};
use disk_port::Disk;
use fdo_msgs::{Cause, Next, Nonce, Object, Packet, device_header, device_proof_payload, kind};
use fdo_ports::{Failed, Random};
use fdo_rules::Unfit;
use std::alloc::Global;
use suite_port::{Suite, SuiteFault};
use to2_channel::{Channel, fits_peer};
use voucher_map::keys::same_key;

/// The number under which the attestation key signs, the device's half of the key exchange, and what both halves give.
#[derive(Drop)]
pub(crate) struct Agreed {
    pub(crate) alg: i64,
    pub(crate) xb: Blob,
    pub(crate) channel: Channel,
}

impl<D: Disk> Walk<D> {
    /// After the last entry: the owner's key is the one that signed, and the device proves itself (64).
    pub(crate) fn prove<S: Suite, N: Random>(
        self,
        alloc: Global,
        suite: &mut S,
        random: &mut N,
        packet: &Packet,
    ) -> Next<Walked<D>, Idle<D>>
        requires held { S.Holder.held suite.old self.session.idle.me ≡ true }
        ensures step { Steps S.Signer.signs on_the_walk (by_owner (suite_of S.Verifier.verifies S.Signer.algorithm S.Kex.agrees S.Kex.first_of S.Kex.second_of S.Kex.finish_of S.Aead.bits S.Aead.seals S.Aead.opens S.CertReader.key_in S.CertReader.issues) (walk_of self) packet.now (owner_checks (suite_of S.Verifier.verifies S.Signer.algorithm S.Kex.agrees S.Kex.first_of S.Kex.second_of S.Kex.finish_of S.Aead.bits S.Aead.seals S.Aead.opens S.CertReader.key_in S.CertReader.issues) (walk_of self))) (lent N.Random random.old S.Holder suite.old) result (lent N.Random random.new S.Holder suite.new) }
        ensures idle { Keeps idle_walked self.session.idle result }
        ensures held { S.Holder.held suite.new ≡ S.Holder.held suite.old }
    {
        match self.check_owner(alloc, suite) {
            Ok(()) => self.draw(alloc, suite, random, packet),
            Err(why) => self.stop().refuse(alloc, why, packet),
        }
    }

    fn check_owner<S: Suite>(&self, alloc: Global, suite: &mut S) -> Result<(), Unfit>
        ensures told { Tells (owner_checks (suite_of S.Verifier.verifies S.Signer.algorithm S.Kex.agrees S.Kex.first_of S.Kex.second_of S.Kex.finish_of S.Aead.bits S.Aead.seals S.Aead.opens S.CertReader.key_in S.CertReader.issues) (walk_of self.now)) result }
        ensures held { S.Holder.held suite.new ≡ S.Holder.held suite.old }
        ensures faults { S.Holder.faults suite.new ≡ S.Holder.faults suite.old }
    {
        want(same_key(self.owner(), &self.shown.key), Cause::OwnerKey)?;
        self.check_to1d(alloc, suite)
    }

    ghost use Rattle.fdo_rules.specs.DeviceTo2.{to1d_check};
    ghost use Rattle.to2_device.specs.Views.{key_of};

    /// Where TO1 told of an owner, that is this one.
    fn check_to1d<S: Suite>(&self, alloc: Global, suite: &mut S) -> Result<(), Unfit>
        ensures told { Tells (to1d_check (suite_of S.Verifier.verifies S.Signer.algorithm S.Kex.agrees S.Kex.first_of S.Kex.second_of S.Kex.finish_of S.Aead.bits S.Aead.seals S.Aead.opens S.CertReader.key_in S.CertReader.issues) (key_of self.now.shown self.now.last) self.now.session.offer.to1d) result }
        ensures held { S.Holder.held suite.new ≡ S.Holder.held suite.old }
        ensures faults { S.Holder.faults suite.new ≡ S.Holder.faults suite.old }
    {
        match &self.session.offer.to1d {
            Some(to1d) => check_signature(alloc, suite, self.owner(), &to1d.sign),
            None => Ok(()),
        }
    }

    /// NonceTO2SetupDv is drawn, and then the two halves of what the key exchange takes.
    fn draw<S: Suite, N: Random>(
        self,
        alloc: Global,
        suite: &mut S,
        random: &mut N,
        packet: &Packet,
    ) -> Next<Walked<D>, Idle<D>>
        requires held { S.Holder.held suite.old self.session.idle.me ≡ true }
        ensures step { Steps S.Signer.signs on_the_walk (Draws (with_setup (suite_of S.Verifier.verifies S.Signer.algorithm S.Kex.agrees S.Kex.first_of S.Kex.second_of S.Kex.finish_of S.Aead.bits S.Aead.seals S.Aead.opens S.CertReader.key_in S.CertReader.issues) (walk_of self) packet.now)) (lent N.Random random.old S.Holder suite.old) result (lent N.Random random.new S.Holder suite.new) }
        ensures idle { Keeps idle_walked self.session.idle result }
        ensures held { S.Holder.held suite.new ≡ S.Holder.held suite.old }
    {
        let setup_dv = random.draw16();
        self.draw_first(alloc, suite, random, packet, setup_dv)
    }

    fn draw_first<S: Suite, N: Random>(
        self,
        alloc: Global,
        suite: &mut S,
        random: &mut N,
        packet: &Packet,
        setup_dv: Result<Nonce, Failed>,
    ) -> Next<Walked<D>, Idle<D>>
        requires held { S.Holder.held suite.old self.session.idle.me ≡ true }
        ensures step { Steps S.Signer.signs on_the_walk (with_setup (suite_of S.Verifier.verifies S.Signer.algorithm S.Kex.agrees S.Kex.first_of S.Kex.second_of S.Kex.finish_of S.Aead.bits S.Aead.seals S.Aead.opens S.CertReader.key_in S.CertReader.issues) (walk_of self) packet.now setup_dv) (lent N.Random random.old S.Holder suite.old) result (lent N.Random random.new S.Holder suite.new) }
        ensures idle { Keeps idle_walked self.session.idle result }
        ensures held { S.Holder.held suite.new ≡ S.Holder.held suite.old }
    {
        match setup_dv {
            Ok(setup_dv) => {
                let first = random.draw16();
                self.draw_second(alloc, suite, random, packet, setup_dv, first)
            }
            Err(_) => self.refuse_draw(alloc, packet),
        }
    }

    fn draw_second<S: Suite, N: Random>(
        self,
        alloc: Global,
        suite: &mut S,
        random: &mut N,
        packet: &Packet,
        setup_dv: Nonce,
        first: Result<[u8; 16], Failed>,
    ) -> Next<Walked<D>, Idle<D>>
        requires held { S.Holder.held suite.old self.session.idle.me ≡ true }
        ensures step { Steps S.Signer.signs on_the_walk (with_xb1 (suite_of S.Verifier.verifies S.Signer.algorithm S.Kex.agrees S.Kex.first_of S.Kex.second_of S.Kex.finish_of S.Aead.bits S.Aead.seals S.Aead.opens S.CertReader.key_in S.CertReader.issues) (walk_of self) packet.now setup_dv first) (lent N.Random random.old S.Holder suite.old) result (lent N.Random random.new S.Holder suite.new) }
        ensures idle { Keeps idle_walked self.session.idle result }
        ensures held { S.Holder.held suite.new ≡ S.Holder.held suite.old }
    {
        match first {
            Ok(first) => {
                let second = random.draw16();
                self.with_draws(alloc, suite, packet, setup_dv, first, second)
            }
            Err(_) => self.refuse_draw(alloc, packet),
        }
    }

    /// A draw failed.
    fn refuse_draw(self, alloc: Global, packet: &Packet) -> Next<Walked<D>, Idle<D>>
        ensures { Refuses (For (Outside object.Random)) packet.now self.session.idle result }
    {
        self.stop()
            .refuse(alloc, Unfit::For(Cause::Outside(Object::Random)), packet)
    }

    fn with_draws<S: Suite>(
        self,
        alloc: Global,
        suite: &mut S,
        packet: &Packet,
        setup_dv: Nonce,
        first: [u8; 16],
        second: Result<[u8; 16], Failed>,
    ) -> Next<Walked<D>, Idle<D>>
        requires held { S.Holder.held suite.old self.session.idle.me ≡ true }
        ensures step { (random : Drawn) → Steps S.Signer.signs on_the_walk (with_xb2 (suite_of S.Verifier.verifies S.Signer.algorithm S.Kex.agrees S.Kex.first_of S.Kex.second_of S.Kex.finish_of S.Aead.bits S.Aead.seals S.Aead.opens S.CertReader.key_in S.CertReader.issues) (walk_of self) packet.now setup_dv first second) (lending random S.Holder suite.old) result (lending random S.Holder suite.new) }
        ensures idle { Keeps idle_walked self.session.idle result }
        ensures held { S.Holder.held suite.new ≡ S.Holder.held suite.old }
    {
        match second {
            Ok(second) => {
                let draw = secret_of(first, second);
                match self.agree(alloc, suite, &draw) {
                    Ok(agreed) => self.sign(alloc, suite, packet, setup_dv, agreed),
                    Err(why) => self.stop().refuse(alloc, why, packet),
                }
            }
            Err(_) => self.refuse_draw(alloc, packet),
        }
    }

    ghost use Rattle.std.specs.Prelude.{IfOk, OnErr};
    ghost use Rattle.fdo_msgs.specs.Claims.{device_claims};
    ghost use Rattle.fdo_rules.specs.DeviceTo2.{agreement};
    ghost use Rattle.fdo_rules.specs.Made.{envelope};
    ghost use Rattle.to2_device.specs.Told.{Holds};
    ghost use Rattle.to2_device.specs.Views.{agreed_of, SignsOnce};

    /// The attestation key, the cipher and the key exchange have to be the suite's, in this order.
    fn agree<S: Suite>(
        &self,
        alloc: Global,
        suite: &mut S,
        draw: &[u8; 32],
    ) -> Result<Agreed, Unfit>
        ensures told { Holds agreed_of (agreement (suite_of S.Verifier.verifies S.Signer.algorithm S.Kex.agrees S.Kex.first_of S.Kex.second_of S.Kex.finish_of S.Aead.bits S.Aead.seals S.Aead.opens S.CertReader.key_in S.CertReader.issues) (walk_of self.now) draw.now) result }
        ensures alg { IfOk result (λ agreed. S.Signer.algorithm self.now.session.idle.me ≡ Some agreed.alg) }
        ensures unused { IfOk result (λ agreed. agreed.channel.used ≡ 0) }
        ensures held { S.Holder.held suite.new ≡ S.Holder.held suite.old }
        ensures faults { S.Holder.faults suite.new ≡ S.Holder.faults suite.old }
    {
        let Some(alg) = suite.alg_of(self.session.idle.me.as_list()) else {
            return Err(Unfit::For(Cause::NoAlgorithm(0)));
        };
        let cipher = self.session.offer.cipher;
        let Some(bits) = suite.key_bits(cipher) else {
            return Err(Unfit::For(Cause::NoAlgorithm(cipher)));
        };
        let kex = self.session.offer.kex.as_list().as_bytes();
        match suite.second(alloc, kex, draw, self.shown.payload.xa.as_list()) {
            Ok((xb, shared)) => Ok(Agreed {
                alg,
                xb: Blob::new(xb),
                channel: Channel::fresh(alloc, cipher, bits, shared.as_slice()),
            }),
            Err(SuiteFault::NoAlgorithm) => Err(Unfit::For(Cause::NoAlgorithm(0))),
            Err(_) => Err(Unfit::NoMemory),
        }
    }

    /// Signs what the device claims of itself.
    fn sign<S: Suite>(
        self,
        alloc: Global,
        suite: &mut S,
        packet: &Packet,
        setup_dv: Nonce,
        agreed: Agreed,
    ) -> Next<Walked<D>, Idle<D>>
        requires held { S.Holder.held suite.old self.session.idle.me ≡ true }
        requires alg { S.Signer.algorithm self.session.idle.me ≡ Some agreed.alg }
        requires unused { agreed.channel.used ≡ 0 }
        ensures step { (random : Drawn) → Steps S.Signer.signs on_the_walk (Signs self.session.idle.me (text_to_sign agreed.alg (claims_of (walk_of self) agreed.xb)) (with_signature (walk_of self) packet.now (proved_with (walk_of self) setup_dv (agreed_of agreed)) agreed.alg)) (lending random S.Holder suite.old) result (lending random S.Holder suite.new) }
        ensures idle { Keeps idle_walked self.session.idle result }
        ensures held { S.Holder.held suite.new ≡ S.Holder.held suite.old }
    {
        match self.make_proof(alloc, suite, setup_dv, &agreed) {
            Ok(Ok(proof)) => self.send(alloc, packet, setup_dv, agreed, &proof),
            Ok(Err(_)) => self
                .stop()
                .refuse(alloc, Unfit::For(Cause::Outside(Object::Signer)), packet),
            Err(_) => Next::NoMemory(self.stop()),
        }
    }

    /// The proof, or that the signer failed.
    fn make_proof<S: Suite>(
        &self,
        alloc: Global,
        suite: &mut S,
        setup_dv: Nonce,
        agreed: &Agreed,
    ) -> Result<Result<Sign1, Failed>, NoMemory>
        requires held { S.Holder.held suite.old self.now.session.idle.me ≡ true }
        requires alg { S.Signer.algorithm self.now.session.idle.me ≡ Some agreed.now.alg }
        ensures proof { IfOk result (λ made. IfOk made (λ proof. proof ≡ envelope agreed.now.alg (device_claims setup_dv) (claims_of (walk_of self.now) agreed.now.xb) proof.sig)) }
        ensures signed { IfOk result (SignsOnce S.Signer.signs (S.Holder.faults suite.old) (S.Holder.faults suite.new) self.now.session.idle.me (text_to_sign agreed.now.alg (claims_of (walk_of self.now) agreed.now.xb))) }
        ensures faults { OnErr result (S.Holder.faults suite.new ≡ S.Holder.faults suite.old) }
        ensures held { S.Holder.held suite.new ≡ S.Holder.held suite.old }
    {
        let header = device_header(alloc, &setup_dv)?;
        let payload = device_proof_payload(
            alloc,
            &self.shown.prove_dv,
            &self.session.idle.credential().guid,
            agreed.xb.as_list(),
        )?;
        match sign(
            alloc,
            suite,
            self.session.idle.me.as_list(),
            header,
            payload,
        ) {
            Ok(proof) => Ok(Ok(proof)),
            Err(CoseFault::Failed) => Ok(Err(Failed)),
            Err(_) => Err(NoMemory),
        }
    }

    fn send(
        self,
        alloc: Global,
        packet: &Packet,
        setup_dv: Nonce,
        agreed: Agreed,
        proof: &Sign1,
    ) -> Next<Walked<D>, Idle<D>>
        requires unused { agreed.channel.used ≡ 0 }
        ensures moved { Gives on_the_walk (proves (walk_of self) packet.now (proved_with (walk_of self) setup_dv (agreed_of agreed)) (signed_bytes proof.now) (peer_takes self.shown.payload.max_size (signed_bytes proof.now))) result }
        ensures idle { Keeps idle_walked self.session.idle result }
    {
        let body = match write_sign1(alloc, proof) {
            Ok(body) => body,
            Err(_) => return Next::NoMemory(self.stop()),
        };
        match fits_peer(self.shown.payload.max_size, body.as_list()) {
            Ok(()) => self.proved(setup_dv, agreed, body),
            Err(why) => self.stop().refuse(alloc, why, packet),
        }
    }

    ghost use Rattle.fdo_msgs.specs.Kind.{prove_device};
    ghost use Rattle.fdo_rules.specs.DeviceTo2.{sent};
    ghost use Rattle.fdo_rules.specs.DeviceTo2.Walked.{Proves};
    ghost use Rattle.fdo_rules.specs.Moves.Moves.{On};
    ghost use Rattle.to2_device.specs.Views.{self_of};

    fn proved(self, setup_dv: Nonce, agreed: Agreed, body: Blob) -> Next<Walked<D>, Idle<D>>
        requires { agreed.channel.used ≡ 0 }
        ensures moved { Gives on_the_walk (On (Proves (proved_with (walk_of self) setup_dv (agreed_of agreed))) (sent (self_of self.session) prove_device body)) result }
        ensures idle { Keeps idle_walked self.session.idle result }
    {
        let token = match copy_token(&self.session.token) {
            Ok(token) => token,
            Err(_) => return Next::NoMemory(self.stop()),
        };
        let Walk {
            session,
            shown,
            index: _,
            last: _,
        } = self;
        let Agreed {
            alg: _,
            xb,
            channel,
        } = agreed;
        let proved = DeviceProved {
            session,
            shown,
            setup_dv,
            xb,
            channel,
        };
        let answer = Packet {
            token,
            kind: kind::PROVE_DEVICE,
            body,
        };
        Next::On(Walked::Proved(proved), answer)
    }
}
