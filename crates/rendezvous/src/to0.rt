ghost use Rattle.std.specs.Prelude.{◌≡◌, IfOk, Ok};
ghost use Rattle.fdo_ports.specs.Draw.{drawn};
ghost use Rattle.fdo_msgs.specs.Kind as kinds;
ghost use Rattle.fdo_rules.specs.Checks.{said};
ghost use Rattle.fdo_rules.specs.Parts.{hello};
ghost use Rattle.fdo_rules.specs.Rendezvous.{RvView, hello_nonce, hello_row, hello_token};
ghost use Rattle.fdo_rules.specs.declared.rendezvous.Protocol.TheVariants.{To0};
ghost use Rattle.rendezvous.specs.Carrying.{Comes, Ends, Fits, Judges, rv_view};
ghost use Rattle.rendezvous.specs.RvState.{Clocked, outside};

use crate::server::Server;
use crate::to0_checks::key_checked;
use crate::verdict::Verdict;
use cbor_core::NoMemory;
use end_checks::{read_hello, read_owner_sign};
use fdo_msgs::{Cause, Nonce, Object, Packet, Token};
use fdo_ports::{Clock, Failed, Random};
use fdo_rules::{Protocol, Registering, Unfit};
use registry::MOST_REGISTRATIONS;
use std::alloc::Global;
use suite_port::Suite;

/// The most seconds that are granted: 30 days.
const MOST_SECONDS: u32 = 2_592_000;

impl Server {
    /// What TO0.Hello comes to.
    pub(crate) fn hello<N: Random>(
        &self,
        alloc: Global,
        random: &mut N,
        packet: &Packet,
    ) -> Result<Verdict, NoMemory>
        ensures judged { (clock : Clocked) → Judges (hello_row (rv_view self.now) packet.now (said hello kinds.hello packet.now.body)) (rv_view self.now) packet.now (outside (drawn N.Random random.old) clock) result (outside (drawn N.Random random.new) clock) }
        ensures fits { IfOk result (Fits To0 (rv_view self.now)) }
    {
        match read_hello(alloc, packet.body.as_list()) {
            Ok(()) => {
                let nonce = random.draw16();
                Ok(with_nonce(random, nonce))
            }
            Err(Unfit::For(cause)) => Ok(Verdict::Refuses(Protocol::To0, cause)),
            Err(Unfit::NoMemory) => Err(NoMemory),
        }
    }
}

/// What TO0.Hello comes to with the nonce's draw.
fn with_nonce<N: Random>(random: &mut N, nonce: Result<Nonce, Failed>) -> Verdict
    ensures judged { (s : RvView) (packet : Packet) (clock : Clocked) → Comes (hello_nonce s packet nonce) s packet (outside (drawn N.Random random.old) clock) result (outside (drawn N.Random random.new) clock) }
    ensures fits { (s : RvView) → Fits To0 s result }
{
    let Ok(nonce) = nonce else {
        return Verdict::Refuses(Protocol::To0, Cause::Outside(Object::Random));
    };
    let token = random.draw16();
    with_token(nonce, token)
}

/// What TO0.Hello comes to with both draws.
fn with_token(nonce: Nonce, token: Result<[u8; 16], Failed>) -> Verdict
    ensures judged { (s : RvView) (packet : Packet) → Ends (hello_token s packet nonce token) s packet result }
    ensures fits { (s : RvView) → Fits To0 s result }
{
    match token {
        Ok(token) => Verdict::BeginsTo0 { nonce, token },
        Err(_) => Verdict::Refuses(Protocol::To0, Cause::Outside(Object::Random)),
    }
}

ghost use Rattle.fdo_ports.specs.Draw.{Drawn};
ghost use Rattle.fdo_rules.specs.Rendezvous.{sign_checks, sign_clock, sign_row};
ghost use Rattle.fdo_rules.specs.Unfit.{Checks};
ghost use Rattle.end_checks.specs.Checking.{checking};
ghost use Rattle.rendezvous.specs.RvState.{clocked};

impl Server {
    /// What TO0.OwnerSign comes to.
    pub(crate) fn owner_sign<S: Suite, C: Clock>(
        &self,
        alloc: Global,
        suite: &mut S,
        clock: &mut C,
        packet: &Packet,
    ) -> Result<Verdict, NoMemory>
        ensures judged { (random : Drawn) → Judges (sign_row (rv_view self.now) packet.now (sign_checks (checking S.Verifier.verifies S.Signer.algorithm S.CertReader.key_in) (rv_view self.now) packet.now)) (rv_view self.now) packet.now (outside random (clocked C.Clock clock.old)) result (outside random (clocked C.Clock clock.new)) }
        ensures fits { IfOk result (Fits To0 (rv_view self.now)) }
        ensures held { S.Holder.held suite.new ≡ S.Holder.held suite.old }
        ensures faults { S.Holder.faults suite.new ≡ S.Holder.faults suite.old }
    {
        match self.registering(alloc, suite, packet) {
            Ok(registering) => {
                let now = clock.now();
                Ok(self.with_second(registering, now))
            }
            Err(Unfit::For(cause)) => Ok(Verdict::Refuses(Protocol::To0, cause)),
            Err(Unfit::NoMemory) => Err(NoMemory),
        }
    }

    /// What is to be registered.
    fn registering<S: Suite>(
        &self,
        alloc: Global,
        suite: &mut S,
        packet: &Packet,
    ) -> Result<Registering, Unfit>
        ensures checked { Checks (sign_checks (checking S.Verifier.verifies S.Signer.algorithm S.CertReader.key_in) (rv_view self.now) packet.now) result }
        ensures held { S.Holder.held suite.new ≡ S.Holder.held suite.old }
        ensures faults { S.Holder.faults suite.new ≡ S.Holder.faults suite.old }
    {
        let Some(nonce) = self.nonce_of(&packet.token) else {
            return Err(Unfit::For(Cause::Token));
        };
        let sign = read_owner_sign(alloc, packet.body.as_list())?;
        match key_checked(alloc, suite, nonce, &sign) {
            Ok(leaf) => Ok(Registering { sign, leaf }),
            Err(unfit) => {
                drop(sign);
                Err(unfit)
            }
        }
    }

    ghost use Rattle.std.specs.Option.{option_copied};
    ghost use Rattle.fdo_rules.specs.Server.{named};

    /// The nonce of the session of TO0 that a token names.
    fn nonce_of(&self, token: &Option<Token>) -> Option<&Nonce>
        ensures { option_copied result ≡ named token.now self.now.to0 }
    {
        match token {
            Some(token) => self.to0.peek(token),
            None => None,
        }
    }

    /// What TO0.OwnerSign comes to at a second.
    fn with_second(&self, registering: Registering, now: Result<u64, Failed>) -> Verdict
        ensures judged { (packet : Packet) → Ends (sign_clock (rv_view self.now) packet registering now) (rv_view self.now) packet result }
        ensures fits { Fits To0 (rv_view self.now) result }
    {
        let Ok(now) = now else {
            return Verdict::Refuses(Protocol::To0, Cause::Outside(Object::Clock));
        };
        if self
            .registry
            .is_full(now, &registering.sign.voucher.header.guid)
        {
            return Verdict::Refuses(Protocol::To0, Cause::Full(MOST_REGISTRATIONS as u32));
        }
        let seconds = registering.sign.wait.min(MOST_SECONDS);
        Verdict::Registers {
            registering,
            now,
            seconds,
        }
    }
}
