ghost use Rattle.std.specs.Prelude.{◌≡◌, IfOk};
ghost use Rattle.fdo_ports.specs.Draw.{Drawn, drawn};
ghost use Rattle.fdo_msgs.specs.Kind as kinds;
ghost use Rattle.fdo_rules.specs.Checks.{said};
ghost use Rattle.fdo_rules.specs.Parts.{hello_rv};
ghost use Rattle.fdo_rules.specs.Rendezvous.{RvView, hello_rv_row, rv_clock, rv_nonce, rv_token};
ghost use Rattle.fdo_rules.specs.declared.rendezvous.Protocol.TheVariants.{To1};
ghost use Rattle.end_checks.specs.Checking.{checking};
ghost use Rattle.rendezvous.specs.Carrying.{Comes, Ends, Fits, Judges, rv_view};
ghost use Rattle.rendezvous.specs.RvState.{Clocked, RvOutside, clocked, outside};

use crate::server::Server;
use crate::verdict::Verdict;
use cbor_core::{Blob, NoMemory};
use end_checks::{read_hello_rv, read_proof, verified_by};
use fdo_msgs::{Cause, Nonce, Object, Packet, Token};
use fdo_ports::{Clock, Failed, Random};
use fdo_rules::{Asked, HelloRv, Owned, Proof, Protocol, Unfit};
use std::alloc::Global;
use suite_port::Suite;
use voucher_chain::Guid;

impl Server {
    /// What TO1.HelloRV comes to.
    pub(crate) fn hello_rv<S: Suite, N: Random, C: Clock>(
        &self,
        alloc: Global,
        suite: &mut S,
        random: &mut N,
        clock: &mut C,
        packet: &Packet,
    ) -> Result<Verdict, NoMemory>
        ensures judged { Judges (hello_rv_row (checking S.Verifier.verifies S.Signer.algorithm S.CertReader.key_in) (rv_view self.now) packet.now (said hello_rv kinds.hello_rv packet.now.body)) (rv_view self.now) packet.now (outside (drawn N.Random random.old) (clocked C.Clock clock.old)) result (outside (drawn N.Random random.new) (clocked C.Clock clock.new)) }
        ensures fits { IfOk result (Fits To1 (rv_view self.now)) }
        ensures held { S.Holder.held suite.new ≡ S.Holder.held suite.old }
        ensures faults { S.Holder.faults suite.new ≡ S.Holder.faults suite.old }
    {
        match read_hello_rv(alloc, packet.body.as_list()) {
            Ok(asked) => {
                let now = clock.now();
                self.find_owner(suite, random, now, asked)
            }
            Err(Unfit::For(cause)) => Ok(Verdict::Refuses(Protocol::To1, cause)),
            Err(Unfit::NoMemory) => Err(NoMemory),
        }
    }

    /// What TO1.HelloRV comes to at a second.
    fn find_owner<S: Suite, N: Random>(
        &self,
        suite: &S,
        random: &mut N,
        now: Result<u64, Failed>,
        asked: HelloRv,
    ) -> Result<Verdict, NoMemory>
        ensures judged { (packet : Packet) (clock : Clocked) → Judges (rv_clock (checking S.Verifier.verifies S.Signer.algorithm S.CertReader.key_in) (rv_view self.now) packet asked now) (rv_view self.now) packet (outside (drawn N.Random random.old) clock) result (outside (drawn N.Random random.new) clock) }
        ensures fits { IfOk result (Fits To1 (rv_view self.now)) }
    {
        let Ok(now) = now else {
            return Ok(Verdict::Refuses(Protocol::To1, Cause::Outside(Object::Clock)));
        };
        match self.registry.find(now, &asked.guid) {
            Some(owned) => begin(suite, random, owned, asked),
            None => Ok(Verdict::Refuses(Protocol::To1, Cause::Missing(asked.guid))),
        }
    }
}

ghost use Rattle.std.specs.Prelude.{Some, true};
ghost use Rattle.fdo_rules.specs.Rendezvous.{rv_found, rv_signs};

/// What TO1.HelloRV comes to where the device's owner is registered.
fn begin<S: Suite, N: Random>(
    suite: &S,
    random: &mut N,
    owned: &Owned,
    asked: HelloRv,
) -> Result<Verdict, NoMemory>
    ensures judged { (s : RvView) (packet : Packet) (clock : Clocked) → Judges (rv_found (Some owned.now) (checking S.Verifier.verifies S.Signer.algorithm S.CertReader.key_in) s packet asked) s packet (outside (drawn N.Random random.old) clock) result (outside (drawn N.Random random.new) clock) }
    ensures fits { (s : RvView) → IfOk result (Fits To1 s) }
{
    match suite.alg_of(owned.leaf.as_list()) {
        Some(_) => {
            let leaf = owned.leaf.copy()?;
            Ok(draw(random, leaf, asked))
        }
        None => Ok(Verdict::Refuses(Protocol::To1, Cause::NoAlgorithm(0))),
    }
}

/// What TO1.HelloRV comes to where the device can sign.
fn draw<N: Random>(random: &mut N, leaf: Blob, asked: HelloRv) -> Verdict
    ensures judged { (s : RvView) (packet : Packet) (clock : Clocked) → Comes (rv_signs true s packet leaf asked) s packet (outside (drawn N.Random random.old) clock) result (outside (drawn N.Random random.new) clock) }
    ensures fits { (s : RvView) → Fits To1 s result }
{
    let nonce = random.draw16();
    with_nonce(random, leaf, asked, nonce)
}

/// What TO1.HelloRV comes to with the nonce's draw.
fn with_nonce<N: Random>(
    random: &mut N,
    leaf: Blob,
    asked: HelloRv,
    nonce: Result<Nonce, Failed>,
) -> Verdict
    ensures judged { (s : RvView) (packet : Packet) (clock : Clocked) → Comes (rv_nonce s packet leaf asked nonce) s packet (outside (drawn N.Random random.old) clock) result (outside (drawn N.Random random.new) clock) }
    ensures fits { (s : RvView) → Fits To1 s result }
{
    let Ok(nonce) = nonce else {
        return Verdict::Refuses(Protocol::To1, Cause::Outside(Object::Random));
    };
    let token = random.draw16();
    with_token(leaf, asked, nonce, token)
}

/// What TO1.HelloRV comes to with both draws.
fn with_token(leaf: Blob, asked: HelloRv, nonce: Nonce, token: Result<[u8; 16], Failed>) -> Verdict
    ensures judged { (s : RvView) (packet : Packet) → Ends (rv_token s packet leaf asked nonce token) s packet result }
    ensures fits { (s : RvView) → Fits To1 s result }
{
    match token {
        Ok(token) => Verdict::BeginsTo1 {
            asked,
            leaf,
            nonce,
            token,
        },
        Err(_) => Verdict::Refuses(Protocol::To1, Cause::Outside(Object::Random)),
    }
}

ghost use Rattle.fdo_rules.specs.Rendezvous.{proof_checks, proof_clock, proof_row};
ghost use Rattle.fdo_rules.specs.Unfit.{Checks};

impl Server {
    /// What TO1.ProveToRV comes to.
    pub(crate) fn proof<S: Suite, C: Clock>(
        &self,
        alloc: Global,
        suite: &mut S,
        clock: &mut C,
        packet: &Packet,
    ) -> Result<Verdict, NoMemory>
        ensures judged { (random : Drawn) → Judges (proof_row (rv_view self.now) packet.now (proof_checks (checking S.Verifier.verifies S.Signer.algorithm S.CertReader.key_in) (rv_view self.now) packet.now)) (rv_view self.now) packet.now (outside random (clocked C.Clock clock.old)) result (outside random (clocked C.Clock clock.new)) }
        ensures fits { IfOk result (Fits To1 (rv_view self.now)) }
        ensures held { S.Holder.held suite.new ≡ S.Holder.held suite.old }
        ensures faults { S.Holder.faults suite.new ≡ S.Holder.faults suite.old }
    {
        match self.proved(alloc, suite, packet) {
            Ok(guid) => {
                let now = clock.now();
                self.redirect(alloc, guid, now)
            }
            Err(Unfit::For(cause)) => Ok(Verdict::Refuses(Protocol::To1, cause)),
            Err(Unfit::NoMemory) => Err(NoMemory),
        }
    }

    /// The Guid of the device that proved to be the one of its session.
    fn proved<S: Suite>(&self, alloc: Global, suite: &mut S, packet: &Packet) -> Result<Guid, Unfit>
        ensures checked { Checks (proof_checks (checking S.Verifier.verifies S.Signer.algorithm S.CertReader.key_in) (rv_view self.now) packet.now) result }
        ensures held { S.Holder.held suite.new ≡ S.Holder.held suite.old }
        ensures faults { S.Holder.faults suite.new ≡ S.Holder.faults suite.old }
    {
        let Some(asked) = self.asked_of(&packet.token) else {
            return Err(Unfit::For(Cause::Token));
        };
        let proof = read_proof(alloc, packet.body.as_list())?;
        check_proof(alloc, suite, asked, &proof)?;
        Ok(asked.guid)
    }

    ghost use Rattle.std.specs.Option.{option_copied};
    ghost use Rattle.fdo_rules.specs.Server.{named};

    /// The session of TO1 that a token names.
    fn asked_of(&self, token: &Option<Token>) -> Option<&Asked>
        ensures { option_copied result ≡ named token.now self.now.to1 }
    {
        match token {
            Some(token) => self.to1.peek(token),
            None => None,
        }
    }

    /// What TO1.ProveToRV comes to at a second.
    fn redirect(
        &self,
        alloc: Global,
        guid: Guid,
        now: Result<u64, Failed>,
    ) -> Result<Verdict, NoMemory>
        ensures judged { (packet : Packet) (o : RvOutside) → Judges (proof_clock (rv_view self.now) packet guid now) (rv_view self.now) packet o result o }
        ensures fits { IfOk result (Fits To1 (rv_view self.now)) }
    {
        let Ok(now) = now else {
            return Ok(Verdict::Refuses(Protocol::To1, Cause::Outside(Object::Clock)));
        };
        match self.registry.find(now, &guid) {
            Some(owned) => Ok(Verdict::Redirects(owned.to1d.copy(alloc)?)),
            None => Ok(Verdict::Refuses(Protocol::To1, Cause::Missing(guid))),
        }
    }
}

ghost use Rattle.fdo_rules.specs.Rendezvous.{asked_checks};

/// Checks that a device is the one of its session.
#[tactic(auto, unfolding(fdo_rules::specs::Rendezvous::asked_checks))]
fn check_proof<S: Suite>(
    alloc: Global,
    suite: &mut S,
    asked: &Asked,
    proof: &Proof,
) -> Result<(), Unfit>
    ensures checked { Checks (asked_checks (checking S.Verifier.verifies S.Signer.algorithm S.CertReader.key_in) asked.now proof.now) result }
    ensures held { S.Holder.held suite.new ≡ S.Holder.held suite.old }
    ensures faults { S.Holder.faults suite.new ≡ S.Holder.faults suite.old }
{
    verified_by(alloc, suite, asked.leaf.as_list(), &proof.sign)?;
    if proof.nonce != asked.nonce {
        return Err(Unfit::For(Cause::Nonce));
    }
    if proof.guid != asked.guid {
        return Err(Unfit::For(Cause::GuidDiffers));
    }
    Ok(())
}
