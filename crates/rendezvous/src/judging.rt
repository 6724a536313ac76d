ghost use Rattle.std.specs.Prelude.{◌≡◌, IfOk};
ghost use Rattle.fdo_ports.specs.Draw.{drawn};
ghost use Rattle.fdo_rules.specs.Rendezvous.{rendezvous_row};
ghost use Rattle.end_checks.specs.Checking.{checking};
ghost use Rattle.rendezvous.specs.Carrying.{Fits, Judges, rv_view};
ghost use Rattle.rendezvous.specs.RvState.{clocked, outside, own_of};

use crate::server::Server;
use crate::verdict::Verdict;
use cbor_core::NoMemory;
use fdo_msgs::{Cause, Packet, kind};
use fdo_ports::{Clock, Random};
use fdo_rules::Protocol;
use std::alloc::Global;
use suite_port::Suite;

impl Server {
    /// What a message comes to.
    #[tactic(auto, unfolding(fdo_rules::specs::Rendezvous::rendezvous_row))]
    pub(crate) fn judge<S: Suite, N: Random, C: Clock>(
        &self,
        alloc: Global,
        suite: &mut S,
        random: &mut N,
        clock: &mut C,
        packet: &Packet,
    ) -> Result<Verdict, NoMemory>
        ensures judged { Judges (rendezvous_row (checking S.Verifier.verifies S.Signer.algorithm S.CertReader.key_in) (rv_view self.now) packet.now) (rv_view self.now) packet.now (outside (drawn N.Random random.old) (clocked C.Clock clock.old)) result (outside (drawn N.Random random.new) (clocked C.Clock clock.new)) }
        ensures fits { IfOk result (Fits (own_of packet.now.kind) (rv_view self.now)) }
        ensures held { S.Holder.held suite.new ≡ S.Holder.held suite.old }
        ensures faults { S.Holder.faults suite.new ≡ S.Holder.faults suite.old }
    {
        match packet.kind {
            kind::ERROR => Ok(Verdict::PeerError),
            kind::HELLO => self.hello(alloc, random, packet),
            kind::OWNER_SIGN => self.owner_sign(alloc, suite, clock, packet),
            kind::HELLO_RV => self.hello_rv(alloc, suite, random, clock, packet),
            kind::PROVE_TO_RV => self.proof(alloc, suite, clock, packet),
            kind => Ok(Verdict::Refuses(Protocol::To0, Cause::Turn(kind))),
        }
    }
}
