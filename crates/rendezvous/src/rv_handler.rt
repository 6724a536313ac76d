use crate::server::Server;
use cbor_core::NoMemory;
use fdo_msgs::{Answer, Handler, Packet};
use fdo_ports::{Clock, Random};
use std::alloc::Global;
use suite_port::Suite;

/// The rendezvous server with the objects of its steps.
pub struct RvHandler<'a, 'b, 'c, 'd, S: Suite, N: Random, C: Clock> {
    pub server: &'a mut Server,
    pub suite: &'b mut S,
    pub random: &'c mut N,
    pub clock: &'d mut C,
}

impl<'a, 'b, 'c, 'd, S: Suite, N: Random, C: Clock> Handler for RvHandler<'a, 'b, 'c, 'd, S, N, C> {
    ghost use Rattle.std.specs.Prelude.{ℕ, List, [], ◌∷◌};
    ghost use Rattle.fdo_ports.specs.Draw.{drawn};
    ghost use Rattle.end_checks.specs.Checking.{checking};
    ghost use Rattle.rendezvous.specs.Carrying.{rv_view};
    ghost use Rattle.rendezvous.specs.RvState.{RvGivesUp, RvState, RvStep, clocked, outside, rv_state, suited};

    ghost State = { RvState };

    ghost state = { λ h. rv_state (rv_view h.server.now) (outside (drawn N.Random h.random.now) (clocked C.Clock h.clock.now)) (suited S.Holder h.suite.now) };

    ghost objects = { λ h. h.server.ghost_name ∷ h.suite.ghost_name ∷ h.random.ghost_name ∷ h.clock.ghost_name ∷ [] };

    ghost ready = { λ _. Unit {0} };

    ghost Steps = { RvStep (checking S.Verifier.verifies S.Signer.algorithm S.CertReader.key_in) };

    ghost GivesUp = { RvGivesUp (checking S.Verifier.verifies S.Signer.algorithm S.CertReader.key_in) };

    fn on(&mut self, alloc: Global, packet: &Packet) -> Result<Answer, NoMemory> {
        self.server
            .on(alloc, self.suite, self.random, self.clock, packet)
    }
}
