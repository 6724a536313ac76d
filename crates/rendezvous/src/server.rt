ghost use Rattle.std.specs.Prelude.{◌≡◌, [], Some, IfOk, OnErr};
ghost use Rattle.fdo_ports.specs.Draw.{drawn};
ghost use Rattle.fdo_rules.specs.Rendezvous.{ended_in, protocol_named};
ghost use Rattle.end_checks.specs.Checking.{checking};
ghost use Rattle.rendezvous.specs.Carrying.{Left, rv_view};
ghost use Rattle.rendezvous.specs.RvState.{RvGivesUp, RvStep, clocked, outside, own_of, rv_state, suited};

use cbor_core::NoMemory;
use fdo_msgs::{Answer, Nonce, Packet, Token, kind};
use fdo_ports::{Clock, Random};
use fdo_rules::{Asked, Owned, Protocol};
use registry::Registry;
use sessions::Sessions;
use std::alloc::Global;
use suite_port::Suite;

/// The rendezvous server: what is registered, and its sessions.
#[derive(Drop)]
pub struct Server {
    pub(crate) registry: Registry<Owned>,
    /// The nonces of TO0's sessions.
    pub(crate) to0: Sessions<Nonce>,
    pub(crate) to1: Sessions<Asked>,
}

impl Server {
    ghost use Rattle.fdo_rules.specs.Rendezvous.{RvView};

    /// A server with no registration and no session.
    pub fn new(alloc: Global) -> Result<Server, NoMemory>
        ensures { IfOk result (λ server. rv_view server ≡ record { entries = []; to0 = []; to1 = [] }) }
    {
        Ok(Server {
            registry: Registry::new(alloc),
            to0: Sessions::new(alloc)?,
            to1: Sessions::new(alloc)?,
        })
    }

    /// The server's step on one message: TO0.Hello (20), TO0.OwnerSign (22), TO1.HelloRV (30), TO1.ProveToRV (32), or an
    /// error (255). Any other is refused.
    pub fn on<S: Suite, N: Random, C: Clock>(
        &mut self,
        alloc: Global,
        suite: &mut S,
        random: &mut N,
        clock: &mut C,
        packet: &Packet,
    ) -> Result<Answer, NoMemory>
        ensures step { IfOk result (λ answer. RvStep (checking S.Verifier.verifies S.Signer.algorithm S.CertReader.key_in) (rv_state (rv_view self.old) (outside (drawn N.Random random.old) (clocked C.Clock clock.old)) (suited S.Holder suite.old)) packet.now answer (rv_state (rv_view self.new) (outside (drawn N.Random random.new) (clocked C.Clock clock.new)) (suited S.Holder suite.new))) }
        ensures no_memory { OnErr result (RvGivesUp (checking S.Verifier.verifies S.Signer.algorithm S.CertReader.key_in) (rv_state (rv_view self.old) (outside (drawn N.Random random.old) (clocked C.Clock clock.old)) (suited S.Holder suite.old)) packet.now (rv_state (rv_view self.new) (outside (drawn N.Random random.new) (clocked C.Clock clock.new)) (suited S.Holder suite.new))) }
    {
        let place = self.place_of(own_of(packet.kind), &packet.token);
        let judged = self.judge(alloc, suite, random, clock, packet);
        let answered = self.carry_judged(alloc, packet, judged);
        if answered.is_err() {
            self.end_in(place, &packet.token);
        }
        answered
    }

    /// The protocol of the session that a token names: the message's own, else the other one.
    pub(crate) fn place_of(&self, own: Protocol, token: &Option<Token>) -> Protocol
        ensures { result ≡ protocol_named own (rv_view self.now) token.now }
    {
        let in_to0 = self.is_in_to0(token);
        let in_to1 = self.is_in_to1(token);
        match own {
            Protocol::To0 => { if in_to0 { Protocol::To0 } else { Protocol::To1 } }
            Protocol::To1 => { if in_to1 { Protocol::To1 } else { Protocol::To0 } }
        }
    }

    ghost use Rattle.fdo_rules.specs.Rendezvous.{in_to0, in_to1};

    pub(crate) fn is_in_to0(&self, token: &Option<Token>) -> bool
        ensures { result ≡ in_to0 (rv_view self.now) token.now }
    {
        match token {
            Some(token) => self.to0.names(token),
            None => false,
        }
    }

    pub(crate) fn is_in_to1(&self, token: &Option<Token>) -> bool
        ensures { result ≡ in_to1 (rv_view self.now) token.now }
    {
        match token {
            Some(token) => self.to1.names(token),
            None => false,
        }
    }

    /// Ends the session of a token in a protocol, if there is one.
    pub(crate) fn end_in(&mut self, place: Protocol, token: &Option<Token>)
        ensures { rv_view self.new ≡ ended_in place (rv_view self.old) token.now }
    {
        let Some(token) = token else {
            return;
        };
        match place {
            Protocol::To0 => drop(self.to0.end(token)),
            Protocol::To1 => drop(self.to1.end(token)),
        }
    }

    ghost use Rattle.fdo_rules.specs.Rendezvous.{touched_in};

    /// Uses the session of a token in a protocol, if there is one.
    pub(crate) fn touch_in(&mut self, place: Protocol, token: &Option<Token>)
        ensures { rv_view self.new ≡ touched_in place (rv_view self.old) token.now }
    {
        let Some(token) = token else {
            return;
        };
        let _named = match place {
            Protocol::To0 => self.to0.touch(token),
            Protocol::To1 => self.to1.touch(token),
        };
    }
}

/// The protocol of a message's type.
fn own_of(kind: u8) -> Protocol
    ensures { result ≡ own_of kind }
{
    if kind == kind::HELLO_RV || kind == kind::PROVE_TO_RV {
        Protocol::To1
    } else {
        Protocol::To0
    }
}
