ghost use Rattle.std.specs.Prelude.{◌≡◌, ℕ, List, IfOk, OnErr};
ghost use Rattle.fdo_msgs.specs.declared.packet.Packet.{Packet};
ghost use Rattle.fdo_msgs.specs.declared.answer.Answer.{Answer};

use crate::answer::Answer;
use crate::packet::Packet;
use cbor_core::NoMemory;
use std::alloc::Global;

/// A role of the protocol with its objects, which answers messages one by one.
pub trait Handler {
    /// What its answers depend on: the role's state, and what its objects tell.
    ghost State: { Type 0 };

    ghost state: { Self → State };

    /// Which objects it was lent. No step changes that.
    ghost objects: { Self → List ℕ };

    /// It may step.
    ghost ready: { Self → Type 0 };

    /// From a state the role answers a message so, and is then in the next state.
    ghost Steps: { State → Packet → Answer → State → Type 0 };

    /// What running out of memory at a message leaves of a state.
    ghost GivesUp: { State → Packet → State → Type 0 };

    /// The role's one step on a message.
    fn on(&mut self, alloc: Global, packet: &Packet) -> Result<Answer, NoMemory>
        requires { ready self.old }
        ensures step { IfOk result (λ answer. Steps (state self.old) packet.now answer (state self.new)) }
        ensures no_memory { OnErr result (GivesUp (state self.old) packet.now (state self.new)) }
        ensures ready { ready self.new }
        ensures objects { objects self.new ≡ objects self.old };
}
