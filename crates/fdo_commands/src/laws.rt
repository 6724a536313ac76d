//! Laws of the definitions of `specs/`, for callers to cite.

ghost use Rattle.std.specs.Prelude.{◌≡◌, ℕ, List};
ghost use Rattle.fdo_msgs.specs.declared.packet.Packet.{Packet};
ghost use Rattle.fdo_commands.specs.Input.{FirstWrong, IsInput};

/// An input is the lines of one list of messages at most, and one that is has no wrong line.
#[tactic(auto, using(crate::proofs::OneInput::one_reading))]
pub fn one_input()
    ensures one { (bytes : List ℕ) (packets others : List Packet) → IsInput bytes packets → IsInput bytes others → packets ≡ others }
    ensures right { (bytes : List ℕ) (packets : List Packet) (place : ℕ) → IsInput bytes packets → FirstWrong bytes place → ⊥ }
{}
