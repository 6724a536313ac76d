ghost use Rattle.std.specs.Prelude.{◌≡◌, ◌++◌, ◌∷◌, [], List, IfOk, OnOk, OnErr};
ghost use Rattle.service_info.specs.Module.{Gives};
ghost use Rattle.service_info.specs.declared.pair.Pair.{Pair};

use crate::pair::Pair;
use cbor_core::NoMemory;
use std::alloc::Global;

/// What takes the pairs of the other side and gives those of this side.
pub trait Module {
    /// These are the pairs taken so far, in order.
    ghost Took: { Self → List Pair → Type 0 };

    /// The pairs still to be given, in order.
    ghost left: { Self → List Pair };

    /// Takes a pair of the other side.
    fn take(&mut self, alloc: Global, pair: &Pair) -> Result<(), NoMemory>
        ensures taken { OnOk result ((before : List Pair) → Took self.old before → Took self.new (before ++ pair.now ∷ [])) }
        ensures no_memory { OnErr result ((before : List Pair) → Took self.old before → Took self.new before) }
        ensures left { left self.new ≡ left self.old };

    /// The first pair still to be given, or None where there is none.
    fn next(&mut self, alloc: Global) -> Result<Option<Pair>, NoMemory>
        ensures given { IfOk result (λ given. Gives (left self.old) given (left self.new)) }
        ensures no_memory { OnErr result (left self.new ≡ left self.old) }
        ensures taken { (before : List Pair) → Took self.old before → Took self.new before };
}
