ghost use Rattle.std.specs.Prelude.{◌≡◌, ◌++◌, ◌∷◌, [], List};
ghost use Rattle.service_info.specs.declared.pair.Pair.{Pair};

use crate::module::Module;
use crate::packer::reversed;
use crate::pair::Pair;
use cbor_core::NoMemory;
use std::alloc::Global;

/// A module that gives the pairs of a list, and keeps those that it takes.
#[derive(Debug, Drop)]
pub struct ListModule {
    /// The pairs still to be given, the next one last.
    reversed: Vec<Pair>,
    taken: Vec<Pair>,
}

impl ListModule {
    ghost use Rattle.service_info.specs.ListModule.{pairs_left, pairs_taken};

    pub fn new(pairs: Vec<Pair>) -> ListModule
        ensures left { pairs_left result ≡ pairs.items }
        ensures taken { pairs_taken result ≡ [] }
    {
        let taken = Vec::new(*pairs.allocator());
        ListModule {
            reversed: reversed(pairs),
            taken,
        }
    }

    /// Takes the last pair that was taken back, if there is one.
    pub fn take_back(&mut self)
        ensures taken { (before : List Pair) (pair : Pair) → pairs_taken self.old ≡ before ++ pair ∷ [] → pairs_taken self.new ≡ before }
        ensures none { pairs_taken self.old ≡ [] → pairs_taken self.new ≡ [] }
        ensures left { pairs_left self.new ≡ pairs_left self.old }
    {
        let _last = self.taken.pop();
    }

    /// The pairs taken, in order.
    pub fn taken(&self) -> &[Pair]
        ensures { result.now ≡ pairs_taken self.now }
    {
        self.taken.as_slice()
    }
}

impl Module for ListModule {
    ghost use Rattle.std.specs.Prelude.{◌≡◌};
    ghost use Rattle.service_info.specs.ListModule.{pairs_left, pairs_taken};

    ghost Took = { λ m pairs. pairs_taken m ≡ pairs };

    ghost left = { λ m. pairs_left m };

    fn take(&mut self, _alloc: Global, pair: &Pair) -> Result<(), NoMemory> {
        self.taken.push(pair.copy()?)?;
        Ok(())
    }

    fn next(&mut self, _alloc: Global) -> Result<Option<Pair>, NoMemory> {
        Ok(self.reversed.pop())
    }
}
