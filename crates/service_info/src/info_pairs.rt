ghost use Rattle.std.specs.Prelude.{◌≡◌, IfOk};

use crate::pair::Pair;
use cbor_core::NoMemory;
use std::alloc::Global;
use std::marker::Model;

/// Pairs in order. Contracts see the list of them.
#[derive(Debug, Drop)]
pub struct InfoPairs {
    pairs: Vec<Pair>,
}

impl Model for InfoPairs {
    ghost use Rattle.std.specs.Prelude.{List};
    ghost use Rattle.service_info.specs.declared.pair.Pair.{Pair};

    ghost Value = { List Pair };

    ghost view = { λ p. p.pairs.items };
}

impl InfoPairs {
    pub fn new(pairs: Vec<Pair>) -> InfoPairs
        ensures { result ≡ pairs.items }
    {
        InfoPairs { pairs }
    }

    pub fn as_list(&self) -> &[Pair]
        ensures { result.now ≡ self.now }
    {
        self.pairs.as_slice()
    }

    pub fn into_vec(self) -> Vec<Pair>
        ensures { result.items ≡ self }
    {
        let InfoPairs { pairs } = self;
        pairs
    }

    /// Equal pairs.
    pub fn copy(&self, alloc: Global) -> Result<InfoPairs, NoMemory>
        ensures { IfOk result (λ copy. copy ≡ self.now) }
    {
        let mut pairs = Vec::with_capacity(alloc, self.pairs.len())?;
        let all = self.pairs.as_slice();
        for pair in all {
            pairs.push(pair.copy()?)?;
        }
        Ok(InfoPairs { pairs })
    }
}
