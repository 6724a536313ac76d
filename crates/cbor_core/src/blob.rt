ghost use Rattle.std.specs.Prelude.{◌≡◌, ◌==◌, IfOk};
ghost use Rattle.std.specs.Cmp.{partial_order_from_own_ties};
ghost use Rattle.std.specs.Cmp.Lexicographic.{slice_cmp, pointwise};
ghost use Rattle.std.specs.Cmp.Rules.{comparing};
ghost use Rattle.std.specs.Ordering.{nat_cmp, as_partial_cmp};
ghost use Rattle.std.proofs.Common.{rules};

use crate::no_memory::NoMemory;
use std::alloc::Global;
use std::cmp::Ordering;
use std::marker::Model;

/// Bytes, which contracts see as a list of numbers below 256.
#[derive(Debug, Drop)]
pub struct Blob {
    bytes: Vec<u8>,
}

impl Model for Blob {
    ghost use Rattle.std.specs.Prelude.{List, ℕ};

    ghost Value = { List ℕ };

    ghost view = { λ b. b.bytes.items };
}

impl PartialEq for Blob {
    ghost eq = { pointwise ◌==◌ };

    ghost laws = { Prim.search (comparing, rules) };

    fn eq(&self, other: &Blob) -> bool {
        self.as_list() == other.as_list()
    }
}

impl Eq for Blob {
    ghost laws = { Prim.search (comparing, rules) };
}

/// The bytewise lexicographic order.
impl Ord for Blob {
    ghost cmp = { slice_cmp nat_cmp };

    ghost total = { Prim.search (comparing, rules) };

    ghost matches_partial_cmp = { Prim.search (comparing, rules) };

    ghost matches_eq = { Prim.search (comparing, rules) };

    fn cmp(&self, other: &Blob) -> Ordering {
        self.as_list().cmp(&other.as_list())
    }
}

impl PartialOrd for Blob {
    ghost partial_cmp = { as_partial_cmp (slice_cmp nat_cmp) };

    ghost laws = { partial_order_from_own_ties (Prim.search (comparing, rules)) (Prim.search (comparing, rules)) };

    fn partial_cmp(&self, other: &Blob) -> Option<Ordering> {
        Some(self.cmp(other))
    }
}

impl Blob {
    pub fn new(bytes: Vec<u8>) -> Blob
        ensures { result ≡ bytes.items }
    {
        Blob { bytes }
    }

    /// A copy of bytes that stand elsewhere.
    pub fn from_slice(alloc: Global, bytes: &[u8]) -> Result<Blob, NoMemory>
        ensures { IfOk result (λ blob. blob ≡ bytes.now) }
    {
        Ok(Blob {
            bytes: Vec::from_slice(alloc, bytes)?,
        })
    }

    pub fn as_list(&self) -> &[u8]
        ensures { result.now ≡ self.now }
    {
        self.bytes.as_slice()
    }

    pub fn into_vec(self) -> Vec<u8>
        ensures { result.items ≡ self }
    {
        let Blob { bytes } = self;
        bytes
    }

    pub fn copy(&self) -> Result<Blob, NoMemory>
        ensures { IfOk result (λ blob. blob ≡ self.now) }
    {
        Ok(Blob {
            bytes: self.bytes.clone()?,
        })
    }
}
