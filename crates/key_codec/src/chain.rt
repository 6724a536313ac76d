ghost use Rattle.std.specs.Prelude.{◌≡◌, ◌≢◌, ◌↔◌, [], IfOk, IfSome, IsNone, IsTrue};

use cbor_core::{Blob, NoMemory};
use std::alloc::Global;
use std::marker::Model;

/// A chain of certificates, at least one. Contracts see the list of them.
#[derive(Debug, Drop)]
pub struct X5Chain {
    certificates: Vec<Blob>,
}

impl Model for X5Chain {
    ghost use Rattle.std.specs.Prelude.{List, ℕ, [], ◌≢◌};

    ghost Value = { List (List ℕ) };

    ghost view = { λ c. c.certificates.items };

    ghost invariant = { λ c. c.certificates.items ≢ [] };
}

impl X5Chain {
    /// None exactly where there are none.
    pub fn new(certificates: Vec<Blob>) -> Option<X5Chain>
        ensures some { IfSome result (λ chain. chain ≡ certificates.items) }
        ensures none { IsNone result ↔ (certificates.items ≡ []) }
    {
        if certificates.is_empty() {
            None
        } else {
            Some(X5Chain { certificates })
        }
    }

    pub fn as_list(&self) -> &[Blob]
        ensures value { result.now ≡ self.now }
        ensures some { self.now ≢ [] }
    {
        self.certificates.as_slice()
    }

    pub fn into_vec(self) -> Vec<Blob>
        ensures value { result.items ≡ self }
        ensures some { result.items ≢ [] }
    {
        let X5Chain { certificates } = self;
        certificates
    }

    /// An equal chain.
    pub fn copy(&self, alloc: Global) -> Result<X5Chain, NoMemory>
        ensures { IfOk result (λ chain. chain ≡ self.now) }
    {
        let certificates = copy_all(alloc, self.certificates.as_slice())?;
        Ok(X5Chain { certificates })
    }

    pub fn same(&self, other: &X5Chain) -> bool
        ensures { IsTrue result ↔ (self.now ≡ other.now) }
    {
        self.as_list() == other.as_list()
    }
}

fn copy_all(alloc: Global, blobs: &[Blob]) -> Result<Vec<Blob>, NoMemory>
    ensures { IfOk result (λ all. all.items ≡ blobs.now) }
{
    let mut all = Vec::new(alloc);
    for blob in blobs {
        all.push(blob.copy()?)?;
    }
    Ok(all)
}
