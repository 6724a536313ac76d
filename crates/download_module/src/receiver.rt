ghost use Rattle.std.specs.Prelude.{◌≡◌, ◌++◌, ◌∷◌, [], List, Ok, Err, IfOk, OnOk, OnErr, IfSome};
ghost use Rattle.service_info.specs.declared.pair.Pair.{Pair};
ghost use Rattle.service_info.specs.Module.{Gives};
ghost use Rattle.download_module.specs.Received.{is_of_module as is_a_pair_of_module};

use crate::down_fault::DownFault;
use crate::file::File;
use crate::stage::Stage;
use cbor_core::NoMemory;
use service_info::{Module, Pair};
use std::alloc::Global;

/// The module of a device that takes one file. It gives no pairs, and reads those of other modules over.
#[derive(Drop)]
pub struct Receiver {
    limit: u64,
    stage: Stage,
}

impl Receiver {
    ghost use Rattle.download_module.specs.Receiver.{limit_of, Took};
    ghost use Rattle.download_module.specs.Received.{IsTransfer, of_module, received};

    /// One that takes files of at most `limit` bytes.
    pub fn new(limit: u64) -> Receiver
        ensures limit { limit_of result ≡ limit }
        ensures taken { Took result [] }
    {
        Receiver {
            limit,
            stage: Stage::Idle,
        }
    }

    /// The file that came whole, None where no pair of the module came, or why it is refused.
    #[tactic(auto, using(crate::proofs::StageLaws::took_all, crate::proofs::TransferLaws::only_whole))]
    pub fn finish(self) -> Result<Option<File>, DownFault>
        ensures exact { (pairs : List Pair) → Took self pairs → result ≡ received (limit_of self) (of_module pairs) }
        // A file is one that was sent whole.
        ensures only { (pairs : List Pair) → Took self pairs → IfOk result (λ file. IfSome file (IsTransfer (limit_of self) (of_module pairs))) }
    {
        self.stage.finish()
    }
}

impl Module for Receiver {
    ghost use Rattle.std.specs.Prelude.{[]};
    ghost use Rattle.download_module.specs.Receiver.{Took};

    ghost Took = { λ r pairs. Took r pairs };

    ghost left = { λ _. [] };

    #[tactic(auto, using(crate::proofs::StageLaws::took_more, crate::proofs::StageLaws::took_same, crate::proofs::StageLaws::took_over))]
    fn take(&mut self, alloc: Global, pair: &Pair) -> Result<(), NoMemory> {
        if !is_of_module(pair) {
            return Ok(());
        }
        let before = std::mem::replace(&mut self.stage, Stage::Idle);
        match before.after(alloc, self.limit, pair) {
            Ok(stage) => {
                self.stage = stage;
                Ok(())
            }
            Err(stage) => {
                self.stage = stage;
                Err(NoMemory)
            }
        }
    }

    fn next(&mut self, _alloc: Global) -> Result<Option<Pair>, NoMemory> {
        Ok(None)
    }
}

fn is_of_module(pair: &Pair) -> bool
    ensures { result ≡ is_a_pair_of_module pair.now }
{
    pair.key.as_list().as_bytes().starts_with(b"fdo.download:")
}
