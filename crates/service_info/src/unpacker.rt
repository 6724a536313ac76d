ghost use Rattle.std.specs.Prelude.{◌≡◌};
ghost use Rattle.std.specs.List.{list_all};
ghost use Rattle.service_info.specs.Fault.{fault_of};
ghost use Rattle.service_info.specs.Key.{is_key as is_a_key};
ghost use Rattle.service_info.specs.Turn.{refusal};

use crate::info_fault::InfoFault;
use crate::key::is_key;
use crate::pair::Pair;
use std::alloc::Global;

/// What looks at the pairs of each message that comes, before a module takes them.
#[derive(Clone, Copy, Debug, PartialEq, Eq)]
pub struct Unpacker;

impl Unpacker {
    /// Refuses pairs out of turn, and those with a key that is none. `mine_open` says that this side said in its last
    /// message that it has more to send. It needs no memory, and never answers `NoMemory`.
    pub fn take(&mut self, _alloc: Global, mine_open: bool, list: &[Pair]) -> Result<(), InfoFault>
        ensures { fault_of result ≡ refusal mine_open list.now }
    {
        if list.is_empty() {
            return Ok(());
        }
        if mine_open {
            return Err(InfoFault::NotYourTurn);
        }
        if are_keys(list) {
            Ok(())
        } else {
            Err(InfoFault::BadKey)
        }
    }
}

fn are_keys(list: &[Pair]) -> bool
    ensures { result ≡ list_all (λ pair. is_a_key pair.key) list.now }
{
    list.iter().all(|pair| is_key(pair.key.as_list()))
}
