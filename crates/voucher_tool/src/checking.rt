ghost use Rattle.std.specs.Prelude.{◌≡◌, ◌≤◌, length, IfOk};
ghost use Rattle.voucher_chain.specs.Chain.{AsksToCheckAll};
ghost use Rattle.voucher_chain.specs.Fault.{Answers};
ghost use Rattle.voucher_tool.specs.Check.{check_text, check_told};
ghost use Rattle.voucher_chain.specs.Reading.{most_entries};

use crate::received::received_owner;
use crate::showing::hash_text;
use cbor_core::{Blob, NoMemory};
use std::alloc::Global;
use suite_port::Suite;
use voucher_chain::{ChainFault, Voucher, check_chain};

/// The text for a voucher whose chain of owners holds: the number of its entries, and the hash of the last owner's key as
/// received. Its refusals are those of `check_chain`.
#[tactic(auto, using(crate::proofs::Asking::asked_all))]
pub fn check<S: Suite>(alloc: Global, suite: &mut S, voucher: &Voucher) -> Result<Blob, ChainFault>
    requires { length voucher.now.entries ≤ most_entries }
    // The first break of the chain, or the text where nothing breaks it.
    ensures answer { Answers (check_told S.Verifier.verifies voucher.now) result }
    ensures held { S.Holder.held suite.new ≡ S.Holder.held suite.old }
    ensures faults { S.Holder.faults suite.new ≡ S.Holder.faults suite.old }
    // The suite is asked for each entry's signature once, in their order, up to the first break.
    ensures asked { AsksToCheckAll (S.Holder.asked suite.old) (S.Holder.asked suite.new) voucher.now.header.key voucher.now.entries result }
{
    match check_chain(alloc, suite, voucher) {
        Ok(()) => Ok(ok_text(alloc, voucher)?),
        Err(fault) => Err(fault),
    }
}

fn ok_text(alloc: Global, voucher: &Voucher) -> Result<Blob, NoMemory>
    ensures { IfOk result (λ text. text ≡ check_text voucher.now) }
{
    let owner = received_owner(alloc, voucher)?;
    let hash = hash_text(alloc, owner.as_list())?;
    ok_line(alloc, voucher.entries.as_list().len(), hash.as_str())
}

ghost use Rattle.std.specs.Prelude.{◌++◌, codes};
ghost use Rattle.std.specs.Fmt.{decimal};
ghost use Rattle.voucher_tool.specs.Show.{ended};

fn ok_line(alloc: Global, count: usize, hash: &str) -> Result<Blob, NoMemory>
    ensures { IfOk result (λ text. text ≡ ended (codes "ok " ++ decimal count ++ codes " owner " ++ hash.now)) }
{
    let line = format!(in alloc; "ok {count} owner {hash}\n")?;
    Ok(Blob::from_slice(alloc, line.as_bytes())?)
}
