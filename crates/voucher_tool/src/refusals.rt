ghost use Rattle.std.specs.Prelude.{◌≡◌, Some, IfOk};
ghost use Rattle.voucher_tool.specs.Refusal.{refusal_text, refused as refused_line, refused_at as refused_at_line};

use cbor_core::{Blob, NoMemory};
use std::alloc::Global;
use voucher_chain::ChainFault;

/// The text for a refusal, with the number of the entry where it has one. None for bytes that are no voucher, for a
/// credential of another device, and where memory ran out.
pub fn refusal(alloc: Global, fault: ChainFault) -> Result<Option<Blob>, NoMemory>
    ensures { IfOk result (λ text. text ≡ refusal_text fault) }
{
    match fault {
        ChainFault::BadCertHash => refused(alloc, "badcerthash"),
        ChainFault::BadPrevHash(index) => refused_at(alloc, "badprevhash", index),
        ChainFault::BadInfoHash(index) => refused_at(alloc, "badinfohash", index),
        ChainFault::BadSignature(index) => refused_at(alloc, "badsignature", index),
        ChainFault::NoAlgorithm(index) => refused_at(alloc, "noalgorithm", index),
        ChainFault::TooLong => refused(alloc, "toolong"),
        ChainFault::Failed => refused(alloc, "failed"),
        ChainFault::BadShape(_) | ChainFault::NoMatch | ChainFault::NoMemory => Ok(None),
    }
}

fn refused(alloc: Global, word: &str) -> Result<Option<Blob>, NoMemory>
    ensures { IfOk result (λ text. text ≡ Some (refused_line word.now)) }
{
    let line = format!(in alloc; "refused {word}\n")?;
    Ok(Some(Blob::from_slice(alloc, line.as_bytes())?))
}

fn refused_at(alloc: Global, word: &str, index: u8) -> Result<Option<Blob>, NoMemory>
    ensures { IfOk result (λ text. text ≡ Some (refused_at_line word.now index)) }
{
    let line = format!(in alloc; "refused {word} {index}\n")?;
    Ok(Some(Blob::from_slice(alloc, line.as_bytes())?))
}
