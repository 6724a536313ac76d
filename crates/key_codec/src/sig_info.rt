ghost use Rattle.std.specs.Prelude.{◌≡◌, Ok, IfOk};
ghost use Rattle.cbor_core.specs.Norm.{IsFit};
ghost use Rattle.key_codec.specs.declared.sig_info.SigInfo.{SigInfo};
ghost use Rattle.key_codec.specs.Fault.{Says};
ghost use Rattle.cbor_core.specs.Numbers.{IsI64};
ghost use Rattle.key_codec.specs.SigInfo.{sig_info_in, item_of_sig_info};

use crate::fault::KeyFault;
use crate::parts::{bytes, number, two};
use cbor_core::{Blob, Item, Items, NoMemory, integer_item};
use std::alloc::Global;

/// How a device signs (FIDO Device Onboard 1.1, "SigInfo").
#[derive(Debug, Drop)]
pub struct SigInfo {
    /// The number of the algorithm.
    pub kind: i64,
    pub info: Blob,
}

impl SigInfo {
    /// Equal information.
    pub fn copy(&self, alloc: Global) -> Result<SigInfo, NoMemory>
        ensures { IfOk result (λ sig. sig ≡ self.now) }
    {
        Ok(SigInfo {
            kind: self.kind,
            info: Blob::from_slice(alloc, self.info.as_list())?,
        })
    }
}

/// The signature information that an item says. Its only faults are `BadShape` and `NoMemory`.
pub fn read_sig_info(alloc: Global, item: &Item) -> Result<SigInfo, KeyFault>
    // What is read is written as this very item.
    ensures found { IfOk result (λ sig. item.now ≡ item_of_sig_info sig) }
    // The item of signature information is read as that information, unless memory runs out.
    ensures only { (sig : SigInfo) → IsI64 sig.kind → item.now ≡ item_of_sig_info sig → Says {Y = SigInfo} (λ sig. sig) result (Ok sig) }
    // Which fault it is.
    ensures exact { Says (λ sig. sig) result (sig_info_in item.now) }
    // What is read of a fit item is fit to be written.
    ensures fit { IsFit item.now → IfOk result (λ sig. IsFit (item_of_sig_info sig)) }
{
    sig_info_at(alloc, item)
}

#[tactic(auto, unfolding(crate::specs::SigInfo::sig_info_in))]
fn sig_info_at(alloc: Global, item: &Item) -> Result<SigInfo, KeyFault>
    ensures { Says (λ sig. sig) result (sig_info_in item.now) }
{
    let (first, second) = two(item)?;
    let kind = number(first)?;
    let info = bytes(second)?;
    Ok(SigInfo {
        kind,
        info: Blob::from_slice(alloc, info.as_list())?,
    })
}

/// The item that signature information is written as.
pub fn sig_info_item(alloc: Global, sig: &SigInfo) -> Result<Item, NoMemory>
    ensures { IfOk result (λ item. item ≡ item_of_sig_info sig.now) }
{
    let mut parts = Items::new(alloc);
    parts.push(integer_item(sig.kind))?;
    parts.push(Item::Bytes(Blob::from_slice(alloc, sig.info.as_list())?))?;
    Ok(Item::Array(parts))
}
