ghost use Rattle.std.specs.Prelude.{◌≡◌, IfOk};
ghost use Rattle.cbor_core.specs.Whole.{whole};

use cbor_core::{CborFault, Item, NoMemory, read_wire};
use std::alloc::Global;

/// The item that a pair's value holds, in any spelling, or None where its bytes are not one item to their end.
pub fn read_item(alloc: Global, bytes: &[u8]) -> Result<Option<Item>, NoMemory>
    ensures { IfOk result (λ item. item ≡ whole bytes.now) }
{
    match read_wire(alloc, bytes) {
        Ok((item, read)) => {
            if read == bytes.len() {
                Ok(Some(item))
            } else {
                Ok(None)
            }
        }
        Err(CborFault::NoMemory) => Err(NoMemory),
        Err(_) => Ok(None),
    }
}
