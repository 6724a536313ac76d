ghost use Rattle.std.specs.Prelude.{◌≡◌, IfOk};
ghost use Rattle.fdo_rules.specs.Checks.{spelled_by_key, spelled_key};
ghost use Rattle.end_checks.specs.Checking.{key_of_leaf};

use cbor_core::{Blob, CborFault, Item, NoMemory, read_wire};
use key_codec::{KeyFault, key_bytes, read_key};
use std::alloc::Global;
use suite_port::{Suite, SuiteFault};

/// The public bytes of the key in a device's certificate. None where the suite reads none, or they are no bytes of a
/// public key.
pub fn leaf_key<S: Suite>(
    alloc: Global,
    suite: &mut S,
    leaf: &[u8],
) -> Result<Option<Blob>, NoMemory>
    ensures key { IfOk result (λ key. key ≡ key_of_leaf S.CertReader.key_in leaf.now) }
    ensures held { S.Holder.held suite.new ≡ S.Holder.held suite.old }
    ensures faults { S.Holder.faults suite.new ≡ S.Holder.faults suite.old }
{
    match suite.leaf_key(alloc, leaf) {
        Ok(bytes) => spelled_key(alloc, bytes),
        Err(SuiteFault::NoMemory) => Err(NoMemory),
        Err(_) => Ok(None),
    }
}

/// These bytes, where they are the deterministic spelling of a public key.
fn spelled_key(alloc: Global, bytes: Vec<u8>) -> Result<Option<Blob>, NoMemory>
    ensures { IfOk result (λ key. key ≡ spelled_key bytes.items) }
{
    match read_wire(alloc, bytes.as_slice()) {
        Ok((item, _)) => spelled_item(alloc, bytes, item),
        Err(CborFault::NoMemory) => Err(NoMemory),
        Err(_) => Ok(None),
    }
}

ghost use Rattle.key_codec.specs.Key.{key_in};

fn spelled_item(alloc: Global, bytes: Vec<u8>, item: Item) -> Result<Option<Blob>, NoMemory>
    ensures { IfOk result (λ key. key ≡ spelled_by_key bytes.items (key_in item)) }
{
    match read_key(alloc, &item) {
        Ok(key) => {
            let spelled = key_bytes(alloc, &key)?;
            if spelled.as_list() == bytes.as_slice() {
                Ok(Some(Blob::new(bytes)))
            } else {
                Ok(None)
            }
        }
        Err(KeyFault::NoMemory) => Err(NoMemory),
        Err(_) => Ok(None),
    }
}
