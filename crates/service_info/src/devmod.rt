ghost use Rattle.std.specs.Prelude.{◌≡◌, IfOk, find, option_and_then, option_map, unwrap_or};
ghost use Rattle.std.specs.List.{flat_map};
ghost use Rattle.std.specs.Option.{option_copied};
ghost use Rattle.cbor_core.specs.declared.item.Item.{out-Item};
ghost use Rattle.service_info.specs.Devmod.{devmod_of, has_key as is_of_key, lists_needed, needed, true_of, text_of, unsigned_of, value_at};
ghost use Rattle.service_info.specs.DevmodKey.{key_text};
ghost use Rattle.service_info.specs.Fault.{Answers};

use crate::devmod_key::DevmodKey;
use crate::info_fault::InfoFault;
use crate::module_names::{placed_names, read_lists};
use crate::pair::Pair;
use crate::texts::Texts;
use crate::value::read_item;
use cbor_core::{Blob, Item, NoMemory, Text};
use std::alloc::Global;

/// What a device says of itself through the module devmod (FIDO Device Onboard 1.1, section 3.8.3.1).
#[derive(Debug, Drop)]
pub struct Devmod {
    pub os: Text,
    pub arch: Text,
    pub version: Text,
    pub device: Text,
    pub bin: Text,
    /// The names of its modules.
    pub modules: Texts,
}

impl Devmod {
    /// What pairs say, or why they say no devmod. Pairs of other keys are read over.
    #[tactic(auto, unfolding(crate::specs::Devmod::devmod_of))]
    pub fn read(alloc: Global, pairs: &[Pair]) -> Result<Devmod, InfoFault>
        ensures { Answers (devmod_of pairs.now) result }
    {
        read_active(alloc, pairs)?;
        let os = read_text(alloc, pairs, DevmodKey::Os)?;
        let arch = read_text(alloc, pairs, DevmodKey::Arch)?;
        let version = read_text(alloc, pairs, DevmodKey::Version)?;
        let device = read_text(alloc, pairs, DevmodKey::Device)?;
        let bin = read_text(alloc, pairs, DevmodKey::Bin)?;
        let count = read_count(alloc, pairs)?;
        let lists = read_lists(alloc, pairs)?;
        let modules = placed_names(alloc, count, lists)?;
        Ok(Devmod {
            os,
            arch,
            version,
            device,
            bin,
            modules,
        })
    }
}

fn read_active(alloc: Global, pairs: &[Pair]) -> Result<(), InfoFault>
    ensures { Answers (needed true_of DevmodKey.Active pairs.now) result }
{
    match read_value(alloc, pairs, DevmodKey::Active)? {
        Some(Item::Simple(21)) => Ok(()),
        _ => Err(InfoFault::MissingDevmod(DevmodKey::Active)),
    }
}

fn read_text(alloc: Global, pairs: &[Pair], key: DevmodKey) -> Result<Text, InfoFault>
    ensures { Answers (needed text_of key pairs.now) result }
{
    match read_value(alloc, pairs, key)? {
        Some(Item::Text(text)) => Ok(text),
        _ => Err(InfoFault::MissingDevmod(key)),
    }
}

fn read_count(alloc: Global, pairs: &[Pair]) -> Result<u64, InfoFault>
    ensures { Answers (needed unsigned_of DevmodKey.NumModules pairs.now) result }
{
    match read_value(alloc, pairs, DevmodKey::NumModules)? {
        Some(Item::Uint(count)) => Ok(count),
        _ => Err(InfoFault::MissingDevmod(DevmodKey::NumModules)),
    }
}

/// The item beside the first pair that has the key.
fn read_value(alloc: Global, pairs: &[Pair], key: DevmodKey) -> Result<Option<Item>, NoMemory>
    ensures { IfOk result (λ item. item ≡ value_at key pairs.now) }
{
    match find_value(pairs, key) {
        Some(value) => read_item(alloc, value.as_list()),
        None => Ok(None),
    }
}

fn find_value(pairs: &[Pair], key: DevmodKey) -> Option<&Blob>
    ensures { option_copied result ≡ option_map (λ pair. pair.value) (find (is_of_key (key_text key)) pairs.now) }
{
    for pair in pairs {
        if has_key(pair, key) {
            return Some(&pair.value);
        }
    }
    None
}

pub(crate) fn has_key(pair: &Pair, key: DevmodKey) -> bool
    ensures { result ≡ is_of_key (key_text key) pair.now }
{
    pair.key.as_list() == key.text()
}
