ghost use Rattle.std.specs.Prelude.{◌≡◌, ◌++◌, ◌+◌, ◌<◌, ◌^◌, Ok, None, true, false, length, IfOk, OnOk};
ghost use Rattle.std.specs.List.{AllByRecursion};
ghost use Rattle.std.specs.Str.{is_utf8};
ghost use Rattle.cbor_core.specs.declared.item.Item.TheVariants as items;
ghost use Rattle.cbor_core.specs.Deterministic.{det};
ghost use Rattle.service_info.specs.Devmod.{devmod_of};
ghost use Rattle.service_info.specs.DevmodKey.{key_text};
ghost use Rattle.service_info.specs.Shipped.{item_of_names, pair_of as the_pair_of, pairs_of as the_pairs_of, shipped, texts_of, IsText};
ghost use Rattle.service_info.specs.Turn.{refusal};

use crate::devmod_key::DevmodKey;
use crate::pair::Pair;
use cbor_core::{Blob, NoMemory, Text, write_head};
use std::alloc::Global;

/// The devmod pairs of a device of ours, which says `info` of itself and has these modules.
#[tactic(auto, using(crate::proofs::ShippedLaws::shipped_back))]
pub fn devmod_pairs(alloc: Global, info: &Text, modules: &[Text]) -> Result<Vec<Pair>, NoMemory>
    ensures pairs { IfOk result (λ pairs. pairs.items ≡ the_pairs_of (shipped info.now modules.now)) }
    // They are taken, and read back.
    ensures taken { IfOk result (λ pairs. refusal false pairs.items ≡ None) }
    ensures back { IfOk result (λ pairs. devmod_of pairs.items ≡ Ok (shipped info.now modules.now)) }
{
    match pairs_of(alloc, info.as_list(), modules) {
        Ok(pairs) => Ok(pairs),
        Err(NoMemory) => Err(NoMemory),
    }
}

fn pairs_of(alloc: Global, info: &str, modules: &[Text]) -> Result<Vec<Pair>, NoMemory>
    ensures pairs { IfOk result (λ pairs. pairs.items ≡ the_pairs_of (shipped info.now modules.now)) }
    ensures texts { IfOk result (λ _. AllByRecursion IsText (texts_of (shipped info.now modules.now))) }
    ensures few { IfOk result (λ _. length modules.now + 2 < 2 ^ 64) }
{
    let mut pairs = Vec::with_capacity(alloc, 8)?;
    pairs.push(active_pair(alloc)?)?;
    pairs.push(text_pair(alloc, DevmodKey::Os, "linux")?)?;
    pairs.push(text_pair(alloc, DevmodKey::Arch, "lab")?)?;
    pairs.push(text_pair(alloc, DevmodKey::Version, "1")?)?;
    pairs.push(text_pair(alloc, DevmodKey::Device, info)?)?;
    pairs.push(text_pair(alloc, DevmodKey::Bin, "lab")?)?;
    pairs.push(count_pair(alloc, modules.len() as u64)?)?;
    pairs.push(names_pair(alloc, modules)?)?;
    Ok(pairs)
}

fn pair_of(alloc: Global, key: DevmodKey, value: Vec<u8>) -> Result<Pair, NoMemory>
    ensures { IfOk result (λ pair. pair ≡ record { key = key_text key; value = value.items }) }
{
    Ok(Pair {
        key: Text::from_str(alloc, key.text())?,
        value: Blob::new(value),
    })
}

#[tactic(auto, using(crate::proofs::ShippedLaws::det_of_simple))]
fn active_pair(alloc: Global) -> Result<Pair, NoMemory>
    ensures { IfOk result (λ pair. pair ≡ the_pair_of DevmodKey.Active (items.Simple 21)) }
{
    let mut value = Vec::new(alloc);
    write_head(&mut value, 7, 21)?;
    pair_of(alloc, DevmodKey::Active, value)
}

#[tactic(auto, using(crate::proofs::ShippedLaws::det_of_uint))]
fn count_pair(alloc: Global, count: u64) -> Result<Pair, NoMemory>
    ensures { IfOk result (λ pair. pair ≡ the_pair_of DevmodKey.NumModules (items.Uint count)) }
{
    let mut value = Vec::new(alloc);
    write_head(&mut value, 0, count)?;
    pair_of(alloc, DevmodKey::NumModules, value)
}

fn text_pair(alloc: Global, key: DevmodKey, text: &str) -> Result<Pair, NoMemory>
    ensures pair { IfOk result (λ pair. pair ≡ the_pair_of key (items.Text text.now)) }
    ensures text { IfOk result (λ _. IsText text.now) }
{
    let mut value = Vec::new(alloc);
    write_text(&mut value, text)?;
    pair_of(alloc, key, value)
}

fn names_pair(alloc: Global, names: &[Text]) -> Result<Pair, NoMemory>
    ensures pair { IfOk result (λ pair. pair ≡ the_pair_of DevmodKey.Modules (item_of_names names.now)) }
    ensures texts { IfOk result (λ _. AllByRecursion IsText names.now) }
    ensures few { IfOk result (λ _. length names.now + 2 < 2 ^ 64) }
{
    let value = names_value(alloc, names)?;
    pair_of(alloc, DevmodKey::Modules, value)
}

#[tactic(auto, using(crate::proofs::ShippedLaws::all_next))]
fn names_value(alloc: Global, names: &[Text]) -> Result<Vec<u8>, NoMemory>
    ensures value { IfOk result (λ value. value.items ≡ det (item_of_names names.now)) }
    ensures texts { IfOk result (λ _. AllByRecursion IsText names.now) }
    ensures few { IfOk result (λ _. length names.now + 2 < 2 ^ 64) }
{
    let mut value = Vec::new(alloc);
    write_head(&mut value, 4, names.len() as u64 + 2)?;
    write_head(&mut value, 0, 0)?;
    write_head(&mut value, 0, names.len() as u64)?;
    for name in names {
        write_text(&mut value, name.as_list())?;
    }
    Ok(value)
}

#[tactic(auto, using(crate::proofs::ShippedLaws::text_written, crate::proofs::ShippedLaws::utf8_of))]
fn write_text(out: &mut Vec<u8>, text: &str) -> Result<(), NoMemory>
    ensures bytes { OnOk result (out.new.items ≡ out.old.items ++ det (items.Text text.now)) }
    ensures short { OnOk result (length text.now < 2 ^ 64) }
    ensures utf8 { OnOk result (is_utf8 text.now ≡ true) }
{
    let length = text.len() as u64;
    write_head(out, 3, length)?;
    out.extend_from_slice(text.as_bytes())?;
    Ok(())
}
