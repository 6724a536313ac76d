ghost use Rattle.std.specs.Prelude.{◌≡◌, ◌-◌, ◌++◌, ◌∷◌, ℕ, [], Bool, length, false, Ok, OnOk, IfOk, IfSome};
ghost use Rattle.std.specs.List.{list_any};
ghost use Rattle.std.specs.Ordering.{nat_cmp, is_lt};
ghost use Rattle.std.specs.Cmp.Lexicographic.{slice_cmp};
ghost use Rattle.std.specs.BTreeSet.{insert_key};
ghost use Rattle.cbor_core.specs.declared.item.Item.{Item};
ghost use Rattle.cbor_core.specs.Deterministic.{det};
ghost use Rattle.cbor_core.specs.Keys.{key_set, is_settled, Keeps};
ghost use Rattle.cbor_core.specs.Reading.{Gives, admitted, key_spellings, item_at};

use crate::blob::Blob;
use crate::fault::CborFault;
use crate::head::{Head, Major};
use crate::item::Item;
use crate::no_memory::NoMemory;
use crate::read_head::read_head;
use crate::write::write_det;
use std::alloc::Global;
use std::cmp::Ordering;
use std::collections::BTreeSet;

/// What is kept of the keys of a map that is read: while each is above those before it, the spelling of the last one
/// as received, and else the spellings of all.
#[derive(Drop)]
pub struct Keys<'a> {
    rising: bool,
    last: &'a [u8],
    all: BTreeSet<Blob>,
}

impl<'a> Keys<'a> {
    pub(crate) fn new(alloc: Global) -> Keys<'a>
        ensures { Keeps result [] }
    {
        Keys {
            rising: true,
            last: b"".as_slice(),
            all: BTreeSet::new(alloc),
        }
    }

    /// Takes a key beside the keys of the pairs before it, or answers the fault that it makes. Its bytes as received
    /// are given where they are its deterministic spelling.
    #[tactic(auto, using(crate::proofs::Rising::top_admits, crate::proofs::Rising::top_more))]
    pub(crate) fn admit(
        &mut self,
        alloc: Global,
        strict: bool,
        place: usize,
        pairs: &[(Item, Item)],
        key: &Item,
        received: Option<&'a [u8]>,
    ) -> Result<(), CborFault>
        requires kept { Keeps self.old (key_spellings pairs.now) }
        requires spelled { IfSome received (λ text. text.now ≡ det key.now) }
        ensures gives { Gives (λ x. x) result (admitted strict place (key_spellings pairs.now) (det key.now)) }
        ensures kept { OnOk result (Keeps self.new (key_spellings pairs.now ++ det key.now ∷ [])) }
    {
        let Some(text) = received else {
            return self.compare(alloc, strict, place, pairs, key);
        };
        if self.rising && is_below(self.last, text) {
            self.last = text;
            Ok(())
        } else {
            self.compare(alloc, strict, place, pairs, key)
        }
    }

    /// The same by the spellings of all.
    #[tactic(auto, using(crate::proofs::KeySets::admitted_by_set, crate::proofs::KeySets::set_push))]
    fn compare(
        &mut self,
        alloc: Global,
        strict: bool,
        place: usize,
        pairs: &[(Item, Item)],
        key: &Item,
    ) -> Result<(), CborFault>
        requires { Keeps self.old (key_spellings pairs.now) }
        ensures gives { Gives (λ x. x) result (admitted strict place (key_spellings pairs.now) (det key.now)) }
        ensures kept { OnOk result (Keeps self.new (key_spellings pairs.now ++ det key.now ∷ [])) }
    {
        self.spell_all(alloc, pairs)?;
        admit(strict, place, &mut self.all, write_det(alloc, key)?)
    }

    fn spell_all(&mut self, alloc: Global, pairs: &[(Item, Item)]) -> Result<(), NoMemory>
        requires { Keeps self.old (key_spellings pairs.now) }
        ensures { OnOk result ((self.new.rising ≡ false) × (self.new.all.keys ≡ key_set (key_spellings pairs.now))) }
    {
        if self.rising {
            self.all = spell_keys(alloc, pairs)?;
            self.rising = false;
        }
        Ok(())
    }
}

pub(crate) fn is_below(a: &[u8], b: &[u8]) -> bool
    ensures { result ≡ is_lt (slice_cmp nat_cmp a.now b.now) }
{
    match a.cmp(&b) {
        Ordering::Less => true,
        _ => false,
    }
}

/// The deterministic spellings of the keys of pairs.
fn spell_keys(alloc: Global, pairs: &[(Item, Item)]) -> Result<BTreeSet<Blob>, NoMemory>
    ensures { IfOk result (λ keys. keys.keys ≡ key_set (key_spellings pairs.now)) }
{
    let mut keys = BTreeSet::new(alloc);
    for (key, _value) in pairs {
        keys.insert(write_det(alloc, key)?)?;
    }
    Ok(keys)
}

/// The bytes of the item at the front, where its head says that they are its deterministic spelling.
pub(crate) fn as_received<'a>(place: usize, bytes: &'a [u8], rest: &[u8]) -> Option<&'a [u8]>
    ensures { (strict : Bool) (total levels : ℕ) (x : Item) → place ≡ total - length bytes.now → item_at strict total levels bytes.now ≡ Ok (x, rest.now) → IfSome result (λ text. text.now ≡ det x) }
{
    match read_head(place, bytes) {
        Ok((head, _content)) => {
            if settles(head) {
                Some(bytes.split_at(bytes.len().saturating_sub(rest.len())).0)
            } else {
                None
            }
        }
        Err(_) => None,
    }
}

fn settles(head: Head) -> bool
    ensures { result ≡ is_settled head }
{
    match head {
        Head::Sized(Major::Unsigned, shortest, _) => shortest,
        Head::Sized(Major::Negative, shortest, _) => shortest,
        Head::Sized(Major::Bytes, shortest, _) => shortest,
        Head::Sized(Major::Text, shortest, _) => shortest,
        _ => false,
    }
}

/// Takes a key's spelling beside those of the keys before it, or answers the fault that it makes.
pub(crate) fn admit(
    strict: bool,
    place: usize,
    keys: &mut BTreeSet<Blob>,
    key: Blob,
) -> Result<(), CborFault>
    ensures gives { Gives (λ x. x) result (admitted strict place keys.old.keys key) }
    ensures keys { OnOk result (keys.new.keys ≡ insert_key (slice_cmp nat_cmp) keys.old.keys key) }
{
    if keys.contains(&key) {
        return Err(CborFault::Duplicate(place));
    }
    if strict && is_passed(keys, &key) {
        return Err(CborFault::NotDeterministic(place));
    }
    keys.insert(key)?;
    Ok(())
}

/// Whether a key stands above this one.
fn is_passed(keys: &BTreeSet<Blob>, key: &Blob) -> bool
    ensures { result ≡ list_any (λ k. is_lt (slice_cmp nat_cmp key.now k)) keys.now.keys }
{
    match keys.last() {
        Some(last) => *key < *last,
        None => false,
    }
}
