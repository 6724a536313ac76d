ghost use Rattle.std.specs.Prelude.{◌≡◌, ◌≤◌, [], length, true, not, IsTrue, if◌then◌else◌};
ghost use Rattle.std.specs.Option.{option_copied};
ghost use Rattle.registry.specs.Entries.{found, is_full, has_place, with_place, all_living, living, Registers};

use indexmap::IndexMap;
use std::alloc::Global;
use std::marker::Model;

/// The most registrations that are kept.
pub const MOST_REGISTRATIONS: usize = 4096;

/// What is registered, and when it ends.
#[derive(Debug, Drop)]
pub struct Registration<T> {
    pub value: T,
    /// The first second, counted from 1970-01-01 00:00:00 UTC, in which it is no longer registered.
    pub end: u64,
}

/// Why nothing is registered.
#[derive(Clone, Copy, Debug, PartialEq, Eq)]
pub enum RegisterFault {
    /// 4,096 registrations are kept for other devices, and none of them has ended.
    Full,
    NoMemory,
}

/// The registrations of a rendezvous server, each for one device, by its Guid. Contracts see the list of them in the
/// order in which their devices came.
#[derive(Drop)]
pub struct Registry<T> {
    entries: IndexMap<[u8; 16], Registration<T>>,
}

impl<T> Model for Registry<T> {
    ghost use Rattle.std.specs.Prelude.{List, ℕ, ◌≤◌, length};
    ghost use Rattle.registry.specs.declared.registry.Registration.{Registration};

    ghost Value = { List (List ℕ × Registration T) };

    ghost view = { λ r. r.entries.entries };

    ghost invariant = { λ r. length r.entries.entries ≤ 4096 };
}

impl<T: Drop> Registry<T> {
    /// A registry without a registration.
    pub fn new(alloc: Global) -> Registry<T>
        ensures { result ≡ [] }
    {
        Registry {
            entries: IndexMap::new(alloc),
        }
    }

    /// How many registrations are kept, ended ones among them.
    pub fn count(&self) -> usize
        ensures count { result ≡ length self.now }
        ensures most { result ≤ 4096 }
    {
        self.entries.len()
    }

    /// What is registered for a Guid at a second.
    pub fn find(&self, now: u64, guid: &[u8; 16]) -> Option<&T>
        ensures { option_copied result ≡ found now guid.now self.now }
    {
        match self.entries.get(guid) {
            Some(registration) if now < registration.end => Some(&registration.value),
            _ => None,
        }
    }

    /// Whether a registration for a Guid would find no place at a second.
    pub fn is_full(&self, now: u64, guid: &[u8; 16]) -> bool
        ensures { result ≡ is_full now guid.now self.now }
    {
        !self.has_place(guid) && self.all_live(now)
    }

    /// Registers for a Guid. One that was registered for it before is gone.
    pub fn register(
        &mut self,
        now: u64,
        guid: [u8; 16],
        registration: Registration<T>,
    ) -> Result<(), RegisterFault>
        // Where memory runs out, registrations that have ended may be gone, and no other.
        ensures { Registers now guid registration self.old result self.new }
    {
        if !self.make_place(now, &guid) {
            return Err(RegisterFault::Full);
        }
        match self.entries.insert(guid, registration) {
            Ok(_) => Ok(()),
            Err(_) => Err(RegisterFault::NoMemory),
        }
    }

    /// Makes a place for a registration, and says whether there is one.
    #[tactic(auto, using(crate::proofs::Places::placed))]
    fn make_place(&mut self, now: u64, guid: &[u8; 16]) -> bool
        ensures full { result ≡ not (is_full now guid.now self.old) }
        ensures placed { IsTrue result → has_place guid.now self.new ≡ true }
        ensures entries { self.new ≡ (if result then with_place now guid.now self.old else self.old) }
    {
        if self.has_place(guid) {
            return true;
        }
        if self.all_live(now) {
            return false;
        }
        self.drop_ended(now);
        true
    }

    /// Drops the registrations that have ended.
    fn drop_ended(&mut self, now: u64)
        ensures { self.new ≡ living now self.old }
    {
        self.entries.retain(|_, kept| now < kept.end);
    }

    fn has_place(&self, guid: &[u8; 16]) -> bool
        ensures { result ≡ has_place guid.now self.now }
    {
        self.entries.contains_key(guid) || self.entries.len() < MOST_REGISTRATIONS
    }

    fn all_live(&self, now: u64) -> bool
        ensures living { result ≡ all_living now self.now }
        ensures most { length self.now ≤ 4096 }
    {
        for (_, registration) in self.entries.iter() {
            if now >= registration.end {
                return false;
            }
        }
        true
    }
}
