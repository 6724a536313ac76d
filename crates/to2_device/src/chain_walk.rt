ghost use Rattle.std.specs.Prelude.{◌<◌};

use crate::checks::want;
use crate::hearing::hear_entry;
use crate::idle::Idle;
use crate::walk::{LastEntry, Walk};
use crate::walked::Walked;
use credential_store::CredentialStore;
use disk_port::{Disk, Pick, Stops};
use fdo_msgs::{Cause, Next, Packet};
use fdo_ports::Random;
use fdo_rules::{OvNextEntry, Unfit};
use std::alloc::Global;
use suite_port::Suite;
use voucher_chain::{ChainFault, Entry, check_entry};

/// A device that has asked for an entry of the voucher, and takes TO2.OVNextEntry (63). Of the entries it keeps the last one's
/// bytes and key.
#[derive(Drop)]
pub struct ChainWalk<D: Disk> {
    pub(crate) walk: Walk<D>,
    ghost asked: { walk.index < walk.shown.payload.entries },
}

impl<D: Disk> ChainWalk<D> {
    ghost use Rattle.std.specs.Prelude.{◌≡◌, true, IfOk, MatchResult};
    ghost use Rattle.fdo_rules.specs.DeviceTo2.{entry_checks, next_checks, ov_next_entry_row, walk_on, with_token};
    ghost use Rattle.fdo_rules.specs.Suite.{suite_of};
    ghost use Rattle.to2_device.specs.Lent.{lent};
    ghost use Rattle.to2_device.specs.Steps.{Keeps, Steps};
    ghost use Rattle.to2_device.specs.Told.{Tells};
    ghost use Rattle.to2_device.specs.Views.{idle_walked, on_the_walk, self_of, walk_of};

    /// Takes the entry that it asked for, asks for the next one (62), or after the last one proves itself (64). The suite's
    /// signer holds the attestation key.
    pub fn on<S: Suite, N: Random>(
        self,
        alloc: Global,
        suite: &mut S,
        random: &mut N,
        packet: &Packet,
    ) -> Next<Walked<D>, Idle<D>>
        requires held { S.Holder.held suite.old self.walk.session.idle.me ≡ true }
        ensures step { Steps S.Signer.signs on_the_walk (ov_next_entry_row (suite_of S.Verifier.verifies S.Signer.algorithm S.Kex.agrees S.Kex.first_of S.Kex.second_of S.Kex.finish_of S.Aead.bits S.Aead.seals S.Aead.opens S.CertReader.key_in S.CertReader.issues) (walk_of self.walk) packet.now) (lent N.Random random.old S.Holder suite.old) result (lent N.Random random.new S.Holder suite.new) }
        ensures idle { Keeps idle_walked self.walk.session.idle result }
        ensures held { S.Holder.held suite.new ≡ S.Holder.held suite.old }
    {
        match self.check(alloc, suite, packet) {
            Ok(next) => match self.walk_on(next.entry, packet) {
                Ok(walk) => walk.go_on(alloc, suite, random, packet),
                Err(idle) => Next::NoMemory(idle),
            },
            Err(why) => self.stop().refuse(alloc, why, packet),
        }
    }

    /// The first cause of a refusal.
    #[tactic(auto, unfolding(fdo_rules::specs::DeviceTo2::entry_checks))]
    fn check<S: Suite>(
        &self,
        alloc: Global,
        suite: &mut S,
        packet: &Packet,
    ) -> Result<OvNextEntry, Unfit>
        ensures told { Tells (entry_checks (suite_of S.Verifier.verifies S.Signer.algorithm S.Kex.agrees S.Kex.first_of S.Kex.second_of S.Kex.finish_of S.Aead.bits S.Aead.seals S.Aead.opens S.CertReader.key_in S.CertReader.issues) (walk_of self.now.walk) packet.now) result }
        ensures held { S.Holder.held suite.new ≡ S.Holder.held suite.old }
        ensures faults { S.Holder.faults suite.new ≡ S.Holder.faults suite.old }
    {
        match hear_entry(alloc, packet) {
            Ok(next) => self.check_heard(alloc, suite, next),
            Err(why) => Err(why),
        }
    }

    ghost use Rattle.std.specs.Prelude.{Ok};
    ghost use Rattle.fdo_rules.specs.Checks.{◌>>=◌ as ◌then◌};

    /// The entry, where that is right.
    fn check_heard<S: Suite>(
        &self,
        alloc: Global,
        suite: &mut S,
        next: OvNextEntry,
    ) -> Result<OvNextEntry, Unfit>
        ensures told { Tells (next_checks (suite_of S.Verifier.verifies S.Signer.algorithm S.Kex.agrees S.Kex.first_of S.Kex.second_of S.Kex.finish_of S.Aead.bits S.Aead.seals S.Aead.opens S.CertReader.key_in S.CertReader.issues) (walk_of self.now.walk) next then λ _. Ok next) result }
        ensures held { S.Holder.held suite.new ≡ S.Holder.held suite.old }
        ensures faults { S.Holder.faults suite.new ≡ S.Holder.faults suite.old }
    {
        match self.check_next(alloc, suite, &next) {
            Ok(()) => Ok(next),
            Err(why) => Err(why),
        }
    }

    /// Of the entry.
    fn check_next<S: Suite>(
        &self,
        alloc: Global,
        suite: &mut S,
        next: &OvNextEntry,
    ) -> Result<(), Unfit>
        ensures told { Tells (next_checks (suite_of S.Verifier.verifies S.Signer.algorithm S.Kex.agrees S.Kex.first_of S.Kex.second_of S.Kex.finish_of S.Aead.bits S.Aead.seals S.Aead.opens S.CertReader.key_in S.CertReader.issues) (walk_of self.now.walk) next.now) result }
        ensures held { S.Holder.held suite.new ≡ S.Holder.held suite.old }
        ensures faults { S.Holder.faults suite.new ≡ S.Holder.faults suite.old }
    {
        want(
            next.number == self.walk.index,
            Cause::EntryNumber(next.number),
        )?;
        self.check_link(alloc, suite, &next.entry)
    }

    ghost use Rattle.voucher_chain.specs.Chain.{entry_break};
    ghost use Rattle.fdo_rules.specs.DeviceTo2.{chain_check};
    ghost use Rattle.to2_device.specs.Views.{before_of, key_of};

    /// That it goes on from the one before.
    fn check_link<S: Suite>(&self, alloc: Global, suite: &mut S, entry: &Entry) -> Result<(), Unfit>
        ensures told { Tells (chain_check (entry_break S.Verifier.verifies self.now.walk.shown.payload.header self.now.walk.index (before_of self.now.walk.shown self.now.walk.last) (key_of self.now.walk.shown self.now.walk.last) entry.now)) result }
        ensures held { S.Holder.held suite.new ≡ S.Holder.held suite.old }
        ensures faults { S.Holder.faults suite.new ≡ S.Holder.faults suite.old }
    {
        let (first, second) = self.walk.before();
        let checked = check_entry(
            alloc,
            suite,
            self.walk.index,
            self.walk.owner(),
            first,
            second,
            &self.walk.shown.payload.header,
            entry,
        );
        fit_link(checked)
    }

    /// The walk behind the entry. Where memory runs out the device is handed back.
    fn walk_on(self, entry: Entry, packet: &Packet) -> Result<Walk<D>, Idle<D>>
        ensures walk { IfOk result (λ walk. walk_of walk ≡ walk_on (with_token (self_of self.walk.session) packet.now) (walk_of self.walk) entry) }
        ensures idle { MatchResult result (λ walk. walk.session.idle ≡ self.walk.session.idle) (λ idle. idle ≡ self.walk.session.idle) }
    {
        let ChainWalk { walk } = self;
        let Walk {
            session,
            shown,
            index,
            last: _,
        } = walk;
        let session = session.hear_token(packet)?;
        let Entry {
            raw,
            prev: _,
            hdr: _,
            extra: _,
            key,
            sign: _,
        } = entry;
        Ok(Walk {
            session,
            shown,
            index: index + 1,
            last: Some(LastEntry { raw, key }),
        })
    }

    /// Gives the session up.
    pub fn stop(self) -> Idle<D>
        ensures { result ≡ self.walk.session.idle }
    {
        let ChainWalk { walk } = self;
        walk.stop()
    }

    /// The store.
    pub fn store(&self) -> &CredentialStore<D>
        ensures { result.now ≡ self.now.walk.session.idle.store }
    {
        self.walk.session.idle.store()
    }
}

ghost use Rattle.std.specs.Prelude.{Option};
ghost use Rattle.voucher_chain.specs.Chain.{checked as checked_so};
ghost use Rattle.voucher_chain.specs.Fault.{Answers};
ghost use Rattle.voucher_chain.specs.declared.fault.ChainFault.{ChainFault};
ghost use Rattle.fdo_rules.specs.DeviceTo2.{chain_check as is_linked};
ghost use Rattle.to2_device.specs.Told.{Tells as TellsLink};

/// An entry that does not go on is the cause of a refusal.
fn fit_link(checked: Result<(), ChainFault>) -> Result<(), Unfit>
    ensures { (told : Option ChainFault) → Answers (checked_so told) checked → TellsLink (is_linked told) result }
{
    match checked {
        Ok(()) => Ok(()),
        Err(ChainFault::NoMemory) => Err(Unfit::NoMemory),
        Err(fault) => Err(Unfit::For(Cause::Chain(fault))),
    }
}

impl<D: Stops> ChainWalk<D> {
    ghost use Rattle.std.specs.Prelude.{◌≡◌};
    ghost use Rattle.to2_device.specs.Stopping.{StopsAt};

    /// Stops the store's disk at this call from now on. Nothing else changes.
    pub fn stop_at(&mut self, call: u64, pick: Pick)
        ensures store { StopsAt D.Disk self.old.walk.session.idle.store self.new.walk.session.idle.store }
        ensures me { self.new.walk.session.idle.me ≡ self.old.walk.session.idle.me }
    {
        self.walk.session.idle.stop_at(call, pick);
    }
}
