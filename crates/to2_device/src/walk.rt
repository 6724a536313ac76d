ghost use Rattle.std.specs.Prelude.{◌≡◌, ◌++◌, ◌<◌, true, IfOk};
ghost use Rattle.fdo_msgs.specs.Kind.{get_ov_next_entry};
ghost use Rattle.fdo_rules.specs.Checks.{fits_peer as peer_takes};
ghost use Rattle.fdo_rules.specs.DeviceTo2.{asks, entry_asked, sent, walks};
ghost use Rattle.fdo_rules.specs.Suite.{suite_of};
ghost use Rattle.to2_device.specs.Lent.{lent};
ghost use Rattle.to2_device.specs.Steps.{Gives, Keeps, Steps};
ghost use Rattle.to2_device.specs.Told.{Tells};
ghost use Rattle.to2_device.specs.Views.{before_of, idle_walked, key_of, on_the_walk, self_of, walk_of};

use crate::chain_walk::ChainWalk;
use crate::idle::Idle;
use crate::replying::copy_token;
use crate::session::Session;
use crate::walked::Walked;
use cbor_core::{Blob, NoMemory};
use disk_port::Disk;
use fdo_msgs::{Msg, Next, Packet};
use fdo_ports::Random;
use fdo_rules::{ProveOvHdr, Unfit};
use key_codec::PublicKey;
use std::alloc::Global;
use suite_port::Suite;
use to2_channel::fits_peer;

/// The last entry that was taken: its bytes as received, and its key.
#[derive(Drop)]
pub struct LastEntry {
    pub(crate) raw: Blob,
    pub(crate) key: PublicKey,
}

/// A walk along a voucher's entries.
#[derive(Drop)]
pub struct Walk<D: Disk> {
    pub(crate) session: Session<D>,
    pub(crate) shown: ProveOvHdr,
    /// How many entries were taken.
    pub(crate) index: u8,
    pub(crate) last: Option<LastEntry>,
}

impl<D: Disk> Walk<D> {
    /// Asks for the next entry, or after the last one proves itself.
    pub(crate) fn go_on<S: Suite, N: Random>(
        self,
        alloc: Global,
        suite: &mut S,
        random: &mut N,
        packet: &Packet,
    ) -> Next<Walked<D>, Idle<D>>
        requires held { S.Holder.held suite.old self.session.idle.me ≡ true }
        ensures step { Steps S.Signer.signs on_the_walk (walks (suite_of S.Verifier.verifies S.Signer.algorithm S.Kex.agrees S.Kex.first_of S.Kex.second_of S.Kex.finish_of S.Aead.bits S.Aead.seals S.Aead.opens S.CertReader.key_in S.CertReader.issues) (walk_of self) packet.now) (lent N.Random random.old S.Holder suite.old) result (lent N.Random random.new S.Holder suite.new) }
        ensures idle { Keeps idle_walked self.session.idle result }
        ensures held { S.Holder.held suite.new ≡ S.Holder.held suite.old }
    {
        if self.index < self.shown.payload.entries {
            self.ask(alloc, packet)
        } else {
            self.prove(alloc, suite, random, packet)
        }
    }

    /// Asks for the next entry.
    fn ask(self, alloc: Global, packet: &Packet) -> Next<Walked<D>, Idle<D>>
        requires { self.index < self.shown.payload.entries }
        ensures moved { Gives on_the_walk (asks (walk_of self) packet.now (peer_takes self.shown.payload.max_size (entry_asked (walk_of self)))) result }
        ensures idle { Keeps idle_walked self.session.idle result }
    {
        let asked = match self.make_ask(alloc) {
            Ok(asked) => asked,
            Err(_) => return Next::NoMemory(self.stop()),
        };
        match fits_peer(self.shown.payload.max_size, asked.body.as_list()) {
            Ok(()) => Next::On(Walked::Chain(ChainWalk { walk: self }), asked),
            Err(why) => self.stop().refuse(alloc, why, packet),
        }
    }

    fn make_ask(&self, alloc: Global) -> Result<Packet, NoMemory>
        ensures { IfOk result (λ asked. asked ≡ sent (self_of self.now.session) get_ov_next_entry (entry_asked (walk_of self.now))) }
    {
        let token = copy_token(&self.session.token)?;
        let message = Msg::GetOvNextEntry(self.index);
        let asked = Packet::of(alloc, token, &message);
        drop(message);
        asked
    }

    /// Gives the session up.
    pub(crate) fn stop(self) -> Idle<D>
        ensures { result ≡ self.session.idle }
    {
        let Walk {
            session,
            shown: _,
            index: _,
            last: _,
        } = self;
        session.stop()
    }

    /// The bytes before the next entry, in two pieces.
    pub(crate) fn before(&self) -> (&[u8], &[u8])
        ensures { result.0.now ++ result.1.now ≡ before_of self.now.shown self.now.last }
    {
        match &self.last {
            Some(last) => (last.raw.as_list(), &[]),
            None => (
                self.shown.payload.header.raw.as_list(),
                self.shown.payload.hmac_raw.as_list(),
            ),
        }
    }

    /// The key of the owner before it.
    pub(crate) fn owner(&self) -> &PublicKey
        ensures { result.now ≡ key_of self.now.shown self.now.last }
    {
        match &self.last {
            Some(last) => &last.key,
            None => &self.shown.payload.header.key,
        }
    }
}
