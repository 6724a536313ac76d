ghost use Rattle.std.specs.Prelude.{◌≡◌, ◌⊎◌, ◌≤◌, ◌<◌, ◌+◌, ◌^◌, length, IfOk};
ghost use Rattle.fdo_rules.specs.Channel.{fresh as fresh_channel, is_taken as has_taken, opened as opened_by, counted, sealed as sealed_by, sealed_in, sealed_short, taken_once, unseen, with_taken as taken_after, with_used as used_after};
ghost use Rattle.fdo_rules.specs.Suite.{sealing_by};
ghost use Rattle.fdo_rules.specs.Unfit.{Checks};
ghost use Rattle.to2_channel.specs.Side.{side_of};
ghost use Rattle.to2_channel.specs.View.{Gives, channel_of};

use crate::bounds::{fits_peer, fits_plain};
use crate::enveloping::{open_under, seal_under};
use crate::side::Side;
use cbor_core::{Blob, NoMemory};
use fdo_msgs::Cause;
use fdo_rules::Unfit;
use hash_hmac::session_key;
use std::alloc::Global;
use suite_port::Suite;

/// The sealed messages of a session, as one end has them.
#[derive(Drop)]
pub struct Channel {
    cipher: i64,
    key: [u8; 32],
    /// The initialization vectors of the other end that were taken.
    taken: Vec<[u8; 12]>,
    /// How many own ones were used.
    used: u64,
}

impl Channel {
    /// The channel of a new session, under the key that a shared secret gives for a cipher whose key has so many bits.
    pub fn fresh(alloc: Global, cipher: i64, bits: u16, shared: &[u8]) -> Channel
        requires { (bits ≡ 128) ⊎ (bits ≡ 256) }
        ensures channel { channel_of result ≡ fresh_channel cipher bits shared.now }
        ensures unused { result.used ≡ 0 }
    {
        Channel {
            cipher,
            key: session_key(shared, bits),
            taken: Vec::new(alloc),
            used: 0,
        }
    }

    /// Opens a body that the other end sealed. The refusals come in this order: `Body`, where it is no envelope of the form;
    /// `NotOpened`; `SeenIv`, where its initialization vector was taken before. Where it opens, that is taken.
    pub fn open<S: Suite>(
        self,
        alloc: Global,
        suite: &mut S,
        body: &[u8],
    ) -> Result<(Blob, Channel), Unfit>
        ensures told { Gives (unseen (sealing_by S.Aead.bits S.Aead.seals S.Aead.opens) (channel_of self) body.now) result }
        ensures used { IfOk result (λ both. both.1.used ≡ self.used) }
        ensures held { S.Holder.held suite.new ≡ S.Holder.held suite.old }
        ensures faults { S.Holder.faults suite.new ≡ S.Holder.faults suite.old }
    {
        match self.opened(alloc, suite, body) {
            Ok(both) => self.take(both),
            Err(why) => Err(why),
        }
    }

    /// Takes the vector of what is opened.
    fn take(self, both: ([u8; 12], Blob)) -> Result<(Blob, Channel), Unfit>
        ensures told { Gives (taken_once (channel_of self) both) result }
        ensures used { IfOk result (λ both. both.1.used ≡ self.used) }
    {
        let (iv, plain) = both;
        if self.has_taken(&iv) {
            return Err(Unfit::For(Cause::SeenIv));
        }
        match self.with_taken(iv) {
            Ok(channel) => Ok((plain, channel)),
            Err(_) => Err(Unfit::NoMemory),
        }
    }

    fn opened<S: Suite>(
        &self,
        alloc: Global,
        suite: &mut S,
        body: &[u8],
    ) -> Result<([u8; 12], Blob), Unfit>
        ensures told { Checks (opened_by (sealing_by S.Aead.bits S.Aead.seals S.Aead.opens) (channel_of self.now) body.now) result }
        ensures held { S.Holder.held suite.new ≡ S.Holder.held suite.old }
        ensures faults { S.Holder.faults suite.new ≡ S.Holder.faults suite.old }
    {
        open_under(alloc, suite, self.cipher, &self.key, body)
    }

    fn has_taken(&self, iv: &[u8; 12]) -> bool
        ensures { result ≡ has_taken (channel_of self.now) iv.now }
    {
        self.taken
            .as_slice()
            .iter()
            .any(|taken| iv.as_slice() == taken.as_slice())
    }

    fn with_taken(self, iv: [u8; 12]) -> Result<Channel, NoMemory>
        ensures channel { IfOk result (λ channel. channel_of channel ≡ taken_after iv (channel_of self)) }
        ensures used { IfOk result (λ channel. channel.used ≡ self.used) }
    {
        let Channel {
            cipher,
            key,
            mut taken,
            used,
        } = self;
        taken.push(iv)?;
        Ok(Channel {
            cipher,
            key,
            taken,
            used,
        })
    }

    /// Seals a plain text under the next initialization vector of an end. The refusals come in this order: `Size`, where the
    /// text has more than 16,777,216 bytes; `NoAlgorithm`, where the suite does not have the cipher; `Size`, where the body
    /// has more bytes than the other end takes, which states the most or 0.
    pub fn seal<S: Suite>(
        self,
        alloc: Global,
        suite: &mut S,
        side: Side,
        most: u16,
        plain: &[u8],
    ) -> Result<(Blob, Channel), Unfit>
        requires { self.used < 2 ^ 63 }
        ensures told { Gives (sealed_in (sealing_by S.Aead.bits S.Aead.seals S.Aead.opens) (channel_of self) (side_of side) most plain.now) result }
        ensures used { IfOk result (λ both. both.1.used ≡ self.used + 1) }
        ensures held { S.Holder.held suite.new ≡ S.Holder.held suite.old }
        ensures faults { S.Holder.faults suite.new ≡ S.Holder.faults suite.old }
    {
        match fits_plain(plain) {
            Ok(()) => self.seal_short(alloc, suite, side, most, plain),
            Err(why) => Err(why),
        }
    }

    /// A plain text that is not too long.
    fn seal_short<S: Suite>(
        self,
        alloc: Global,
        suite: &mut S,
        side: Side,
        most: u16,
        plain: &[u8],
    ) -> Result<(Blob, Channel), Unfit>
        requires room { self.used < 2 ^ 63 }
        requires short { length plain.now ≤ 16777216 }
        ensures told { Gives (sealed_short (sealing_by S.Aead.bits S.Aead.seals S.Aead.opens) (channel_of self) (side_of side) most plain.now) result }
        ensures used { IfOk result (λ both. both.1.used ≡ self.used + 1) }
        ensures held { S.Holder.held suite.new ≡ S.Holder.held suite.old }
        ensures faults { S.Holder.faults suite.new ≡ S.Holder.faults suite.old }
    {
        match self.sealed(alloc, suite, side, plain) {
            Ok(body) => self.count(most, body),
            Err(why) => Err(why),
        }
    }

    /// A body that the other end takes is one more of this end's.
    fn count(self, most: u16, body: Blob) -> Result<(Blob, Channel), Unfit>
        requires { self.used < 2 ^ 63 }
        ensures told { Gives (counted (channel_of self) most body) result }
        ensures used { IfOk result (λ both. both.1.used ≡ self.used + 1) }
    {
        match fits_peer(most, body.as_list()) {
            Ok(()) => Ok((body, self.with_used())),
            Err(why) => Err(why),
        }
    }

    fn sealed<S: Suite>(
        &self,
        alloc: Global,
        suite: &mut S,
        side: Side,
        plain: &[u8],
    ) -> Result<Blob, Unfit>
        requires { length plain.now ≤ 16777216 }
        ensures told { Checks (sealed_by (sealing_by S.Aead.bits S.Aead.seals S.Aead.opens) (channel_of self.now) (side_of side) plain.now) result }
        ensures held { S.Holder.held suite.new ≡ S.Holder.held suite.old }
        ensures faults { S.Holder.faults suite.new ≡ S.Holder.faults suite.old }
    {
        seal_under(
            alloc,
            suite,
            self.cipher,
            &self.key,
            &side.iv(self.used),
            plain,
        )
    }

    fn with_used(self) -> Channel
        requires { self.used < 2 ^ 63 }
        ensures channel { channel_of result ≡ used_after (channel_of self) }
        ensures used { result.used ≡ self.used + 1 }
    {
        let Channel {
            cipher,
            key,
            taken,
            used,
        } = self;
        Channel {
            cipher,
            key,
            taken,
            used: used + 1,
        }
    }
}
