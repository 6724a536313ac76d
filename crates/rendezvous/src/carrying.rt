ghost use Rattle.std.specs.Prelude.{◌≡◌, false, IfOk};
ghost use Rattle.registry.specs.Entries.{is_full};
ghost use Rattle.fdo_rules.specs.Rendezvous.{error_token};
ghost use Rattle.fdo_rules.specs.Unfit.{HasCode};
ghost use Rattle.rendezvous.specs.Carrying.{Answerable, Carries, CarriesJudged, Keeps, rv_view};
ghost use Rattle.rendezvous.specs.declared.verdict.Verdict.TheVariants.{BeginsTo0, BeginsTo1, Redirects, Refuses, Registers};
ghost use Rattle.fdo_msgs.specs.Kind.{accept_owner};
ghost use Rattle.fdo_msgs.specs.Said.{body_of, kind_of};
ghost use Rattle.fdo_msgs.specs.declared.msg.Msg.TheVariants.{AcceptOwner};
ghost use Rattle.fdo_rules.specs.Server.{reply};

use crate::server::Server;
use crate::verdict::Verdict;
use cbor_core::{Blob, NoMemory};
use fdo_msgs::{Answer, Cause, Msg, Nonce, Packet, To1d, Token, refuse, token_text};
use fdo_rules::{Asked, HelloRv, Owned, OwnerSign, Protocol, Registering};
use registry::Registration;
use std::alloc::Global;
use voucher_chain::Guid;

impl Server {
    /// Does what a message came to, if memory did not run out on the way there.
    pub(crate) fn carry_judged(
        &mut self,
        alloc: Global,
        packet: &Packet,
        judged: Result<Verdict, NoMemory>,
    ) -> Result<Answer, NoMemory>
        requires { IfOk judged (Answerable (rv_view self.old)) }
        ensures { CarriesJudged (rv_view self.old) packet.now judged result (rv_view self.new) }
    {
        match judged {
            Ok(verdict) => self.carry(alloc, packet, verdict),
            Err(failed) => Err(failed),
        }
    }

    /// Does what a message came to.
    fn carry(
        &mut self,
        alloc: Global,
        packet: &Packet,
        verdict: Verdict,
    ) -> Result<Answer, NoMemory>
        requires { Answerable (rv_view self.old) verdict }
        ensures { Carries (rv_view self.old) packet.now verdict result (rv_view self.new) }
    {
        match verdict {
            Verdict::PeerError => {
                self.end_named(Protocol::To0, &packet.token);
                Ok(Answer::Ended)
            }
            Verdict::Refuses(own, cause) => self.refuse(alloc, packet, own, cause),
            Verdict::BeginsTo0 { nonce, token } => self.begin_to0(alloc, packet, nonce, token),
            Verdict::BeginsTo1 {
                asked,
                leaf,
                nonce,
                token,
            } => self.begin_to1(alloc, packet, asked, leaf, nonce, token),
            Verdict::Registers {
                registering,
                now,
                seconds,
            } => self.register(alloc, packet, registering, now, seconds),
            Verdict::Redirects(to1d) => self.redirects(alloc, packet, to1d),
        }
    }

    ghost use Rattle.fdo_rules.specs.Rendezvous.{without_named, with_touched};

    fn end_named(&mut self, own: Protocol, token: &Option<Token>)
        ensures { rv_view self.new ≡ without_named own (rv_view self.old) token.now }
    {
        let place = self.place_of(own, token);
        self.end_in(place, token);
    }

    fn touch_named(&mut self, own: Protocol, token: &Option<Token>)
        ensures { rv_view self.new ≡ with_touched own (rv_view self.old) token.now }
    {
        let place = self.place_of(own, token);
        self.touch_in(place, token);
    }

    /// A refusal, which ends the session that the message names.
    fn refuse(
        &mut self,
        alloc: Global,
        packet: &Packet,
        own: Protocol,
        cause: Cause,
    ) -> Result<Answer, NoMemory>
        requires { HasCode cause }
        ensures { Carries (rv_view self.old) packet.now (Refuses own cause) result (rv_view self.new) }
    {
        let token = self.error_token(&packet.token)?;
        let answer = refuse(alloc, cause, packet.kind, token)?;
        self.end_named(own, &packet.token);
        Ok(answer)
    }

    /// The token of an error message: that of the refused message where it names a session.
    fn error_token(&self, token: &Option<Token>) -> Result<Option<Token>, NoMemory>
        ensures { IfOk result (λ found. found ≡ error_token (rv_view self.now) token.now) }
    {
        if self.is_in_to0(token) || self.is_in_to1(token) {
            copy_token(token)
        } else {
            Ok(None)
        }
    }

    /// TO0 begins with its nonce, under the token of a draw.
    fn begin_to0(
        &mut self,
        alloc: Global,
        packet: &Packet,
        nonce: Nonce,
        draw: [u8; 16],
    ) -> Result<Answer, NoMemory>
        ensures { Carries (rv_view self.old) packet.now (BeginsTo0 nonce draw) result (rv_view self.new) }
    {
        let token = token_text(alloc, &draw)?;
        let reply = reply(alloc, Some(token.copy()?), Msg::HelloAck(nonce))?;
        self.touch_named(Protocol::To0, &packet.token);
        match self.to0.start(token, nonce) {
            Ok(()) => Ok(reply),
            Err(_) => Err(NoMemory),
        }
    }

    /// TO1 begins with its nonce, the Guid and the device's key, under the token of a draw.
    fn begin_to1(
        &mut self,
        alloc: Global,
        packet: &Packet,
        asked: HelloRv,
        leaf: Blob,
        nonce: Nonce,
        draw: [u8; 16],
    ) -> Result<Answer, NoMemory>
        ensures { Carries (rv_view self.old) packet.now (BeginsTo1 asked leaf nonce draw) result (rv_view self.new) }
    {
        let HelloRv { guid, sig } = asked;
        let token = token_text(alloc, &draw)?;
        let reply = reply(alloc, Some(token.copy()?), Msg::HelloRvAck(nonce, sig))?;
        self.touch_named(Protocol::To1, &packet.token);
        let session = Asked { nonce, guid, leaf };
        match self.to1.start(token, session) {
            Ok(()) => Ok(reply),
            Err(_) => Err(NoMemory),
        }
    }

    /// A registration, which ends its session.
    fn register(
        &mut self,
        alloc: Global,
        packet: &Packet,
        registering: Registering,
        now: u64,
        seconds: u32,
    ) -> Result<Answer, NoMemory>
        requires { is_full now registering.sign.voucher.header.guid self.old.registry ≡ false }
        ensures { Carries (rv_view self.old) packet.now (Registers registering now seconds) result (rv_view self.new) }
    {
        let guid = registering.sign.voucher.header.guid;
        let end = now.saturating_add(seconds as u64);
        let value = kept_of(registering);
        match granted(alloc, packet, seconds) {
            Ok(reply) => self.keep(packet, now, guid, Registration { value, end }, reply),
            Err(failed) => {
                drop(value);
                Err(failed)
            }
        }
    }

    /// Keeps a registration and ends its session.
    fn keep(
        &mut self,
        packet: &Packet,
        now: u64,
        guid: Guid,
        registration: Registration<Owned>,
        reply: Answer,
    ) -> Result<Answer, NoMemory>
        requires { is_full now guid self.old.registry ≡ false }
        ensures { Keeps (rv_view self.old) packet.now now guid registration reply result (rv_view self.new) }
    {
        match self.registry.register(now, guid, registration) {
            Ok(()) => {
                self.end_in(Protocol::To0, &packet.token);
                Ok(reply)
            }
            Err(_) => {
                drop(reply);
                Err(NoMemory)
            }
        }
    }

    /// Where a device's owner is, which ends its session.
    fn redirects(&mut self, alloc: Global, packet: &Packet, to1d: To1d) -> Result<Answer, NoMemory>
        ensures { Carries (rv_view self.old) packet.now (Redirects to1d) result (rv_view self.new) }
    {
        let token = copy_token(&packet.token)?;
        let reply = reply(alloc, token, Msg::RvRedirect(to1d))?;
        self.end_in(Protocol::To1, &packet.token);
        Ok(reply)
    }
}

/// The reply to a registration, with the seconds that are granted.
fn granted(alloc: Global, packet: &Packet, seconds: u32) -> Result<Answer, NoMemory>
    ensures { IfOk result (λ answer. answer ≡ reply packet.now.token accept_owner (body_of (AcceptOwner seconds))) }
{
    let token = copy_token(&packet.token)?;
    reply(alloc, token, Msg::AcceptOwner(seconds))
}

/// What is kept of a registration.
fn kept_of(registering: Registering) -> Owned
    ensures { result ≡ record { to1d = registering.sign.to1d; leaf = registering.leaf } }
{
    let Registering { sign, leaf } = registering;
    let OwnerSign {
        to0d,
        voucher,
        wait: _wait,
        nonce: _nonce,
        to1d,
    } = sign;
    drop(voucher);
    drop(to0d);
    Owned { to1d, leaf }
}

fn copy_token(token: &Option<Token>) -> Result<Option<Token>, NoMemory>
    ensures { IfOk result (λ copy. copy ≡ token.now) }
{
    match token {
        Some(token) => Ok(Some(token.copy()?)),
        None => Ok(None),
    }
}

/// The next message of the protocol.
fn reply(alloc: Global, token: Option<Token>, message: Msg) -> Result<Answer, NoMemory>
    ensures { IfOk result (λ answer. answer ≡ reply token (kind_of message) (body_of message)) }
{
    let packet = Packet::of(alloc, token, &message);
    drop(message);
    Ok(Answer::Reply(packet?))
}
