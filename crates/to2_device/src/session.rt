ghost use Rattle.std.specs.Prelude.{◌≡◌, MatchResult};
ghost use Rattle.fdo_rules.specs.DeviceTo2.{with_token};
ghost use Rattle.to2_device.specs.Views.{self_of};

use crate::idle::Idle;
use crate::replying::token_after;
use disk_port::Disk;
use fdo_msgs::{Packet, Token};
use fdo_rules::Offer;

/// What a device has in each state of a session but the last.
#[derive(Drop)]
pub struct Session<D: Disk> {
    pub(crate) idle: Idle<D>,
    pub(crate) offer: Offer,
    /// The token that the owner gave last.
    pub(crate) token: Option<Token>,
}

impl<D: Disk> Session<D> {
    /// Takes a message's token, where it has one.
    pub(crate) fn hear_token(self, packet: &Packet) -> Result<Session<D>, Idle<D>>
        ensures session { MatchResult result (λ session. self_of session ≡ with_token (self_of self) packet.now) (λ idle. idle ≡ self.idle) }
        ensures idle { MatchResult result (λ session. session.idle ≡ self.idle) (λ idle. idle ≡ self.idle) }
    {
        let Session { idle, offer, token } = self;
        match token_after(&token, packet) {
            Ok(token) => Ok(Session { idle, offer, token }),
            Err(_) => Err(idle),
        }
    }

    /// Gives the session up.
    pub(crate) fn stop(self) -> Idle<D>
        ensures { result ≡ self.idle }
    {
        let Session {
            idle,
            offer: _,
            token: _,
        } = self;
        idle
    }
}
