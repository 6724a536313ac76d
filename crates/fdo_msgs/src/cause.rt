ghost use Rattle.std.specs.Prelude.{◌≡◌};

use crate::http_fault::HttpFault;
use crate::kind::OWNER_SIGN;
use crate::msg::Guid;
use service_info::InfoFault;
use voucher_chain::ChainFault;

/// Why a message is refused. Each cause has one error code (FIDO Device Onboard 1.1, the error codes of message type
/// 255), which for some depends on the type of the message.
#[derive(Clone, Copy, Debug, PartialEq, Eq)]
pub enum Cause {
    /// The token is absent, or names no session.
    Token,
    /// The message's type is not one that the state takes.
    Turn(u8),
    /// The body is not of its type's form; the place is the offset of its first fault.
    Body(usize),
    /// The suite doesn't know an algorithm, by its number, or 0 where there is none.
    NoAlgorithm(i64),
    /// A signature or a message authentication code doesn't verify.
    NotVerified,
    /// What is sealed doesn't open.
    NotOpened,
    /// An initialization vector was seen before in the session.
    SeenIv,
    /// A nonce is not the one that was sent.
    Nonce,
    /// A hash is not that of what was sent.
    HashDiffers,
    /// A Guid is not the session's.
    GuidDiffers,
    /// A voucher is refused.
    Chain(ChainFault),
    /// The owner key is not that of the voucher's last entry.
    OwnerKey,
    /// An address, by its index, has no IP of 4 or 16 bytes and no name.
    Address(usize),
    /// Nothing is kept for the Guid.
    Missing(Guid),
    /// An entry's number is not the one that was asked for, or there is no such entry.
    EntryNumber(u8),
    /// The replacement is no more the one that the session saw; the one that is kept now.
    Changed(Option<Guid>),
    /// The Guid is kept already.
    Clash(Guid),
    /// ServiceInfo is refused.
    Info(InfoFault),
    /// A bound on sizes is passed: the bound.
    Size(u64),
    /// The owner asks for the credential to be used again, and the device doesn't offer that.
    Reuse,
    /// No more entries are taken: how many are kept.
    Full(u32),
    /// A call on an object of the outside failed.
    Outside(Object),
    /// The other end refused with this code.
    Peer(u16),
    /// What came is no HTTP message.
    Http(HttpFault),
}

/// An object of the outside that an end calls.
#[derive(Clone, Copy, Debug, PartialEq, Eq)]
pub enum Object {
    /// The disk of a store.
    Disk,
    /// A store that an earlier failure of its disk has shut.
    Shut,
    /// The signer of the suite.
    Signer,
    /// The source of random draws.
    Random,
    /// The clock.
    Clock,
}

impl Cause {
    ghost use Rattle.fdo_msgs.specs.Cause.{code_of, word_of};

    /// The error code of the cause at a message of a type, or None where no error message is sent.
    pub fn code(&self, kind: u8) -> Option<u16>
        ensures { result ≡ code_of self.now kind }
    {
        match self {
            Cause::Token => Some(1),
            Cause::Chain(_) | Cause::OwnerKey => Some(2),
            Cause::NotVerified | Cause::Nonce | Cause::HashDiffers => Some(at_owner_sign(kind)),
            Cause::Address(_) => Some(4),
            Cause::GuidDiffers => Some(5),
            Cause::Missing(_) => Some(6),
            Cause::Body(_) => Some(100),
            Cause::Reuse => Some(102),
            Cause::Full(_) | Cause::Outside(_) => Some(500),
            Cause::Peer(_) | Cause::Http(_) => None,
            _ => Some(101),
        }
    }

    /// The cause's name in one word.
    pub fn word(&self) -> &'static str
        ensures { result.now ≡ word_of self.now }
    {
        match self {
            Cause::Token => "token",
            Cause::Turn(_) => "turn",
            Cause::Body(_) => "body",
            Cause::NoAlgorithm(_) => "noalgorithm",
            Cause::NotVerified => "notverified",
            Cause::NotOpened => "notopened",
            Cause::SeenIv => "seeniv",
            Cause::Nonce => "nonce",
            Cause::HashDiffers => "hash",
            Cause::GuidDiffers => "guid",
            Cause::Chain(_) => "chain",
            Cause::OwnerKey => "ownerkey",
            Cause::Address(_) => "address",
            Cause::Missing(_) => "missing",
            Cause::EntryNumber(_) => "entry",
            Cause::Changed(_) => "changed",
            Cause::Clash(_) => "clash",
            Cause::Info(_) => "info",
            Cause::Size(_) => "size",
            Cause::Reuse => "reuse",
            Cause::Full(_) => "full",
            Cause::Outside(_) => "outside",
            Cause::Peer(_) => "peer",
            Cause::Http(_) => "http",
        }
    }
}

ghost use Rattle.fdo_msgs.specs.Cause.{owner_sign_code};

/// What is wrong in TO0.OwnerSign has a code of its own.
fn at_owner_sign(kind: u8) -> u16
    ensures { result ≡ owner_sign_code kind }
{
    if kind == OWNER_SIGN { 3 } else { 101 }
}
