ghost use Rattle.std.specs.Prelude.{◌≡◌, ◌++◌, None, IfOk};
ghost use Rattle.fdo_msgs.specs.Kind.{hello_device};
ghost use Rattle.fdo_rules.specs.DeviceTo2.{hello_body};

use cbor_core::NoMemory;
use fdo_msgs::{Guid, Msg, Nonce, Packet};
use fdo_rules::Offer;
use std::alloc::Global;

/// TO2.HelloDevice, which belongs to no session yet.
pub(crate) fn hello_packet(
    alloc: Global,
    offer: &Offer,
    guid: Guid,
    nonce: Nonce,
) -> Result<Packet, NoMemory>
    ensures { IfOk result (λ packet. packet ≡ record { token = None; kind = hello_device; body = hello_body offer.now guid nonce }) }
{
    let kex = offer.kex.copy()?;
    let sig = offer.sig.copy(alloc)?;
    let message = Msg::HelloDevice {
        max_size: offer.max_size,
        guid,
        nonce,
        kex,
        cipher: offer.cipher,
        sig,
    };
    let packet = Packet::of(alloc, None, &message);
    drop(message);
    packet
}

/// The bytes of two draws.
pub(crate) fn secret_of(one: [u8; 16], two: [u8; 16]) -> [u8; 32]
    ensures { result ≡ one ++ two }
{
    let mut secret = [0u8; 32];
    let (front, back) = secret.split_at_mut(16);
    front.copy_from_slice(&one);
    back.copy_from_slice(&two);
    secret
}
