ghost use Rattle.std.specs.Prelude.{◌≡◌, ◌+◌, IfOk, IfSome};
ghost use Rattle.disk_port.specs.Slots.{base, stands};
ghost use Rattle.credential_store.specs.Body.{body_at, IsKept};
ghost use Rattle.credential_store.specs.Image.{credential_at, credential_slots, placed, is_old, is_first_version};
ghost use Rattle.credential_store.specs.Store.{Reads};

use crate::body::read_body;
use crate::fault::ImageFault;
use disk_port::{Found, Slots};
use std::alloc::Global;
use voucher_chain::Credential;

/// A credential file has two slots, at 0 and 8,192, for bodies of at most 8,100 bytes.
pub(crate) const SLOTS: Slots = Slots {
    second: 8192,
    most: 8100,
};

/// The credential that the bytes of a credential file stand for, or None where no slot is open. Nothing is written.
#[tactic(auto, unfolding(crate::specs::Image::credential_at))]
pub fn read_image(alloc: Global, image: &[u8]) -> Result<Option<Credential>, ImageFault>
    ensures read { Reads (credential_at image.now) result }
    // What is read can be kept again.
    ensures kept { IfOk result (λ credential. IfSome credential IsKept) }
{
    match SLOTS.found(image) {
        Some(found) => read_found(alloc, &found),
        None => Ok(None),
    }
}

/// The credential in the slot that counts.
fn read_found(alloc: Global, found: &Found) -> Result<Option<Credential>, ImageFault>
    ensures read { Reads (placed (base credential_slots found.now.side + 13) (body_at found.now.body.now)) result }
    ensures kept { IfOk result (λ credential. IfSome credential IsKept) }
{
    match read_body(alloc, found.body) {
        Ok(credential) => Ok(Some(credential)),
        Err(ImageFault::Foreign(place)) => {
            match (SLOTS.base(found.side) + 13).checked_add(place) {
                Some(place) => Err(ImageFault::Foreign(place)),
                // No place is that far.
                None => Err(ImageFault::NoMemory),
            }
        }
        Err(ImageFault::NoMemory) => Err(ImageFault::NoMemory),
    }
}

/// Whether the slot that counts holds a body of version 1.
pub(crate) fn is_old(image: &[u8]) -> bool
    ensures { result ≡ is_old (stands credential_slots image.now) }
{
    match SLOTS.found(image) {
        Some(found) => is_first_version(found.body),
        None => false,
    }
}

fn is_first_version(body: &[u8]) -> bool
    ensures { result ≡ is_first_version body.now }
{
    match body {
        [head, ..] => *head == 0x86,
        [] => false,
    }
}
