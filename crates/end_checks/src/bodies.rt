ghost use Rattle.std.specs.Prelude.{◌≤◌, Ok, length, IfOk};
ghost use Rattle.fdo_msgs.specs.Kind as kinds;
ghost use Rattle.fdo_rules.specs.Checks.{said, said_in};
ghost use Rattle.fdo_rules.specs.Parts.{hello, hello_rv, owner_sign, prove_to_rv};
ghost use Rattle.fdo_rules.specs.Unfit.{Checks};
ghost use Rattle.end_checks.specs.Few.{HasFew};

use fdo_msgs::{BodyFault, Cause, Msg, kind, read_body};
use fdo_rules::{HelloRv, OwnerSign, Proof, Unfit};
use std::alloc::Global;

/// Reads the body of TO0.Hello.
pub fn read_hello(alloc: Global, body: &[u8]) -> Result<(), Unfit>
    // It is read as it says, unless memory runs out.
    ensures { Checks (said hello kinds.hello body.now) result }
{
    match read_body(alloc, kind::HELLO, body) {
        Ok(message) => hello_of(message),
        Err(BodyFault::Body(place)) => Err(Unfit::For(Cause::Body(place))),
        Err(BodyFault::NoMemory) => Err(Unfit::NoMemory),
    }
}

fn hello_of(message: Msg) -> Result<(), Unfit>
    ensures { Checks (said_in hello (Ok message)) result }
{
    match message {
        Msg::Hello => Ok(()),
        other => {
            drop(other);
            Err(Unfit::For(Cause::Body(0)))
        }
    }
}

/// Reads the body of TO0.OwnerSign.
#[tactic(auto, using(crate::proofs::Few::few))]
pub fn read_owner_sign(alloc: Global, body: &[u8]) -> Result<OwnerSign, Unfit>
    // It is read as it says, unless memory runs out.
    ensures said { Checks (said owner_sign kinds.owner_sign body.now) result }
    ensures few { IfOk result (λ sign. length sign.voucher.entries ≤ 255) }
{
    match read_body(alloc, kind::OWNER_SIGN, body) {
        Ok(message) => sign_of(message),
        Err(BodyFault::Body(place)) => Err(Unfit::For(Cause::Body(place))),
        Err(BodyFault::NoMemory) => Err(Unfit::NoMemory),
    }
}

fn sign_of(message: Msg) -> Result<OwnerSign, Unfit>
    ensures said { Checks (said_in owner_sign (Ok message)) result }
    ensures few { HasFew message → IfOk result (λ sign. length sign.voucher.entries ≤ 255) }
{
    match message {
        Msg::OwnerSign {
            to0d,
            voucher,
            wait,
            nonce,
            to1d,
        } => Ok(OwnerSign {
            to0d,
            voucher,
            wait,
            nonce,
            to1d,
        }),
        other => {
            drop(other);
            Err(Unfit::For(Cause::Body(0)))
        }
    }
}

/// Reads the body of TO1.HelloRV.
pub fn read_hello_rv(alloc: Global, body: &[u8]) -> Result<HelloRv, Unfit>
    // It is read as it says, unless memory runs out.
    ensures { Checks (said hello_rv kinds.hello_rv body.now) result }
{
    match read_body(alloc, kind::HELLO_RV, body) {
        Ok(message) => hello_rv_of(message),
        Err(BodyFault::Body(place)) => Err(Unfit::For(Cause::Body(place))),
        Err(BodyFault::NoMemory) => Err(Unfit::NoMemory),
    }
}

fn hello_rv_of(message: Msg) -> Result<HelloRv, Unfit>
    ensures { Checks (said_in hello_rv (Ok message)) result }
{
    match message {
        Msg::HelloRv(guid, sig) => Ok(HelloRv { guid, sig }),
        other => {
            drop(other);
            Err(Unfit::For(Cause::Body(0)))
        }
    }
}

/// Reads the body of TO1.ProveToRV.
pub fn read_proof(alloc: Global, body: &[u8]) -> Result<Proof, Unfit>
    // It is read as it says, unless memory runs out.
    ensures { Checks (said prove_to_rv kinds.prove_to_rv body.now) result }
{
    match read_body(alloc, kind::PROVE_TO_RV, body) {
        Ok(message) => proof_of(message),
        Err(BodyFault::Body(place)) => Err(Unfit::For(Cause::Body(place))),
        Err(BodyFault::NoMemory) => Err(Unfit::NoMemory),
    }
}

fn proof_of(message: Msg) -> Result<Proof, Unfit>
    ensures { Checks (said_in prove_to_rv (Ok message)) result }
{
    match message {
        Msg::ProveToRv { nonce, guid, sign } => Ok(Proof { nonce, guid, sign }),
        other => {
            drop(other);
            Err(Unfit::For(Cause::Body(0)))
        }
    }
}
