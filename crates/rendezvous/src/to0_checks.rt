ghost use Rattle.std.specs.Prelude.{◌≡◌, ◌≤◌, length};
ghost use Rattle.voucher_chain.specs.Chain.{first_break};
ghost use Rattle.fdo_rules.specs.DeviceTo2.{chain_check};
ghost use Rattle.fdo_rules.specs.Rendezvous.{key_checked};
ghost use Rattle.fdo_rules.specs.Unfit.{Checks};
ghost use Rattle.end_checks.specs.Checking.{checking};

use cbor_core::Blob;
use end_checks::{is_hash_of, leaf_key, verified};
use fdo_msgs::{AddrEntry, Cause, Nonce};
use fdo_rules::{OwnerSign, Unfit};
use std::alloc::Global;
use suite_port::Suite;
use voucher_chain::{ChainFault, Voucher, check_chain, owner_key};

/// The most bytes of a to1d, and of a device's certificate, that are kept.
const MOST_KEPT: usize = 16384;

/// The public bytes of the device's key, once all else of TO0.OwnerSign is checked.
#[tactic(auto, unfolding(fdo_rules::specs::Rendezvous::key_checked))]
pub(crate) fn key_checked<S: Suite>(
    alloc: Global,
    suite: &mut S,
    nonce: &Nonce,
    sign: &OwnerSign,
) -> Result<Blob, Unfit>
    requires { length sign.now.voucher.entries ≤ 255 }
    ensures checked { Checks (key_checked (checking S.Verifier.verifies S.Signer.algorithm S.CertReader.key_in) nonce.now sign.now) result }
    ensures held { S.Holder.held suite.new ≡ S.Holder.held suite.old }
    ensures faults { S.Holder.faults suite.new ≡ S.Holder.faults suite.old }
{
    check_said(alloc, suite, nonce, sign)?;
    check_kept(sign)?;
    leaf_of(alloc, suite, sign)
}

ghost use Rattle.fdo_rules.specs.Rendezvous.{said_checks};

/// Checks the nonce, the hash, and the two kinds of signatures of TO0.OwnerSign.
#[tactic(auto, unfolding(fdo_rules::specs::Rendezvous::said_checks))]
fn check_said<S: Suite>(
    alloc: Global,
    suite: &mut S,
    nonce: &Nonce,
    sign: &OwnerSign,
) -> Result<(), Unfit>
    requires { length sign.now.voucher.entries ≤ 255 }
    ensures checked { Checks (said_checks (checking S.Verifier.verifies S.Signer.algorithm S.CertReader.key_in) nonce.now sign.now) result }
    ensures held { S.Holder.held suite.new ≡ S.Holder.held suite.old }
    ensures faults { S.Holder.faults suite.new ≡ S.Holder.faults suite.old }
{
    if sign.nonce != *nonce {
        return Err(Unfit::For(Cause::Nonce));
    }
    if !is_hash_of(&sign.to1d.to0d_hash, sign.to0d.as_list()) {
        return Err(Unfit::For(Cause::HashDiffers));
    }
    check_voucher(alloc, suite, &sign.voucher)?;
    verified(alloc, suite, owner_key(&sign.voucher), &sign.to1d.sign)
}

/// Checks a voucher's chain.
fn check_voucher<S: Suite>(alloc: Global, suite: &mut S, voucher: &Voucher) -> Result<(), Unfit>
    requires { length voucher.now.entries ≤ 255 }
    ensures checked { Checks (chain_check (first_break S.Verifier.verifies voucher.now)) result }
    ensures held { S.Holder.held suite.new ≡ S.Holder.held suite.old }
    ensures faults { S.Holder.faults suite.new ≡ S.Holder.faults suite.old }
{
    match check_chain(alloc, suite, voucher) {
        Ok(()) => Ok(()),
        Err(ChainFault::NoMemory) => Err(Unfit::NoMemory),
        Err(fault) => Err(Unfit::For(Cause::Chain(fault))),
    }
}

ghost use Rattle.fdo_rules.specs.Rendezvous.{kept_checks};

/// Checks that what TO0.OwnerSign registers can be kept.
#[tactic(auto, unfolding(fdo_rules::specs::Rendezvous::kept_checks))]
fn check_kept(sign: &OwnerSign) -> Result<(), Unfit>
    ensures { Checks (kept_checks sign.now) result }
{
    check_addrs(sign.to1d.addrs.as_list())?;
    check_size(sign.to1d.raw.as_list())?;
    match first_certificate(&sign.voucher) {
        Some(leaf) => check_size(leaf.as_list()),
        None => Ok(()),
    }
}

ghost use Rattle.fdo_rules.specs.Rendezvous.{fits_registry, misplaced};

/// Checks that each address has a name, or an IP address of 4 or 16 bytes.
fn check_addrs(addrs: &[AddrEntry]) -> Result<(), Unfit>
    ensures { Checks (misplaced 0 addrs.now) result }
{
    let mut index = 0;
    for addr in addrs {
        if !is_place(addr) {
            return Err(Unfit::For(Cause::Address(index)));
        }
        index += 1;
    }
    Ok(())
}

ghost use Rattle.fdo_rules.specs.Rendezvous.{is_place};

fn is_place(addr: &AddrEntry) -> bool
    ensures { result ≡ is_place addr.now }
{
    match (&addr.ip, &addr.dns) {
        (Some(ip), _) => {
            let bytes = ip.as_list().len();
            bytes == 4 || bytes == 16
        }
        (None, Some(_)) => true,
        (None, None) => false,
    }
}

fn check_size(bytes: &[u8]) -> Result<(), Unfit>
    ensures { Checks (fits_registry bytes.now) result }
{
    if bytes.len() > MOST_KEPT {
        return Err(Unfit::For(Cause::Size(MOST_KEPT as u64)));
    }
    Ok(())
}

ghost use Rattle.std.specs.Option.{option_copied};
ghost use Rattle.fdo_rules.specs.OwnerHello.{first_certificate};

/// The device's own certificate.
fn first_certificate(voucher: &Voucher) -> Option<&Blob>
    ensures { option_copied result ≡ first_certificate voucher.now.chain }
{
    match &voucher.chain {
        Some(chain) => chain.as_list().first(),
        None => None,
    }
}

ghost use Rattle.fdo_rules.specs.Rendezvous.{leaf_of};

/// The public bytes of the device's key.
#[tactic(auto, unfolding(fdo_rules::specs::Rendezvous::leaf_of))]
fn leaf_of<S: Suite>(alloc: Global, suite: &mut S, sign: &OwnerSign) -> Result<Blob, Unfit>
    ensures checked { Checks (leaf_of (checking S.Verifier.verifies S.Signer.algorithm S.CertReader.key_in) sign.now) result }
    ensures held { S.Holder.held suite.new ≡ S.Holder.held suite.old }
    ensures faults { S.Holder.faults suite.new ≡ S.Holder.faults suite.old }
{
    let Some(leaf) = first_certificate(&sign.voucher) else {
        return Err(Unfit::For(Cause::NoAlgorithm(0)));
    };
    match leaf_key(alloc, suite, leaf.as_list())? {
        Some(key) => Ok(key),
        None => Err(Unfit::For(Cause::NoAlgorithm(0))),
    }
}
