ghost use Rattle.std.specs.Prelude.{◌≡◌, IfOk};
ghost use Rattle.voucher_chain.specs.Reading.{IsInMemory};
ghost use Rattle.fdo_msgs.specs.Body.{IsBody};
ghost use Rattle.fdo_msgs.specs.Fit.{IsMsg, norm_msg};
ghost use Rattle.fdo_msgs.specs.Said.{kind_of, body_of};

use crate::info::pairs_item;
use crate::mfg::{MfgInfo, mfg_item};
use crate::msg::{Guid, Msg, Nonce};
use crate::owner_sign::owner_sign_body;
use crate::value::{flag_item, maybe_hash_item, maybe_size_item, put, put_bytes};
use cbor_core::{Blob, Item, NoMemory, Text, integer_item, write_head};
use cose_envelopes::write_sign1;
use hash_hmac::HMac;
use key_codec::{SigInfo, hash_item, sig_info_item};
use service_info::InfoPairs;
use std::alloc::Global;

/// The body of a message: in the deterministic encoding, but for what is kept as received (the entry of 63, to0d, to1d and
/// the payloads of signed bodies), which stands as it is.
pub fn write_body(alloc: Global, message: &Msg) -> Result<Blob, NoMemory>
    ensures value { IfOk result (λ body. body ≡ body_of message.now) }
    // It says the message, whose maps are in order then, where each part of the message is of its form.
    ensures said { IfOk result (λ body. IsMsg message.now → IsBody (kind_of message.now) body (norm_msg message.now)) }
{
    let body = body(alloc, message)?;
    are_bytes(body.as_list());
    Ok(body)
}

/// What holds of any bytes in memory.
fn are_bytes(bytes: &[u8])
    ensures { IsInMemory bytes.now }
{}

fn body(alloc: Global, message: &Msg) -> Result<Blob, NoMemory>
    ensures { IfOk result (λ body. body ≡ body_of message.now) }
{
    match message {
        Msg::AppStart(info) => app_start(alloc, info),
        Msg::SetCredentials(header) => one_string(alloc, header.raw.as_list()),
        Msg::SetHmac(hmac) => set_hmac(alloc, hmac),
        Msg::DiDone | Msg::Hello => none(alloc),
        Msg::HelloAck(nonce) | Msg::Done(nonce) | Msg::Done2(nonce) => { one_string(alloc, nonce) }
        Msg::OwnerSign { to0d, to1d, .. } => {
            owner_sign_body(alloc, to0d.as_list(), to1d.raw.as_list())
        }
        Msg::AcceptOwner(seconds) => one(alloc, Item::Uint(u64::from(*seconds))),
        Msg::HelloRv(sixteen, sig) | Msg::HelloRvAck(sixteen, sig) => hello_rv(alloc, sixteen, sig),
        Msg::RvRedirect(to1d) => to1d.raw.copy(),
        Msg::HelloDevice {
            max_size,
            guid,
            nonce,
            kex,
            cipher,
            sig,
        } => hello_device(alloc, *max_size, guid, nonce, kex, *cipher, sig),
        Msg::GetOvNextEntry(n) => one(alloc, Item::Uint(u64::from(*n))),
        Msg::OvNextEntry(n, entry) => ov_next_entry(alloc, *n, entry.raw.as_list()),
        Msg::ProveToRv { sign, .. }
        | Msg::ProveOvHdr { sign, .. }
        | Msg::ProveDevice { sign, .. }
        | Msg::SetupDevice { sign, .. } => write_sign1(alloc, sign),
        Msg::DeviceReady { hmac, size } => { device_ready(alloc, hmac, *size) }
        Msg::OwnerReady { size } => one(alloc, maybe_size_item(*size)),
        Msg::DeviceInfo { more, pairs } => device_info(alloc, *more, pairs),
        Msg::OwnerInfo { more, done, pairs } => owner_info(alloc, *more, *done, pairs),
        Msg::Error {
            code,
            kind,
            text,
            stamp,
            id,
        } => error_body(alloc, *code, *kind, text, stamp, id),
    }
}

// ---- the rows

ghost use Rattle.std.specs.Prelude.{[], ◌∷◌};
ghost use Rattle.cbor_core.specs.declared.item.Item.TheVariants as items;
ghost use Rattle.cbor_core.specs.Deterministic.{det};
ghost use Rattle.cbor_core.specs.Numbers.{item_of_integer};
ghost use Rattle.key_codec.specs.Hash.{item_of_hash};
ghost use Rattle.key_codec.specs.SigInfo.{item_of_sig_info};
ghost use Rattle.voucher_chain.specs.Header.{item_of_maybe_hash};
ghost use Rattle.fdo_msgs.specs.Info.{item_of_pairs};
ghost use Rattle.fdo_msgs.specs.Mfg.{item_of_mfg};
ghost use Rattle.fdo_msgs.specs.Value.{item_of_flag, item_of_maybe_size, row_text};

fn none(alloc: Global) -> Result<Blob, NoMemory>
    ensures { IfOk result (λ body. body ≡ row_text []) }
{
    let mut out = Vec::with_capacity(alloc, 1)?;
    write_head(&mut out, 4, 0)?;
    Ok(Blob::new(out))
}

fn one(alloc: Global, item: Item) -> Result<Blob, NoMemory>
    ensures { IfOk result (λ body. body ≡ row_text (det item ∷ [])) }
{
    let mut out = Vec::with_capacity(alloc, 64)?;
    write_head(&mut out, 4, 1)?;
    put(alloc, &mut out, item)?;
    Ok(Blob::new(out))
}

fn app_start(alloc: Global, info: &MfgInfo) -> Result<Blob, NoMemory>
    ensures { IfOk result (λ body. body ≡ row_text (det (item_of_mfg info.now) ∷ [])) }
{
    let item = mfg_item(alloc, info)?;
    one(alloc, item)
}

/// A byte string: a header, or a nonce.
fn one_string(alloc: Global, bytes: &[u8]) -> Result<Blob, NoMemory>
    ensures { IfOk result (λ body. body ≡ row_text (det (items.Bytes bytes.now) ∷ [])) }
{
    let bytes = Blob::from_slice(alloc, bytes)?;
    one(alloc, Item::Bytes(bytes))
}

fn set_hmac(alloc: Global, hmac: &HMac) -> Result<Blob, NoMemory>
    ensures { IfOk result (λ body. body ≡ row_text (det (item_of_hash hmac.now) ∷ [])) }
{
    let item = hash_item(alloc, hmac)?;
    one(alloc, item)
}

fn hello_rv(alloc: Global, sixteen: &[u8; 16], sig: &SigInfo) -> Result<Blob, NoMemory>
    ensures { IfOk result (λ body. body ≡ row_text (det (items.Bytes sixteen.now) ∷ det (item_of_sig_info sig.now) ∷ [])) }
{
    let mut out = Vec::with_capacity(alloc, 64)?;
    write_head(&mut out, 4, 2)?;
    put_bytes(alloc, &mut out, sixteen)?;
    put(alloc, &mut out, sig_info_item(alloc, sig)?)?;
    Ok(Blob::new(out))
}

fn hello_device(
    alloc: Global,
    max_size: u16,
    guid: &Guid,
    nonce: &Nonce,
    kex: &Text,
    cipher: i64,
    sig: &SigInfo,
) -> Result<Blob, NoMemory>
    ensures { IfOk result (λ body. body ≡ row_text (det (items.Uint max_size) ∷ det (items.Bytes guid.now) ∷ det (items.Bytes nonce.now) ∷ det (items.Text kex.now) ∷ det (item_of_integer cipher) ∷ det (item_of_sig_info sig.now) ∷ [])) }
{
    let mut out = Vec::with_capacity(alloc, 128)?;
    write_head(&mut out, 4, 6)?;
    put(alloc, &mut out, Item::Uint(u64::from(max_size)))?;
    put_bytes(alloc, &mut out, guid)?;
    put_bytes(alloc, &mut out, nonce)?;
    put(alloc, &mut out, Item::Text(kex.copy()?))?;
    put(alloc, &mut out, integer_item(cipher))?;
    put(alloc, &mut out, sig_info_item(alloc, sig)?)?;
    Ok(Blob::new(out))
}

fn ov_next_entry(alloc: Global, n: u8, entry: &[u8]) -> Result<Blob, NoMemory>
    ensures { IfOk result (λ body. body ≡ row_text (det (items.Uint n) ∷ entry.now ∷ [])) }
{
    let mut out = Vec::with_capacity(alloc, entry.len())?;
    write_head(&mut out, 4, 2)?;
    put(alloc, &mut out, Item::Uint(u64::from(n)))?;
    out.extend_from_slice(entry)?;
    Ok(Blob::new(out))
}

fn device_ready(alloc: Global, hmac: &Option<HMac>, size: Option<u64>) -> Result<Blob, NoMemory>
    ensures { IfOk result (λ body. body ≡ row_text (det (item_of_maybe_hash hmac.now) ∷ det (item_of_maybe_size size) ∷ [])) }
{
    let mut out = Vec::with_capacity(alloc, 64)?;
    write_head(&mut out, 4, 2)?;
    put(alloc, &mut out, maybe_hash_item(alloc, hmac)?)?;
    put(alloc, &mut out, maybe_size_item(size))?;
    Ok(Blob::new(out))
}

fn device_info(alloc: Global, more: bool, pairs: &InfoPairs) -> Result<Blob, NoMemory>
    ensures { IfOk result (λ body. body ≡ row_text (det (item_of_flag more) ∷ det (item_of_pairs pairs.now) ∷ [])) }
{
    let mut out = Vec::with_capacity(alloc, 64)?;
    write_head(&mut out, 4, 2)?;
    put(alloc, &mut out, flag_item(more))?;
    put(alloc, &mut out, pairs_item(alloc, pairs)?)?;
    Ok(Blob::new(out))
}

fn owner_info(alloc: Global, more: bool, done: bool, pairs: &InfoPairs) -> Result<Blob, NoMemory>
    ensures { IfOk result (λ body. body ≡ row_text (det (item_of_flag more) ∷ det (item_of_flag done) ∷ det (item_of_pairs pairs.now) ∷ [])) }
{
    let mut out = Vec::with_capacity(alloc, 64)?;
    write_head(&mut out, 4, 3)?;
    put(alloc, &mut out, flag_item(more))?;
    put(alloc, &mut out, flag_item(done))?;
    put(alloc, &mut out, pairs_item(alloc, pairs)?)?;
    Ok(Blob::new(out))
}

/// The body of an error.
pub(crate) fn error_body(
    alloc: Global,
    code: u16,
    kind: u64,
    text: &Text,
    stamp: &Item,
    id: &Item,
) -> Result<Blob, NoMemory>
    ensures { IfOk result (λ body. body ≡ row_text (det (items.Uint code) ∷ det (items.Uint kind) ∷ det (items.Text text.now) ∷ det stamp.now ∷ det id.now ∷ [])) }
{
    let mut out = Vec::with_capacity(alloc, 64)?;
    write_head(&mut out, 4, 5)?;
    put(alloc, &mut out, Item::Uint(u64::from(code)))?;
    put(alloc, &mut out, Item::Uint(kind))?;
    put(alloc, &mut out, Item::Text(text.copy()?))?;
    put(alloc, &mut out, stamp.copy(alloc)?)?;
    put(alloc, &mut out, id.copy(alloc)?)?;
    Ok(Blob::new(out))
}
