ghost use Rattle.std.specs.Prelude.{◌≤◌, length};
ghost use Rattle.suite_port.specs.Sizes.{most_plain};

use crate::timing::{report, report_thousandths, since};
use cbor_core::{Blob, Pairs};
use cose_envelopes::{open, read_encrypt0, read_sign1, seal, sign, write_sign1};
use std::io;
use std::time::Instant;
use suite_port::{LabSuite, MOST_PLAIN, Signer};

const SEALING: i64 = -65538;

const KEY: [u8; 32] = *b"0123456789abcdefFEDCBA9876543210";

const IV: [u8; 12] = *b"twelve bytes";

/// Times sealing and opening under the laboratory suite, and reading envelopes. Each word is a number of bytes, of which
/// a text and a payload have as many.
pub fn measure(rt: &HostRuntime, words: &[String]) -> io::Result<()> {
    for word in words {
        if let Ok(size) = word.parse::<u32>() {
            let text = vec![in rt.alloc(); 0u8; size as usize]?;
            time_all(rt, text.as_slice())?;
        }
    }
    Ok(())
}

fn time_all(rt: &HostRuntime, text: &[u8]) -> io::Result<()> {
    if text.len() <= MOST_PLAIN {
        time_sealing(rt, text)?;
        time_encrypt0(rt, text)?;
    }
    time_sign1(rt, text)
}

/// Sealing a text and opening it, the least of eight calls each.
fn time_sealing(rt: &HostRuntime, text: &[u8]) -> io::Result<()>
    requires { length text.now ≤ most_plain }
{
    let mut suite = LabSuite::new(Vec::new(rt.alloc()));
    let Ok(bytes) = seal(rt.alloc(), &mut suite, SEALING, &KEY, &IV, text) else {
        return Ok(());
    };
    let mut sealing = u64::MAX;
    let mut opening = u64::MAX;
    for _turn in 0..8 {
        let start = Instant::now(rt)?;
        let sealed = seal(rt.alloc(), &mut suite, SEALING, &KEY, &IV, text);
        let time = since(rt, start)?;
        if sealed.is_ok() {
            sealing = sealing.min(time);
        }
        let start = Instant::now(rt)?;
        let opened = open(rt.alloc(), &mut suite, SEALING, &KEY, bytes.as_list());
        let time = since(rt, start)?;
        if opened.is_ok() {
            opening = opening.min(time);
        }
    }
    report_all(rt, "seal", text.len(), sealing)?;
    report_all(rt, "open", text.len(), opening)
}

/// Reading an Encrypt0 of a text, the least of eight times a hundred calls.
fn time_encrypt0(rt: &HostRuntime, text: &[u8]) -> io::Result<()>
    requires { length text.now ≤ most_plain }
{
    let mut suite = LabSuite::new(Vec::new(rt.alloc()));
    let Ok(bytes) = seal(rt.alloc(), &mut suite, SEALING, &KEY, &IV, text) else {
        return Ok(());
    };
    let mut best = u64::MAX;
    for _turn in 0..8 {
        let start = Instant::now(rt)?;
        let mut all = 0u64;
        for _call in 0..100 {
            if read_encrypt0(rt.alloc(), bytes.as_list()).is_ok() {
                all = all.saturating_add(1);
            }
        }
        let time = since(rt, start)?;
        best = best.min(time / all.max(1));
    }
    report_all(rt, "read_encrypt0", text.len(), best)
}

/// Reading a Sign1 over a payload, the least of eight times a hundred calls.
fn time_sign1(rt: &HostRuntime, payload: &[u8]) -> io::Result<()> {
    let Ok(bytes) = signed(rt, payload) else {
        return Ok(());
    };
    let mut best = u64::MAX;
    for _turn in 0..8 {
        let start = Instant::now(rt)?;
        let mut all = 0u64;
        for _call in 0..100 {
            if read_sign1(rt.alloc(), bytes.as_list()).is_ok() {
                all = all.saturating_add(1);
            }
        }
        let time = since(rt, start)?;
        best = best.min(time / all.max(1));
    }
    report_all(rt, "read_sign1", payload.len(), best)
}

/// The written Sign1 over a payload, or none where a call failed.
fn signed(rt: &HostRuntime, payload: &[u8]) -> Result<Blob, ()> {
    let mut suite = LabSuite::new(Vec::new(rt.alloc()));
    let Ok(key) = suite.load(rt.alloc(), b"\x01") else {
        return Err(());
    };
    let Ok(payload) = Blob::from_slice(rt.alloc(), payload) else {
        return Err(());
    };
    let pairs = Pairs::new(rt.alloc());
    let Ok(value) = sign(rt.alloc(), &mut suite, key.as_slice(), pairs, payload) else {
        return Err(());
    };
    match write_sign1(rt.alloc(), &value) {
        Ok(bytes) => Ok(bytes),
        Err(_) => Err(()),
    }
}

/// Two lines: the nanoseconds of a call, and the megabytes of a second.
fn report_all(rt: &HostRuntime, name: &str, size: usize, time: u64) -> io::Result<()> {
    let what = format!(in rt.alloc(); "cose/{name}/{size} B")?;
    let rate = (size as u64).saturating_mul(1_000_000) / time.max(1);
    report(rt, what.as_str(), time, "ns")?;
    report_thousandths(rt, what.as_str(), rate, "MB/s")
}
