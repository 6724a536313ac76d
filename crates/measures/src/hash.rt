use crate::timing::{Work, least, report_thousandths, since};
use hash_hmac::{HMAC_SHA256, HMAC_SHA384, SHA256, SHA384, hash_of, hmac_of};
use std::io;
use std::time::Instant;

/// Times hashes and HMACs. Each word is a number of bytes, and the text of a call has as many.
pub fn measure(rt: &HostRuntime, words: &[String]) -> io::Result<()> {
    for word in words {
        let Ok(size) = word.parse::<u32>() else {
            continue;
        };
        let text = vec![in rt.alloc(); 0u8; size as usize]?;
        for function in [
            Function::Sha256,
            Function::HmacSha256,
            Function::Sha384,
            Function::HmacSha384,
        ] {
            let hashing = Hashing {
                text: text.as_slice(),
                function,
            };
            let time = least(rt, &hashing)?;
            report_all(rt, function, size, time)?;
        }
    }
    Ok(())
}

/// Two lines: the nanoseconds of a call, which are given in thousandths, and the megabytes of a second.
fn report_all(rt: &HostRuntime, function: Function, size: u32, time: u64) -> io::Result<()> {
    let name = function.name();
    let (count, unit) = if size % 1024 == 0 {
        (size / 1024, "KB")
    } else {
        (size, "B")
    };
    let what = format!(in rt.alloc(); "hash/{name}/{count} {unit}")?;
    let rate = (size as u64).saturating_mul(1_000_000_000) / time.max(1);
    report_thousandths(rt, what.as_str(), time, "ns")?;
    report_thousandths(rt, what.as_str(), rate, "MB/s")
}

/// What is timed.
#[derive(Clone, Copy, Debug, PartialEq, Eq)]
enum Function {
    Sha256,
    HmacSha256,
    Sha384,
    HmacSha384,
}

impl Function {
    /// Its word in the lines.
    fn name(&self) -> &str {
        match self {
            Function::Sha256 => "sha256",
            Function::HmacSha256 => "hmac-sha256",
            Function::Sha384 => "sha384",
            Function::HmacSha384 => "hmac-sha384",
        }
    }
}

/// A turn is one call.
#[derive(Clone, Copy)]
struct Hashing<'a> {
    text: &'a [u8],
    function: Function,
}

impl Work for Hashing<'_> {
    fn batch(&self, rt: &HostRuntime, turns: u64) -> io::Result<u64> {
        let start = Instant::now(rt)?;
        let mut byte = 0u8;
        let mut sum = 0u64;
        for _turn in 0..turns {
            byte = call(self.function, byte, self.text);
            sum = sum.saturating_add(byte as u64 + 1);
        }
        let time = since(rt, start)?;
        Ok(if sum == 0 { 0 } else { time })
    }
}

/// One call, and the first byte of its result. A byte that the call before gave goes in: it is the first byte of the
/// text that is hashed, or of the secret.
fn call(function: Function, byte: u8, text: &[u8]) -> u8 {
    let mut secret = [0u8; 32];
    secret[0] = byte;
    let rest = text.split_at(text.len().min(1)).1;
    let hash = match function {
        Function::Sha256 => hash_of(SHA256, &[byte], rest),
        Function::Sha384 => hash_of(SHA384, &[byte], rest),
        Function::HmacSha256 => hmac_of(HMAC_SHA256, &secret, text),
        Function::HmacSha384 => hmac_of(HMAC_SHA384, &secret, text),
    };
    match hash {
        Some(hash) => hash.bytes[0],
        None => 0,
    }
}
