use crate::timing::{Work, least, report_thousandths, since};
use cbor_core::Text;
use download_module::{Receiver, send_pairs};
use hash_hmac::{SHA384, hash_of};
use service_info::{Module, Pair};
use std::alloc::Global;
use std::io;
use std::time::Instant;

/// Times the transfer of a file, cut into pairs of ServiceInfo, to the module that receives it, and SHA-384 of the same
/// bytes. Each word is a number of bytes.
pub fn measure(rt: &HostRuntime, words: &[String]) -> io::Result<()> {
    for word in words {
        if let Ok(size) = word.parse::<u32>() {
            let file = vec![in rt.alloc(); 0u8; size as usize]?;
            time_all(rt, file.as_slice())?;
        }
    }
    Ok(())
}

fn time_all(rt: &HostRuntime, file: &[u8]) -> io::Result<()> {
    for sends in [false, true] {
        let transfer = Transfer { file, sends };
        let time = least(rt, &transfer)?;
        let name = if sends { "transfer" } else { "sha384" };
        let size = file.len();
        let what = format!(in rt.alloc(); "file/{name}/{size} B")?;
        report_thousandths(rt, what.as_str(), time, "ns")?;
    }
    Ok(())
}

/// A turn sends one file, or hashes it.
#[derive(Clone, Copy)]
struct Transfer<'a> {
    file: &'a [u8],
    sends: bool,
}

impl Work for Transfer<'_> {
    fn batch(&self, rt: &HostRuntime, turns: u64) -> io::Result<u64> {
        let start = Instant::now(rt)?;
        let mut sum = 0usize;
        for _turn in 0..turns {
            sum = sum.saturating_add(turn(rt.alloc(), self.file, self.sends));
        }
        let time = since(rt, start)?;
        Ok(if sum == 0 { 0 } else { time })
    }
}

/// One turn: 0 where the file was not received.
fn turn(alloc: Global, file: &[u8], sends: bool) -> usize {
    if sends {
        return sent(alloc, file);
    }
    match hash_of(SHA384, file, &[]) {
        Some(_) => 1,
        None => 0,
    }
}

fn sent(alloc: Global, file: &[u8]) -> usize {
    let Ok(name) = Text::from_str(alloc, "file") else {
        return 0;
    };
    match send_pairs(alloc, &name, file) {
        Ok(pairs) => received(alloc, file.len() as u64, pairs.as_slice()),
        Err(_) => 0,
    }
}

fn received(alloc: Global, limit: u64, pairs: &[Pair]) -> usize {
    let mut receiver = Receiver::new(limit);
    for pair in pairs {
        if receiver.take(alloc, pair).is_err() {
            return 0;
        }
    }
    match receiver.finish() {
        Ok(Some(_)) => 1,
        _ => 0,
    }
}
