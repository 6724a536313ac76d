use crate::timing::{Work, least, report_thousandths, since};
use cbor_core::read_wire;
use fdo_msgs::{Msg, read_body, write_body};
use std::alloc::Global;
use std::time::Instant;
use std::{fs, io};

/// Times reading bodies of messages, and reading and writing them, beside reading the same bytes to an item. The first
/// word is a folder; each further one is a message type T, and its body is the folder's file T.body.
pub fn measure(rt: &HostRuntime, words: &[String]) -> io::Result<()> {
    let Some((folder, words)) = words.split_first() else {
        return Ok(());
    };
    for word in words {
        if let Ok(kind) = word.parse::<u8>() {
            let path = format!(in rt.alloc(); "{folder}/{kind}.body")?;
            let body = fs::read(rt, path.as_str())?;
            time_all(rt, kind, body.as_slice())?;
        }
    }
    Ok(())
}

fn time_all(rt: &HostRuntime, kind: u8, body: &[u8]) -> io::Result<()> {
    for mode in [Mode::Item, Mode::Read, Mode::Both] {
        let reading = Reading { kind, body, mode };
        let time = least(rt, &reading)?;
        let name = mode.name();
        let what = format!(in rt.alloc(); "body/{kind}/{name}")?;
        report_thousandths(rt, what.as_str(), time, "ns")?;
    }
    Ok(())
}

/// What is timed.
#[derive(Clone, Copy, Debug, PartialEq, Eq)]
enum Mode {
    Item,
    Read,
    Both,
}

impl Mode {
    fn name(&self) -> &str {
        match self {
            Mode::Item => "item",
            Mode::Read => "read",
            Mode::Both => "read+write",
        }
    }
}

/// A turn reads one body.
#[derive(Clone, Copy)]
struct Reading<'a> {
    kind: u8,
    body: &'a [u8],
    mode: Mode,
}

impl Work for Reading<'_> {
    fn batch(&self, rt: &HostRuntime, turns: u64) -> io::Result<u64> {
        let start = Instant::now(rt)?;
        let mut sum = 0usize;
        for _turn in 0..turns {
            sum = sum.saturating_add(turn(rt.alloc(), self.kind, self.body, self.mode));
        }
        let time = since(rt, start)?;
        Ok(if sum == 0 { 0 } else { time })
    }
}

/// One turn: 0 where the body was not read.
fn turn(alloc: Global, kind: u8, body: &[u8], mode: Mode) -> usize {
    match mode {
        Mode::Item => item(alloc, body),
        Mode::Read => message(alloc, kind, body, false),
        Mode::Both => message(alloc, kind, body, true),
    }
}

fn item(alloc: Global, body: &[u8]) -> usize {
    match read_wire(alloc, body) {
        Ok((_, taken)) => taken,
        Err(_) => 0,
    }
}

fn message(alloc: Global, kind: u8, body: &[u8], writes: bool) -> usize {
    match read_body(alloc, kind, body) {
        Ok(message) => {
            let count = if writes { written(alloc, &message) } else { 1 };
            drop(message);
            count
        }
        Err(_) => 0,
    }
}

fn written(alloc: Global, message: &Msg) -> usize {
    match write_body(alloc, message) {
        Ok(body) => body.as_list().len(),
        Err(_) => 0,
    }
}
