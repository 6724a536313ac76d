use crate::timing::{Work, least, report, report_thousandths, since};
use cbor_core::{Cursor, read_wire, write_det};
use std::alloc::{AllocError, Global};
use std::time::Instant;
use std::{fs, io};

/// Times reading and writing CBOR. The first word is a folder; each further one is a word W, and the bodies are in the
/// folder's file W.frames.
pub fn measure(rt: &HostRuntime, words: &[String]) -> io::Result<()> {
    let Some((folder, words)) = words.split_first() else {
        return Ok(());
    };
    for word in words {
        let path = format!(in rt.alloc(); "{folder}/{word}.frames")?;
        let file = fs::read(rt, path.as_str())?;
        let bodies = split(rt.alloc(), file.as_slice())?;
        let bytes = total(&bodies);
        for mode in [Mode::Decode, Mode::Both, Mode::Open, Mode::Walk] {
            let reading = Reading {
                bodies: &bodies,
                mode,
            };
            let time = least(rt, &reading)? / 1000;
            let name = mode.name();
            let what = format!(in rt.alloc(); "cbor/{name}/{word}")?;
            let each = time / (bodies.len() as u64).max(1);
            let rate = (bytes as u64).saturating_mul(1_000_000) / time.max(1);
            report(rt, what.as_str(), each, "ns/body")?;
            report_thousandths(rt, what.as_str(), rate, "MB/s")?;
        }
    }
    Ok(())
}

/// The bodies of a file, each after four bytes with its length, most significant first.
fn split(alloc: Global, file: &[u8]) -> Result<Vec<Vec<u8>>, AllocError> {
    let mut bodies = Vec::new(alloc);
    let mut rest = file;
    for _body in 0..file.len() {
        let Some((len, after)) = length(rest) else {
            break;
        };
        let len = (len as usize).min(after.len());
        let (body, next) = after.split_at(len);
        bodies.push(Vec::from_slice(alloc, body)?)?;
        rest = next;
    }
    Ok(bodies)
}

fn length(bytes: &[u8]) -> Option<(u32, &[u8])> {
    if bytes.len() < 4 {
        return None;
    }
    let (head, rest) = bytes.split_at(4);
    Some((
        u32::from_be_bytes([head[0], head[1], head[2], head[3]]),
        rest,
    ))
}

/// How many bytes the bodies have.
fn total(bodies: &[Vec<u8>]) -> usize {
    let mut sum = 0usize;
    for body in bodies {
        sum = sum.saturating_add(body.len());
    }
    sum
}

/// What is timed.
#[derive(Clone, Copy, Debug, PartialEq, Eq)]
enum Mode {
    Decode,
    Both,
    /// Opening a cursor.
    Open,
    /// Opening a cursor, and going with it to each part.
    Walk,
}

impl Mode {
    fn name(&self) -> &str {
        match self {
            Mode::Decode => "decode",
            Mode::Both => "decode+encode",
            Mode::Open => "open",
            Mode::Walk => "open+walk",
        }
    }
}

/// A turn goes over all bodies.
#[derive(Clone, Copy)]
struct Reading<'a> {
    bodies: &'a [Vec<u8>],
    mode: Mode,
}

impl Work for Reading<'_> {
    fn batch(&self, rt: &HostRuntime, turns: u64) -> io::Result<u64> {
        let start = Instant::now(rt)?;
        let mut sum = 0usize;
        for _turn in 0..turns {
            sum = sum.saturating_add(turn(rt.alloc(), self.bodies, self.mode));
        }
        let time = since(rt, start)?;
        Ok(if sum == 0 { 0 } else { time })
    }
}

/// One turn: how many bytes were read, written or shown.
fn turn(alloc: Global, bodies: &[Vec<u8>], mode: Mode) -> usize {
    let mut sum = 0usize;
    for body in bodies {
        let count = match mode {
            Mode::Decode => read(alloc, body.as_slice(), false),
            Mode::Both => read(alloc, body.as_slice(), true),
            Mode::Open => open(alloc, body.as_slice(), false),
            Mode::Walk => open(alloc, body.as_slice(), true),
        };
        sum = sum.saturating_add(count);
    }
    sum
}

fn read(alloc: Global, body: &[u8], writes: bool) -> usize {
    let Ok((item, taken)) = read_wire(alloc, body) else {
        return 0;
    };
    if !writes {
        return taken;
    }
    match write_det(alloc, &item) {
        Ok(blob) => blob.as_list().len(),
        Err(_) => 0,
    }
}

fn open(alloc: Global, body: &[u8], walks: bool) -> usize {
    match Cursor::open(alloc, body) {
        Ok((cursor, taken)) => { if walks { walk(&cursor, 16) } else { taken } }
        Err(_) => 0,
    }
}

/// How many bytes the parts show that nothing stands in.
fn walk(cursor: &Cursor, levels: u8) -> usize {
    if let Some(content) = cursor.content() {
        return content.len();
    }
    let Some(first) = cursor.inside() else {
        return cursor.raw().len();
    };
    if levels == 0 {
        return 0;
    }
    let mut sum = 0usize;
    let mut part = first;
    for _part in 0..u64::MAX {
        sum = sum.saturating_add(walk(&part, levels - 1));
        match part.after() {
            Some(next) => part = next,
            None => break,
        }
    }
    sum
}
