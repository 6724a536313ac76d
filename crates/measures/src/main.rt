//! Times work, and prints JSON lines. The first argument says which work: cbor, body, file, hash, cose or store. With `commits` it commits
//! credentials without an end. Without an argument nothing is timed.
#![tactic(auto)]

mod bodies;
mod cbor;
mod commits;
mod cose;
mod credentials;
mod file;
mod hash;
mod store;
mod timing;

use std::{env, io};

fn main(rt: HostRuntime) -> io::Result<()> {
    let mut words = Vec::new(rt.alloc());
    for word in env::args(&rt)?.skip(1) {
        words.push(word)?;
    }
    let Some((kind, words)) = words.as_slice().split_first() else {
        return Ok(());
    };
    match kind.as_str() {
        "cbor" => cbor::measure(&rt, words),
        "body" => bodies::measure(&rt, words),
        "file" => file::measure(&rt, words),
        "hash" => hash::measure(&rt, words),
        "cose" => cose::measure(&rt, words),
        "store" => store::measure(&rt, words),
        "commits" => commits::run(&rt, words),
        _ => Ok(()),
    }
}
