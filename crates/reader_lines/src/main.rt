//! Reads lines `KIND INPUT: ..` with bytes in hexadecimal, `-` for none, and prints of each what the reader of that
//! kind answers. KIND is cbor, key, sign1, mac0, encrypt0, header, entry or voucher, or the type of a message, of which
//! the bytes are the body. A line that begins with `#` is printed as it is.
#![tactic(auto)]

mod bodies;
mod cbor;
mod envelopes;
mod keys;
mod vouchers;

use std::alloc::Global;
use std::io;

fn main(rt: HostRuntime) -> io::Result<()> {
    for line in rt.lines(rt.alloc()) {
        let line = line?;
        let line = line.as_str();
        if line.starts_with('#') {
            println!(rt; "{line}")?;
            continue;
        }
        let front = match line.split_once(':') {
            Some((front, _)) => front,
            None => line,
        };
        let text = answer(rt.alloc(), front)?;
        println!(rt; "{front}: {text}")?;
    }
    Ok(())
}

/// The answer to `KIND INPUT`.
fn answer(alloc: Global, front: &str) -> io::Result<String> {
    let Some((kind, input)) = front.split_once(' ') else {
        return Ok(format!(in alloc; "no kind")?);
    };
    let digits = if input == "-" { "" } else { input };
    let Ok(bytes) = hex::decode(alloc, digits) else {
        return Ok(format!(in alloc; "no bytes")?);
    };
    let bytes = bytes.as_slice();
    match kind {
        "cbor" => cbor::answer(alloc, bytes),
        "key" => keys::answer(alloc, bytes),
        "sign1" => envelopes::sign1(alloc, bytes),
        "mac0" => envelopes::mac0(alloc, bytes),
        "encrypt0" => envelopes::encrypt0(alloc, bytes),
        "header" => vouchers::header(alloc, bytes),
        "entry" => vouchers::entry(alloc, bytes),
        "voucher" => vouchers::voucher(alloc, bytes),
        _ => match kind.parse::<u8>() {
            Ok(kind) => bodies::answer(alloc, kind, bytes),
            Err(_) => Ok(format!(in alloc; "no kind")?),
        },
    }
}
