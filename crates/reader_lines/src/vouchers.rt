//! What the readers of vouchers and their parts answer: `ok`, for a voucher with the number of its entries, or `place`
//! and the place of the first fault.

use std::alloc::Global;
use std::io;
use voucher_chain::{ChainFault, read_entry, read_header, read_voucher};

pub fn header(alloc: Global, bytes: &[u8]) -> io::Result<String> {
    match read_header(alloc, bytes) {
        Ok(_) => Ok(format!(in alloc; "ok")?),
        Err(fault) => refused(alloc, fault),
    }
}

pub fn entry(alloc: Global, bytes: &[u8]) -> io::Result<String> {
    match read_entry(alloc, bytes) {
        Ok(_) => Ok(format!(in alloc; "ok")?),
        Err(fault) => refused(alloc, fault),
    }
}

pub fn voucher(alloc: Global, bytes: &[u8]) -> io::Result<String> {
    match read_voucher(alloc, bytes) {
        Ok(voucher) => {
            let count = voucher.entries.as_list().len();
            Ok(format!(in alloc; "ok {count}")?)
        }
        Err(fault) => refused(alloc, fault),
    }
}

fn refused(alloc: Global, fault: ChainFault) -> io::Result<String> {
    let text = match fault {
        ChainFault::BadShape(place) => format!(in alloc; "place {place}")?,
        ChainFault::TooLong => format!(in alloc; "toolong")?,
        ChainFault::NoMemory => format!(in alloc; "NoMemory")?,
        _ => format!(in alloc; "another fault")?,
    };
    Ok(text)
}
