use cbor_core::{CborFault, Item, read_det, read_wire, write_det};
use std::alloc::Global;
use std::io;

/// What `read_wire` and `read_det` answer: `Ok N HEX`, with the number of bytes taken and the item's deterministic
/// spelling, or the fault and its place.
pub fn answer(alloc: Global, bytes: &[u8]) -> io::Result<String> {
    let wire = said(alloc, read_wire(alloc, bytes))?;
    let det = said(alloc, read_det(alloc, bytes))?;
    Ok(format!(in alloc; "{wire}: {det}")?)
}

fn said(alloc: Global, read: Result<(Item, usize), CborFault>) -> io::Result<String> {
    let text = match read {
        Ok((item, taken)) => match write_det(alloc, &item) {
            Ok(blob) => {
                let spelled = hex::encode(alloc, blob.as_list())?;
                format!(in alloc; "Ok {taken} {spelled}")?
            }
            Err(_) => format!(in alloc; "NoMemory")?,
        },
        Err(CborFault::Truncated(place)) => format!(in alloc; "Truncated {place}")?,
        Err(CborFault::Malformed(place)) => format!(in alloc; "Malformed {place}")?,
        Err(CborFault::TooDeep(place)) => format!(in alloc; "TooDeep {place}")?,
        Err(CborFault::Duplicate(place)) => format!(in alloc; "Duplicate {place}")?,
        Err(CborFault::Float(place)) => format!(in alloc; "Float {place}")?,
        Err(CborFault::NotDeterministic(place)) => format!(in alloc; "NotDeterministic {place}")?,
        Err(CborFault::NoMemory) => format!(in alloc; "NoMemory")?,
    };
    Ok(text)
}
