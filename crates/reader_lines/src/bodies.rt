use fdo_msgs::{BodyFault, read_body, write_body};
use std::alloc::Global;
use std::io;

/// What `read_body` answers to the body of a type: `Ok HEX`, with what `write_body` gives of the message, or `Body` and
/// the place of the first fault.
pub fn answer(alloc: Global, kind: u8, bytes: &[u8]) -> io::Result<String> {
    let text = match read_body(alloc, kind, bytes) {
        Ok(message) => {
            let written = write_body(alloc, &message);
            drop(message);
            match written {
                Ok(body) => {
                    let digits = hex::encode(alloc, body.as_list())?;
                    format!(in alloc; "Ok {digits}")?
                }
                Err(_) => format!(in alloc; "NoMemory")?,
            }
        }
        Err(BodyFault::Body(place)) => format!(in alloc; "Body {place}")?,
        Err(BodyFault::NoMemory) => format!(in alloc; "NoMemory")?,
    };
    Ok(text)
}
