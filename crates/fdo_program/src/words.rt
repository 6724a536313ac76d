use cbor_core::{NoMemory, Text};
use std::rt::Env;
use std::{env, io};

/// The words after the program's name. Where one of them is no text, they are no command, as no words are: then
/// there are none.
pub fn read_words<R: Env + AllocGlobal>(rt: &R) -> Result<Vec<Text>, NoMemory> {
    let mut words = Vec::new(rt.alloc());
    match env::args(rt) {
        Ok(args) => {
            for arg in args.skip(1) {
                words.push(Text::new(arg))?;
            }
        }
        Err(e) if e.kind() == io::ErrorKind::InvalidData => {}
        Err(_) => return Err(NoMemory),
    }
    Ok(words)
}
