ghost use Rattle.std.specs.Prelude.{◌≡◌};

use crate::down_fault::DownFault;
use crate::file::File;
use cbor_core::{Blob, Text};
use sha2::{Digest, Sha384};

/// A file of which pieces are still to come.
#[derive(Drop)]
pub struct Receiving {
    pub name: Text,
    /// How many bytes were announced.
    pub size: u64,
    /// The hash that was announced.
    pub hash: [u8; 48],
    /// The bytes that came.
    pub bytes: Vec<u8>,
    /// What has hashed them.
    pub hasher: Sha384,
    /// The place of the next pair.
    pub place: u64,
}

impl Receiving {
    ghost use Rattle.sha2.specs.Hashers.{Holds384};
    ghost use Rattle.download_module.specs.Received.{file_of};

    /// The file, or why it is none.
    pub fn finish(self) -> Result<Option<File>, DownFault>
        ensures { Holds384 self.hasher self.bytes.items → result ≡ file_of self.name self.size self.hash self.bytes.items }
    {
        let Receiving {
            name,
            size,
            hash,
            bytes,
            hasher,
            place: _,
        } = self;
        let count = bytes.len() as u64;
        if count < size {
            return Err(DownFault::Cut {
                said: size,
                got: count,
            });
        }
        let got = hasher.finalize();
        if hash == got {
            Ok(Some(File {
                name,
                bytes: Blob::new(bytes),
            }))
        } else {
            Err(DownFault::HashDiffers { said: hash, got })
        }
    }
}
