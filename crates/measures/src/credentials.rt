ghost use Rattle.std.specs.Prelude.{IfOk};
ghost use Rattle.credential_store.specs.Body.{IsKept};

use cbor_core::Text;
use credential_store::read_image;
use std::io;
use voucher_chain::Credential;

/// The file of a credential whose GUID, secret and hash of the header's key are 0, and DeviceInfo `lab`.
static IMAGE: [u8; 109] = [
    1, 0, 0, 0, 0, 0, 0, 0, 1, 0, 0, 0, 96, 135, 2, 80, 0, 0, 0, 0, 0, 0, 0, 0, 0, 0, 0, 0, 0, 0,
    0, 0, 65, 128, 99, 108, 97, 98, 88, 32, 0, 0, 0, 0, 0, 0, 0, 0, 0, 0, 0, 0, 0, 0, 0, 0, 0, 0,
    0, 0, 0, 0, 0, 0, 0, 0, 0, 0, 0, 0, 0, 0, 130, 47, 88, 32, 0, 0, 0, 0, 0, 0, 0, 0, 0, 0, 0, 0,
    0, 0, 0, 0, 0, 0, 0, 0, 0, 0, 0, 0, 0, 0, 0, 0, 0, 0, 0, 0, 5,
];

/// That credential, with a number in its GUID and so many letters as DeviceInfo.
pub fn credential(rt: &HostRuntime, number: u64, letters: usize) -> io::Result<Credential>
    ensures { IfOk result IsKept }
{
    match (read_image(rt.alloc(), &IMAGE), text(rt, letters)) {
        (Ok(Some(credential)), Ok(info)) => {
            let mut credential = credential;
            credential.guid = guid(number);
            credential.info = info;
            Ok(credential)
        }
        _ => Err(other()),
    }
}

fn text(rt: &HostRuntime, letters: usize) -> io::Result<Text> {
    let bytes = vec![in rt.alloc(); 97u8; letters]?;
    match String::from_utf8(bytes) {
        Ok(text) => Ok(Text::new(text)),
        Err(_) => Err(other()),
    }
}

/// A number in the first bytes of a GUID, most significant first.
fn guid(number: u64) -> [u8; 16] {
    let bytes = number.to_be_bytes();
    let mut guid = [0u8; 16];
    for index in 0..8 {
        guid[index] = bytes[index];
    }
    guid
}

/// The number in a GUID.
pub fn number_in(credential: &Credential) -> u64 {
    let guid = credential.guid;
    u64::from_be_bytes([
        guid[0], guid[1], guid[2], guid[3], guid[4], guid[5], guid[6], guid[7],
    ])
}

/// A fault of another kind.
pub fn other() -> io::Error {
    io::Error::from(io::ErrorKind::Other)
}
