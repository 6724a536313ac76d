ghost use Rattle.std.specs.Prelude.{◌≡◌, ◌≤◌, length};

use crate::bytes::padded;

/// A hash or an HMAC (FIDO Device Onboard 1.1, section 3.3.2). What `hash_of` and `hmac_of` give is consistent: its
/// kind is known, its length is the kind's, and the bytes past it are zero. Two are equal where all three parts are;
/// `==` does not take constant time.
#[derive(Clone, Copy, Debug, PartialEq, Eq)]
pub struct Hash {
    /// The number of its kind: `SHA256`, `SHA384`, `HMAC_SHA256` or `HMAC_SHA384`.
    pub kind: i64,
    /// How many bytes it has: 32 or 48.
    pub len: u8,
    /// Its bytes, in the order in which the hash gives them, and zeros past them.
    pub bytes: [u8; 48],
}

/// An HMAC (RFC 2104), which has the form of a hash.
pub type HMac = Hash;

impl Hash {
    ghost use Rattle.hash_hmac.specs.Value.{content as content_of, hash_value};

    /// The value of a kind with these bytes, of which there are at most 48. It is consistent where they are as many as
    /// the kind has.
    pub fn filled(kind: i64, bytes: &[u8]) -> Hash
        requires { length bytes.now ≤ 48 }
        ensures { result ≡ hash_value kind bytes.now }
    {
        let all = padded(bytes);
        Hash {
            kind,
            len: bytes.len() as u8,
            bytes: all,
        }
    }
    /// Its bytes, as many as it has.
    pub fn content(&self) -> &[u8]
        ensures { result.now ≡ content_of self.now }
    {
        match self.bytes.get(..self.len as usize) {
            Some(bytes) => bytes,
            None => &self.bytes,
        }
    }
}
