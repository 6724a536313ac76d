ghost use Rattle.std.specs.Prelude.{◌≡◌, ◌↔◌, IfOk, IsTrue};
ghost use Rattle.voucher_chain.specs.Match.{IsMatch, IsMacOf};

use crate::chain::is_hash_of;
use crate::header::Guid;
use crate::voucher::Voucher;
use cbor_core::{Blob, NoMemory, Text};
use hash_hmac::{HMac, Hash, hmac_of};
use std::fmt;

/// What a device keeps of its voucher (FIDO Device Onboard 1.1, section 3.4.1, "DeviceCredential").
#[derive(Drop)]
pub struct Credential {
    pub guid: Guid,
    /// The bytes of the rendezvous information.
    pub rv: Blob,
    /// DeviceInfo.
    pub info: Text,
    /// The secret under which the device made the HMAC of the voucher's header.
    pub secret: [u8; 32],
    /// The hash of the key in the voucher's header.
    pub key_hash: Hash,
    /// The kind of that HMAC: 5 (HMAC-SHA-256) or 6 (HMAC-SHA-384).
    pub alg: u8,
}

/// Shows all but the secret.
impl fmt::Debug for Credential {
    fn fmt<F: fmt::Write>(&self, f: &mut fmt::Formatter<F>) -> fmt::Result {
        f.debug_struct("Credential")
            .field("guid", &self.guid)
            .field("rv", &self.rv)
            .field("info", &self.info)
            .field("key_hash", &self.key_hash)
            .field("alg", &self.alg)
            .finish_non_exhaustive()
    }
}

impl Credential {
    /// An equal credential.
    pub fn copy(&self) -> Result<Credential, NoMemory>
        ensures { IfOk result (λ copy. copy ≡ self.now) }
    {
        Ok(Credential {
            guid: self.guid,
            rv: self.rv.copy()?,
            info: self.info.copy()?,
            secret: self.secret,
            key_hash: self.key_hash,
            alg: self.alg,
        })
    }
}

/// Whether a voucher is that of a device: their GUIDs are equal, the kind of the voucher's HMAC is the credential's, the
/// hash of the header's key is the credential's, and the HMAC of the header under the credential's secret is the
/// voucher's, both over bytes as received. It takes no memory.
pub fn matches(credential: &Credential, voucher: &Voucher) -> bool
    ensures { IsTrue result ↔ IsMatch credential.now voucher.now }
{
    credential.guid == voucher.header.guid
        && voucher.hmac.kind == credential.alg as i64
        && is_hash_of(&credential.key_hash, voucher.header.key_raw.as_list(), &[]) == Some(true)
        && is_mac_of(
            &voucher.hmac,
            &credential.secret,
            voucher.header.raw.as_list(),
        )
}

fn is_mac_of(hmac: &HMac, secret: &[u8], text: &[u8]) -> bool
    ensures { IsTrue result ↔ IsMacOf hmac.now secret.now text.now }
{
    hmac_of(hmac.kind, secret, text) == Some(*hmac)
}
