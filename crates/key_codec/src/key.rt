ghost use Rattle.std.specs.Prelude.{◌≡◌, ◌↔◌, IfOk, IsTrue};

use crate::chain::X5Chain;
use cbor_core::{Blob, NoMemory};
use std::alloc::Global;

/// A public key (FIDO Device Onboard 1.1, "Public Key").
#[derive(Debug, Drop)]
pub struct PublicKey {
    /// The type, as `SECP256R1`.
    pub kind: i64,
    /// The encoding, as `encoding::COSEKEY`.
    pub enc: i64,
    pub body: KeyBody,
}

/// The body of a key, by its encoding.
#[derive(Debug, Drop)]
pub enum KeyBody {
    /// Of the encodings Crypto and X509.
    Bytes(Blob),
    /// Of X5CHAIN.
    Chain(X5Chain),
    /// Of COSEKEY.
    Cose(CoseKey),
}

/// A point on a curve, as a COSE key has it (RFC 9053, section 7.1.1).
#[derive(Debug, Drop)]
pub struct CoseKey {
    /// 1 for P-256, 2 for P-384.
    pub curve: i64,
    pub x: Blob,
    pub y: Blob,
}

impl PublicKey {
    /// An equal key.
    pub fn copy(&self, alloc: Global) -> Result<PublicKey, NoMemory>
        ensures { IfOk result (λ key. key ≡ self.now) }
    {
        Ok(PublicKey {
            kind: self.kind,
            enc: self.enc,
            body: self.body.copy(alloc)?,
        })
    }

    /// Whether type, encoding and body are equal.
    pub fn same(&self, other: &PublicKey) -> bool
        ensures { IsTrue result ↔ (self.now ≡ other.now) }
    {
        self.kind == other.kind && self.enc == other.enc && self.body.same(&other.body)
    }
}

impl KeyBody {
    /// An equal body.
    pub fn copy(&self, alloc: Global) -> Result<KeyBody, NoMemory>
        ensures { IfOk result (λ body. body ≡ self.now) }
    {
        Ok(match self {
            KeyBody::Bytes(bytes) => KeyBody::Bytes(bytes.copy()?),
            KeyBody::Chain(chain) => KeyBody::Chain(chain.copy(alloc)?),
            KeyBody::Cose(key) => KeyBody::Cose(key.copy()?),
        })
    }

    pub fn same(&self, other: &KeyBody) -> bool
        ensures { IsTrue result ↔ (self.now ≡ other.now) }
    {
        match (self, other) {
            (KeyBody::Bytes(own), KeyBody::Bytes(others)) => own == others,
            (KeyBody::Chain(own), KeyBody::Chain(others)) => own.same(others),
            (KeyBody::Cose(own), KeyBody::Cose(others)) => own.same(others),
            _ => false,
        }
    }
}

impl CoseKey {
    /// An equal COSE key.
    pub fn copy(&self) -> Result<CoseKey, NoMemory>
        ensures { IfOk result (λ key. key ≡ self.now) }
    {
        Ok(CoseKey {
            curve: self.curve,
            x: self.x.copy()?,
            y: self.y.copy()?,
        })
    }

    pub fn same(&self, other: &CoseKey) -> bool
        ensures { IsTrue result ↔ (self.now ≡ other.now) }
    {
        self.curve == other.curve && self.x == other.x && self.y == other.y
    }
}
