ghost use Rattle.std.specs.Prelude.{◌≡◌};

/// The body is the key's own bytes.
pub const CRYPTO: i64 = 0;

/// The body is the bytes of an X.509 SubjectPublicKeyInfo.
pub const X509: i64 = 1;

/// The body is a chain of X.509 certificates.
pub const X5CHAIN: i64 = 2;

/// The body is a COSE key (RFC 9052, section 7).
pub const COSEKEY: i64 = 3;

/// What the body of a key is made of.
#[derive(Clone, Copy, Debug, PartialEq, Eq)]
pub enum Form {
    Bytes,
    Chain,
    Cose,
}

impl Form {
    ghost use Rattle.key_codec.specs.Key.{form_of};

    /// What an encoding makes the body of. None for an encoding that is not known.
    pub fn of(enc: i64) -> Option<Form>
        ensures { result ≡ form_of enc }
    {
        match enc {
            CRYPTO | X509 => Some(Form::Bytes),
            X5CHAIN => Some(Form::Chain),
            COSEKEY => Some(Form::Cose),
            _ => None,
        }
    }
}
