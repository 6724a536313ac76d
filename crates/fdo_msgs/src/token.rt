ghost use Rattle.std.specs.Prelude.{◌≡◌, ◌==◌, ◌≤◌, ◌<◌, ◌↔◌, ◌++◌, length, vec_len, IsSome, IfSome, IfOk};
ghost use Rattle.std.specs.Cmp.Lexicographic.{pointwise};
ghost use Rattle.std.specs.Cmp.Rules.{comparing, hashing};
ghost use Rattle.std.proofs.Common.{rules};

use base64::engine::general_purpose::URL_SAFE_NO_PAD;
use cbor_core::NoMemory;
use std::alloc::Global;
use std::fmt;
use std::hash::{Hash, Hasher};
use std::marker::Model;

/// The most bytes that a token has.
pub const MOST_TOKEN_BYTES: usize = 1024;

/// The value of the header field Authorization, by which a message names its session: 1 to 1,024 bytes
/// (FIDO Device Onboard 1.1, section 4.3, HTTP binding).
#[derive(Drop)]
pub struct Token {
    value: Vec<u8>,
}

impl Model for Token {
    ghost use Rattle.std.specs.Prelude.{List, ℕ, ◌≤◌, length, vec_len};

    ghost Value = { List ℕ };

    ghost view = { λ t. t.value.items };

    ghost invariant = { λ t. (1 ≤ length t.value.items) × (length t.value.items ≤ 1024) };
}

/// Says how many bytes it has, and not which: whoever knows them can go on in the session.
impl fmt::Debug for Token {
    fn fmt<F: fmt::Write>(&self, f: &mut fmt::Formatter<F>) -> fmt::Result {
        f.debug_struct("Token")
            .field("bytes", &self.value.len())
            .finish_non_exhaustive()
    }
}

impl PartialEq for Token {
    ghost eq = { pointwise ◌==◌ };

    ghost laws = { Prim.search (comparing, rules) };

    fn eq(&self, other: &Token) -> bool {
        self.as_list() == other.as_list()
    }
}

impl Eq for Token {
    ghost laws = { Prim.search (comparing, rules) };
}

impl Hash for Token {
    ghost use Rattle.std.specs.Hash as fed;

    ghost hash_input = { fed.slice fed.u8 };

    ghost respects_eq = { Prim.search (hashing, rules) };

    fn hash<H: Hasher>(&self, state: &mut H) {
        self.as_list().hash(state)
    }
}

impl Token {
    /// The token of these bytes, or None where they are none or more than 1,024.
    pub fn new(value: Vec<u8>) -> Option<Token>
        ensures valid { IsSome result ↔ ((1 ≤ length value.items) × (length value.items ≤ 1024)) }
        ensures value { IfSome result (λ token. token ≡ value.items) }
    {
        if value.is_empty() || value.len() > MOST_TOKEN_BYTES {
            return None;
        }
        Some(Token { value })
    }

    pub fn as_list(&self) -> &[u8]
        ensures bytes { result.now ≡ self.now }
        ensures some { 1 ≤ length self.now }
        ensures most { length self.now ≤ 1024 }
    {
        self.value.as_slice()
    }

    pub fn into_vec(self) -> Vec<u8>
        ensures bytes { result.items ≡ self }
        ensures some { 1 ≤ length result.items }
        ensures most { length result.items ≤ 1024 }
    {
        let Token { value } = self;
        value
    }

    pub fn copy(&self) -> Result<Token, NoMemory>
        ensures { IfOk result (λ token. token ≡ self.now) }
    {
        Ok(Token {
            value: self.value.clone()?,
        })
    }
}

ghost use Rattle.fdo_msgs.specs.Token.{bearer_token};

/// The token of a draw: `Bearer ` and the base64url of its 16 bytes without padding, 29 bytes.
#[tactic(auto, unfolding(crate::specs::Token::bearer_token))]
pub fn token_text(alloc: Global, draw: &[u8; 16]) -> Result<Token, NoMemory>
    ensures { IfOk result (λ token. token ≡ bearer_token draw.now) }
{
    let mut text = [0; 22];
    if URL_SAFE_NO_PAD.encode_slice(draw, &mut text).is_err() {
        unreachable!();
    }
    let mut value = Vec::with_capacity(alloc, 29)?;
    value.extend_from_slice(b"Bearer ")?;
    value.extend_from_slice(&text)?;
    Ok(Token { value })
}
