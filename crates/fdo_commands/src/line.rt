ghost use Rattle.std.specs.Prelude.{◌≡◌, ℕ, List, ◌↔◌, IfOk, IfSome, IfNone, IsTrue};
ghost use Rattle.std.specs.List.{list_all, list_any};
ghost use Rattle.fdo_commands.specs.Line.{is_visible, IsTokenWord};
ghost use Rattle.fdo_commands.specs.Input.{ReadsText};
ghost use Rattle.fdo_commands.specs.Words.{ThreeWords, ReadsToken, ReadsHex, is_capital};

use cbor_core::{Blob, NoMemory};
use fdo_msgs::{Packet, Token, cut, read_number};
use hex::FromHexError;
use std::alloc::Global;

/// The message that a line says, without its line feed, or None where it says none.
pub(crate) fn read_text(alloc: Global, line: &[u8]) -> Result<Option<Packet>, NoMemory>
    ensures { IfOk result (λ found. ReadsText line.now found) }
{
    let Some(words) = three_words(line) else {
        return Ok(None);
    };
    let Some(kind) = read_number(words.kind, 255) else {
        return Ok(None);
    };
    let token = match read_token(alloc, words.token)? {
        TokenWord::Absent => None,
        TokenWord::Named(token) => Some(token),
        TokenWord::Wrong => return Ok(None),
    };
    let Some(body) = read_hex(alloc, words.body)? else {
        return Ok(None);
    };
    Ok(Some(Packet {
        token,
        kind: kind as u8,
        body,
    }))
}

/// The words of a line.
#[derive(Clone, Copy)]
struct Words<'a> {
    kind: &'a [u8],
    token: &'a [u8],
    body: &'a [u8],
}

fn three_words(line: &[u8]) -> Option<Words<'_>>
    ensures some { IfSome result (λ w. ThreeWords line.now w.kind.now w.token.now w.body.now) }
    ensures none { IfNone result ((kind token body : List ℕ) → ThreeWords line.now kind token body → ⊥) }
{
    match cut(line, b' ') {
        Some((kind, rest)) => match cut(rest, b' ') {
            Some((token, body)) => Some(Words { kind, token, body }),
            None => None,
        },
        None => None,
    }
}

/// What the word of a token says.
#[derive(Debug, Drop)]
pub(crate) enum TokenWord {
    /// No token.
    Absent,
    /// A token.
    Named(Token),
    /// Nothing.
    Wrong,
}

fn read_token(alloc: Global, word: &[u8]) -> Result<TokenWord, NoMemory>
    ensures { IfOk result (ReadsToken word.now) }
{
    if word == b"-".as_slice() {
        return Ok(TokenWord::Absent);
    }
    if word.is_empty() || word.len() > 1017 || !all_visible(word) {
        return Ok(TokenWord::Wrong);
    }
    let mut value = Vec::with_capacity(alloc, word.len() + 7)?;
    value.extend_from_slice(b"Bearer ")?;
    value.extend_from_slice(word)?;
    match Token::new(value) {
        Some(token) => Ok(TokenWord::Named(token)),
        None => unreachable!(),
    }
}

fn all_visible(word: &[u8]) -> bool
    ensures { result ≡ list_all is_visible word.now }
{
    word.iter().all(|byte| *byte >= 33 && *byte <= 126)
}

/// The bytes, one at least, that a word in lower-case hex says.
fn read_hex(alloc: Global, word: &[u8]) -> Result<Option<Blob>, NoMemory>
    ensures { IfOk result (ReadsHex word.now) }
{
    if word.is_empty() {
        return Ok(None);
    }
    if has_capital(word) {
        return Ok(None);
    }
    match hex::decode(alloc, word) {
        Ok(bytes) => Ok(Some(Blob::new(bytes))),
        Err(error) => match error {
            FromHexError::OutOfMemory => Err(NoMemory),
            FromHexError::InvalidHexCharacter { .. } => Ok(None),
            FromHexError::OddLength => Ok(None),
            FromHexError::InvalidStringLength => Ok(None),
        },
    }
}

fn has_capital(word: &[u8]) -> bool
    ensures { result ≡ list_any is_capital word.now }
{
    word.iter().any(|byte| *byte >= b'A' && *byte <= b'F')
}
