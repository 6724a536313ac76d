ghost use Rattle.std.specs.Prelude.{◌≡◌, ◌++◌, Some};
ghost use Rattle.sha2.specs.Sha256.{sha256};
ghost use Rattle.suite_port.specs.Answer.{Answers, bytes_of};

use crate::fault::SuiteFault;
use sha2::{Digest, Sha256};
use std::alloc::Global;

/// SHA-256 (FIPS 180-4, section 6.2) of three texts in a row.
pub(crate) fn hash(label: &[u8], first: &[u8], second: &[u8]) -> [u8; 32]
    ensures { result ≡ sha256 (label.now ++ first.now ++ second.now) }
{
    let mut hasher = Sha256::new();
    hasher.update(label);
    hasher.update(first);
    hasher.update(second);
    hasher.finalize()
}

/// SHA-256 of four texts in a row.
pub(crate) fn hash_four(label: &[u8], first: &[u8], second: &[u8], third: &[u8]) -> [u8; 32]
    ensures { result ≡ sha256 (label.now ++ first.now ++ second.now ++ third.now) }
{
    let mut hasher = Sha256::new();
    hasher.update(label);
    hasher.update(first);
    hasher.update(second);
    hasher.update(third);
    hasher.finalize()
}

/// SHA-256 of six texts in a row.
pub(crate) fn hash_six(
    label: &[u8],
    first: &[u8],
    second: &[u8],
    third: &[u8],
    fourth: &[u8],
    fifth: &[u8],
) -> [u8; 32]
    ensures { result ≡ sha256 (label.now ++ first.now ++ second.now ++ third.now ++ fourth.now ++ fifth.now) }
{
    let mut hasher = Sha256::new();
    hasher.update(label);
    hasher.update(first);
    hasher.update(second);
    hasher.update(third);
    hasher.update(fourth);
    hasher.update(fifth);
    hasher.finalize()
}

/// The bytes, owned.
pub(crate) fn owned(alloc: Global, bytes: &[u8]) -> Result<Vec<u8>, SuiteFault>
    ensures { Answers bytes_of (Some bytes.now) result }
{
    Ok(Vec::from_slice(alloc, bytes)?)
}

/// Two texts in a row, owned.
pub(crate) fn joined(alloc: Global, first: &[u8], second: &[u8]) -> Result<Vec<u8>, SuiteFault>
    ensures { Answers bytes_of (Some (first.now ++ second.now)) result }
{
    let mut all = Vec::from_slice(alloc, first)?;
    all.extend_from_slice(second)?;
    Ok(all)
}
