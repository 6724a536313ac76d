ghost use Rattle.std.specs.Prelude.{◌≡◌, ◌≤◌, ◌*◌, ◌⊎◌, ℕ, ℤ, List, Option, Some, IfSome, length};
ghost use Rattle.suite_port.specs.Answer.{Answers, bytes_of, maybe_bytes_of};
ghost use Rattle.suite_port.specs.LabOpening.{lab_opens_sealed, lab_two_keys};
ghost use Rattle.suite_port.specs.LabSeal.{lab_bits, lab_seals, lab_opens};
ghost use Rattle.suite_port.specs.Sizes.{most_plain};

use crate::aead::Aead;
use crate::fault::SuiteFault;
use crate::lab_seal::{combined, tag};
use crate::lab_suite::LabSuite;
use std::alloc::Global;

/// -65538 has a key of 128 bits. The plain text is combined by exclusive or with a stream of blocks, each SHA-256 of
/// `FDO-LAB-STREAM`, the key, the IV and the block's number from 0; then 16 bytes of tag follow, the first of SHA-256
/// of `FDO-LAB-TAG`, the key, the IV, the length of the additional data, the additional data and the combined text.
/// -65539, the number of encrypt-then-MAC, has a key of 256 bits, and where it is called by itself does the same
/// with the whole of it.
impl Aead for LabSuite {
    ghost bits = { lab_bits };

    ghost seals = { lab_seals };

    ghost opens = { lab_opens };

    ghost opens_sealed = { lab_opens_sealed };

    ghost two_keys = { lab_two_keys };

    fn key_bits(&self, alg: i64) -> Option<u16> {
        match alg {
            -65538 => Some(128),
            -65539 => Some(256),
            _ => None,
        }
    }

    fn seal(
        &mut self,
        alloc: Global,
        _alg: i64,
        key: &[u8],
        iv: &[u8; 12],
        aad: &[u8],
        plain: &[u8],
    ) -> Result<Vec<u8>, SuiteFault>
        requires key { lab_bits _alg ≡ Some (8 * length key.now) }
        requires aad { length aad.now ≤ most_plain }
        requires plain { length plain.now ≤ most_plain }
        ensures answer { Answers bytes_of (Some (lab_seals _alg key.now iv.now aad.now plain.now)) result }
        ensures same { self.new ≡ self.old }
    {
        let mut sealed = combined(alloc, key, iv, plain)?;
        let tag = tag(key, iv, aad, sealed.as_slice());
        match sealed.extend_from_slice(tag.as_slice()) {
            Ok(()) => Ok(sealed),
            Err(error) => Err(error.into()),
        }
    }

    fn open(
        &mut self,
        alloc: Global,
        _alg: i64,
        key: &[u8],
        iv: &[u8; 12],
        aad: &[u8],
        sealed: &[u8],
    ) -> Result<Option<Vec<u8>>, SuiteFault>
        requires key { lab_bits _alg ≡ Some (8 * length key.now) }
        ensures answer { Answers maybe_bytes_of (Some (lab_opens _alg key.now iv.now aad.now sealed.now)) result }
        ensures same { self.new ≡ self.old }
    {
        if sealed.len() < 16 {
            return Ok(None);
        }
        let (text, end) = sealed.split_at(sealed.len() - 16);
        if end != tag(key, iv, aad, text).as_slice() {
            return Ok(None);
        }
        match combined(alloc, key, iv, text) {
            Ok(plain) => Ok(Some(plain)),
            Err(fault) => Err(fault),
        }
    }
}
