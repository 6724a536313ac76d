ghost use Rattle.std.specs.Prelude.{◌≡◌, ◌++◌, ℕ, List, Option, Some};
ghost use Rattle.suite_port.specs.Answer.{Answers, bytes_of, two_bytes_of, only_if};
ghost use Rattle.suite_port.specs.LabAgreement.{lab_second_takes_first, lab_ends_agree};
ghost use Rattle.suite_port.specs.LabKex.{is_lab_name as is_lab_name_of, lab_first, lab_second, lab_finish, lab_secret};

use crate::bytes::{hash, owned};
use crate::fault::SuiteFault;
use crate::kex::Kex;
use crate::lab_suite::LabSuite;
use std::alloc::Global;

/// Whether a name is that of the laboratory key agreement.
fn is_lab_name(name: &[u8]) -> bool
    ensures { result ≡ is_lab_name_of name.now }
{
    name == b"LAB32".as_slice()
}

/// Two texts, owned.
fn owned_two(alloc: Global, first: &[u8], second: &[u8]) -> Result<(Vec<u8>, Vec<u8>), SuiteFault>
    ensures { Answers two_bytes_of (Some (first.now, second.now)) result }
{
    let first = owned(alloc, first)?;
    match owned(alloc, second) {
        Ok(second) => Ok((first, second)),
        Err(fault) => Err(fault),
    }
}

/// `LAB32`: xA and xB are the 32 drawn bytes, the private part is xA, and the shared secret is SHA-256 of
/// `FDO-LAB-SH`, xA and xB.
impl Kex for LabSuite {
    ghost agrees = { is_lab_name_of };

    ghost first_of = { lab_first };

    ghost second_of = { lab_second };

    ghost finish_of = { lab_finish };

    ghost second_takes_first = { lab_second_takes_first };

    ghost ends_agree = { lab_ends_agree };

    fn first(
        &mut self,
        alloc: Global,
        name: &[u8],
        draw: &[u8; 32],
    ) -> Result<(Vec<u8>, Vec<u8>), SuiteFault>
        ensures answer { Answers two_bytes_of (only_if (is_lab_name_of name.now) (lab_first name.now draw.now)) result }
        ensures same { self.new ≡ self.old }
    {
        if !is_lab_name(name) {
            return Err(SuiteFault::NoAlgorithm);
        }
        owned_two(alloc, draw.as_slice(), draw.as_slice())
    }

    fn second(
        &mut self,
        alloc: Global,
        name: &[u8],
        draw: &[u8; 32],
        xa: &[u8],
    ) -> Result<(Vec<u8>, Vec<u8>), SuiteFault>
        ensures answer { Answers two_bytes_of (lab_second name.now draw.now xa.now) result }
        ensures same { self.new ≡ self.old }
    {
        if !is_lab_name(name) || xa.len() != 32 {
            return Err(SuiteFault::NoAlgorithm);
        }
        let secret = hash(b"FDO-LAB-SH", xa, draw.as_slice());
        owned_two(alloc, draw.as_slice(), secret.as_slice())
    }

    fn finish(
        &mut self,
        alloc: Global,
        name: &[u8],
        private: &[u8],
        xb: &[u8],
    ) -> Result<Vec<u8>, SuiteFault>
        ensures answer { Answers bytes_of (lab_finish name.now private.now xb.now) result }
        ensures same { self.new ≡ self.old }
    {
        if !is_lab_name(name) || private.len() != 32 || xb.len() != 32 {
            return Err(SuiteFault::NoAlgorithm);
        }
        owned(alloc, hash(b"FDO-LAB-SH", private, xb).as_slice())
    }
}
