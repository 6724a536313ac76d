ghost use Rattle.std.specs.Prelude.{◌≡◌, ◌≤◌, List, ℕ, Option, Some, None, Bool, true, Ok, Err, IfOk, length};
ghost use Rattle.suite_port.specs.Answer.{Answers, Decides, Counts, bytes_of};
ghost use Rattle.suite_port.specs.Lab.{lab_held, lab_calls, is_failed};
ghost use Rattle.suite_port.specs.LabCertificate.{begins_key as begins_key_of, lab_certificate, lab_key_in};
ghost use Rattle.port_base.specs.Scheduled.{fails_next, after_call, faults_of};
ghost use Rattle.suite_port.specs.LabLaws.{lab_issued_key};

use crate::bytes::{joined, owned};
use crate::cert_reader::CertReader;
use crate::fault::SuiteFault;
use crate::lab_suite::LabSuite;
use std::alloc::Global;

/// Whether bytes begin as a public key does: with the head of an array of three. No more of them is looked at.
fn begins_key(key: &[u8]) -> bool
    ensures { result ≡ begins_key_of key.now }
{
    match key {
        [first, ..] => *first == 0x83,
        _ => false,
    }
}

/// A certificate is `FDO-LAB-CERT` and the device's key. What follows that mark is taken for a key where it begins
/// with the head of an array of three, as every public key does; other bytes are no certificate, and are certified
/// by none. Whether they are a whole key is for the reader of keys to say.
impl CertReader for LabSuite {
    ghost key_in = { lab_key_in };

    ghost issues = { begins_key_of };

    ghost certifies = { λ key leaf. (begins_key_of key ≡ true) × (leaf ≡ lab_certificate key) };

    ghost issued_key = { λ key leaf made. lab_issued_key key leaf made.0 made.1 };

    fn leaf_key(&mut self, alloc: Global, leaf: &[u8]) -> Result<Vec<u8>, SuiteFault>
        ensures answer { Answers bytes_of (lab_key_in leaf.now) result }
        ensures same { self.new ≡ self.old }
    {
        if leaf.len() < 12 {
            return Err(SuiteFault::NoAlgorithm);
        }
        let (mark, key) = leaf.split_at(12);
        if mark != b"FDO-LAB-CERT".as_slice() || !begins_key(key) {
            return Err(SuiteFault::NoAlgorithm);
        }
        owned(alloc, key)
    }

    fn issue(&mut self, alloc: Global, device_key: &[u8]) -> Result<Vec<u8>, SuiteFault>
        ensures known { Decides (begins_key_of device_key.now) result }
        ensures certified { IfOk result (λ leaf. (begins_key_of device_key.now ≡ true) × (leaf.items ≡ lab_certificate device_key.now)) }
        ensures held { lab_held self.new ≡ lab_held self.old }
        ensures faults { Counts (faults_of (lab_calls self.old)) (faults_of (lab_calls self.new)) result }
        ensures fails { is_failed result ≡ fails_next (lab_calls self.old) }
        ensures calls { lab_calls self.new ≡ after_call (lab_calls self.old) (is_failed result) }
    {
        if self.calls.fails() {
            return Err(SuiteFault::Failed);
        }
        if !begins_key(device_key) {
            return Err(SuiteFault::NoAlgorithm);
        }
        joined(alloc, b"FDO-LAB-CERT", device_key)
    }
}
