ghost use Rattle.std.specs.Prelude.{◌≡◌, ℕ, List, false};

use crate::holder::Holder;
use crate::suite::Suite;
use port_base::Calls;

/// The laboratory suite, for tests and demonstrations. It is not secure: whoever knows a public key can sign. Its
/// numbers are not COSE's: it signs with -65537, agrees by `LAB32`, and seals with -65538 and -65539.
#[derive(Debug, Drop)]
pub struct LabSuite {
    pub(crate) keys: Vec<Vec<u8>>,
    pub(crate) calls: Calls,
}

impl LabSuite {
    ghost use Rattle.suite_port.specs.Lab.{lab_held, lab_calls};
    ghost use Rattle.port_base.specs.Scheduled.{no_calls};

    /// A suite that holds no key. `fail` has the numbers, from 1, of the calls of `load`, `sign` and `issue`, counted
    /// together, that fail. A call that can be given no number, the one after 2^64 - 1, fails too.
    pub fn new(fail: Vec<u64>) -> LabSuite
        ensures held { (key : List ℕ) → lab_held result key ≡ false }
        ensures calls { lab_calls result ≡ no_calls fail }
    {
        let keys = Vec::new(*fail.allocator());
        LabSuite {
            keys,
            calls: Calls::new(fail),
        }
    }
}

impl Holder for LabSuite {
    ghost use Rattle.std.specs.Prelude.{None};
    ghost use Rattle.suite_port.specs.Lab.{lab_held, lab_calls};
    ghost use Rattle.port_base.specs.Scheduled.{faults_of};

    ghost held = { lab_held };

    ghost faults = { λ s. faults_of (lab_calls s) };

    ghost asked = { λ _. None };
}

impl Suite for LabSuite {
    ghost use Rattle.suite_port.specs.LabLaws.{lab_verifies_signed};

    ghost verifies_signed = { lab_verifies_signed };
}
