ghost use Rattle.std.specs.Prelude.{◌≡◌, IsTrue};
ghost use Rattle.port_base.specs.Count.{Rises};

/// The numbered calls on an object in memory: the numbers of those that fail, how many came, and how many failed. Both
/// counts stand still at 2^64 - 1.
#[derive(Debug, Drop)]
pub struct Calls {
    fail: Vec<u64>,
    calls: u64,
    faults: u64,
}

impl Calls {
    ghost use Rattle.port_base.specs.Scheduled.{no_calls, fails_next, after_call, faulted, faults_of};

    /// No call came yet. `fail` has the numbers of the calls that fail, from 1.
    pub fn new(fail: Vec<u64>) -> Calls
        ensures { result ≡ no_calls fail }
    {
        Calls {
            fail,
            calls: 0,
            faults: 0,
        }
    }

    /// One more call comes, and whether it fails: its number is listed, or no further number can be given.
    pub fn fails(&mut self) -> bool
        ensures fails { result ≡ fails_next self.old }
        ensures calls { self.new ≡ after_call self.old result }
        ensures rises { IsTrue result → Rises (faults_of self.old) (faults_of self.new) }
    {
        let fails = self.calls == u64::MAX || self.fail.contains(&(self.calls + 1));
        self.calls = self.calls.saturating_add(1);
        if fails {
            self.faults = self.faults.saturating_add(1);
        }
        fails
    }

    /// The call that came fails for another reason.
    pub fn raise(&mut self)
        ensures faults { Rises (faults_of self.old) (faults_of self.new) }
        ensures calls { self.new ≡ faulted self.old }
    {
        self.faults = self.faults.saturating_add(1);
    }
}
