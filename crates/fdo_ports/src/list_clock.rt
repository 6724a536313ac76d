ghost use Rattle.std.specs.Prelude.{◌≡◌, [], ◌∷◌, ◌||◌, ◌==◌, length, MatchResult, is_err};
ghost use Rattle.fdo_ports.specs.Count.{Counts};
ghost use Rattle.port_base.specs.Told.{Answers};

use crate::clock::Clock;
use crate::failed::Failed;
use port_base::Calls;

/// A clock whose answers stand in a list. A call past the list's end fails.
#[derive(Debug, Drop)]
pub struct ListClock {
    content: Vec<u64>,
    given: usize,
    calls: Calls,
}

impl ListClock {
    ghost use Rattle.fdo_ports.specs.MemoryObjects.{seconds_given, seconds_left, clock_calls};
    ghost use Rattle.port_base.specs.Scheduled.{no_calls};

    /// The seconds to be answered, in order, and the numbers, from 1, of the calls that fail.
    pub fn new(content: Vec<u64>, fail: Vec<u64>) -> ListClock
        ensures given { seconds_given result ≡ [] }
        ensures left { seconds_left result ≡ content.items }
        ensures calls { clock_calls result ≡ no_calls fail }
    {
        ListClock {
            content,
            given: 0,
            calls: Calls::new(fail),
        }
    }
}

impl Clock for ListClock {
    ghost use Rattle.std.specs.Prelude.{Some};
    ghost use Rattle.fdo_ports.specs.MemoryObjects.{seconds_given, seconds_left, clock_calls};
    ghost use Rattle.port_base.specs.Scheduled.{fails_next, after_call, faults_of};

    ghost answered = { λ r. Some (seconds_given r) };

    ghost faults = { λ r. faults_of (clock_calls r) };

    fn now(&mut self) -> Result<u64, Failed>
        ensures answered { Answers (Some (seconds_given self.old)) (Some (seconds_given self.new)) result }
        ensures faults { Counts (faults_of (clock_calls self.old)) (faults_of (clock_calls self.new)) result }
        ensures next { MatchResult result (λ second. seconds_left self.old ≡ second ∷ seconds_left self.new) (λ _. seconds_left self.new ≡ seconds_left self.old) }
        ensures fails { is_err result ≡ (fails_next (clock_calls self.old) || (length (seconds_left self.old) == 0)) }
        ensures calls { clock_calls self.new ≡ after_call (clock_calls self.old) (is_err result) }
    {
        if self.calls.fails() {
            return Err(Failed);
        }
        match self.content.get(self.given) {
            Some(second) => {
                let second = *second;
                self.given += 1;
                Ok(second)
            }
            None => {
                self.calls.raise();
                Err(Failed)
            }
        }
    }
}
