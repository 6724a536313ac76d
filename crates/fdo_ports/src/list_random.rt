ghost use Rattle.std.specs.Prelude.{◌≡◌, [], ◌∷◌, ◌||◌, ◌==◌, length, MatchResult, is_err};
ghost use Rattle.fdo_ports.specs.Count.{Counts};
ghost use Rattle.port_base.specs.Told.{Answers};

use crate::failed::Failed;
use crate::random::Random;
use port_base::Calls;

/// A random source whose draws stand in a list. A draw past the list's end fails.
#[derive(Debug, Drop)]
pub struct ListRandom {
    content: Vec<[u8; 16]>,
    given: usize,
    calls: Calls,
}

impl ListRandom {
    ghost use Rattle.fdo_ports.specs.MemoryObjects.{draws_given, draws_left, random_calls};
    ghost use Rattle.port_base.specs.Scheduled.{no_calls};

    /// The draws in order, and the numbers, from 1, of the calls that fail.
    pub fn new(content: Vec<[u8; 16]>, fail: Vec<u64>) -> ListRandom
        ensures given { draws_given result ≡ [] }
        ensures left { draws_left result ≡ content.items }
        ensures calls { random_calls result ≡ no_calls fail }
    {
        ListRandom {
            content,
            given: 0,
            calls: Calls::new(fail),
        }
    }
}

impl Random for ListRandom {
    ghost use Rattle.std.specs.Prelude.{Some};
    ghost use Rattle.fdo_ports.specs.MemoryObjects.{draws_given, draws_left, random_calls};
    ghost use Rattle.port_base.specs.Scheduled.{fails_next, after_call, faults_of};

    ghost draws = { λ r. Some (draws_given r) };

    ghost faults = { λ r. faults_of (random_calls r) };

    fn draw16(&mut self) -> Result<[u8; 16], Failed>
        ensures drawn { Answers (Some (draws_given self.old)) (Some (draws_given self.new)) result }
        ensures faults { Counts (faults_of (random_calls self.old)) (faults_of (random_calls self.new)) result }
        ensures next { MatchResult result (λ draw. draws_left self.old ≡ draw ∷ draws_left self.new) (λ _. draws_left self.new ≡ draws_left self.old) }
        ensures fails { is_err result ≡ (fails_next (random_calls self.old) || (length (draws_left self.old) == 0)) }
        ensures calls { random_calls self.new ≡ after_call (random_calls self.old) (is_err result) }
    {
        if self.calls.fails() {
            return Err(Failed);
        }
        match self.content.get(self.given) {
            Some(draw) => {
                let draw = *draw;
                self.given += 1;
                Ok(draw)
            }
            None => {
                self.calls.raise();
                Err(Failed)
            }
        }
    }
}
