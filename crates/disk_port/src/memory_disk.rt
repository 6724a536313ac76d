ghost use Rattle.std.specs.Prelude.{◌≡◌, ◌<◌, ◌+◌, ◌-◌, ◌^◌, [], IsOk, IsErr, Some, is_ok, length, min};
ghost use Rattle.fdo_ports.specs.Count.{Counts};
ghost use Rattle.port_base.specs.Count.{Rises};
ghost use Rattle.port_base.specs.Scheduled.{faults_of};
ghost use Rattle.disk_port.specs.Picked.{left_kept, left_at};
ghost use Rattle.disk_port.specs.Turn.{goes};
ghost use Rattle.disk_port.specs.Told.{Told, Writes, Syncs, ReadsAt, TellsLength};
ghost use Rattle.disk_port.specs.declared.stop.Turn.TheVariants as turn;

use crate::disk::Disk;
use crate::history::History;
use crate::stop::{Stop, Turn};
use crate::stops::{Pick, Stops};
use fdo_ports::Failed;
use port_base::Calls;

/// A disk in memory that keeps all calls, and of which any call can be made to fail or to be the last. A call that wants
/// memory and gets none fails. A call that fails by its number is not done.
#[derive(Debug, Drop)]
pub struct MemoryDisk {
    history: History,
    numbered: Calls,
    calls: u64,
    stop: Stop,
    ghost left_right: { left_kept stop history ≡ left_at stop history },
}

impl MemoryDisk {
    ghost use Rattle.disk_port.specs.Crash.{Leaves};
    ghost use Rattle.disk_port.specs.Turn.{IsOn, nearer};
    ghost use Rattle.disk_port.specs.MemoryDisk.{story_of, disk_calls, calls_of, stop_of, image_of, turn_next};
    ghost use Rattle.port_base.specs.Scheduled.{no_calls};

    /// A disk on which these bytes stand, all of them synced, and the numbers, from 1, of the calls that fail.
    pub fn new(image: Vec<u8>, fail: Vec<u64>) -> MemoryDisk
        ensures story { story_of result ≡ record { image = image.items; events = [] } }
        ensures image { image_of result ≡ image.items }
        ensures calls { disk_calls result ≡ no_calls fail }
        ensures count { calls_of result ≡ 0 }
    {
        MemoryDisk {
            history: History::new(image),
            numbered: Calls::new(fail),
            calls: 0,
            stop: Stop::Absent,
        }
    }

    /// How many calls came so far, at most 2^64 - 1.
    pub fn calls(&self) -> u64
        ensures { result ≡ calls_of self.now }
    {
        self.calls
    }

    /// What stands on the disk: what is read, or where its stop has come, what it left.
    #[tactic(auto, using(crate::proofs::Left::image_left))]
    pub fn image(&self) -> &[u8]
        ensures image { result.now ≡ image_of self.now }
        ensures left { Leaves (story_of self.now).image (story_of self.now).events result.now }
    {
        match &self.stop {
            Stop::Come(_, left) => left.as_list(),
            _ => self.history.bytes(),
        }
    }

    /// One more call comes.
    #[tactic(auto, using(crate::proofs::Left::nearer_right))]
    fn turn(&mut self) -> Turn
        ensures turn { result ≡ turn_next self.old }
        ensures story { story_of self.new ≡ story_of self.old }
        ensures count { calls_of self.new ≡ min (calls_of self.old + 1) (2 ^ 64 - 1) }
        ensures on { IsOn result (stop_of self.new) }
        ensures goes { result ≡ turn.Goes → faults_of (disk_calls self.new) ≡ faults_of (disk_calls self.old) }
        ensures fails { (result ≡ turn.Goes → ⊥) → Rises (faults_of (disk_calls self.old)) (faults_of (disk_calls self.new)) }
    {
        let fails = self.numbered.fails();
        self.calls = self.calls.saturating_add(1);
        let turn = self.stop.turn(fails);
        if let Turn::Stops(_) | Turn::Fails = turn
            && !fails
        {
            self.numbered.raise();
        }
        turn
    }
    /// The call that came fails for want of memory.
    fn raise(&mut self) -> Failed
        ensures story { story_of self.new ≡ story_of self.old }
        ensures count { calls_of self.new ≡ calls_of self.old }
        ensures rises { Rises (faults_of (disk_calls self.old)) (faults_of (disk_calls self.new)) }
    {
        self.numbered.raise();
        Failed
    }

    /// The call that came is the last one. Where no memory is left for what it leaves, the next call is.
    fn stop(&mut self, pick: Pick) -> Failed
        ensures story { story_of self.new ≡ story_of self.old }
        ensures count { calls_of self.new ≡ calls_of self.old }
        ensures faults { faults_of (disk_calls self.new) ≡ faults_of (disk_calls self.old) }
    {
        if let Ok(left) = self.history.picked(pick) {
            self.stop = Stop::Come(pick, left);
        }
        Failed
    }
}

impl Disk for MemoryDisk {
    ghost use Rattle.std.specs.Prelude.{Some};
    ghost use Rattle.disk_port.specs.MemoryDisk.{story_of, disk_calls, calls_of, turn_next};

    ghost told = { λ m. Some (story_of m) };

    ghost faults = { λ m. faults_of (disk_calls m) };

    ghost object = { λ _. 0 };

    fn read_at(&mut self, at: u64, into: &mut [u8]) -> Result<usize, Failed>
        ensures bytes { ReadsAt at into.old into.new result (Some (story_of self.old)) }
        ensures told { Some (story_of self.new) ≡ Some (story_of self.old) }
        ensures faults { Counts (faults_of (disk_calls self.old)) (faults_of (disk_calls self.new)) result }
        ensures fails { is_ok result ≡ goes (turn_next self.old) }
        ensures count { calls_of self.new ≡ min (calls_of self.old + 1) (2 ^ 64 - 1) }
    {
        match self.turn() {
            Turn::Goes => Ok(self.history.read(at, into)),
            Turn::Stops(pick) => Err(self.stop(pick)),
            Turn::Fails => Err(Failed),
        }
    }

    #[tactic(auto, using(crate::proofs::Left::on_right))]
    fn write_at(&mut self, at: u64, piece: &[u8]) -> Result<(), Failed>
        requires { 0 < length piece.now }
        ensures told { Told (Writes at piece.now result) (Some (story_of self.old)) (Some (story_of self.new)) }
        ensures faults { Counts (faults_of (disk_calls self.old)) (faults_of (disk_calls self.new)) result }
        ensures fails { IsOk result → turn_next self.old ≡ turn.Goes }
        ensures undone { turn_next self.old ≡ turn.Fails → story_of self.new ≡ story_of self.old }
        ensures count { calls_of self.new ≡ min (calls_of self.old + 1) (2 ^ 64 - 1) }
    {
        match self.turn() {
            Turn::Goes => match self.history.write(at, piece) {
                Ok(()) => Ok(()),
                Err(_) => Err(self.raise()),
            },
            Turn::Stops(pick) => {
                let _refused = self.history.write(at, piece);
                Err(self.stop(pick))
            }
            Turn::Fails => Err(Failed),
        }
    }

    #[tactic(auto, using(crate::proofs::Left::on_right))]
    fn sync(&mut self) -> Result<(), Failed>
        ensures told { Told (Syncs result) (Some (story_of self.old)) (Some (story_of self.new)) }
        ensures faults { Counts (faults_of (disk_calls self.old)) (faults_of (disk_calls self.new)) result }
        ensures fails { IsOk result → turn_next self.old ≡ turn.Goes }
        ensures undone { IsErr result → story_of self.new ≡ story_of self.old }
        ensures count { calls_of self.new ≡ min (calls_of self.old + 1) (2 ^ 64 - 1) }
    {
        match self.turn() {
            Turn::Goes => match self.history.sync() {
                Ok(()) => Ok(()),
                Err(_) => Err(self.raise()),
            },
            Turn::Stops(pick) => Err(self.stop(pick)),
            Turn::Fails => Err(Failed),
        }
    }

    fn len(&mut self) -> Result<u64, Failed>
        ensures length { TellsLength result (Some (story_of self.old)) }
        ensures told { Some (story_of self.new) ≡ Some (story_of self.old) }
        ensures faults { Counts (faults_of (disk_calls self.old)) (faults_of (disk_calls self.new)) result }
        ensures fails { is_ok result ≡ goes (turn_next self.old) }
        ensures count { calls_of self.new ≡ min (calls_of self.old + 1) (2 ^ 64 - 1) }
    {
        match self.turn() {
            Turn::Goes => Ok(self.history.bytes().len() as u64),
            Turn::Stops(pick) => Err(self.stop(pick)),
            Turn::Fails => Err(Failed),
        }
    }
}

impl Stops for MemoryDisk {
    ghost use Rattle.std.specs.Prelude.{Some, if◌then◌else◌};
    ghost use Rattle.disk_port.specs.Picked.{has_come};
    ghost use Rattle.disk_port.specs.Turn.{stop_in};
    ghost use Rattle.disk_port.specs.MemoryDisk.{story_of, disk_calls, stop_of};

    #[tactic(auto, using(crate::proofs::Left::in_right))]
    fn stop_at(&mut self, call: u64, pick: Pick)
        ensures told { Some (story_of self.new) ≡ Some (story_of self.old) }
        ensures faults { faults_of (disk_calls self.new) ≡ faults_of (disk_calls self.old) }
        ensures stop { stop_of self.new ≡ (if has_come (stop_of self.old) then stop_of self.old else stop_in call pick) }
    {
        if !self.stop.has_come() {
            self.stop = Stop::new(call, pick);
        }
    }
}
