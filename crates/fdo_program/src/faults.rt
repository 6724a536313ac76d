ghost use Rattle.std.specs.Prelude.{◌≡◌, ◌+◌, ◌-◌, ◌^◌, min};
ghost use Rattle.port_base.specs.Count.{Rises};

use fdo_ports::Failed;

/// How often the calls on a real object failed.
#[derive(Debug, Drop)]
pub struct Faults {
    count: u64,
}

impl Faults {
    /// None failed yet.
    pub fn new() -> Faults
        ensures { result.count ≡ 0 }
    {
        Faults { count: 0 }
    }

    /// One more call failed. The count stands still at 2^64 - 1.
    pub fn raise(&mut self) -> Failed
        ensures rises { Rises self.old.count self.new.count }
        ensures count { self.new.count ≡ min (self.old.count + 1) (2 ^ 64 - 1) }
    {
        self.count = self.count.saturating_add(1);
        Failed
    }
}
