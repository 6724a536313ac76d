ghost use Rattle.std.specs.Prelude.{◌≡◌};
ghost use Rattle.disk_port.specs.Slots.{other};

/// One of the two slots of a file.
#[derive(Clone, Copy, Debug, PartialEq, Eq)]
pub enum Side {
    First,
    Second,
}

impl Side {
    /// The other one.
    pub fn other(self) -> Side
        ensures { result ≡ other self }
    {
        match self {
            Side::First => Side::Second,
            Side::Second => Side::First,
        }
    }
}
