ghost use Rattle.std.specs.Prelude.{◌≡◌};
ghost use Rattle.fdo_commands.specs.Numbers.{number_of};

/// How a command ended.
#[derive(Clone, Copy, Debug, PartialEq, Eq)]
pub enum Status {
    /// The input was read to its end, and all was done.
    Done,
    /// The words are no command.
    Words,
    /// The input is not of the command's form.
    Input,
    /// The input failed.
    Read,
    /// The output failed.
    Write,
    /// Memory ran out.
    NoMemory,
    /// The input is longer than 16,777,216 bytes.
    Limit,
    /// The input is of the command's form, and refused: a voucher that does not hold, or one that is too long.
    Refused,
    /// An object of the environment failed: the source of random draws, meanwhile, or the signer, as it took a private key.
    Outside,
}

impl Status {
    /// The program's exit status: 0, 2 to 5, 7 to 9 or 11.
    pub fn number(self) -> u8
        ensures { result ≡ number_of self }
    {
        match self {
            Status::Done => 0,
            Status::Words => 2,
            Status::Input => 3,
            Status::Read => 4,
            Status::Write => 5,
            Status::NoMemory => 7,
            Status::Limit => 8,
            Status::Refused => 9,
            Status::Outside => 11,
        }
    }
}
