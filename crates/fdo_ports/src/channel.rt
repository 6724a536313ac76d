ghost use Rattle.std.specs.Prelude.{ℕ, List, Option};

/// What an object of bytes tells: the one trait on which sources and sinks stand, so that an object may be both.
/// What an object lacks is not told (None), and its count is 0.
pub trait Channel {
    /// The bytes left to be read, where the object tells them.
    ghost left: { Self → Option (List ℕ) };

    /// The bytes written so far, where the object tells them.
    ghost written: { Self → Option (List ℕ) };

    /// How many reads have failed, at most 2^64 - 1.
    ghost read_faults: { Self → ℕ };

    /// How many writes have failed, at most 2^64 - 1.
    ghost write_faults: { Self → ℕ };
}
