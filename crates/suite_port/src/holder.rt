ghost use Rattle.std.specs.Prelude.{ℕ, List, Bool, Option};
ghost use Rattle.suite_port.specs.Asked.{Ask};

/// What the parts of a suite have in common: the keys that it holds, how often it failed, and what it was asked. A key is named by its
/// public bytes, which are the deterministic bytes of a PublicKey (FIDO Device Onboard 1.1, section 3.3.4), wherever
/// a call of a suite takes or gives one.
pub trait Holder {
    /// Whether the suite holds the private part of the key with these public bytes.
    ghost held: { Self → List ℕ → Bool };

    /// How many calls have failed, at most 2^64 - 1. It never falls.
    ghost faults: { Self → ℕ };

    /// The calls that were answered so far, where the suite tells them.
    ghost asked: { Self → Option (List Ask) };
}
