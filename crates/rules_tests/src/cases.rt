//! Rows at concrete values: what they come to where no call outside fails, and what refuses them.

ghost use Rattle.rules_tests.specs.Rendezvous.{GreetsTo0, TurnsAway, NamesNoSession, EndsAtError, MissesDevice};
ghost use Rattle.rules_tests.specs.Client.{AcceptedAtOnce, TurnStops};

/// TO0.Hello draws a nonce and a token, and begins a session.
pub fn greets()
    ensures { GreetsTo0 }
{}

/// A type that the server doesn't know is out of turn, before any token is looked at.
pub fn turns_away()
    ensures { TurnsAway }
{}

/// A message under a token that names no session is refused for it.
pub fn names_no_session()
    ensures { NamesNoSession }
{}

/// An error of the other end has no answer.
pub fn ends_at_error()
    ensures { EndsAtError }
{}

/// A device without a registration isn't found.
pub fn misses_device()
    ensures { MissesDevice }
{}

/// TO0.AcceptOwner gives the seconds.
pub fn accepted()
    ensures { AcceptedAtOnce }
{}

/// A message of another type stops a client, with an error.
pub fn turn_stops()
    ensures { TurnStops }
{}
