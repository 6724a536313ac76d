ghost use Rattle.std.specs.Prelude.{◌≡◌, ◌≤◌, [], Some, None, length, is_some, IfOk, IfErr, OnOk, OnErr};
ghost use Rattle.std.specs.Option.{option_copied};
ghost use Rattle.sessions.specs.Table.{changed, session_of, started, used, without};

use fdo_msgs::Token;
use lru::LruCache;
use std::alloc::{AllocError, Global};
use std::marker::Model;
use std::num::NonZeroUsize;

/// The most sessions that a server keeps.
pub const MOST_SESSIONS: usize = 256;

/// The sessions of a server by their tokens. Contracts see the list of them, the one used last first.
#[derive(Drop)]
pub struct Sessions<T> {
    table: LruCache<Token, T>,
}

impl<T> Model for Sessions<T> {
    ghost use Rattle.std.specs.Prelude.{◌≡◌, List, ℕ};

    ghost Value = { List (List ℕ × T) };

    ghost view = { λ s. s.table.entries };

    ghost invariant = { λ s. s.table.cap ≡ 256 };
}

impl<T: Drop> Sessions<T> {
    pub fn new(alloc: Global) -> Result<Sessions<T>, AllocError>
        ensures { IfOk result (λ sessions. sessions ≡ []) }
    {
        let Some(most) = NonZeroUsize::new(MOST_SESSIONS) else {
            unreachable!();
        };
        Ok(Sessions {
            table: LruCache::new(alloc, most)?,
        })
    }

    /// Whether a session has the token. It is not used by that.
    pub fn names(&self, token: &Token) -> bool
        ensures { result ≡ is_some (session_of token.now self.now) }
    {
        self.table.contains(token)
    }

    /// The session of a token. It is not used by that.
    pub fn peek(&self, token: &Token) -> Option<&T>
        ensures { option_copied result ≡ session_of token.now self.now }
    {
        self.table.peek(token)
    }

    /// How many sessions there are.
    pub fn count(&self) -> usize
        ensures count { result ≡ length self.now }
        ensures most { result ≤ 256 }
    {
        self.table.len()
    }

    /// Uses the session of a token, and says whether there is one.
    pub fn touch(&mut self, token: &Token) -> bool
        ensures named { result ≡ is_some (session_of token.now self.old) }
        ensures used { self.new ≡ used token.now self.old }
    {
        self.table.promote(token)
    }

    /// Starts a session. One with its token ends, or else the one used longest ago where there are 256.
    pub fn start(&mut self, token: Token, session: T) -> Result<(), T>
        ensures started { OnOk result (self.new ≡ started token session self.old) }
        // Memory ran out: the session is given back.
        ensures no_memory { OnErr result (self.new ≡ self.old) }
        ensures given_back { IfErr result (λ back. back ≡ session) }
    {
        let _count = self.table.len();
        match self.table.put(token, session) {
            Ok(_) => Ok(()),
            Err(failed) => Err(failed.value.1),
        }
    }

    /// Uses the session of a token, puts another in its place, and gives the one before. Without one it gives this one
    /// back. It takes no memory.
    pub fn change(&mut self, token: &Token, session: T) -> Result<T, T>
        ensures was { IfOk result (λ was. session_of token.now self.old ≡ Some was) }
        ensures changed { OnOk result (self.new ≡ changed token.now session self.old) }
        ensures none { IfErr result (λ back. (session_of token.now self.old ≡ None) × (back ≡ session) × (self.new ≡ self.old)) }
    {
        let Some(place) = self.table.get_mut(token) else {
            return Err(session);
        };
        Ok(std::mem::replace(place, session))
    }

    /// Ends the session of a token, and gives it.
    pub fn end(&mut self, token: &Token) -> Option<T>
        ensures ended { result ≡ session_of token.now self.old }
        ensures others { self.new ≡ without token.now self.old }
    {
        self.table.pop(token)
    }

    /// Ends all sessions.
    pub fn end_all(&mut self)
        ensures { self.new ≡ [] }
    {
        self.table.clear();
    }
}
