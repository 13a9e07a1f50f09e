ghost use Rattle.std.specs.Prelude.{◌≡◌, ℕ, IfOk};
ghost use Rattle.dl_transcript.specs.declared.event.Event.TheVariants as event;
ghost use Rattle.dl_transcript.specs.Histories.{no_history};
ghost use Rattle.dl_shown.specs.Sessions.{may_expire, StandsFor, Judges};

use dl_types::memory::NoMemory;
use dl_types::session::SessionId;
use indexmap::IndexSet;
use std::alloc::Global;

/// What was shown of the sessions.
#[derive(Debug, Drop)]
pub struct SessionsShown {
    /// How many joined.
    joined: u64,
    /// Those that expired.
    expired: IndexSet<u64>,
}

impl SessionsShown {
    /// Before the first session.
    pub fn new(alloc: Global) -> SessionsShown
        ensures { StandsFor result no_history }
    {
        SessionsShown {
            joined: 0,
            expired: IndexSet::new(alloc),
        }
    }

    /// Whether a client may join with this session, and that it does.
    pub fn join(&mut self, session: SessionId) -> bool
        ensures { (c : ℕ) → Judges self.old self.new (event.Joined c session) result }
    {
        let session = session.number();
        if session - 1 != self.joined {
            return false;
        }
        self.joined = session;
        true
    }

    /// Whether this session may end.
    fn may_expire(&self, session: u64) -> bool
        ensures { result ≡ may_expire self.now session }
    {
        1 <= session && session <= self.joined && !self.expired.contains(&session)
    }

    /// Whether this session may end, and that it does.
    pub fn expire(&mut self, session: SessionId) -> Result<bool, NoMemory>
        ensures { IfOk result (λ ok. Judges self.old self.new (event.Expired session) ok) }
    {
        let session = session.number();
        if !self.may_expire(session) {
            return Ok(false);
        }
        let _new = self.expired.insert(session)?;
        Ok(true)
    }
}
