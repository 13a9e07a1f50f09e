ghost use Rattle.std.specs.Prelude.{◌≡◌, ℕ, ◌+◌, ◌-◌, ◌<◌, ◌≤◌, ◌≢◌, ◌^◌, IfOk, OnErr};
ghost use Rattle.std.specs.Prelude.{All, MatchOption, Some, length, slice_index, IsTrue};
ghost use Rattle.std.specs.List.Sorted.{IsStrictlyIncreasing};
ghost use Rattle.dl_session.specs.Sessions.{no_sessions, after_connect, after_expiry};
ghost use Rattle.dl_session.specs.Sessions.{after_run, ids, number_in, is_live, admission};
ghost use Rattle.dl_session.specs.Rises.{Rises};

use crate::admit::Admit;
use dl_types::memory::NoMemory;
use std::alloc::Global;
use std::marker::Model;

/// The sessions of clients with the metadata node (ZooKeeper documentation, "sessions"): the last one given, and for
/// each live one the number of the last request run in it. Contracts see the record of both.
#[derive(Drop)]
pub struct Sessions {
    last: u64,
    live: Vec<u64>,
    numbers: Vec<u32>,
}

impl Model for Sessions {
    ghost use Rattle.std.specs.Prelude.{◌≡◌, ℕ, List, length};
    ghost use Rattle.dl_session.specs.Sessions.{Known};
    ghost use Rattle.dl_session.specs.Rises.{Rises, beside};

    ghost Value = { Known };

    ghost view = { λ a. record { last = a.last; live = beside a.live.items a.numbers.items } };

    ghost invariant = { λ a. Rises 0 a.last a.live.items
        × (length a.numbers.items ≡ length a.live.items) };
}

/// The place of a session among sessions in rising order.
fn place(sessions: &[u64], session: u64) -> Option<usize>
    requires { (high : ℕ) × Rises 0 high sessions.now }
    ensures { MatchOption result
        ((k : ℕ) → k < length sessions.now → slice_index sessions.now k ≢ session)
        (λ at. (at < length sessions.now) × (slice_index sessions.now at ≡ session)) }
{
    match sessions.binary_search(&session) {
        Ok(at) => Some(at),
        Err(_) => None,
    }
}

impl Sessions {
    /// No session was given.
    pub fn new(alloc: Global) -> Result<Sessions, NoMemory>
        ensures { IfOk result (λ s. s ≡ no_sessions) }
    {
        Ok(Sessions {
            last: 0,
            live: Vec::new(alloc),
            numbers: Vec::new(alloc),
        })
    }

    /// A new live session: one more than the last one, from 1. The greatest number is not given.
    pub fn connect(&mut self) -> Result<u64, NoMemory>
        requires { self.old.last < 2 ^ 64 - 1 }
        ensures ok { IfOk result (λ session. (session ≡ self.old.last + 1)
            × (self.new ≡ after_connect self.old)) }
        ensures err { OnErr result (self.new ≡ self.old) }
    {
        let session = self.last + 1;
        self.numbers.push(0)?;
        match self.live.push(session) {
            Ok(()) => {
                self.last = session;
                Ok(session)
            }
            Err(_) => {
                let _ = self.numbers.pop();
                Err(NoMemory)
            }
        }
    }

    /// The session is live no longer. Whether it was live.
    pub fn expire(&mut self, session: u64) -> bool
        ensures answer { result ≡ is_live self.old session }
        ensures after { self.new ≡ after_expiry self.old session }
    {
        match place(&self.live, session) {
            Some(at) => {
                let _ = self.live.remove(at);
                let _ = self.numbers.remove(at);
                true
            }
            None => false,
        }
    }

    /// What becomes of a request with this session and number: it is expired where the session is not live, old where
    /// the number is not above the last one run in the session, and else it is run.
    pub fn admit(&self, session: u64, number: u32) -> Admit
        ensures { result ≡ admission (number_in self.now.live session) number }
    {
        match self.last_run(session) {
            Some(last) => {
                if last < number {
                    Admit::Run
                } else {
                    Admit::Old
                }
            }
            None => Admit::Expired,
        }
    }

    /// The request of this session and number ran.
    pub fn ran(&mut self, session: u64, number: u32)
        requires { admission (number_in self.old.live session) number ≡ Admit.Run }
        ensures { self.new ≡ after_run self.old session number }
    {
        if let Some(at) = place(&self.live, session) {
            self.numbers[at] = number;
        }
    }

    /// The last session given, 0 where none was.
    pub fn last(&self) -> u64
        ensures { result ≡ self.now.last }
    {
        self.last
    }

    /// The live sessions, in rising order.
    pub fn live(&self) -> &[u64]
        ensures all { result.now ≡ ids self.now.live }
        ensures rising { IsStrictlyIncreasing result.now }
        ensures given { All (λ session. session ≤ self.now.last) result.now }
    {
        self.live.as_slice()
    }

    /// The number of the last request run in a live session, 0 where none was.
    pub fn number(&self, session: u64) -> u32
        requires { IsTrue (is_live self.now session) }
        ensures { number_in self.now.live session ≡ Some result }
    {
        match self.last_run(session) {
            Some(last) => last,
            None => 0,
        }
    }

    /// The number of the last request run in the session, where it is live.
    fn last_run(&self, session: u64) -> Option<u32>
        ensures { result ≡ number_in self.now.live session }
    {
        match place(&self.live, session) {
            Some(at) => Some(self.numbers[at]),
            None => None,
        }
    }
}
