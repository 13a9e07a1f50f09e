//! A metadata store and two clients of it.

ghost use Rattle.std.specs.Prelude.{IfOk};
ghost use Rattle.dl_depot.specs.Memory.{view_by};
ghost use Rattle.dl_journal.specs.Settled.{Stands};
ghost use Rattle.dl_formats.specs.NodeBytes.{IsConf};

use super::spelling::request_of;
use dl_depot::memory::MemDepot;
use dl_formats::conf::Conf;
use dl_meta::store::MetaStore;
use dl_msg::heard::Heard;
use dl_msg::meta_reply::MetaReply;
use std::alloc::Global;
use std::test::Fail;

/// Five bookies, and a quorum of 3, 3, 2.
pub fn conf() -> Conf
    ensures { IsConf result }
{
    Conf {
        b: 5,
        e: 3,
        qw: 3,
        qa: 2,
    }
}

/// The store that a depot has.
fn loaded(alloc: Global, depot: &mut MemDepot) -> Result<MetaStore, Fail>
    ensures { IfOk result (λ store. Stands (view_by depot.new) store.journal) }
{
    match MetaStore::load(alloc, depot)? {
        Some(store) => Ok(store),
        None => Err(Fail::from("no store")),
    }
}

/// A depot in memory with a metadata store, which is loaded anew for each call, as after a stop; and the sessions of its two clients:
/// the one whose orders the rows are about, and another one. No number of a request comes twice.
#[derive(Drop)]
pub struct World {
    pub alloc: Global,
    depot: MemDepot,
    pub own: u64,
    pub other: u64,
    number: u32,
}

impl World {
    /// A store without a stream.
    pub fn new(alloc: Global) -> Result<World, Fail> {
        let mut depot = MemDepot::new(alloc)?;
        let mut store = MetaStore::make(alloc, &mut depot, conf())?;
        let own = store.connect(&mut depot)?;
        let other = store.connect(&mut depot)?;
        Ok(World {
            alloc,
            depot,
            own,
            other,
            number: 0,
        })
    }

    /// The store.
    pub fn store(&mut self) -> Result<MetaStore, Fail> {
        loaded(self.alloc, &mut self.depot)
    }

    /// Runs a request of a session, and gives what is heard.
    pub fn ask(&mut self, session: u64, text: &str) -> Result<Heard, Fail> {
        let op = request_of(self.alloc, text)?;
        self.number = self.number.saturating_add(1);
        let mut store = loaded(self.alloc, &mut self.depot)?;
        match store.serve(&mut self.depot, session, self.number, &op)? {
            Some(MetaReply::Answer(answer)) => Ok(Heard::Reply(answer)),
            _ => Err(Fail::from("no answer")),
        }
    }

    /// Ends the session of the first client, and gives it another one.
    pub fn begin_anew(&mut self) -> Result<(), Fail> {
        let mut store = loaded(self.alloc, &mut self.depot)?;
        let _was_live = store.expire(&mut self.depot, self.own)?;
        self.own = store.connect(&mut self.depot)?;
        Ok(())
    }
}
