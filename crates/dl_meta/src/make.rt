ghost use Rattle.std.specs.Prelude.{◌≡◌, ◌≤◌, ◌<◌, ◌-◌, length};
ghost use Rattle.dl_journal.specs.Limits.{around_body};
ghost use Rattle.dl_journal.specs.Commits.{IsEmpty, body_of, spare_of, new_journal};
ghost use Rattle.dl_formats.specs.NodeBytes.{IsConf};
ghost use Rattle.dl_meta.specs.Standing.{meta_file};
ghost use Rattle.dl_meta.specs.Making.{MakesJournal, Makes};

use crate::first_tree::first_tree;
use crate::frame::frame_of_conf;
use crate::meta_fault::MetaFault;
use crate::store::MetaStore;
use dl_depot::depot::Depot;
use dl_depot::file_id::FileId;
use dl_formats::conf::Conf;
use dl_journal::journal::Journal;
use dl_session::sessions::Sessions;
use std::alloc::Global;

/// Makes the journal in the empty metadata file, and commits the body of a frame.
fn make_journal<D: Depot>(depot: &mut D, frame: &mut [u8]) -> Result<Journal, MetaFault>
    requires empty { IsEmpty (D.view depot.old) meta_file }
    requires body { around_body < length frame.old }
    requires room { length frame.old - around_body ≤ spare_of (new_journal meta_file) }
    ensures { MakesJournal (D.view depot.old) (D.view depot.new) (body_of frame.old) result }
{
    let mut journal = match Journal::make(depot, FileId::new(0)) {
        Ok(journal) => journal,
        Err(_) => return Err(MetaFault::Device),
    };
    match journal.commit(depot, frame) {
        Ok(()) => Ok(journal),
        Err(_) => Err(MetaFault::Device),
    }
}

impl MetaStore {
    /// Makes the metadata node of a configuration in the metadata file, which is empty: a journal, with the configuration as its
    /// first item. The tree has `/conf` with the configuration, and the nodes `/streams` and `/ledgers`.
    ///
    /// `Device` comes only where the file's count of faults rose, or stands at the greatest u64, and the file may then be no
    /// journal; `NoMemory` where memory runs out, before any call. No other fault comes.
    pub fn make<D: Depot>(alloc: Global, depot: &mut D, conf: Conf) -> Result<MetaStore, MetaFault>
        requires empty { IsEmpty (D.view depot.old) meta_file }
        requires conf { IsConf conf }
        ensures { Makes (D.view depot.old) (D.view depot.new) conf result }
    {
        let tree = first_tree(alloc, &conf)?;
        let sessions = Sessions::new(alloc)?;
        let mut frame = frame_of_conf(alloc, &conf)?;
        let journal = make_journal(depot, &mut frame)?;
        Ok(MetaStore::of(alloc, tree, sessions, journal))
    }
}
