ghost use Rattle.std.specs.Prelude.{◌≡◌};
ghost use Rattle.dl_meta.specs.Loading.{Loads, fault_of};

use crate::meta_fault::MetaFault;
use crate::replay::replay;
use crate::store::MetaStore;
use dl_depot::depot::Depot;
use dl_depot::file_id::FileId;
use dl_journal::journal::Journal;
use dl_journal::load_fault::LoadFault;
use std::alloc::Global;

/// The fault of a store whose journal was not loaded.
fn fault_of(fault: LoadFault) -> MetaFault
    ensures { result ≡ fault_of fault }
{
    match fault {
        LoadFault::Damaged(at) => MetaFault::Damaged(at),
        LoadFault::TooLarge(size) => MetaFault::TooLarge(size),
        LoadFault::Device => MetaFault::Device,
        LoadFault::NoMemory => MetaFault::NoMemory,
    }
}

impl MetaStore {
    /// Loads the metadata node from the metadata file: it stands for the items in force there. There is none exactly where the
    /// file is empty, or a journal without a batch in force.
    ///
    /// `TooLarge` comes exactly where the file has more than 268,435,456 bytes, `Damaged` exactly where it has no more and its
    /// bytes break the grammar: at the first part that breaks the journal's layout, anywhere in the file, or else at the first
    /// byte at which an item breaks its grammar or may not come. `Device` comes only where the file's count of faults rose, or
    /// stands at the greatest u64; `NoMemory` where memory runs out.
    pub fn load<D: Depot>(alloc: Global, depot: &mut D) -> Result<Option<MetaStore>, MetaFault>
        ensures { Loads (D.view depot.old) (D.view depot.new) result }
    {
        let file = FileId::new(0);
        match depot.size(file) {
            Ok(0) => return Ok(None),
            Ok(_) => {}
            Err(_) => return Err(MetaFault::Device),
        }
        let (journal, batches) = match Journal::load(alloc, depot, file) {
            Ok(loaded) => loaded,
            Err(fault) => return Err(fault_of(fault)),
        };
        if batches.is_empty() {
            return Ok(None);
        }
        let (tree, sessions) = replay(alloc, &batches)?;
        Ok(Some(MetaStore::of(alloc, tree, sessions, journal)))
    }
}
