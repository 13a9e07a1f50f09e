ghost use Rattle.std.specs.Prelude.{◌≡◌, ℕ, []};
ghost use Rattle.dl_restore.specs.Bodies.{bodies_of, FitFile};
ghost use Rattle.dl_restore.specs.Restoring.{Restores};

use crate::count::count_batches;
use crate::fault::RestoreFault;
use dl_journal::batch::Batch;
use dl_marks::entries::EntryTable;
use dl_marks::ledgers::LedgerTable;
use dl_msg::resource::Resource;

/// Brings the batches in force of a storage node's journal into its two tables, which are empty, in one pass over them. A fault
/// anywhere in the file comes before too many entries, and those before too many ledgers. It takes no memory. After an error the
/// tables are of no use.
pub fn restore(
    batches: &[Batch],
    entries: &mut EntryTable,
    ledgers: &mut LedgerTable,
) -> Result<(), RestoreFault>
    requires file { FitFile batches.now }
    requires entries { entries.old ≡ [] }
    requires ledgers { ledgers.old ≡ [] }
    ensures { (first : ℕ) → Restores first (bodies_of batches.now) entries.new ledgers.new result }
{
    let room = match count_batches(entries, ledgers, batches) {
        Ok(room) => room,
        Err(at) => return Err(RestoreFault::Damaged(at)),
    };
    if !room.entries {
        return Err(RestoreFault::Crowded(Resource::Index));
    }
    if !room.ledgers {
        return Err(RestoreFault::Crowded(Resource::Ledgers));
    }
    Ok(())
}
