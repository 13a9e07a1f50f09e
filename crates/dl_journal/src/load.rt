ghost use Rattle.std.specs.Prelude.{◌≡◌, IfOk, length};
ghost use Rattle.dl_journal.specs.Load.{Fetched, Loaded};

use crate::batch::Batch;
use crate::journal::Journal;
use crate::layout::LIMIT;
use crate::load_fault::LoadFault;
use crate::parse::parse;
use dl_depot::depot::Depot;
use dl_depot::file_id::FileId;
use std::alloc::{AllocError, Global};

fn zeros(alloc: Global, count: usize) -> Result<Vec<u8>, AllocError>
    ensures { IfOk result (λ v. length v.items ≡ count) }
{
    Ok(vec![in alloc; 0u8; count]?)
}

/// The bytes of a journal's file, all of them on the device: a sync, the size, and one read. `TooLarge` comes exactly
/// where the file has more than 268,435,456 bytes, and `Device` where a call on the device failed.
pub fn fetch<D: Depot>(alloc: Global, depot: &mut D, file: FileId) -> Result<Vec<u8>, LoadFault>
    ensures { Fetched (D.view depot.old) (D.view depot.new) file result }
{
    if let Err(_) = depot.sync(file) {
        return Err(LoadFault::Device);
    }
    let size = match depot.size(file) {
        Ok(size) => size,
        Err(_) => return Err(LoadFault::Device),
    };
    if size > LIMIT {
        return Err(LoadFault::TooLarge(size));
    }
    let mut bytes = match zeros(alloc, size as usize) {
        Ok(bytes) => bytes,
        Err(_) => return Err(LoadFault::NoMemory),
    };
    match depot.read(file, 0, &mut bytes) {
        Ok(count) => {
            bytes.truncate(count);
            Ok(bytes)
        }
        Err(_) => Err(LoadFault::Device),
    }
}

impl Journal {
    /// Loads the journal in a file: syncs it, reads it, and gives the value that goes on with it, and the batches in
    /// force. Where no batch is, the next one will have the number 0. It is meant for a start after a stop.
    ///
    /// `TooLarge` comes exactly where the file has more than 268,435,456 bytes, `Damaged` exactly where it has no more and
    /// its bytes break the layout, with the place of the first part that does; `Device` only where the file's count of
    /// faults rose, or stands at the greatest u64; `NoMemory` where memory runs out.
    pub fn load<D: Depot>(
        alloc: Global,
        depot: &mut D,
        file: FileId,
    ) -> Result<(Journal, Vec<Batch>), LoadFault>
        ensures { Loaded (D.view depot.old) (D.view depot.new) file result }
    {
        let bytes = match fetch(alloc, depot, file) {
            Ok(bytes) => bytes,
            Err(fault) => return Err(fault),
        };
        match parse(alloc, bytes) {
            Ok(contents) => {
                let journal = Journal::at(file, contents.gate, contents.next);
                Ok((journal, contents.batches))
            }
            Err(fault) => Err(fault),
        }
    }
}
