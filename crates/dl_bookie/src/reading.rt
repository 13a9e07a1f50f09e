ghost use Rattle.std.specs.Prelude.{◌≡◌, length, IfOk};
ghost use Rattle.dl_bookie.specs.Looking.{ReadsBack};

use crate::look_fault::LookFault;
use bytes::Bytes;
use dl_depot::depot::Depot;
use dl_depot::file_id::FileId;
use dl_marks::marks::Place;
use dl_record::check::check_entry;
use std::alloc::{AllocError, Global};

/// So many zeros.
fn zeros(alloc: Global, count: usize) -> Result<Vec<u8>, AllocError>
    ensures { IfOk result (λ v. length v.items ≡ count) }
{
    Ok(vec![in alloc; 0u8; count]?)
}

/// The bytes of an entry, read back from their place in a file, and found to be an entry.
pub fn read_back<D: Depot>(
    alloc: Global,
    depot: &mut D,
    file: FileId,
    place: Place,
) -> Result<Bytes, LookFault>
    ensures { ReadsBack (D.view depot.old) (D.view depot.new) file place result }
{
    let mut bytes = match zeros(alloc, place.size as usize) {
        Ok(bytes) => bytes,
        Err(_) => return Err(LookFault::NoMemory),
    };
    match depot.read(file, place.at, &mut bytes) {
        Ok(count) => {
            if count < bytes.len() {
                return Err(LookFault::Damaged(place.at));
            }
            if let Err(_) = check_entry(&bytes) {
                return Err(LookFault::Damaged(place.at));
            }
            match Bytes::from_vec(bytes) {
                Ok(bytes) => Ok(bytes),
                Err(_) => Err(LookFault::NoMemory),
            }
        }
        Err(_) => Err(LookFault::Device),
    }
}
