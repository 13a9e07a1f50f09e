ghost use Rattle.dl_depot.specs.View.{AtMost};
ghost use Rattle.dl_journal.specs.Calls.{Stores};

use dl_depot::depot::Depot;
use dl_depot::device_fault::DeviceFault;
use dl_depot::file_id::FileId;

/// A write at a place of the file, at most its size, and then a sync: at `Ok` the bytes are on the device. `DeviceFault`
/// comes where a call on the device failed.
pub fn store<D: Depot>(
    depot: &mut D,
    file: FileId,
    at: u64,
    bytes: &[u8],
) -> Result<(), DeviceFault>
    requires { AtMost at (D.view depot.old) file }
    ensures { Stores (D.view depot.old) (D.view depot.new) file at bytes.now result }
{
    depot.write_at(file, at, bytes)?;
    depot.sync(file)
}
