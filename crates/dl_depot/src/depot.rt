ghost use Rattle.std.specs.Prelude.{◌≡◌, List, ℕ, Some, length};
ghost use Rattle.dl_depot.specs.View.{View, AtMost};
ghost use Rattle.dl_depot.specs.Device.{Read, Sized, Wrote, WasCut, Synced};

use crate::device_fault::DeviceFault;
use crate::file_id::FileId;

/// The files of one node. A crash may tear what was written since the last sync: between two syncs each written range,
/// and all past the old end, may hold any bytes; other bytes stay, and after a sync that succeeds a stop leaves what
/// reads give. That is what a journal may count on from a device (BookKeeper documentation, "Bookies: the journal").
/// No call changes another file, or what a stop in the past left.
///
/// A call that answers `DeviceFault` raises the file's count of faults, which stays at the greatest u64 once it is
/// there. A call that answers `Ok` leaves it, so a file had a fault in some work exactly where its count rose.
pub trait Depot {
    /// All that is meant by it, at one moment.
    ghost view: { Self → View };

    /// The file's size in bytes. It changes nothing, but a fault is counted.
    fn size(&mut self, file: FileId) -> Result<u64, DeviceFault>
        ensures size { Sized (view self.old) (view self.new) file result };

    /// Fills the start of `into` with the bytes from `at` on, and answers how many: fewer than asked only at the file's
    /// end. It changes nothing, but a fault is counted.
    fn read(&mut self, file: FileId, at: u64, into: &mut [u8]) -> Result<usize, DeviceFault>
        ensures read { Read (view self.old) (view self.new) file at into.new result };

    /// Puts the bytes at `at`, over those that are there or past the end.
    fn write_at(&mut self, file: FileId, at: u64, bytes: &[u8]) -> Result<(), DeviceFault>
        requires { AtMost at (view self.old) file }
        ensures wrote { Wrote (view self.old) (view self.new) file at bytes.now result };

    /// Leaves the first `size` bytes.
    fn cut(&mut self, file: FileId, size: u64) -> Result<(), DeviceFault>
        requires { AtMost size (view self.old) file }
        ensures cut { WasCut (view self.old) (view self.new) file size result };

    /// Forces all that was written to the device.
    fn sync(&mut self, file: FileId) -> Result<(), DeviceFault>
        ensures synced { Synced (view self.old) (view self.new) file result };

    /// A file as it reads is one of its images.
    ghost reads: { (d : Self) (file : ℕ) (bytes : List ℕ) → (view d).shown file ≡ Some bytes
        → (view d).image file (view d).moment bytes };
}
