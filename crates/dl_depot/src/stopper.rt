ghost use Rattle.dl_depot.specs.Stops.{FuseSet, Revived};

use crate::depot::Depot;
use crate::file_id::FileId;
use crate::fuse::Outcome;

/// A depot whose files can be stopped in the middle of their work, as by a crash, and revived.
pub trait Stopper: Depot {
    /// Sets a fuse on the file, in the place of one that was set: it lets `calls` more writing calls on the file pass,
    /// stops inside the next one, and fails every later call on that file.
    fn fuse(&mut self, file: FileId, calls: u64, outcome: Outcome)
        ensures { FuseSet (Self.view self.old) (Self.view self.new) file calls outcome };

    /// Takes the file's fuse away, and is true exactly where that fuse had stopped a call.
    fn revive(&mut self, file: FileId) -> bool
        ensures { Revived (Self.view self.old) (Self.view self.new) file result };
}
