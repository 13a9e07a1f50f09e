ghost use Rattle.std.specs.Prelude.{◌≡◌, ◌≤◌, [], List, ℕ, Some, length, IfOk};
ghost use Rattle.dl_depot.specs.Device.{Gives};
ghost use Rattle.dl_depot.specs.Log.{IsKept, held_at};
ghost use Rattle.dl_depot.specs.Reads.{reads_image};

use crate::depot::Depot;
use crate::device_call::DeviceCall;
use crate::device_fault::DeviceFault;
use crate::file_id::FileId;
use crate::fuse::{Fuse, Outcome};
use crate::log;
use crate::logged_call::LoggedCall;
use crate::mem_file::MemFile;
use crate::stopper::Stopper;
use dl_types::memory::NoMemory;
use std::alloc::Global;

/// A depot in memory, which tells all meanings. It keeps each writing call with the bytes that it wrote, so that what a
/// stop at any past moment may have left is told by what it holds.
///
/// A call fails exactly where `fail_once` or a fuse says so, and a writing call besides where memory runs out. Each
/// failure is counted. `fail_once` and want of memory come before a fuse that has stopped no call yet: a call that fails
/// by them changes no byte, adds no writing call and leaves the fuse as it is.
#[derive(Drop)]
pub struct MemDepot {
    alloc: Global,
    log: Vec<LoggedCall>,
    files: Vec<MemFile>,
    ghost kept: { IsKept log.items files.items },
}

impl Depot for MemDepot {
    ghost use Rattle.dl_depot.specs.declared.device_call.DeviceCall.TheVariants.{Write, Cut, Sync};
    ghost use Rattle.dl_depot.specs.Device.{Read, Sized, Wrote, WasCut, Synced};
    ghost use Rattle.dl_depot.specs.View.{AtMost};
    ghost use Rattle.dl_depot.specs.Memory.{view_by, held_by, Looked, Wrought};

    ghost view = { λ d. view_by d };

    ghost reads = { λ d f bytes shown. reads_image d.log.items d.files.items d.kept f bytes shown };

    /// The file's size. It fails exactly where it is refused.
    fn size(&mut self, file: FileId) -> Result<u64, DeviceFault>
        ensures size { Sized (view_by self.old) (view_by self.new) file result }
        ensures answers { Looked (held_by self.old) (held_by self.new) file result }
    {
        let held = &mut self.files[file.index()];
        if held.refuses() {
            held.count_fault();
            return Err(DeviceFault);
        }
        Ok(held.bytes().len() as u64)
    }

    /// The bytes from a place on. It fails exactly where it is refused.
    fn read(&mut self, file: FileId, at: u64, into: &mut [u8]) -> Result<usize, DeviceFault>
        ensures read { Read (view_by self.old) (view_by self.new) file at into.new result }
        ensures answers { Looked (held_by self.old) (held_by self.new) file result }
    {
        let held = &mut self.files[file.index()];
        if held.refuses() {
            held.count_fault();
            return Err(DeviceFault);
        }
        Ok(copy_from(held.bytes(), at as usize, into))
    }

    /// A write.
    fn write_at(&mut self, file: FileId, at: u64, bytes: &[u8]) -> Result<(), DeviceFault>
        requires { AtMost at (view_by self.old) file }
        ensures wrote { Wrote (view_by self.old) (view_by self.new) file at bytes.now result }
        ensures answers { Wrought (held_by self.old) (held_by self.new) file
            (Write at (length bytes.now)) bytes.now result }
    {
        let held = &mut self.files[file.index()];
        log::write(self.alloc, &mut self.log, held, file, at, bytes)
    }

    /// A cut.
    fn cut(&mut self, file: FileId, size: u64) -> Result<(), DeviceFault>
        requires { AtMost size (view_by self.old) file }
        ensures cut { WasCut (view_by self.old) (view_by self.new) file size result }
        ensures answers { Wrought (held_by self.old) (held_by self.new) file (Cut size) [] result }
    {
        let held = &mut self.files[file.index()];
        log::cut(self.alloc, &mut self.log, held, file, size)
    }

    /// A sync.
    fn sync(&mut self, file: FileId) -> Result<(), DeviceFault>
        ensures synced { Synced (view_by self.old) (view_by self.new) file result }
        ensures answers { Wrought (held_by self.old) (held_by self.new) file Sync [] result }
    {
        let held = &mut self.files[file.index()];
        log::sync(self.alloc, &mut self.log, held, file)
    }
}

impl Stopper for MemDepot {
    ghost use Rattle.std.specs.Prelude.{None, false};
    ghost use Rattle.dl_depot.specs.Stops.{FuseSet, Revived};
    ghost use Rattle.dl_depot.specs.Memory.{view_by, held_by, Sets};

    /// Sets a fuse on the file. The number of the call that is to fail stays.
    fn fuse(&mut self, file: FileId, calls: u64, outcome: Outcome)
        ensures set { FuseSet (view_by self.old) (view_by self.new) file calls outcome }
        ensures held { Sets self.old self.new file (record (held_by self.old file) {
          fuse = Some (record { left = calls; outcome = outcome; stopped = false });
        }) }
    {
        let fuse = Fuse {
            left: calls,
            outcome,
            stopped: false,
        };
        let held = &mut self.files[file.index()];
        held.set_fuse(Some(fuse));
    }

    /// Takes the file's fuse away. The number of the call that is to fail stays.
    fn revive(&mut self, file: FileId) -> bool
        ensures revived { Revived (view_by self.old) (view_by self.new) file result }
        ensures held { Sets self.old self.new file
            (record (held_by self.old file) { fuse = None }) }
    {
        let held = &mut self.files[file.index()];
        let has_stopped = held.has_stopped();
        held.set_fuse(None);
        has_stopped
    }
}

impl MemDepot {
    ghost use Rattle.dl_depot.specs.Memory.{IsNew, held_by, Sets};

    /// A depot of empty files, with no call made and no fault.
    pub fn new(alloc: Global) -> Result<MemDepot, NoMemory>
        ensures { IfOk result IsNew }
    {
        let mut files = Vec::with_capacity(alloc, FileId::COUNT)?;
        for _ in 0..FileId::COUNT {
            files.push(MemFile::new(alloc))?;
        }
        Ok(MemDepot {
            alloc,
            log: Vec::new(alloc),
            files,
        })
    }

    /// How many calls on the file failed, up to the greatest u64.
    pub fn faults(&self, file: FileId) -> u64
        ensures { result ≡ (held_by self.now file).faults }
    {
        self.files[file.index()].faults()
    }

    /// Fails the call of that number on the file, counted from 1 from now on, reading calls included; 0 fails none. One
    /// such number stands for each file, and a second one replaces the first.
    pub fn fail_once(&mut self, file: FileId, call: u64)
        ensures { Sets self.old self.new file (record (held_by self.old file) { due = call }) }
    {
        let held = &mut self.files[file.index()];
        held.fail_once(call);
    }

    /// The writing calls that were made on the file, in order: those that passed and those that a fuse stopped.
    pub fn calls(&self, file: FileId) -> &[DeviceCall]
        ensures { result.now ≡ (held_by self.now file).calls }
    {
        self.files[file.index()].calls()
    }
}

// What there is from a place on, as far as the buffer reaches.
fn copy_from(bytes: &[u8], at: usize, into: &mut [u8]) -> usize
    ensures { Gives at result bytes.now into.new }
{
    let at = at.min(bytes.len());
    let count = into.len().min(bytes.len() - at);
    into[..count].copy_from_slice(&bytes[at..at + count]);
    count
}
