ghost use Rattle.std.specs.Prelude.{◌≡◌, ◌≤◌, ◌<◌, ◌-◌, ◌++◌, ◌∷◌, []};
ghost use Rattle.std.specs.Prelude.{length, MatchResult, List, ℕ, take};
ghost use Rattle.dl_depot.specs.declared.device_call.DeviceCall.TheVariants.{Write, Cut, Sync};
ghost use Rattle.dl_depot.specs.declared.logged_call.End.TheVariants.{Passed, StoppedBefore};
ghost use Rattle.dl_depot.specs.declared.logged_call.End.TheVariants.{StoppedAfter};
ghost use Rattle.dl_depot.specs.Device.{with_bytes};
ghost use Rattle.dl_depot.specs.Held.{empty_held, is_refused, after_call, after_fault};
ghost use Rattle.dl_depot.specs.Held.{end_by, end_of, fuse_after, set_fuse_after};
ghost use Rattle.dl_depot.specs.Held.{has_stopped, after_work, Becomes, Settles};

use crate::device_call::DeviceCall;
use crate::device_fault::DeviceFault;
use crate::fuse::{Fuse, Outcome};
use crate::logged_call::End;
use std::alloc::{AllocError, Global};
use std::marker::Model;

/// A file in memory, with what its depot keeps of it: the bytes that reads give, those of the last sync, the writing
/// calls made, the fuse that is set, the number of the call that is to fail, and the count of faults.
#[derive(Drop)]
pub struct MemFile {
    bytes: Vec<u8>,
    synced: Vec<u8>,
    // So many first bytes of both are the same, so that a sync copies only what was written since the last one.
    same: usize,
    calls: Vec<DeviceCall>,
    fuse: Option<Fuse>,
    due: u64,
    faults: u64,
}

impl Model for MemFile {
    ghost use Rattle.dl_depot.specs.Held.{Held, Agree};

    ghost Value = { Held };

    ghost view = { λ m. record {
      shown = m.bytes.items;
      synced = m.synced.items;
      calls = m.calls.items;
      fuse = m.fuse;
      due = m.due;
      faults = m.faults;
    } };

    ghost invariant = { λ m. Agree m.same m.bytes.items m.synced.items };
}

// The bytes with others put at a place.
fn put_at(old: &mut Vec<u8>, at: usize, bytes: &[u8]) -> Result<(), AllocError>
    requires { at ≤ length old.old.items }
    ensures { MatchResult result
        (λ _. old.new.items ≡ with_bytes at bytes.now old.old.items)
        (λ _. old.new.items ≡ old.old.items) }
{
    let over = bytes.len().min(old.len() - at);
    old.extend_from_slice(&bytes[over..])?;
    overwrite(old, at, &bytes[..over]);
    Ok(())
}

// Other bytes over those at a place.
fn overwrite(old: &mut [u8], at: usize, bytes: &[u8])
    requires start { at ≤ length old.old }
    requires end { length bytes.now ≤ length old.old - at }
    ensures { old.new ≡ with_bytes at bytes.now old.old }
{
    let (_, rest) = old.split_at_mut(at);
    rest[..bytes.len()].copy_from_slice(bytes);
}

fn end_by(fuse: Fuse) -> End
    ensures { result ≡ end_by fuse }
{
    if fuse.left > 0 {
        return End::Passed;
    }
    match fuse.outcome {
        Outcome::Before => End::StoppedBefore,
        Outcome::After => End::StoppedAfter,
    }
}

fn fuse_after(fuse: Fuse) -> Fuse
    ensures { result ≡ fuse_after fuse }
{
    if fuse.left > 0 {
        Fuse {
            left: fuse.left - 1,
            ..fuse
        }
    } else {
        Fuse {
            stopped: true,
            ..fuse
        }
    }
}

fn set_fuse_after(fuse: Option<Fuse>) -> Option<Fuse>
    ensures { result ≡ set_fuse_after fuse }
{
    match fuse {
        Some(fuse) => Some(fuse_after(fuse)),
        None => None,
    }
}

impl MemFile {
    /// An empty file.
    pub fn new(alloc: Global) -> MemFile
        ensures { result ≡ empty_held }
    {
        MemFile {
            bytes: Vec::new(alloc),
            synced: Vec::new(alloc),
            same: 0,
            calls: Vec::new(alloc),
            fuse: None,
            due: 0,
            faults: 0,
        }
    }

    /// The bytes that reads give.
    pub fn bytes(&self) -> &[u8]
        ensures { result.now ≡ self.now.shown }
    {
        &self.bytes
    }

    /// The writing calls made, in order.
    pub fn calls(&self) -> &[DeviceCall]
        ensures { result.now ≡ self.now.calls }
    {
        &self.calls
    }

    /// How many calls failed.
    pub fn faults(&self) -> u64
        ensures { result ≡ self.now.faults }
    {
        self.faults
    }

    /// Fails the call of that number, counted from 1 from now on.
    pub fn fail_once(&mut self, call: u64)
        ensures { self.new ≡ record self.old { due = call } }
    {
        self.due = call;
    }

    /// Sets a fuse, or takes it away.
    pub fn set_fuse(&mut self, fuse: Option<Fuse>)
        ensures { self.new ≡ record self.old { fuse = fuse } }
    {
        self.fuse = fuse;
    }

    /// Whether the fuse that is set has stopped a call.
    pub fn has_stopped(&self) -> bool
        ensures { result ≡ has_stopped self.now.fuse }
    {
        match self.fuse {
            Some(fuse) => fuse.stopped,
            None => false,
        }
    }

    /// Counts a call, and says whether it is to fail before it does anything.
    pub fn refuses(&mut self) -> bool
        ensures answer { result ≡ is_refused self.old }
        ensures counted { self.new ≡ after_call self.old }
    {
        let is_due = self.due == 1;
        self.due = self.due.saturating_sub(1);
        is_due || self.has_stopped()
    }

    /// Counts a fault, up to the greatest u64.
    pub fn count_fault(&mut self)
        ensures { self.new ≡ after_fault self.old }
    {
        self.faults = self.faults.saturating_add(1);
    }

    /// How the next writing call ends, if nothing else fails it.
    pub fn next_end(&self) -> End
        ensures { result ≡ end_of self.now.fuse }
    {
        match self.fuse {
            Some(fuse) => end_by(fuse),
            None => End::Passed,
        }
    }

    /// A write that passes, or that is stopped with all bytes written.
    pub fn write(&mut self, at: u64, bytes: &[u8]) -> Result<(), AllocError>
        requires { at ≤ length self.old.shown }
        ensures { Becomes (after_work (Write at (length bytes.now)) bytes.now Passed self.old)
            self.old self.new result }
    {
        self.calls.reserve(1)?;
        put_at(&mut self.bytes, at as usize, bytes)?;
        self.same = self.same.min(at as usize);
        self.calls
            .push(DeviceCall::Write {
                at,
                length: bytes.len() as u64,
            })
            .unwrap();
        self.fuse = set_fuse_after(self.fuse);
        Ok(())
    }

    /// A cut that passes, or that is stopped with its work done.
    pub fn cut(&mut self, size: u64) -> Result<(), AllocError>
        requires { size ≤ length self.old.shown }
        ensures { Becomes (after_work (Cut size) [] Passed self.old) self.old self.new result }
    {
        self.calls.push(DeviceCall::Cut { size })?;
        self.bytes.truncate(size as usize);
        self.same = self.same.min(size as usize);
        self.fuse = set_fuse_after(self.fuse);
        Ok(())
    }

    /// A sync that passes.
    pub fn sync(&mut self) -> Result<(), AllocError>
        ensures { Becomes (after_work Sync [] Passed self.old) self.old self.new result }
    {
        let changed = self.bytes.len() - self.same;
        self.synced.reserve(changed)?;
        self.calls.push(DeviceCall::Sync)?;
        self.synced.truncate(self.same);
        self.synced
            .extend_from_slice(&self.bytes[self.same..])
            .unwrap();
        self.same = self.bytes.len();
        self.fuse = set_fuse_after(self.fuse);
        Ok(())
    }

    /// A sync that is stopped with all bytes written.
    pub fn miss_sync(&mut self) -> Result<(), AllocError>
        ensures { Becomes (after_work Sync [] StoppedAfter self.old) self.old self.new result }
    {
        self.calls.push(DeviceCall::Sync)?;
        self.fuse = set_fuse_after(self.fuse);
        Ok(())
    }

    /// A writing call that is stopped, and leaves the bytes of the last sync.
    pub fn restore(&mut self, alloc: Global, call: DeviceCall) -> Result<(), AllocError>
        ensures { Becomes (after_work call [] StoppedBefore self.old) self.old self.new result }
    {
        let last = Vec::from_slice(alloc, &self.synced)?;
        self.calls.push(call)?;
        self.bytes = last;
        self.same = self.bytes.len();
        self.fuse = set_fuse_after(self.fuse);
        Ok(())
    }

    /// Ends a writing call that was tried: only one that was made and passed succeeds.
    pub fn settle(&mut self, tried: Result<End, AllocError>) -> Result<(), DeviceFault>
        ensures { Settles self.old self.new tried result }
    {
        if let Ok(End::Passed) = tried {
            return Ok(());
        }
        self.count_fault();
        Err(DeviceFault)
    }
}
