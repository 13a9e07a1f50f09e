ghost use Rattle.std.specs.Prelude.{◌≡◌, ◌≤◌, [], length};
ghost use Rattle.dl_depot.specs.declared.device_call.DeviceCall.TheVariants.{Write, Cut, Sync};
ghost use Rattle.dl_depot.specs.Log.{Tries, Works};

use crate::device_call::DeviceCall;
use crate::device_fault::DeviceFault;
use crate::file_id::FileId;
use crate::logged_call::{End, LoggedCall, Work};
use crate::mem_file::MemFile;
use std::alloc::{AllocError, Global};

/// A write to a file in memory, with the log of its depot. It fails where the file refuses the call, a fuse stops it, or
/// memory runs out.
pub fn write(
    alloc: Global,
    log: &mut Vec<LoggedCall>,
    held: &mut MemFile,
    file: FileId,
    at: u64,
    bytes: &[u8],
) -> Result<(), DeviceFault>
    requires { at ≤ length held.old.shown }
    ensures { Works file (Write at (length bytes.now)) bytes.now
        log.old.items log.new.items held.old held.new result }
{
    if held.refuses() {
        held.count_fault();
        return Err(DeviceFault);
    }
    let tried = try_write(alloc, log, held, file, at, bytes);
    held.settle(tried)
}

/// A cut of a file in memory, with the log of its depot. It fails as `write` does.
pub fn cut(
    alloc: Global,
    log: &mut Vec<LoggedCall>,
    held: &mut MemFile,
    file: FileId,
    size: u64,
) -> Result<(), DeviceFault>
    requires { size ≤ length held.old.shown }
    ensures { Works file (Cut size) [] log.old.items log.new.items held.old held.new result }
{
    if held.refuses() {
        held.count_fault();
        return Err(DeviceFault);
    }
    let tried = try_cut(alloc, log, held, file, size);
    held.settle(tried)
}

/// A sync of a file in memory, with the log of its depot. It fails as `write` does.
pub fn sync(
    alloc: Global,
    log: &mut Vec<LoggedCall>,
    held: &mut MemFile,
    file: FileId,
) -> Result<(), DeviceFault>
    ensures { Works file Sync [] log.old.items log.new.items held.old held.new result }
{
    if held.refuses() {
        held.count_fault();
        return Err(DeviceFault);
    }
    let tried = try_sync(alloc, log, held, file);
    held.settle(tried)
}

fn try_write(
    alloc: Global,
    log: &mut Vec<LoggedCall>,
    held: &mut MemFile,
    file: FileId,
    at: u64,
    bytes: &[u8],
) -> Result<End, AllocError>
    requires { at ≤ length held.old.shown }
    ensures { Tries file (Write at (length bytes.now)) bytes.now
        log.old.items log.new.items held.old held.new result }
{
    let end = held.next_end();
    let kept = bytes.to_vec(alloc)?;
    log.reserve(1)?;
    match end {
        End::StoppedBefore => held.restore(
            alloc,
            DeviceCall::Write {
                at,
                length: bytes.len() as u64,
            },
        )?,
        End::Passed | End::StoppedAfter => held.write(at, bytes)?,
    }
    log.push(LoggedCall {
        file,
        work: Work::Write { at, bytes: kept },
        end,
    })
    .unwrap();
    Ok(end)
}

fn try_cut(
    alloc: Global,
    log: &mut Vec<LoggedCall>,
    held: &mut MemFile,
    file: FileId,
    size: u64,
) -> Result<End, AllocError>
    requires { size ≤ length held.old.shown }
    ensures { Tries file (Cut size) [] log.old.items log.new.items held.old held.new result }
{
    let end = held.next_end();
    log.reserve(1)?;
    match end {
        End::StoppedBefore => held.restore(alloc, DeviceCall::Cut { size })?,
        End::Passed | End::StoppedAfter => held.cut(size)?,
    }
    log.push(LoggedCall {
        file,
        work: Work::Cut { size },
        end,
    })
    .unwrap();
    Ok(end)
}

fn try_sync(
    alloc: Global,
    log: &mut Vec<LoggedCall>,
    held: &mut MemFile,
    file: FileId,
) -> Result<End, AllocError>
    ensures { Tries file Sync [] log.old.items log.new.items held.old held.new result }
{
    let end = held.next_end();
    log.reserve(1)?;
    match end {
        End::Passed => held.sync()?,
        End::StoppedBefore => held.restore(alloc, DeviceCall::Sync)?,
        End::StoppedAfter => held.miss_sync()?,
    }
    log.push(LoggedCall {
        file,
        work: Work::Sync,
        end,
    })
    .unwrap();
    Ok(end)
}
