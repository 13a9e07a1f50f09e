ghost use Rattle.std.specs.Prelude.{◌≡◌, ◌≤◌, ◌<◌, ◌-◌, ◌++◌, ◌^◌, [], ◌∷◌, length, true, false};
ghost use Rattle.dl_journal.specs.Limits.{journal_limit, around_body};
ghost use Rattle.dl_journal.specs.Batches.{frame_of};
ghost use Rattle.dl_journal.specs.Settled.{Stands};
ghost use Rattle.dl_journal.specs.Commits.{IsEmpty, Made, Committed, body_of, spare_of, body_place};

use crate::commit_fault::CommitFault;
use crate::layout::{AROUND, GATE, HEAD, LAST_NUMBER, LIMIT, MAGIC, NUMBER, START};
use crate::write_through::store;
use dl_depot::depot::Depot;
use dl_depot::device_fault::DeviceFault;
use dl_depot::file_id::FileId;
use std::marker::Model;

/// A journal in a file of a depot, after BookKeeper's: each commit is on the device before it answers ("Bookies: the
/// journal" in its documentation). The file has the magic `DLJRNL01`, then for each batch in force a gate 1, a number of
/// eight bytes, a length of four, the high byte first, and the body, and then a gate that is not 1 and free bytes. So a
/// batch that is written behind the shut gate counts only once that gate is opened by a write of one byte.
///
/// The value is to be the only writer of its file. Contracts see the file, the place of the shut gate, the number of the
/// next batch, and whether a commit has failed.
#[derive(Drop, Debug)]
pub struct Journal {
    file: FileId,
    gate: u64,
    next: u64,
    failed: bool,
}

impl Model for Journal {
    ghost use Rattle.std.specs.Prelude.{◌<◌};
    ghost use Rattle.dl_journal.specs.Limits.{journal_limit};
    ghost use Rattle.dl_journal.specs.State.{JournalState};

    ghost Value = { JournalState };

    ghost view = { λ j. record { file = j.file; gate = j.gate; next = j.next; failed = j.failed } };

    ghost invariant = { λ j. j.gate < journal_limit };
}

// Puts number and length before the body, and a shut gate behind it.
fn fill(frame: &mut [u8], number: u64)
    requires some { around_body < length frame.old }
    requires fits { length frame.old < 2 ^ 32 }
    ensures { frame.new ≡ frame_of number (body_of frame.old) ++ 0 ∷ [] }
{
    let last = frame.len() - GATE;
    let body = (last - HEAD) as u32;
    frame[..NUMBER].copy_from_slice(&number.to_be_bytes());
    frame[NUMBER..HEAD].copy_from_slice(&body.to_be_bytes());
    frame[last] = 0;
}

impl Journal {
    // A journal of this file, with the place of its shut gate and the number of the next batch.
    pub(crate) fn at(file: FileId, gate: u64, next: u64) -> Journal
        requires { gate < journal_limit }
        ensures { result ≡ record { file = file; gate = gate; next = next; failed = false } }
    {
        Journal {
            file,
            gate,
            next,
            failed: false,
        }
    }

    /// Makes a journal without a batch in an empty file: writes the magic and a shut gate, and syncs. The next batch will
    /// have the number 0. `DeviceFault` comes where a call on the device failed; the file may then be no journal.
    pub fn make<D: Depot>(depot: &mut D, file: FileId) -> Result<Journal, DeviceFault>
        requires { IsEmpty (D.view depot.old) file }
        ensures { Made (D.view depot.old) (D.view depot.new) file result }
    {
        store(depot, file, 0, &START)?;
        Ok(Journal {
            file,
            gate: MAGIC as u64,
            next: 0,
            failed: false,
        })
    }

    /// The length in bytes of the longest body for which the file stays within its limit of 268,435,456 bytes. It is 0
    /// where there is none, and where the next number would be above 9,223,372,036,854,775,807.
    pub fn spare(&self) -> u64
        ensures { result ≡ spare_of self.now }
    {
        if self.next > LAST_NUMBER {
            return 0;
        }
        LIMIT.saturating_sub(self.gate + (GATE + AROUND) as u64)
    }

    /// The place in the file at which the body of the next commit will begin: behind the shut gate, and behind its number
    /// and its length.
    pub fn body_place(&self) -> u64
        ensures { result ≡ body_place self.now }
    {
        self.gate + (GATE + HEAD) as u64
    }

    /// Commits the body of a frame: all but its first 12 bytes and its last one, into which the call puts the number, the
    /// length and a shut gate, so that the frame is written in one call. Then it opens the gate before it. Each of both
    /// writes is synced before the next step. It takes no memory.
    ///
    /// `Device` comes only where the file's count of faults rose, or stands at the greatest u64: the batch may be in
    /// force or not, and the value commits no more. `Failed` comes exactly where an earlier commit of this value failed,
    /// and then no call is made. Whatever comes, the file stays within its limit.
    pub fn commit<D: Depot>(&mut self, depot: &mut D, frame: &mut [u8]) -> Result<(), CommitFault>
        requires stands { Stands (D.view depot.old) self.old }
        requires body { around_body < length frame.old }
        requires room { length frame.old - around_body ≤ spare_of self.old }
        ensures committed { Committed (D.view depot.old) (D.view depot.new)
            self.old self.new (body_of frame.old) result }
        ensures idle { self.old.failed ≡ true → depot.new ≡ depot.old }
    {
        if self.failed {
            return Err(CommitFault::Failed);
        }
        fill(frame, self.next);
        if let Err(_) = store(depot, self.file, self.gate + GATE as u64, frame) {
            self.failed = true;
            return Err(CommitFault::Device);
        }
        if let Err(_) = store(depot, self.file, self.gate, &[1]) {
            self.failed = true;
            return Err(CommitFault::Device);
        }
        self.gate += frame.len() as u64;
        self.next += 1;
        Ok(())
    }
}
