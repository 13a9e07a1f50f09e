ghost use Rattle.std.specs.Prelude.{◌≡◌, ◌+◌, ◌<◌, ◌≤◌, ◌++◌, [], length, OnOk, IfOk, None, false};
ghost use Rattle.dlog.specs.RunStates.{RunState, TakesLine, TakesBytes, Feeds, IsReady, new_run};
ghost use Rattle.dlog.specs.RunStates.{ends_as, outcome_at, behind, limit_of, size_of};
ghost use Rattle.dl_text.specs.TextLines.{has_feed};
ghost use Rattle.dlog.specs.Machine.{Within};
ghost use Rattle.dlog.specs.Run.{line_limit, schedule_limit};

use crate::ended::Ended;
use crate::machine::Machine;
use crate::text::read_line;
use dl_schedule::step::Step;
use dl_text::line::first_line;
use dl_types::limit::LimitName;
use dl_types::line_fault::LineFault;
use dl_types::memory::NoMemory;
use std::alloc::Global;
use std::marker::Model;

/// The most lines of a schedule.
const LINE_LIMIT: u32 = 1_000_000;

/// The most bytes of a schedule.
const SCHEDULE_LIMIT: usize = 16_777_216;

/// A run under way. The bytes of the schedule come in pieces; whole lines are run as they come, and the bytes of a line
/// that isn't whole yet are kept. Contracts see it as the state of specs/RunStates.antt. After want of memory a run has
/// ended, and is not used again.
#[derive(Drop)]
pub struct Run {
    alloc: Global,
    machine: Machine,
    lines: u32,
    bytes: usize,
    pending: Vec<u8>,
    text: Vec<u8>,
}

impl Model for Run {
    ghost use Rattle.dlog.specs.RunStates.{RunState};

    ghost Value = { RunState };

    ghost view = { λ r. record {
      state = r.machine;
      lines = r.lines;
      bytes = r.bytes;
      pending = r.pending.items;
      text = r.text.items;
    } };
}

impl Run {
    /// A run that has taken nothing yet.
    pub fn new(alloc: Global) -> Run
        ensures new { result ≡ new_run }
        ensures ready { IsReady result }
    {
        Run {
            alloc,
            machine: Machine::new(alloc),
            lines: 0,
            bytes: 0,
            pending: Vec::new(alloc),
            text: Vec::new(alloc),
        }
    }

    /// What was printed so far.
    pub fn text(&self) -> &[u8]
        ensures { result.now ≡ self.now.text }
    {
        &self.text
    }

    /// Takes the next bytes, of which there is one at least. It answers the stop, where they decide it.
    pub fn feed(&mut self, piece: &[u8]) -> Result<Option<Ended>, NoMemory>
        requires { IsReady self.old }
        ensures feeds { IfOk result (Feeds self.old self.new piece.now) }
        ensures size { IfOk result (TakesBytes self.old self.new piece.now) }
        ensures ready { OnOk result (IsReady self.new) }
    {
        let mut rest = piece;
        while let Some((line, after)) = first_line(rest) {
            if let Some(ended) = self.take_line(line)? {
                return Ok(Some(ended));
            }
            rest = after;
        }
        self.keep(rest)
    }

    /// Takes the end of the bytes: what is pending is the last line.
    pub fn end(&mut self) -> Result<Ended, NoMemory>
        requires { IsReady self.old }
        ensures { IfOk result (λ ended. ends_as self.old [] ≡ outcome_at self.new ended) }
    {
        if self.pending.is_empty() {
            return Ok(Ended::Done);
        }
        match self.take_line(&[])? {
            None => Ok(Ended::Done),
            Some(ended) => Ok(ended),
        }
    }

    /// Takes a line whose first bytes are pending and whose last ones are these.
    fn take_line(&mut self, back: &[u8]) -> Result<Option<Ended>, NoMemory>
        requires { IsReady self.old }
        ensures takes { IfOk result (TakesLine self.old self.new (self.old.pending ++ back.now)) }
        ensures size { IfOk result (TakesBytes self.old self.new back.now) }
        ensures ready { OnOk result (IsReady self.new) }
    {
        let size = self.pending.len() + back.len();
        match limit_of(self.lines, self.bytes + size) {
            Some(ended) => Ok(Some(ended)),
            None => self.take_within(back, size),
        }
    }

    /// Takes a line of so many bytes that keeps the limits.
    fn take_within(&mut self, back: &[u8], size: usize) -> Result<Option<Ended>, NoMemory>
        requires ready { IsReady self.old }
        requires whole { size ≡ length self.old.pending + length back.now }
        requires free { limit_of self.old.lines (self.old.bytes + size) ≡ None }
        ensures takes { IfOk result (TakesLine self.old self.new (self.old.pending ++ back.now)) }
        ensures size { IfOk result (TakesBytes self.old self.new back.now) }
        ensures ready { OnOk result (IsReady self.new) }
    {
        let line = self.lines + 1;
        match read_line(self.alloc, line, self.pending.as_slice(), back) {
            Err(LineFault::NoMemory) => Err(NoMemory),
            Err(LineFault::BadLine { column }) => Ok(Some(Ended::BadLine {
                line: u64::from(line),
                column,
            })),
            Ok(step) => {
                self.run_step(step, size)?;
                Ok(None)
            }
        }
    }

    /// Runs the step of the next line, of so many bytes, and prints what it shows.
    fn run_step(&mut self, step: Step, size: usize) -> Result<(), NoMemory>
        requires within { Within (self.old.lines + 1) self.old.state }
        requires small { (self.old.lines < line_limit) × (self.old.bytes + size ≤ schedule_limit) }
        ensures { OnOk result (self.new ≡ behind self.old size step) }
    {
        let line = self.lines + 1;
        self.machine.step(line, step, &mut self.text)?;
        self.lines = line;
        self.bytes += size;
        self.pending.clear();
        Ok(())
    }

    /// Keeps the bytes of a line that isn't whole yet.
    fn keep(&mut self, piece: &[u8]) -> Result<Option<Ended>, NoMemory>
        requires ready { IsReady self.old }
        requires plain { has_feed piece.now ≡ false }
        ensures feeds { IfOk result (Feeds self.old self.new piece.now) }
        ensures size { IfOk result (TakesBytes self.old self.new piece.now) }
        ensures ready { OnOk result (IsReady self.new) }
    {
        let size = self.pending.len() + piece.len();
        if size == 0 {
            return Ok(None);
        }
        match limit_of(self.lines, self.bytes + size) {
            Some(ended) => Ok(Some(ended)),
            None => {
                self.pending.extend_from_slice(piece)?;
                Ok(None)
            }
        }
    }
}

/// The limit that a line passes which stands behind so many lines and ends at so many bytes.
fn limit_of(lines: u32, bytes: usize) -> Option<Ended>
    ensures { result ≡ limit_of lines bytes }
{
    if lines >= LINE_LIMIT {
        Some(Ended::Limit {
            name: LimitName::Lines,
            number: u64::from(LINE_LIMIT),
        })
    } else if bytes > SCHEDULE_LIMIT {
        Some(Ended::Limit {
            name: LimitName::Schedule,
            number: SCHEDULE_LIMIT as u64,
        })
    } else {
        None
    }
}
