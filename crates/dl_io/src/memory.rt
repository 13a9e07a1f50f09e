ghost use Rattle.std.specs.Prelude.{◌≡◌, ◌≤◌, min, length, Contains, IfOk, IsErr, ◌↔◌, MatchResult};
ghost use Rattle.dl_io.specs.Causes.{next_count};
ghost use Rattle.dl_io.specs.Memory.{source_view, new_source, after_take};
ghost use Rattle.dl_io.specs.Memory.{after_failed_take, sink_view};
ghost use Rattle.dl_io.specs.Memory.{new_sink, after_give, after_finish, after_failure};
ghost use Rattle.dl_io.specs.Sinks.{Finishes, Gives};
ghost use Rattle.dl_io.specs.Sources.{Takes};

use crate::traits::{ReadFailed, Sink, Source, WriteFailed};
use dl_types::memory::NoMemory;
use std::alloc::Global;
use std::marker::Model;

/// A source over memory whose calls of listed numbers fail. Calls are counted from 1, those with an empty `into` too.
/// Contracts see what is left, the listed numbers and both counts.
#[derive(Drop)]
pub struct MemSource {
    bytes: Vec<u8>,
    at: usize,
    failing: Vec<u64>,
    calls: u64,
    faults: u64,
}

impl Model for MemSource {
    ghost use Rattle.std.specs.Prelude.{◌≤◌, drop, length};
    ghost use Rattle.dl_io.specs.Memory.{SourceState, source_state};

    ghost Value = { SourceState };

    ghost view = { λ s. source_state (drop s.at s.bytes.items) s.failing.items s.calls s.faults };

    ghost invariant = { λ s. s.at ≤ length s.bytes.items };
}

impl MemSource {
    /// A source of these bytes, whose calls of these numbers fail.
    pub fn new(bytes: Vec<u8>, failing: Vec<u64>) -> MemSource
        ensures { result ≡ new_source bytes.items failing.items }
    {
        MemSource {
            bytes,
            at: 0,
            failing,
            calls: 0,
            faults: 0,
        }
    }

    /// The bytes that are left.
    pub fn left(&self) -> &[u8]
        ensures { result.now ≡ self.now.left }
    {
        &self.bytes[self.at..]
    }

    /// How many calls failed.
    pub fn faults(&self) -> u64
        ensures { result ≡ self.now.faults }
    {
        self.faults
    }
}

impl Source for MemSource {
    ghost view = { source_view };

    fn take(&mut self, into: &mut [u8]) -> Result<usize, ReadFailed>
        ensures takes { Takes (source_view self.old) (source_view self.new) into.new result }
        ensures fails { IsErr result ↔ Contains self.old.failing (next_count self.old.calls) }
        ensures amount { IfOk result (λ n. n ≡ min (length into.new) (length self.old.left)) }
        ensures state { MatchResult result (λ n. self.new ≡ after_take self.old n)
            (λ _. self.new ≡ after_failed_take self.old) }
    {
        self.calls = self.calls.saturating_add(1);
        if self.failing.contains(&self.calls) {
            self.faults = self.faults.saturating_add(1);
            return Err(ReadFailed);
        }
        let left = &self.bytes[self.at..];
        let count = into.len().min(left.len());
        into[..count].copy_from_slice(&left[..count]);
        self.at += count;
        Ok(count)
    }
}

/// A sink into memory whose calls of listed numbers fail. Calls are counted from 1, `give` and `finish` together, those
/// with an empty piece too. A `give` that finds no memory to grow fails besides. Contracts see what is held, how much of
/// it is finished, the listed numbers and both counts.
#[derive(Drop)]
pub struct MemSink {
    bytes: Vec<u8>,
    finished: usize,
    failing: Vec<u64>,
    calls: u64,
    faults: u64,
}

impl Model for MemSink {
    ghost use Rattle.std.specs.Prelude.{◌≤◌, length};
    ghost use Rattle.dl_io.specs.Memory.{SinkState, sink_state};

    ghost Value = { SinkState };

    ghost view = { λ s. sink_state s.bytes.items s.finished s.failing.items s.calls s.faults };
}

impl MemSink {
    /// An empty sink, whose calls of these numbers fail.
    pub fn new(alloc: Global, failing: Vec<u64>) -> Result<MemSink, NoMemory>
        ensures { IfOk result (λ s. s ≡ new_sink failing.items) }
    {
        Ok(MemSink {
            bytes: Vec::new(alloc),
            finished: 0,
            failing,
            calls: 0,
            faults: 0,
        })
    }

    /// The bytes that are held.
    pub fn bytes(&self) -> &[u8]
        ensures { result.now ≡ self.now.held }
    {
        &self.bytes
    }

    /// How many of the bytes are finished.
    pub fn finished(&self) -> usize
        ensures { result ≡ self.now.finished }
    {
        self.finished
    }

    /// How many calls failed.
    pub fn faults(&self) -> u64
        ensures { result ≡ self.now.faults }
    {
        self.faults
    }
}

impl Sink for MemSink {
    ghost view = { sink_view };

    fn give(&mut self, bytes: &[u8]) -> Result<usize, WriteFailed>
        ensures gives { Gives (sink_view self.old) (sink_view self.new) bytes.now result }
        // A call that is not listed fails only where there is no memory to grow.
        ensures fails { Contains self.old.failing (next_count self.old.calls) → IsErr result }
        ensures amount { IfOk result (λ n. n ≡ length bytes.now) }
        ensures state { MatchResult result (λ _. self.new ≡ after_give self.old bytes.now)
            (λ _. self.new ≡ after_failure self.old) }
    {
        self.calls = self.calls.saturating_add(1);
        if self.failing.contains(&self.calls) || self.bytes.extend_from_slice(bytes).is_err() {
            self.faults = self.faults.saturating_add(1);
            return Err(WriteFailed);
        }
        Ok(bytes.len())
    }

    fn finish(&mut self) -> Result<(), WriteFailed>
        ensures finishes { Finishes (sink_view self.old) (sink_view self.new) result }
        ensures fails { IsErr result ↔ Contains self.old.failing (next_count self.old.calls) }
        ensures state { MatchResult result (λ _. self.new ≡ after_finish self.old)
            (λ _. self.new ≡ after_failure self.old) }
    {
        self.calls = self.calls.saturating_add(1);
        if self.failing.contains(&self.calls) {
            self.faults = self.faults.saturating_add(1);
            return Err(WriteFailed);
        }
        self.finished = self.bytes.len();
        Ok(())
    }
}
