ghost use Rattle.std.specs.Prelude.{◌≡◌, [], OnErr, OnOk};
ghost use Rattle.dl_rules_stream.specs.LogReaders.{behind};
ghost use Rattle.dl_reader.specs.Readings.{new_read, with_gone, with_rows};
ghost use Rattle.dl_reader.specs.Steps.{left_then};

use crate::gathered::Gathered;
use crate::position::Position;
use crate::step::Ahead;
use dl_formats::segment_name::SegmentName;
use dl_types::memory::NoMemory;
use dl_types::read_row::ReadRows;
use std::alloc::Global;
use std::collections::VecDeque;
use std::marker::Model;
use std::mem;

/// A read: the tag of its messages, how many rows it may give, where it began, the rows gathered so far, the ledger whose node was
/// gone as it began again the time before, and the segments that are left.
#[derive(Drop)]
pub(crate) struct Reading {
    pub(crate) tag: u32,
    pub(crate) count: u32,
    pub(crate) from: Position,
    pub(crate) rows: Gathered,
    pub(crate) gone: Option<u64>,
    pub(crate) left: VecDeque<SegmentName>,
}

impl Model for Reading {
    ghost use Rattle.dl_reader.specs.Readings.{ReadingFacts};

    ghost Value = { ReadingFacts };

    ghost view = { λ r. record {
      read = record { tag = r.tag; count = r.count; from = r.from; rows = r.rows; gone = r.gone };
      left = r.left.items;
    } };
}

impl Reading {
    /// A read of so many rows from a position on, which has gathered none; no memory is taken.
    pub(crate) fn new(alloc: Global, tag: u32, count: u32, from: Position) -> Reading
        ensures read { result.read ≡ new_read tag count from }
        ensures left { result.left ≡ [] }
    {
        Reading {
            tag,
            count,
            from,
            rows: Gathered::new(alloc),
            gone: None,
            left: VecDeque::new(alloc),
        }
    }

    /// The segment in which the read begins.
    pub(crate) fn first_segment(&self) -> u64
        ensures { result ≡ self.now.read.from.cursor.segment }
    {
        self.from.cursor.segment
    }

    /// The read as it begins again.
    pub(crate) fn restart(&mut self, alloc: Global, gone: Option<u64>)
        ensures { self.new ≡ record self.old { read = with_gone self.old.read [] gone } }
    {
        self.rows = Gathered::new(alloc);
        self.gone = gone;
    }

    /// Goes on with the segments that are left then.
    pub(crate) fn turn_to(&mut self, ahead: Ahead)
        ensures { self.new ≡ record self.old { left = left_then self.old.left ahead } }
    {
        match ahead {
            Ahead::Stay => {}
            Ahead::Pass => {
                self.left.pop_front();
            }
            Ahead::Are(left) => self.left = left,
        }
    }

    /// Gathers rows more, up to the read's count. Want of memory leaves the read as it is.
    pub(crate) fn gather(&mut self, rows: Gathered) -> Result<(), NoMemory>
        ensures ok { OnOk result
            (self.new ≡ record self.old { read = with_rows self.old.read rows }) }
        ensures err { OnErr result (self.new ≡ self.old) }
    {
        self.rows.add(rows, self.count)
    }

    /// The position behind what was gathered, for a reader at this one.
    pub(crate) fn behind(&self, position: Position) -> Position
        ensures { result ≡ behind position self.now.read.rows }
    {
        self.rows.behind(position)
    }

    /// Gives what was gathered, and keeps none of it.
    pub(crate) fn give(&mut self, alloc: Global) -> ReadRows
        ensures rows { result ≡ self.old.read.rows }
        ensures read { let old = self.old.read in
            self.new ≡ record self.old { read = with_gone old [] old.gone } }
    {
        let rows = mem::replace(&mut self.rows, Gathered::new(alloc));
        rows.into_rows()
    }
}
