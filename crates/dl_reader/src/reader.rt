ghost use Rattle.std.specs.Prelude.{◌≡◌, IfOk, OnErr, OnOk};
ghost use Rattle.dl_formats.specs.NodeBytes.{IsConf};
ghost use Rattle.dl_rules_stream.specs.LogReaders.{ReadStage, ReaderArgs, ReaderNow, Reads, HearsAll};
ghost use Rattle.dl_rules_stream.specs.LogReaders.{reader_reads, read_hears};
ghost use Rattle.dl_reader.specs.Standing.{StageStands};
ghost use Rattle.dl_reader.specs.Steps.{IsAfter};
ghost use Rattle.dl_reader.specs.Views.{ReaderView, StandsAt, StandsFor, GoesBy, IsAnswer};
ghost use Rattle.dl_reader.specs.Views.{after_step, args_of, new_view, now_in, with_gathered};

use crate::gathered::Gathered;
use crate::given::Given;
use crate::hearing::after_heard;
use crate::position::Position;
use crate::reading::Reading;
use crate::stage::Stage;
use crate::step::{After, Step};
use dl_formats::conf::Conf;
use dl_msg::heard::Heard;
use dl_msg::turn::Turn;
use dl_types::dlsn::Dlsn;
use dl_types::memory::NoMemory;
use dl_types::name::Name;
use dl_types::read_row::ReadRows;
use dl_types::start::Start;
use dl_types::txid::TxId;
use std::alloc::Global;
use std::marker::Model;

/// The reader of a stream: each read gives the next rows from its cursor on, at most as many as it was asked for. Their payloads
/// are pieces of the entries that bookies sent, and copied nowhere.
#[derive(Drop)]
pub struct LogReader {
    alloc: Global,
    given: Given,
    position: Position,
    reading: Reading,
    stage: Stage,
}

impl Model for LogReader {
    ghost use Rattle.dl_reader.specs.Facts.{ReaderFacts};

    ghost Value = { ReaderFacts };

    ghost view = { λ t. record {
      args = t.given;
      position = t.position;
      reading = t.reading;
      stage = t.stage;
    } };
}

impl LogReader {
    /// A reader that begins so in this stream, whose point this is. The configuration is one that has bytes.
    #[tactic(auto, unfolding(dl_rules_stream::specs::LogReaders::reader_of))]
    pub fn start(
        alloc: Global,
        stream: &Name,
        from: Start,
        point: Dlsn,
        conf: Conf,
    ) -> Result<LogReader, NoMemory>
        requires { IsConf conf }
        ensures { IfOk result (StandsFor (new_view (args_of stream.now conf) point from)) }
    {
        let given = Given {
            stream: stream.share()?,
            conf,
        };
        let position = Position::start(point, from);
        Ok(LogReader {
            alloc,
            given,
            position,
            reading: Reading::new(alloc, 0, 0, position),
            stage: Stage::NoRead,
        })
    }

    /// Takes a step, and answers with its turn.
    fn take(&mut self, step: Step) -> Turn<ReadRows>
        ensures { (self.new, result) ≡ after_step self.old step }
    {
        match step {
            Step::Goes { stage, turn, ahead } => {
                self.reading.turn_to(ahead);
                self.stage = stage;
                turn
            }
            Step::Begins { gone, request } => {
                self.reading.restart(self.alloc, gone);
                self.stage = Stage::ListingCut;
                Turn::Ask(request)
            }
            Step::Ends => {
                self.position = self.reading.behind(self.position);
                self.stage = Stage::NoRead;
                Turn::Done(self.reading.give(self.alloc))
            }
        }
    }

    /// What the read under way does at what it hears.
    fn after(&self, heard: &Heard) -> Result<After, NoMemory>
        ensures { let reading = self.now.reading in IfOk result (λ after. (s : ReadStage)
            → StageStands reading.read reading.left s self.now.stage
            → IsAfter self.now.args reading.read reading.left s
            (read_hears self.now.args s heard.now) after) }
    {
        after_heard(self.alloc, &self.given, &self.reading, &self.stage, heard)
    }

    /// Gathers rows more. Want of memory leaves the reader as it is.
    fn gather(&mut self, rows: Gathered) -> Result<(), NoMemory>
        ensures ok { OnOk result (self.new ≡ with_gathered self.old rows) }
        ensures err { OnErr result (self.new ≡ self.old) }
    {
        self.reading.gather(rows)
    }

    /// Begins a read of so many rows.
    fn begin(&mut self, line: u32, count: u32) -> Result<Turn<ReadRows>, NoMemory>
        ensures goes { IfOk result (λ turn. (x : ReaderArgs) (n : ReaderNow)
            → StandsAt x n self.old → GoesBy x n (reader_reads x n line count) turn self.new) }
        ensures kept { OnErr result (self.new ≡ self.old) }
    {
        let request = self.given.list(self.alloc)?;
        self.reading = Reading::new(self.alloc, line, count, self.position);
        self.stage = Stage::ListingCut;
        Ok(Turn::Ask(request))
    }

    /// Goes on with the read under way at what it hears.
    fn go_on(&mut self, heard: &Heard) -> Result<Turn<ReadRows>, NoMemory>
        ensures goes { IfOk result (λ turn. (x : ReaderArgs) (n : ReaderNow)
            → StandsAt x n self.old
            → GoesBy x n (read_hears x n.stage heard.now) turn self.new) }
        ensures kept { OnErr result (self.new ≡ self.old) }
    {
        let after = self.after(heard)?;
        match after {
            After::Stays => Ok(Turn::Wait),
            After::Takes(step) => Ok(self.take(step)),
            After::Gathers(rows, step) => {
                self.gather(rows)?;
                Ok(self.take(step))
            }
        }
    }

    /// Reads the next rows, at most so many, and answers with the first turn: it asks for the stream's segments and its point. The
    /// line is the tag of the read's messages. A read that is under way is given up. Want of memory leaves the reader as it is.
    pub fn read(&mut self, line: u32, count: u32) -> Result<Turn<ReadRows>, NoMemory>
        ensures goes { IfOk result (λ turn. (x : ReaderArgs) (n : ReaderNow)
            → StandsAt x n self.old → GoesBy x n (reader_reads x n line count) turn self.new) }
        ensures view { IfOk result (λ turn. (v : ReaderView) → StandsFor v self.old
            → IsAnswer v (Reads line count) turn self.new) }
        ensures kept { OnErr result (self.new ≡ self.old) }
    {
        self.begin(line, count)
    }

    /// Hears a reply to its request or a message of a bookie, and answers with its next turn. It is done with the rows from the
    /// cursor on, by rising places and without a gap, where it has as many as were asked for, or where no more can be read; no rows
    /// mean that it stands at the end. The cursor moves behind them. It is refused as `NoStream` where the stream isn't there; as
    /// `Truncated`, with the point, where a purge has overtaken the cursor; as `GaveUp` where bytes of a node are not in their
    /// form, where a request fails otherwise, or where a ledger's node was gone twice in a row. What answers nothing that it asked
    /// changes nothing. Want of memory leaves the reader as it is.
    pub fn hear(&mut self, heard: &Heard) -> Result<Turn<ReadRows>, NoMemory>
        ensures goes { IfOk result (λ turn. (x : ReaderArgs) (n : ReaderNow)
            → StandsAt x n self.old
            → GoesBy x n (read_hears x n.stage heard.now) turn self.new) }
        ensures view { IfOk result (λ turn. (v : ReaderView) → StandsFor v self.old
            → IsAnswer v (HearsAll heard.now) turn self.new) }
        ensures kept { OnErr result (self.new ≡ self.old) }
    {
        self.go_on(heard)
    }

    /// Where the next read begins: the place of the next row that it may give, and the least transaction id that it takes.
    pub fn cursor(&self) -> (Dlsn, TxId)
        ensures { (v : ReaderView) → StandsFor v self.now
            → result ≡ ((now_in v).position.cursor, (now_in v).position.floor) }
    {
        (self.position.cursor, self.position.floor)
    }
}
