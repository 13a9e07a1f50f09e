ghost use Rattle.std.specs.Prelude.{◌≡◌, ◌<◌, length, IfOk, IsErrOf};
ghost use Rattle.dl_io.specs.Sources.{HasFault};
ghost use Rattle.dl_io.specs.Sinks.{WritesOut};
ghost use Rattle.dl_types.specs.declared.status.Status.{Status};
ghost use Rattle.dlog.specs.declared.replay.ReadStop.TheVariants.{Fault, NoMemory as Exhausted};
ghost use Rattle.dlog.specs.Answers.{ReadsToEnd, ReadsFront, Replays, status_of};
ghost use Rattle.dlog.specs.RunStates.{IsReady, new_run};

use crate::ended::Ended;
use crate::run::Run;
use dl_io::traits::{ReadFailed, Sink, Source, WriteFailed};
use dl_io::whole::write_all;
use dl_types::memory::NoMemory;
use dl_types::status::Status;
use std::alloc::{AllocError, Global};

/// The most bytes that are asked of the source at once.
const PIECE: usize = 65_536;

/// Why a run was not brought to its end.
#[derive(Clone, Copy, Debug, PartialEq, Eq)]
enum ReadStop {
    /// A read failed.
    Fault,
    /// Memory ran out.
    NoMemory,
}

impl From<ReadFailed> for ReadStop {
    ghost from_gives = { λ _ e. e ≡ Fault };

    fn from(_error: ReadFailed) -> ReadStop {
        ReadStop::Fault
    }
}

impl From<NoMemory> for ReadStop {
    ghost from_gives = { λ _ e. e ≡ Exhausted };

    fn from(_error: NoMemory) -> ReadStop {
        ReadStop::NoMemory
    }
}

/// Room for one piece.
fn make_piece(alloc: Global) -> Result<Vec<u8>, NoMemory>
    ensures { IfOk result (λ piece. 0 < length piece.items) }
{
    let piece = vec![in alloc; 0u8; PIECE]?;
    Ok(piece)
}

/// Takes pieces from the source, one byte at least in each turn, until the input ends or the run comes to its stop.
fn read_pieces<S: Source>(
    source: &mut S,
    piece: &mut [u8],
    run: &mut Run,
) -> Result<Ended, ReadStop>
    requires ready { IsReady run.old }
    requires room { 0 < length piece.old }
    ensures reads { IfOk result (ReadsToEnd (S.view source.old) (S.view source.new)
        run.old run.new) }
    ensures front { ReadsFront (S.view source.old) (S.view source.new) }
    ensures cause { IsErrOf result ReadStop.Fault →
        HasFault (S.view source.old) (S.view source.new) }
{
    loop {
        let count = source.take(piece)?;
        if count == 0 {
            return Ok(run.end()?);
        }
        if let Some(ended) = run.feed(&piece[..count])? {
            return Ok(ended);
        }
    }
}

/// Brings a run to the end of the input or to its stop.
fn read_run<S: Source>(alloc: Global, source: &mut S, run: &mut Run) -> Result<Ended, ReadStop>
    requires { IsReady run.old }
    ensures reads { IfOk result (ReadsToEnd (S.view source.old) (S.view source.new)
        run.old run.new) }
    ensures front { ReadsFront (S.view source.old) (S.view source.new) }
    ensures cause { IsErrOf result ReadStop.Fault →
        HasFault (S.view source.old) (S.view source.new) }
{
    let mut piece = make_piece(alloc)?;
    read_pieces(source, piece.as_mut_slice(), run)
}

/// Gives a whole text to the sink, and finishes it.
fn give<K: Sink>(sink: &mut K, text: &[u8]) -> Result<(), WriteFailed>
    ensures { WritesOut (K.view sink.old) (K.view sink.new) text.now result }
{
    write_all(sink, text)?;
    sink.finish()
}

/// The status of a run that was brought to its end.
fn status_of(ended: Ended) -> Status
    ensures { result ≡ status_of ended }
{
    match ended {
        Ended::Done => Status::Ok,
        Ended::BadLine { line, column } => Status::BadSchedule { line, column },
        Ended::Limit { name, number } => Status::Limit { name, number },
    }
}

/// Brings a run that has taken nothing to its end, and gives what it printed.
fn replay_run<S: Source, K: Sink>(
    alloc: Global,
    source: &mut S,
    sink: &mut K,
    run: &mut Run,
) -> Status
    requires { run.old ≡ new_run }
    ensures { Replays (S.view source.old) (S.view source.new) (K.view sink.old) (K.view sink.new)
        result }
{
    match read_run(alloc, source, run) {
        Err(ReadStop::Fault) => Status::ReadFault,
        Err(ReadStop::NoMemory) => Status::NoMemory,
        Ok(ended) => match give(sink, run.text()) {
            Err(WriteFailed) => Status::WriteFault,
            Ok(()) => status_of(ended),
        },
    }
}

/// Replays the schedule that the source has left, and gives its transcript to the sink: reads, runs and then gives. The
/// source is read no further than it takes to know the stop.
pub fn replay<S: Source, K: Sink>(alloc: Global, source: &mut S, sink: &mut K) -> Status
    ensures { Replays (S.view source.old) (S.view source.new) (K.view sink.old) (K.view sink.new)
        result }
{
    let mut run = Run::new(alloc);
    replay_run(alloc, source, sink, &mut run)
}
