ghost use Rattle.std.specs.Prelude.{◌≡◌, ◌↔◌, ℕ, Ok, Err, IsErr};
ghost use Rattle.dl_io.specs.Notes.{Notes};
ghost use Rattle.dlog.specs.Answers.{Replays};
ghost use Rattle.dlog.specs.Commands.{command_of};

use crate::command::{Command, command_of};
use crate::replay::replay;
use dl_io::notes::write_note;
use dl_io::traits::{Sink, Source};
use dl_types::status::Status;
use dl_types::word::Word;
use std::alloc::Global;

/// What the words ask for is done: `replay`, alone, replays the schedule that the source has left, and gives its
/// transcript to the sink.
fn run_words<S: Source, K: Sink>(
    alloc: Global,
    words: &[Word],
    source: &mut S,
    sink: &mut K,
) -> Status
    ensures usage { (place : ℕ) →
        (result ≡ Status.Usage place) ↔ (command_of words.now ≡ Err place) }
    ensures untouched { IsErr (command_of words.now) →
        (source.new ≡ source.old) × (sink.new ≡ sink.old) }
    ensures replays { command_of words.now ≡ Ok Command.Replay →
        Replays (S.view source.old) (S.view source.new) (K.view sink.old) (K.view sink.new) result }
{
    match command_of(words) {
        Err(place) => Status::Usage { place },
        Ok(Command::Replay) => replay(alloc, source, sink),
    }
}

/// The whole program `dlog`: the words after its name say what is done. It answers how the program ends, and notes that
/// in one line where it isn't a good end.
///
/// - `Usage` names the first word at which no command goes on; then the source and the sink stay as they are.
/// - `Ok`: the source was read to its end, and the sink holds, finished, exactly the printing of the run over all lines.
///   The run's transcript is legal.
/// - `BadSchedule`: the line of this number is the first outside the grammar, at this column, and no line up to it is past
///   a limit; `Limit`: a line is past it. The sink holds, finished, exactly the printing of the run over the lines before.
/// - `ReadFault`, `WriteFault`, `NoMemory`: a read or a write failed, or memory ran out. The sink got some front of the
///   printing.
///
/// A fault in writing the note doesn't change the status; else the note is finished.
pub fn dlog_main<S: Source, K: Sink, N: Sink>(
    alloc: Global,
    words: &[Word],
    source: &mut S,
    sink: &mut K,
    notes: &mut N,
) -> Status
    ensures usage { (place : ℕ) →
        (result ≡ Status.Usage place) ↔ (command_of words.now ≡ Err place) }
    ensures untouched { IsErr (command_of words.now) →
        (source.new ≡ source.old) × (sink.new ≡ sink.old) }
    ensures replays { command_of words.now ≡ Ok Command.Replay →
        Replays (S.view source.old) (S.view source.new) (K.view sink.old) (K.view sink.new) result }
    ensures notes { Notes (N.view notes.old) (N.view notes.new) result }
    ensures silent { result ≡ Status.Ok → notes.new ≡ notes.old }
{
    let status = run_words(alloc, words, source, sink);
    write_note(notes, &status);
    status
}
