ghost use Rattle.std.specs.Prelude.{◌≡◌, ◌↔◌, ℕ, Ok, Err, IsErr, IfOk};
ghost use Rattle.std.specs.Process.{exit_status};
ghost use Rattle.dl_io.specs.Notes.{Notes};
ghost use Rattle.dl_types.specs.Statuses.{status_number};
ghost use Rattle.dlog.specs.Answers.{Replays};
ghost use Rattle.dlog.specs.Commands.{command_of};

use crate::command::Command;
use crate::top::dlog_main;
use dl_io::notes::write_note;
use dl_io::traits::{Sink, Source};
use dl_types::memory::NoMemory;
use dl_types::status::Status;
use dl_types::word::Word;
use std::alloc::Global;
use std::process::ExitCode;

/// The exit status of the process.
pub fn exit_code(status: Status) -> ExitCode
    ensures { exit_status result ≡ status_number status }
{
    ExitCode::from(status.number())
}

/// The program with its words, or without memory for them: then it notes that, and does nothing else.
pub fn program<S: Source, K: Sink, N: Sink>(
    alloc: Global,
    words: Result<Vec<Word>, NoMemory>,
    source: &mut S,
    sink: &mut K,
    notes: &mut N,
) -> Status
    ensures no_words { IsErr words → result ≡ Status.NoMemory }
    ensures untouched { IsErr words → (source.new ≡ source.old) × (sink.new ≡ sink.old) }
    ensures usage { IfOk words (λ w. (place : ℕ) →
        (result ≡ Status.Usage place) ↔ (command_of w.items ≡ Err place)) }
    ensures replays { IfOk words (λ w. command_of w.items ≡ Ok Command.Replay →
        Replays (S.view source.old) (S.view source.new) (K.view sink.old) (K.view sink.new)
        result) }
    ensures notes { Notes (N.view notes.old) (N.view notes.new) result }
{
    match words {
        Err(NoMemory) => {
            let status = Status::NoMemory;
            write_note(notes, &status);
            status
        }
        Ok(words) => dlog_main(alloc, &words, source, sink, notes),
    }
}
