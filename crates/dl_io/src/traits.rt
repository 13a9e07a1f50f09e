ghost use Rattle.dl_io.specs.Sinks.{Finishes, Gives};
ghost use Rattle.dl_io.specs.Sources.{Takes};
ghost use Rattle.dl_io.specs.Views.{SinkView, SourceView};

use thiserror::Error;

/// A read from a source failed.
#[derive(Clone, Copy, Debug, PartialEq, Eq, Error)]
#[error("read failed")]
pub struct ReadFailed;

/// A write to a sink failed.
#[derive(Clone, Copy, Debug, PartialEq, Eq, Error)]
#[error("write failed")]
pub struct WriteFailed;

/// A place that bytes come from, in pieces, as from a `std::io::Read`. It counts its failed calls, up to the greatest u64,
/// so that a caller who answers a fault can show that one came.
pub trait Source {
    /// All that is meant by it, at one moment.
    ghost view: { Self → SourceView };

    /// Moves some first bytes of what is left to the start of `into`, and answers how many. For an `into` that is not
    /// empty 0 is the end of input: it comes exactly where nothing is left.
    ///
    /// `ReadFailed` comes only where the count of faults rose in this call, or stands at the greatest u64. What is left
    /// then stays.
    fn take(&mut self, into: &mut [u8]) -> Result<usize, ReadFailed>
        ensures { Takes (view self.old) (view self.new) into.new result };
}

/// A place that bytes go to, in pieces, as to a `std::io::Write`. What was given counts as kept only once it is
/// finished. It counts its failed calls, up to the greatest u64, so that a caller who answers a fault can show that one
/// came.
pub trait Sink {
    /// All that is meant by it, at one moment.
    ghost view: { Self → SinkView };

    /// Adds some first bytes of a piece to what is held, and answers how many: at least one of a piece that is not
    /// empty. How much is finished stays.
    ///
    /// `WriteFailed` comes only where the count of faults rose in this call, or stands at the greatest u64. What is held
    /// then stays.
    fn give(&mut self, bytes: &[u8]) -> Result<usize, WriteFailed>
        ensures { Gives (view self.old) (view self.new) bytes.now result };

    /// Makes all that is held finished. What is held stays.
    ///
    /// `WriteFailed` comes only where the count of faults rose in this call, or stands at the greatest u64. How much is
    /// finished then stays.
    fn finish(&mut self) -> Result<(), WriteFailed>
        ensures { Finishes (view self.old) (view self.new) result };
}
