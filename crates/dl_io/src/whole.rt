ghost use Rattle.dl_io.specs.Sinks.{Writes};

use crate::traits::{Sink, WriteFailed};

/// Gives all of a text to a sink, in order, in as many calls as it takes; an empty text needs none. It stops at the
/// first fault: a front of the text was given then. How much is finished stays.
pub fn write_all<K: Sink>(sink: &mut K, text: &[u8]) -> Result<(), WriteFailed>
    ensures { Writes (K.view sink.old) (K.view sink.new) text.now result }
{
    let mut rest = text;
    while !rest.is_empty() {
        let count = sink.give(rest)?;
        rest = &rest[count..];
    }
    Ok(())
}
