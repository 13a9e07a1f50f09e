ghost use Rattle.std.specs.Prelude.{◌≡◌, ◌++◌, IfOk, map};
ghost use Rattle.dlog.specs.Commands.{word_text};

use dl_types::memory::NoMemory;
use dl_types::word::Word;
use std::alloc::Global;
use std::env::{Env, FillError};

/// Room for the bytes of one word. It is doubled until the word fits.
const ROOM: usize = 4_096;

/// The bytes of the word of this number, where the program's name is number 0; none behind the last one.
fn read_argument<R: Env>(
    rt: &R,
    alloc: Global,
    number: usize,
) -> Result<Option<Vec<u8>>, NoMemory> {
    let mut size = ROOM;
    for _ in 0..u64::BITS {
        let mut room = vec![in alloc; 0u8; size]?;
        match rt.arg(number, &mut room) {
            Ok(count) => {
                room.truncate(count);
                return Ok(Some(room));
            }
            Err(FillError::NotPresent) => return Ok(None),
            Err(FillError::TooLong) => size = size.saturating_mul(2),
        }
    }
    Err(NoMemory)
}

/// The words behind the program's name, as the system has them: bytes of any kind.
fn read_arguments<R: Env>(rt: &R, alloc: Global) -> Result<Vec<Vec<u8>>, NoMemory> {
    let mut arguments = Vec::new(alloc);
    for number in 1..usize::MAX {
        match read_argument(rt, alloc, number)? {
            None => break,
            Some(bytes) => arguments.push(bytes)?,
        }
    }
    Ok(arguments)
}

/// The text of a word of these bytes. Bytes that are not UTF-8 are the empty word, with which no command goes on.
fn text_of(bytes: &[u8]) -> &str
    ensures { result.now ≡ word_text bytes.now }
{
    match std::str::from_utf8(bytes) {
        Ok(text) => text,
        Err(_) => "",
    }
}

/// All words, in order.
fn words_of(alloc: Global, arguments: &[Vec<u8>]) -> Result<Vec<Word>, NoMemory>
    ensures { IfOk result
        (λ words. words.items ≡ map (λ bytes. word_text bytes.items) arguments.now) }
{
    let mut words = Vec::new(alloc);
    for bytes in arguments {
        words.push(Word::new(alloc, text_of(bytes))?)?;
    }
    Ok(words)
}

/// The words behind the program's name. A word that is not UTF-8 is the empty word, so that a usage fault names its place
/// or one before it.
pub fn read_words<R: Env>(rt: &R, alloc: Global) -> Result<Vec<Word>, NoMemory> {
    let arguments = read_arguments(rt, alloc)?;
    words_of(alloc, &arguments)
}
