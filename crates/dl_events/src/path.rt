ghost use Rattle.std.specs.Prelude.{◌≡◌, ◌<◌, ◌-◌, true};
ghost use Rattle.dl_fields.specs.Paths.{is_part_byte};
ghost use Rattle.dl_text.specs.Readers.{Gives};
ghost use Rattle.dl_transcript.specs.PathFields.{max_path, parts_at, path_at};

use dl_text::stop::Stop;

/// The most bytes of a part of a path.
const MAX_PART: usize = 80;

/// The most bytes of a path behind its first slash: its length fits 16 bits.
const MAX_BEHIND: usize = 65_534;

/// Whether a byte may stand in a part.
fn is_part_byte(byte: u8) -> bool
    ensures { result ≡ is_part_byte byte }
{
    matches!(byte, b'a'..=b'z' | b'A'..=b'Z' | b'0'..=b'9' | b'_' | b'-')
}

/// What stands in a path behind its first slash, and the text behind the byte `end` that ends it.
fn parts_of(end: u8, bytes: &[u8]) -> Result<(&[u8], &[u8]), Stop>
    requires { end < 45 }
    ensures { Gives (λ x. (x.0.now, x.1.now)) result (parts_at end (max_path - 1) 0 true bytes.now) }
{
    let mut part: usize = 0;
    for (i, byte) in bytes.iter().enumerate() {
        if *byte == end && (i == 0 || part > 0) {
            return Ok((&bytes[..i], &bytes[i + 1..]));
        }
        if *byte == b'/' && part > 0 && i + 1 < MAX_BEHIND {
            part = 0;
        } else if is_part_byte(*byte) && part < MAX_PART && i < MAX_BEHIND {
            part += 1;
        } else {
            return Err(Stop::Left(bytes.len() - i));
        }
    }
    Err(Stop::Left(0))
}

/// A path at the front of a text, a slash alone or one before each part, and the text behind the byte `end` that ends it. It
/// stops at the first byte at which no path goes on.
pub fn path_of(end: u8, bytes: &[u8]) -> Result<(&[u8], &[u8]), Stop>
    requires { end < 45 }
    ensures { Gives (λ x. (x.0.now, x.1.now)) result (path_at end bytes.now) }
{
    match bytes {
        [] => Err(Stop::Left(0)),
        [first, parts @ ..] => {
            if *first != b'/' {
                return Err(Stop::Left(bytes.len()));
            }
            let (found, rest) = parts_of(end, parts)?;
            Ok((&bytes[..found.len() + 1], rest))
        }
    }
}
