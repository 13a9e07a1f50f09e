ghost use Rattle.std.specs.Prelude.{◌≡◌, ◌<◌, IfOk};
ghost use Rattle.dl_types.specs.Names.{is_name_byte};
ghost use Rattle.dl_text.specs.Readers.{Gives};
ghost use Rattle.dl_text.specs.NameFields.{name_at, name_bytes_at, IsName};
ghost use Rattle.dl_types.specs.declared.name.TheConstants.{MAX_NAME};

use crate::stop::Stop;
use dl_types::name::MAX_NAME;

/// Whether a byte stands in a name.
fn is_name_byte(byte: u8) -> bool
    ensures { result ≡ is_name_byte byte }
{
    matches!(byte, b'a'..=b'z' | b'0'..=b'9' | b'_' | b'-')
}

/// At most `MAX_NAME` bytes of a name, and the text behind the byte `end` that ends them.
fn name_bytes_of(end: u8, bytes: &[u8]) -> Result<(&[u8], &[u8]), Stop>
    ensures { Gives (λ x. (x.0.now, x.1.now)) result (name_bytes_at end MAX_NAME bytes.now) }
{
    for (i, byte) in bytes.iter().enumerate() {
        if *byte == end {
            return Ok((&bytes[..i], &bytes[i + 1..]));
        }
        if !is_name_byte(*byte) || i >= MAX_NAME as usize {
            return Err(Stop::Left(bytes.len() - i));
        }
    }
    Err(Stop::Left(0))
}

/// The name of a stream at the front of a text, a letter first, and the text behind the byte `end` that ends it. It stops
/// at the first byte at which no name goes on.
pub fn name_of(end: u8, bytes: &[u8]) -> Result<(&[u8], &[u8]), Stop>
    requires { end < 45 }
    ensures exact { Gives (λ x. (x.0.now, x.1.now)) result (name_at end bytes.now) }
    ensures name { IfOk result (λ x. IsName x.0.now) }
{
    match bytes {
        [] => Err(Stop::Left(0)),
        [first, ..] => {
            if first.is_ascii_lowercase() {
                name_bytes_of(end, bytes)
            } else {
                Err(Stop::Left(bytes.len()))
            }
        }
    }
}
