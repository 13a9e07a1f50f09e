ghost use Rattle.std.specs.Prelude.{◌≡◌, ℕ};
ghost use Rattle.dl_fields.specs.Readers.{Reads};
ghost use Rattle.dl_fields.specs.Codes.{code_from};

use crate::fault::Fault;
use crate::number::read_u8;

/// A value of a closed list that stands for one byte, its code: a type of no data, one variant a code.
pub trait Code: Copy {
    /// The byte.
    ghost code: { Self → ℕ };

    /// The byte.
    fn code(self) -> u8
        ensures { result ≡ code self };
}

/// The first of the values whose code is the byte at the front, and the bytes behind it. A byte that is none of their
/// codes is bad.
pub fn read_code<'a, K: Code>(codes: &[K], bytes: &'a [u8]) -> Result<(K, &'a [u8]), Fault>
    ensures { Reads (λ x. (x.0, x.1.now)) result (code_from K.code codes.now bytes.now) }
{
    let (byte, rest) = read_u8(bytes)?;
    for value in codes {
        if value.code() == byte {
            return Ok((*value, rest));
        }
    }
    Err(Fault::Bad(bytes.len()))
}
