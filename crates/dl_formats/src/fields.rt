ghost use Rattle.std.specs.Prelude.{◌≡◌};
ghost use Rattle.std.specs.Int.{w8, w64};
ghost use Rattle.dl_formats.specs.Reading.{Reads, between_from};

use dl_fields::fault::Fault;
use dl_fields::number::{read_u8, read_u64};

/// The byte at the front, which is within these bounds, and the bytes behind it. Another one is bad.
pub(crate) fn read_u8_between(low: u8, high: u8, bytes: &[u8]) -> Result<(u8, &[u8]), Fault>
    ensures { Reads (λ x. (x.0, x.1.now)) result (between_from w8 low high bytes.now) }
{
    let (number, rest) = read_u8(bytes)?;
    if low <= number && number <= high {
        Ok((number, rest))
    } else {
        Err(Fault::Bad(bytes.len()))
    }
}

/// The number of 64 bits at the front, which is within these bounds, and the bytes behind it. Another one is bad.
pub(crate) fn read_u64_between(low: u64, high: u64, bytes: &[u8]) -> Result<(u64, &[u8]), Fault>
    ensures { Reads (λ x. (x.0, x.1.now)) result (between_from w64 low high bytes.now) }
{
    let (number, rest) = read_u64(bytes)?;
    if low <= number && number <= high {
        Ok((number, rest))
    } else {
        Err(Fault::Bad(bytes.len()))
    }
}
