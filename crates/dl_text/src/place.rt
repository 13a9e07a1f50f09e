ghost use Rattle.std.specs.Prelude.{◌≡◌, ◌<◌, ◌≤◌, IfOk};
ghost use Rattle.dl_text.specs.Readers.{Gives};
ghost use Rattle.dl_text.specs.PlaceFields.{place_at, IsPlaceFrom};

use crate::number::number_of;
use crate::stop::Stop;
use dl_types::dlsn::Dlsn;

/// A place, segment:entry:slot, at the front of a text, with a segment of at least `low`, and the text behind the byte
/// `end` that ends it. It stops at the first byte at which no such place goes on.
pub fn place_of(low: u64, end: u8, bytes: &[u8]) -> Result<(Dlsn, &[u8]), Stop>
    requires small { low ≤ 1 }
    requires apart { end < 48 }
    ensures exact { Gives (λ x. (x.0, x.1.now)) result (place_at low end bytes.now) }
    ensures within { IfOk result (λ x. IsPlaceFrom low x.0) }
{
    let (segment, rest) = number_of(low, u64::MAX, b':', bytes)?;
    let (entry, rest) = number_of(0, u64::MAX, b':', rest)?;
    let (slot, rest) = number_of(0, u64::from(u32::MAX), end, rest)?;
    let slot = slot as u32;
    Ok((
        Dlsn {
            segment,
            entry,
            slot,
        },
        rest,
    ))
}
