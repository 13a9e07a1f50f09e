ghost use Rattle.std.specs.Prelude.{◌≡◌, ◌≤◌, length, IfOk};
ghost use Rattle.std.specs.Int.{w8, w16, w32, w64};
ghost use Rattle.dl_fields.specs.Readers.{Reads};
ghost use Rattle.dl_fields.specs.Fields.{number_from};

use crate::fault::Fault;
use dl_codec::read::{get_u8, get_u16, get_u32, get_u64};

/// The byte at the front, and the bytes behind it. It is short exactly where there is none.
#[tactic(auto, unfolding(crate::specs::Fields::number_from, dl_codec::specs::Fields::number_at))]
pub fn read_u8(bytes: &[u8]) -> Result<(u8, &[u8]), Fault>
    ensures exact { Reads (λ x. (x.0, x.1.now)) result (number_from w8 bytes.now) }
    ensures room { IfOk result (λ x. length x.1.now ≤ length bytes.now) }
{
    match get_u8(bytes, 0) {
        Ok(number) => Ok((number, &bytes[1..])),
        Err(_) => Err(Fault::Short(bytes.len())),
    }
}

/// The number of 16 bits at the front, the high byte first, and the bytes behind it. It is short exactly where fewer
/// bytes are there.
#[tactic(auto, unfolding(crate::specs::Fields::number_from, dl_codec::specs::Fields::number_at))]
pub fn read_u16(bytes: &[u8]) -> Result<(u16, &[u8]), Fault>
    ensures exact { Reads (λ x. (x.0, x.1.now)) result (number_from w16 bytes.now) }
    ensures room { IfOk result (λ x. length x.1.now ≤ length bytes.now) }
{
    match get_u16(bytes, 0) {
        Ok(number) => Ok((number, &bytes[2..])),
        Err(_) => Err(Fault::Short(bytes.len())),
    }
}

/// The number of 32 bits at the front, the high byte first, and the bytes behind it. It is short exactly where fewer
/// bytes are there.
#[tactic(auto, unfolding(crate::specs::Fields::number_from, dl_codec::specs::Fields::number_at))]
pub fn read_u32(bytes: &[u8]) -> Result<(u32, &[u8]), Fault>
    ensures exact { Reads (λ x. (x.0, x.1.now)) result (number_from w32 bytes.now) }
    ensures room { IfOk result (λ x. length x.1.now ≤ length bytes.now) }
{
    match get_u32(bytes, 0) {
        Ok(number) => Ok((number, &bytes[4..])),
        Err(_) => Err(Fault::Short(bytes.len())),
    }
}

/// The number of 64 bits at the front, the high byte first, and the bytes behind it. It is short exactly where fewer
/// bytes are there.
#[tactic(auto, unfolding(crate::specs::Fields::number_from, dl_codec::specs::Fields::number_at))]
pub fn read_u64(bytes: &[u8]) -> Result<(u64, &[u8]), Fault>
    ensures exact { Reads (λ x. (x.0, x.1.now)) result (number_from w64 bytes.now) }
    ensures room { IfOk result (λ x. length x.1.now ≤ length bytes.now) }
{
    match get_u64(bytes, 0) {
        Ok(number) => Ok((number, &bytes[8..])),
        Err(_) => Err(Fault::Short(bytes.len())),
    }
}
