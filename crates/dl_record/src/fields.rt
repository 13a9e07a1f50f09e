ghost use Rattle.std.specs.Prelude.{◌≡◌, ◌+◌, ◌≤◌, length, IfOk, List, ℕ};
ghost use Rattle.std.specs.Int.{w8, w16, w32, w64};
ghost use Rattle.dl_record.specs.Reading.{field_at, end_at};

use crate::entry_flaw::EntryFlaw;
use dl_codec::read::{get_u8, get_u16, get_u32, get_u64};

/// The byte at a place.
#[tactic(auto, unfolding(crate::specs::Reading::field_at, dl_codec::specs::Fields::number_at))]
pub fn u8_at(bytes: &[u8], at: usize) -> Result<u8, EntryFlaw>
    ensures exact { field_at w8 bytes.now at ≡ result }
    ensures room { IfOk result (λ n. at + 1 ≤ length bytes.now) }
{
    let number = get_u8(bytes, at)?;
    Ok(number)
}

/// The number in the two bytes from a place on.
#[tactic(auto, unfolding(crate::specs::Reading::field_at, dl_codec::specs::Fields::number_at))]
pub fn u16_at(bytes: &[u8], at: usize) -> Result<u16, EntryFlaw>
    ensures exact { field_at w16 bytes.now at ≡ result }
    ensures room { IfOk result (λ n. at + 2 ≤ length bytes.now) }
{
    let number = get_u16(bytes, at)?;
    Ok(number)
}

/// The number in the four bytes from a place on.
#[tactic(auto, unfolding(crate::specs::Reading::field_at, dl_codec::specs::Fields::number_at))]
pub fn u32_at(bytes: &[u8], at: usize) -> Result<u32, EntryFlaw>
    ensures exact { field_at w32 bytes.now at ≡ result }
    ensures room { IfOk result (λ n. at + 4 ≤ length bytes.now) }
{
    let number = get_u32(bytes, at)?;
    Ok(number)
}

/// The number in the eight bytes from a place on.
#[tactic(auto, unfolding(crate::specs::Reading::field_at, dl_codec::specs::Fields::number_at))]
pub fn u64_at(bytes: &[u8], at: usize) -> Result<u64, EntryFlaw>
    ensures exact { field_at w64 bytes.now at ≡ result }
    ensures room { IfOk result (λ n. at + 8 ≤ length bytes.now) }
{
    let number = get_u64(bytes, at)?;
    Ok(number)
}

/// The place where so many bytes from a place on end.
#[tactic(auto, unfolding(crate::specs::Reading::end_at))]
pub fn end_of(bytes: &[u8], at: usize, size: usize) -> Result<usize, EntryFlaw>
    requires { at ≤ length bytes.now }
    ensures exact { end_at bytes.now at size ≡ result }
    ensures room { IfOk result (λ end. (end ≡ at + size) × (end ≤ length bytes.now)) }
{
    if size <= bytes.len() - at {
        Ok(at + size)
    } else {
        Err(EntryFlaw::Short { at })
    }
}
