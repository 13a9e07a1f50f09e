ghost use Rattle.std.specs.Prelude.{◌≡◌, ◌+◌, ◌≤◌, length, IfOk, List, ℕ};
ghost use Rattle.dl_record.specs.Reading.{zero_at, members_count_at, set_count_at, member_end_at};

use crate::entry_flaw::EntryFlaw;
use crate::fields::{end_of, u8_at, u16_at, u32_at};
use crate::head::codec_of;
use crate::limits::MEMBERS_MAX;

/// The zero at a place, behind the codec of a record set.
#[tactic(auto, unfolding(crate::specs::Reading::zero_at))]
fn zero_of(bytes: &[u8], at: usize) -> Result<u8, EntryFlaw>
    ensures exact { zero_at bytes.now at ≡ result }
    ensures room { IfOk result (λ n. at + 1 ≤ length bytes.now) }
{
    let zero = u8_at(bytes, at)?;
    if zero == 0 {
        Ok(zero)
    } else {
        Err(EntryFlaw::BadFlags { at })
    }
}

/// How many members a record set has, by the count at a place.
#[tactic(auto, unfolding(crate::specs::Reading::members_count_at))]
pub fn members_count_of(bytes: &[u8], at: usize) -> Result<u16, EntryFlaw>
    ensures exact { members_count_at bytes.now at ≡ result }
    ensures some { IfOk result (λ n. 1 ≤ n) }
    ensures room { IfOk result (λ n. at + 2 ≤ length bytes.now) }
{
    let count = u16_at(bytes, at)?;
    if 1 <= count && count <= MEMBERS_MAX {
        Ok(count)
    } else {
        Err(EntryFlaw::BadCount { at })
    }
}

/// How many members the record set has that begins at a place.
#[tactic(auto, unfolding(crate::specs::Reading::set_count_at))]
pub fn set_count_of(bytes: &[u8], at: usize) -> Result<u16, EntryFlaw>
    ensures exact { set_count_at bytes.now at ≡ result }
    ensures room { IfOk result (λ n. at + 4 ≤ length bytes.now) }
{
    let _codec = codec_of(bytes, at)?;
    let _zero = zero_of(bytes, at + 1)?;
    let count = members_count_of(bytes, at + 2)?;
    Ok(count)
}

/// Where the member at a place ends.
#[tactic(auto, unfolding(crate::specs::Reading::member_end_at))]
pub fn member_end_of(bytes: &[u8], at: usize) -> Result<usize, EntryFlaw>
    ensures exact { member_end_at bytes.now at ≡ result }
    ensures room { IfOk result (λ end. (at + 4 ≤ end) × (end ≤ length bytes.now)) }
{
    let size = u32_at(bytes, at)?;
    end_of(bytes, at + 4, size as usize)
}
