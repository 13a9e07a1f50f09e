ghost use Rattle.std.specs.Prelude.{◌≡◌, ◌+◌, ◌≤◌, length, IfOk, List, ℕ};
ghost use Rattle.dl_record.specs.Reading.{version_at, codec_at, count_at, size_at, header_at, position_at};
ghost use Rattle.dl_record.specs.Reading.{kind_at, txid_at, length_at, head_at, may_stand, may_bear, may_hold};

use crate::entry_flaw::EntryFlaw;
use crate::fields::{end_of, u8_at, u16_at, u32_at, u64_at};
use crate::kind::{Behind, Head, Kind};
use crate::limits::{ENTRY_MAX, PAYLOAD_MAX};
use dl_types::txid::{MAX_TXID, TxId};

/// The version at a place, which is 1.
#[tactic(auto, unfolding(crate::specs::Reading::version_at))]
fn version_of(bytes: &[u8], at: usize) -> Result<u8, EntryFlaw>
    ensures exact { version_at bytes.now at ≡ result }
{
    let version = u8_at(bytes, at)?;
    if version == 1 {
        Ok(version)
    } else {
        Err(EntryFlaw::BadFlags { at })
    }
}

/// The codec at a place, which is 0: nothing here is compressed.
#[tactic(auto, unfolding(crate::specs::Reading::codec_at))]
pub fn codec_of(bytes: &[u8], at: usize) -> Result<u8, EntryFlaw>
    ensures exact { codec_at bytes.now at ≡ result }
    ensures room { IfOk result (λ n. at + 1 ≤ length bytes.now) }
{
    let codec = u8_at(bytes, at)?;
    if codec == 0 {
        Ok(codec)
    } else {
        Err(EntryFlaw::Compressed { at })
    }
}

/// The number of stored records that stands at a place, which is not 0.
#[tactic(auto, unfolding(crate::specs::Reading::count_at))]
fn count_of(bytes: &[u8], at: usize) -> Result<u16, EntryFlaw>
    ensures exact { count_at bytes.now at ≡ result }
{
    let count = u16_at(bytes, at)?;
    if count == 0 {
        Err(EntryFlaw::BadCount { at })
    } else {
        Ok(count)
    }
}

/// The length that stands at a place, which is that of the bytes that follow.
#[tactic(auto, unfolding(crate::specs::Reading::size_at))]
fn size_of(bytes: &[u8], at: usize) -> Result<u32, EntryFlaw>
    requires { length bytes.now ≤ ENTRY_MAX }
    ensures exact { size_at bytes.now at ≡ result }
    ensures room { IfOk result (λ n. at + 4 ≤ length bytes.now) }
{
    let size = u32_at(bytes, at)?;
    let end = at + 4 + size as usize;
    if bytes.len() < end {
        Err(EntryFlaw::Short { at })
    } else if bytes.len() <= end {
        Ok(size)
    } else {
        Err(EntryFlaw::Long { at: end })
    }
}

/// How many stored records the header of an entry counts.
#[tactic(auto, unfolding(crate::specs::Reading::header_at))]
pub fn header_of(bytes: &[u8]) -> Result<u16, EntryFlaw>
    requires { length bytes.now ≤ ENTRY_MAX }
    ensures exact { header_at bytes.now ≡ result }
    ensures room { IfOk result (λ n. 8 ≤ length bytes.now) }
{
    let _version = version_of(bytes, 0)?;
    let _codec = codec_of(bytes, 1)?;
    let count = count_of(bytes, 2)?;
    let _size = size_of(bytes, 4)?;
    Ok(count)
}

/// Whether a record may have this position behind that one.
fn may_stand(before: Option<Behind>, position: u32) -> bool
    ensures { result ≡ may_stand before position }
{
    match before {
        None => true,
        Some(before) => u64::from(position) == before.position,
    }
}

/// Whether a record may have this transaction id behind that one.
fn may_bear(before: Option<Behind>, txid: u64) -> bool
    ensures { result ≡ may_bear before txid }
{
    match before {
        None => true,
        Some(before) => before.txid <= txid,
    }
}

/// Whether a record of this kind may have a payload of so many bytes.
fn may_hold(kind: Kind, size: u32) -> bool
    ensures { result ≡ may_hold kind size }
{
    match kind {
        Kind::Plain => true,
        Kind::Set => true,
        Kind::Control => size == 0,
    }
}

/// The position at a place.
#[tactic(auto, unfolding(crate::specs::Reading::position_at))]
fn position_of(before: Option<Behind>, bytes: &[u8], at: usize) -> Result<u32, EntryFlaw>
    ensures exact { position_at before bytes.now at ≡ result }
    ensures room { IfOk result (λ n. at + 4 ≤ length bytes.now) }
{
    let position = u32_at(bytes, at)?;
    if may_stand(before, position) {
        Ok(position)
    } else {
        Err(EntryFlaw::BadCount { at })
    }
}

/// The kind that the flags at a place name.
#[tactic(auto, unfolding(crate::specs::Reading::kind_at))]
fn kind_of(alone: bool, bytes: &[u8], at: usize) -> Result<Kind, EntryFlaw>
    ensures exact { kind_at alone bytes.now at ≡ result }
    ensures room { IfOk result (λ n. at + 4 ≤ length bytes.now) }
{
    let flags = u32_at(bytes, at)?;
    if flags == 0 {
        Ok(Kind::Plain)
    } else if flags == 4 {
        Ok(Kind::Set)
    } else if flags == 1 && alone {
        Ok(Kind::Control)
    } else {
        Err(EntryFlaw::BadFlags { at })
    }
}

/// The transaction id at a place.
#[tactic(auto, unfolding(crate::specs::Reading::txid_at))]
fn txid_of(before: Option<Behind>, bytes: &[u8], at: usize) -> Result<TxId, EntryFlaw>
    ensures exact { txid_at before bytes.now at ≡ result }
    ensures room { IfOk result (λ n. at + 8 ≤ length bytes.now) }
{
    let txid = u64_at(bytes, at)?;
    if txid > MAX_TXID {
        Err(EntryFlaw::BadFlags { at })
    } else if may_bear(before, txid) {
        Ok(TxId::new(txid))
    } else {
        Err(EntryFlaw::TxidBack { at })
    }
}

/// The length of a payload at a place.
#[tactic(auto, unfolding(crate::specs::Reading::length_at))]
fn length_of(kind: Kind, bytes: &[u8], at: usize) -> Result<u32, EntryFlaw>
    ensures exact { length_at kind bytes.now at ≡ result }
    ensures room { IfOk result (λ n. at + 4 ≤ length bytes.now) }
{
    let size = u32_at(bytes, at)?;
    if size > PAYLOAD_MAX {
        Err(EntryFlaw::TooLong { at })
    } else if may_hold(kind, size) {
        Ok(size)
    } else {
        Err(EntryFlaw::BadCount { at })
    }
}

/// The fields of the stored record at a place, behind the record before it.
#[tactic(auto, unfolding(crate::specs::Reading::head_at))]
pub fn head_of(
    alone: bool,
    before: Option<Behind>,
    bytes: &[u8],
    at: usize,
) -> Result<Head, EntryFlaw>
    requires { at ≤ length bytes.now }
    ensures exact { head_at alone before bytes.now at ≡ result }
    ensures room { IfOk result (λ head. (at + 20 ≤ head.end) × (head.end ≤ length bytes.now)) }
{
    let position = position_of(before, bytes, at)?;
    let kind = kind_of(alone, bytes, at + 4)?;
    let txid = txid_of(before, bytes, at + 8)?;
    let size = length_of(kind, bytes, at + 16)?;
    let end = end_of(bytes, at + 20, size as usize)?;
    Ok(Head {
        position,
        kind,
        txid,
        end,
    })
}
