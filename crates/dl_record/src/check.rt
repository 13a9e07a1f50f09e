ghost use Rattle.std.specs.Prelude.{◌≡◌, ◌+◌, ◌≤◌, ◌==◌, ◌↔◌, ℕ, List, None, IfOk, IsOk, IfErr, length};
ghost use Rattle.dl_record.specs.Grammar.{IsEntryBytes};
ghost use Rattle.dl_record.specs.Reading.{members_at, records_at, entry_at, verdict};
ghost use Rattle.dl_record.specs.Reading.{set_rows_at, content_rows_at, behind_at, IsFlaw};

use crate::entry_flaw::EntryFlaw;
use crate::head::{head_of, header_of};
use crate::kind::{Behind, Head, Kind};
use crate::limits::ENTRY_MAX;
use crate::sets::{member_end_of, set_count_of};

/// Whether so many members stand up to the end of the bytes.
fn check_members(count: u16, bytes: &[u8], start: usize) -> Result<(), EntryFlaw>
    ensures { verdict (members_at count bytes.now start) ≡ result }
{
    let mut at = start;
    for _ in 0..count {
        let end = member_end_of(bytes, at)?;
        at = end;
    }
    if at == bytes.len() {
        Ok(())
    } else {
        Err(EntryFlaw::Long { at })
    }
}

/// How many members the record set has that stands from a place on to the end of the bytes.
fn check_set(bytes: &[u8], at: usize) -> Result<u16, EntryFlaw>
    ensures { set_rows_at bytes.now at ≡ result }
{
    let count = set_count_of(bytes, at)?;
    check_members(count, bytes, at + 4)?;
    Ok(count)
}

/// How many rows the stored record of these fields holds, whose payload begins at a place.
fn check_content(head: &Head, bytes: &[u8], at: usize) -> Result<u16, EntryFlaw>
    requires start { at ≤ head.now.end }
    requires end { head.now.end ≤ length bytes.now }
    ensures { content_rows_at head.now bytes.now at ≡ result }
{
    match head.kind {
        Kind::Plain => Ok(1),
        Kind::Control => Ok(0),
        Kind::Set => check_set(&bytes[..head.end], at),
    }
}

/// What the stored record at a place asks of the one behind it, and where it ends.
fn check_record(
    alone: bool,
    before: Option<Behind>,
    bytes: &[u8],
    at: usize,
) -> Result<(Behind, usize), EntryFlaw>
    requires { at ≤ length bytes.now }
    ensures exact { behind_at alone before bytes.now at ≡ result }
    ensures room { IfOk result (λ x. x.1 ≤ length bytes.now) }
{
    let head = head_of(alone, before, bytes, at)?;
    let rows = check_content(&head, bytes, at + 20)?;
    let position = u64::from(head.position) + u64::from(rows);
    let txid = head.txid.number();
    Ok((Behind { position, txid }, head.end))
}

/// Whether so many stored records stand behind the header, up to the end of the bytes.
fn check_records(count: u16, bytes: &[u8]) -> Result<(), EntryFlaw>
    requires { 8 ≤ length bytes.now }
    ensures { verdict (records_at count (count == 1) None bytes.now 8) ≡ result }
{
    let mut before = None;
    let mut at = 8;
    for _ in 0..count {
        let (last, end) = check_record(count == 1, before, bytes, at)?;
        before = Some(last);
        at = end;
    }
    if at == bytes.len() {
        Ok(())
    } else {
        Err(EntryFlaw::Long { at })
    }
}

/// Whether there is an entry in the bytes, by the reading of `decode_entry`.
#[tactic(auto, unfolding(crate::specs::Reading::entry_at))]
fn check_bytes(bytes: &[u8]) -> Result<(), EntryFlaw>
    ensures { verdict (entry_at bytes.now) ≡ result }
{
    if bytes.len() > ENTRY_MAX {
        return Err(EntryFlaw::TooLong { at: 0 });
    }
    let count = header_of(bytes)?;
    check_records(count, bytes)
}

/// Whether the bytes are an entry, without taking memory. The flaw is the first one in the order of the bytes, at the
/// first byte of its field: that which `decode_entry` names.
pub fn check_entry(bytes: &[u8]) -> Result<(), EntryFlaw>
    ensures valid { IsOk result ↔ IsEntryBytes bytes.now }
    ensures flaw { IfErr result (IsFlaw bytes.now) }
{
    check_bytes(bytes)
}
