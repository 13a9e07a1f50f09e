ghost use Rattle.std.specs.Prelude.{◌≡◌, ◌≤◌, ◌<◌, ◌+◌, length, IfOk, IfSome, None};
ghost use Rattle.dl_fields.specs.Readers.{Reads};
ghost use Rattle.dl_fields.specs.Codes.{code_from};
ghost use Rattle.dl_rules_nodes.specs.Items.{item_code, item_kinds};
ghost use Rattle.dl_rules_nodes.specs.Reading.{place_in, entry_flaw, entry_from, item_rest_from, item_from};
ghost use Rattle.dl_items.specs.Heads.{item_of};
ghost use Rattle.dl_items.specs.Reading.{ruled_kind, fields_and_entry, IsFront};

use crate::head::Head;
use crate::kind::{ADD, COPY, FENCE, Kind};
use dl_fields::fault::Fault;
use dl_fields::number::{read_u8, read_u64};
use dl_fields::run::read_run_u32;
use dl_record::check::check_entry;
use dl_record::entry_flaw::EntryFlaw;
use dl_record::limits::ENTRY_MAX;

/// An item as it stands in some bytes: what it has beside its entry's bytes, and those; a fence has none.
#[derive(Clone, Copy, Debug)]
pub struct ItemRead<'a> {
    /// Its kind and its numbers.
    pub head: Head,
    /// The bytes of its entry.
    pub entry: &'a [u8],
}

/// The place of a flaw, counted from the entry's first byte.
fn place_of(flaw: EntryFlaw) -> usize
    ensures { result ≡ place_in flaw }
{
    match flaw {
        EntryFlaw::BadFlags { at } => at,
        EntryFlaw::Compressed { at } => at,
        EntryFlaw::Short { at } => at,
        EntryFlaw::TooLong { at } => at,
        EntryFlaw::BadCount { at } => at,
        EntryFlaw::TxidBack { at } => at,
        EntryFlaw::Long { at } => at,
    }
}

/// How many bytes of an entry are left at its first flaw, where it has one.
fn entry_flaw(entry: &[u8]) -> Option<usize>
    ensures exact { result ≡ entry_flaw entry.now }
    ensures within { IfSome result (λ back. back ≤ length entry.now) }
    ensures short { result ≡ None → length entry.now ≤ ENTRY_MAX }
{
    match check_entry(entry) {
        Ok(()) => None,
        Err(flaw) => Some(entry.len().saturating_sub(place_of(flaw))),
    }
}

/// The kind at the front, and the bytes behind it.
fn read_kind(bytes: &[u8]) -> Result<(Kind, &[u8]), Fault>
    ensures { Reads (λ x. (ruled_kind x.0, x.1.now)) result
        (code_from item_code item_kinds bytes.now) }
{
    let (code, rest) = read_u8(bytes)?;
    match code {
        ADD => Ok((Kind::Add, rest)),
        COPY => Ok((Kind::Copy, rest)),
        FENCE => Ok((Kind::Fence, rest)),
        _ => Err(Fault::Bad(bytes.len())),
    }
}

/// The bytes of an entry behind their length, and the bytes behind them. A flaw of the entry is bad at its place.
fn read_entry(bytes: &[u8]) -> Result<(&[u8], &[u8]), Fault>
    ensures exact { Reads (λ x. (x.0.now, x.1.now)) result (entry_from bytes.now) }
    ensures short { IfOk result (λ x. length x.0.now ≤ ENTRY_MAX) }
{
    let (entry, rest) = read_run_u32(bytes)?;
    match entry_flaw(entry) {
        None => Ok((entry, rest)),
        Some(back) => Err(Fault::Bad(rest.len() + back)),
    }
}

/// The ledger, the entry's number, the confirmed count and the entry's bytes of an item that has an entry.
fn read_fields(bytes: &[u8]) -> Result<((u64, u64, u64, &[u8]), &[u8]), Fault>
    ensures exact { Reads (λ x. ((x.0.0, (x.0.1, (x.0.2, x.0.3.now))), x.1.now)) result
        (fields_and_entry bytes.now) }
    ensures short { IfOk result (λ x. length x.0.3.now ≤ ENTRY_MAX) }
{
    let (ledger, rest) = read_u64(bytes)?;
    let (entry, rest) = read_u64(rest)?;
    let (count, rest) = read_u64(rest)?;
    let (run, rest) = read_entry(rest)?;
    Ok(((ledger, entry, count, run), rest))
}

/// The item of a kind behind it.
fn read_rest(kind: Kind, bytes: &[u8]) -> Result<(ItemRead<'_>, &[u8]), Fault>
    ensures exact { Reads (λ x. (item_of x.0.head x.0.entry.now, x.1.now)) result
        (item_rest_from (ruled_kind kind) bytes.now) }
    ensures short { IfOk result (λ x. length x.0.entry.now ≤ ENTRY_MAX) }
{
    match kind {
        Kind::Add => {
            let ((ledger, entry, count, run), rest) = read_fields(bytes)?;
            let head = Head::Add {
                ledger,
                entry,
                count,
            };
            Ok((ItemRead { head, entry: run }, rest))
        }
        Kind::Copy => {
            let ((ledger, entry, count, run), rest) = read_fields(bytes)?;
            let head = Head::Copy {
                ledger,
                entry,
                count,
            };
            Ok((ItemRead { head, entry: run }, rest))
        }
        Kind::Fence => {
            let (ledger, rest) = read_u64(bytes)?;
            let head = Head::Fence { ledger };
            Ok((ItemRead { head, entry: &[] }, rest))
        }
    }
}

/// The item at the front.
fn read_kinded(bytes: &[u8]) -> Result<(ItemRead<'_>, &[u8]), Fault>
    ensures exact { Reads (λ x. (item_of x.0.head x.0.entry.now, x.1.now)) result
        (item_from bytes.now) }
    ensures short { IfOk result (λ x. length x.0.entry.now ≤ ENTRY_MAX) }
{
    let (kind, rest) = read_kind(bytes)?;
    read_rest(kind, rest)
}

/// The item at the front of the bytes, and the bytes behind it, without taking memory. A fault is the first in the order of the
/// bytes, told by how many bytes are left at it; a flaw of an entry is bad at the place where the entry has it.
pub fn read_item(bytes: &[u8]) -> Result<(ItemRead<'_>, &[u8]), Fault>
    ensures exact { Reads (λ x. (item_of x.0.head x.0.entry.now, x.1.now)) result
        (item_from bytes.now) }
    // What is read is an item, and the bytes are its one spelling and what is behind it.
    ensures found { IfOk result
        (λ x. IsFront (item_of x.0.head x.0.entry.now) x.1.now bytes.now) }
    ensures short { IfOk result (λ x. length x.0.entry.now ≤ ENTRY_MAX) }
{
    let (item, rest) = read_kinded(bytes)?;
    Ok((item, rest))
}
