mod spoilt;

use dl_record::builder::EntryBuilder;
use dl_record::check::check_entry;
use dl_record::decode::decode_entry;
use dl_record::encode::{control, encode_entry, set_size};
use dl_record::entry_fault::EntryFault;
use dl_record::shared_row::shared_rows;
use dl_record::stored::Stored;
use dl_record::walk::RowWalk;
use dl_types::entry_bytes::EntryBytes;
use dl_types::payload::Payload;
use dl_types::txid::TxId;
use spoilt::{ENTRY, added, changed, cut_off, cut_short};
use std::alloc::Global;
use std::test::Fail;

/// One record at position 0 with the id 5 and the payload `hi`.
const FIRST: [u8; 30] = [
    1, 0, 0, 1, 0, 0, 0, 0x16, 0, 0, 0, 0, 0, 0, 0, 0, 0, 0, 0, 0, 0, 0, 0, 5, 0, 0, 0, 2, 0x68,
    0x69,
];

/// The control record behind it.
const CONTROL: [u8; 28] = [
    1, 0, 0, 1, 0, 0, 0, 0x14, 0, 0, 0, 1, 0, 0, 0, 1, 0, 0, 0, 0, 0, 0, 0, 5, 0, 0, 0, 0,
];

/// A letter for the fault that is found and its place, or `O0` for none.
fn outcome(alloc: Global, bytes: &[u8]) -> Result<String, Fail> {
    let (letter, at) = match decode_entry(alloc, bytes) {
        Ok(_) => ('O', 0),
        Err(EntryFault::NoMemory) => ('M', 0),
        Err(EntryFault::BadFlags { at }) => ('F', at),
        Err(EntryFault::Compressed { at }) => ('C', at),
        Err(EntryFault::Short { at }) => ('S', at),
        Err(EntryFault::TooLong { at }) => ('T', at),
        Err(EntryFault::BadCount { at }) => ('B', at),
        Err(EntryFault::TxidBack { at }) => ('X', at),
        Err(EntryFault::Long { at }) => ('L', at),
    };
    let mut out = String::new(alloc);
    write!(out, "{letter}{at}")?;
    Ok(out)
}

#[test]
fn reads_and_writes_the_first_entry(rt: HostRuntime) -> Result<(), Fail> {
    let alloc = rt.alloc();
    assert!(rt; check_entry(&FIRST).is_ok());
    let records = decode_entry(alloc, &FIRST)?;
    match records.as_slice() {
        [
            Stored::Plain {
                position,
                txid,
                payload,
            },
        ] => {
            assert_eq!(rt; *position, 0);
            assert_eq!(rt; txid.number(), 5);
            assert_eq!(rt; payload.as_slice(), b"hi".as_slice());
        }
        _ => assert!(rt; false),
    }
    assert_eq!(rt;
        encode_entry(alloc, records.as_slice())?.as_slice(),
        FIRST.as_slice()
    );
    assert_eq!(rt;
        control(alloc, 1, TxId::new(5))?.as_slice(),
        CONTROL.as_slice()
    );
    Ok(())
}

#[test]
fn finds_the_first_fault(rt: HostRuntime) -> Result<(), Fail> {
    let alloc = rt.alloc();
    let mut bytes = FIRST.to_vec(alloc)?;
    bytes[1] = 1;
    assert_eq!(rt; outcome(alloc, &bytes)?.as_str(), "C1");
    assert_eq!(rt; outcome(alloc, &FIRST[..29])?.as_str(), "S4");
    let mut bytes = FIRST.to_vec(alloc)?;
    bytes.push(0)?;
    assert_eq!(rt; outcome(alloc, &bytes)?.as_str(), "L30");
    let mut bytes = FIRST.to_vec(alloc)?;
    bytes[15] = 2;
    assert_eq!(rt; outcome(alloc, &bytes)?.as_str(), "F12");
    Ok(())
}

/// The first bytes of the entry, with this many said to follow the header, and more behind them.
fn cut(alloc: Global, len: usize, size: u8, more: &[u8]) -> Result<Vec<u8>, Fail> {
    let mut bytes = Vec::new(alloc);
    for byte in ENTRY.iter().take(len) {
        bytes.push(*byte)?;
    }
    bytes.extend_from_slice(more)?;
    if let Some(byte) = bytes.get_mut(7) {
        *byte = size;
    }
    Ok(bytes)
}

#[test]
fn finds_what_is_spoilt(rt: HostRuntime) -> Result<(), Fail> {
    let alloc = rt.alloc();
    let mut place = 0usize;
    for want in changed().split_whitespace() {
        let mut bytes = ENTRY.to_vec(alloc)?;
        if let Some(byte) = bytes.get_mut(place) {
            *byte ^= 1;
        }
        assert_eq!(rt; outcome(alloc, &bytes)?.as_str(), want, "byte {place}");
        place = place.saturating_add(1);
    }
    assert_eq!(rt; place, 86);
    Ok(())
}

#[test]
fn finds_what_is_cut_off(rt: HostRuntime) -> Result<(), Fail> {
    let alloc = rt.alloc();
    let mut len = 0usize;
    for want in cut_off().split_whitespace() {
        let bytes = cut(alloc, len, 78, b"")?;
        assert_eq!(rt; outcome(alloc, &bytes)?.as_str(), want, "cut at {len}");
        len = len.saturating_add(1);
    }
    assert_eq!(rt; len, 86);
    let mut size = 0u8;
    for want in cut_short().split_whitespace() {
        let bytes = cut(alloc, usize::from(size).saturating_add(8), size, b"")?;
        assert_eq!(rt; outcome(alloc, &bytes)?.as_str(), want, "cut at 8 + {size}");
        size = size.saturating_add(1);
    }
    for want in added().split_whitespace() {
        let bytes = cut(alloc, 86, size, b"\0")?;
        assert_eq!(rt; outcome(alloc, &bytes)?.as_str(), want, "added with {size}");
        size = size.saturating_add(1);
    }
    assert_eq!(rt; size, 80);
    Ok(())
}

#[test]
fn builds_and_walks(rt: HostRuntime) -> Result<(), Fail> {
    let alloc = rt.alloc();
    let mut payloads = Vec::new(alloc);
    payloads.push(Payload::new(alloc, b"c")?)?;
    payloads.push(Payload::new(alloc, b"de")?)?;
    let mut builder = EntryBuilder::new(alloc)?;
    assert!(rt; builder.fits(2));
    builder.push(7, TxId::new(5), b"hi")?;
    let size = set_size(&payloads).ok_or("too long")?;
    assert_eq!(rt; size, 15);
    assert!(rt; builder.fits(size));
    builder.set(8, TxId::new(5), &payloads)?;
    assert!(rt; builder.fits(1));
    builder.push(10, TxId::new(6), b"x")?;
    assert_eq!(rt; builder.rows(), 4);
    let copy = builder.entry()?;
    let entry = builder.finish()?;
    assert_eq!(rt; entry.as_slice(), ENTRY.as_slice());
    assert_eq!(rt; copy.into_bytes().as_slice(), ENTRY.as_slice());
    builder.clear();
    assert_eq!(rt; builder.rows(), 0);
    Ok(())
}

#[test]
fn walks_over_the_rows(rt: HostRuntime) -> Result<(), Fail> {
    let _records = decode_entry(rt.alloc(), &ENTRY)?;
    let mut text = Vec::new(rt.alloc());
    for row in RowWalk::new(&ENTRY) {
        text.push(u64::from(row.slot))?;
        text.push(row.txid.number())?;
        for byte in row.payload {
            text.push(u64::from(*byte))?;
        }
    }
    assert_eq!(rt;
        text.as_slice(),
        [0, 5, 104, 105, 1, 5, 99, 2, 5, 100, 101, 3, 6, 120].as_slice()
    );
    assert_eq!(rt; RowWalk::new(&ENTRY).count(), 4);
    let entry = EntryBytes::new(rt.alloc(), &ENTRY)?;
    match shared_rows(rt.alloc(), &entry)?.as_slice() {
        [_, _, third, _] => assert_eq!(rt; third.payload.as_slice(), [100, 101].as_slice()),
        _ => assert!(rt; false),
    }
    Ok(())
}
