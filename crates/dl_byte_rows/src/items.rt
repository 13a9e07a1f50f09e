// What no clause says: worked rows, and that the calls succeed.
mod rows;

use dl_items::body::check_batch;
use dl_items::put::put_item;
use dl_items::read::read_item;
use rows::{BODY, cut_off, highest_turned, lowest_turned};
use std::alloc::Global;
use std::test::Fail;

/// The place of the first fault where the gate stands at 1,000, or `ok`.
fn outcome(alloc: Global, body: &[u8]) -> Result<String, Fail> {
    let mut out = String::new(alloc);
    match check_batch(1_000, body) {
        Ok(()) => out.push_str("ok")?,
        Err(at) => write!(out, "{at}")?,
    }
    Ok(out)
}

#[test]
fn each_spoilt_byte_is_found(rt: HostRuntime) -> Result<(), Fail> {
    let alloc = rt.alloc();
    for (bit, rows) in [(1, lowest_turned()), (128, highest_turned())] {
        let mut place = 0usize;
        for want in rows.split_whitespace() {
            let mut body = BODY.to_vec(alloc)?;
            if let Some(byte) = body.get_mut(place) {
                *byte ^= bit;
            }
            assert_eq!(rt; outcome(alloc, &body)?.as_str(), want, "byte {place}");
            place = place.saturating_add(1);
        }
        assert_eq!(rt; place, BODY.len());
    }
    Ok(())
}

#[test]
fn each_cut_is_found(rt: HostRuntime) -> Result<(), Fail> {
    let alloc = rt.alloc();
    let mut length = 0usize;
    for want in cut_off().split_whitespace() {
        let body = BODY.get(..length).unwrap_or(&[]);
        assert_eq!(rt; outcome(alloc, body)?.as_str(), want, "{length} bytes");
        length = length.saturating_add(1);
    }
    assert_eq!(rt; length, BODY.len());
    assert_eq!(rt; outcome(alloc, &BODY)?.as_str(), "ok");
    Ok(())
}

#[test]
fn items_are_written_as_they_are_read(rt: HostRuntime) -> Result<(), Fail> {
    let alloc = rt.alloc();
    let mut count = 0u32;
    let mut rest = BODY.as_slice();
    for _ in 0..10 {
        let Ok((item, more)) = read_item(rest) else {
            break;
        };
        let mut frame = Vec::with_capacity(alloc, item.head.size(item.entry))?;
        put_item(&mut frame, item.head, item.entry);
        assert!(rt; rest.starts_with(&frame));
        assert_eq!(rt; rest.len().saturating_sub(more.len()), frame.len());
        count = count.saturating_add(1);
        rest = more;
    }
    assert_eq!(rt; count, 10);
    assert!(rt; rest.is_empty());
    Ok(())
}
