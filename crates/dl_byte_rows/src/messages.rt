mod rows;

use dl_msg::decode::decode;
use dl_msg::encode::encode;
use dl_msg::size::size;
use rows::rows;
use std::alloc::Global;
use std::test::Fail;

/// The number of a digit in hex.
fn digit(byte: u8) -> u8 {
    if byte < b'a' {
        byte.wrapping_sub(b'0')
    } else {
        byte.wrapping_sub(b'a' - 10)
    }
}

/// The bytes of a text in hex.
fn bytes_of(alloc: Global, hex: &str) -> Result<Vec<u8>, Fail> {
    let mut bytes = Vec::new(alloc);
    for pair in hex.as_bytes().chunks(2) {
        if let [high, low] = pair {
            bytes.push(digit(*high).wrapping_mul(16).wrapping_add(digit(*low)))?;
        }
    }
    Ok(bytes)
}

/// What is found in the bytes: a message that is written as them and has their size, or a fault and its place.
fn found(alloc: Global, bytes: &[u8]) -> Result<String, Fail> {
    let mut out = String::new(alloc);
    match decode(alloc, bytes) {
        Ok(msg) => {
            let again = encode(alloc, &msg)?;
            if again.as_slice() == bytes && size(&msg) == bytes.len() as u64 {
                out.push_str("message")?;
            }
        }
        Err(fault) => write!(out, "{fault}")?,
    }
    Ok(out)
}

#[test]
fn each_row_is_found(rt: HostRuntime) -> Result<(), Fail> {
    let alloc = rt.alloc();
    let mut count = 0u32;
    for row in rows().lines() {
        let Some((hex, want)) = row.split_once(" => ") else {
            continue;
        };
        let bytes = bytes_of(alloc, hex)?;
        assert_eq!(rt; found(alloc, &bytes)?.as_str(), want, "at {hex}");
        count = count.saturating_add(1);
    }
    assert_eq!(rt; count, 58);
    Ok(())
}
