ghost use Rattle.std.specs.Prelude.{if◌then◌else◌};
ghost use Rattle.std.specs.Int.{w8};
ghost use Rattle.dl_fields.specs.Fields.{number_from};

use dl_fields::code::{Code, read_code};
use dl_fields::fault::Fault;
use dl_fields::items::{ItemReader, read_items};
use dl_fields::number::{read_u8, read_u16, read_u32, read_u64};
use dl_fields::path::{is_stem, part_flaw, path_flaw, read_name, read_path, read_stem};
use dl_fields::run::{read_run, read_run_u16, read_run_u32};
use dl_fields::stop::Stop;
use dl_fields::write::{put_run_u16, put_run_u32};
use dl_types::memory::NoMemory;
use std::alloc::Global;
use std::test::Fail;

#[derive(Clone, Copy, Debug, PartialEq, Eq)]
struct Colour(bool);

const RED: Colour = Colour(false);

const BLUE: Colour = Colour(true);

impl Code for Colour {
    ghost code = { λ a. if a.0 then 7 else 1 };

    fn code(self) -> u8 {
        if self.0 { 7 } else { 1 }
    }
}

/// A list of bytes.
struct ByteReader;

impl ItemReader for ByteReader {
    type Item = u8;

    ghost from = { λ _. number_from w8 };

    fn read_item<'a>(&self, _alloc: Global, bytes: &'a [u8]) -> Result<(u8, &'a [u8]), Stop> {
        Ok(read_u8(bytes)?)
    }
}

/// The field of a path of a slash and so many letters.
fn path_field(alloc: Global, letters: u8) -> Result<Vec<u8>, NoMemory> {
    let mut field = Vec::new(alloc);
    field.extend_from_slice(&[0, letters.wrapping_add(1), b'/'])?;
    for _ in 0..letters {
        field.push(b'a')?;
    }
    Ok(field)
}

#[test]
fn reads_numbers_and_runs(rt: HostRuntime) -> Result<(), Fail> {
    let bytes = [0u8, 0, 0, 2, 5, 6, 7, 8].as_slice();
    assert_eq!(rt; read_u8(bytes), Ok((0, &bytes[1..])));
    assert_eq!(rt; read_u16(&bytes[2..]), Ok((2, &bytes[4..])));
    assert_eq!(rt; read_u32(bytes), Ok((2, &bytes[4..])));
    assert_eq!(rt; read_u64(bytes), Ok((8_674_215_688, &bytes[8..])));
    assert_eq!(rt; read_u64(&bytes[1..]), Err(Fault::Short(7)));
    assert_eq!(rt; read_run(3, bytes), Ok((&bytes[..3], &bytes[3..])));
    assert_eq!(rt; read_run_u16(&bytes[2..]), Ok((&bytes[4..6], &bytes[6..])));
    assert_eq!(rt; read_run_u32(bytes), Ok((&bytes[4..6], &bytes[6..])));
    assert_eq!(rt; read_run_u32(&bytes[..5]), Err(Fault::Short(1)));
    Ok(())
}

#[test]
fn finds_the_flaw_of_a_path(rt: HostRuntime) -> Result<(), Fail> {
    assert_eq!(rt; path_flaw(b"/"), None);
    assert_eq!(rt; path_flaw(b"/a-Z_9/b"), None);
    assert_eq!(rt; path_flaw(b"a"), Some(1));
    assert_eq!(rt; path_flaw(b"/a/"), Some(1));
    assert_eq!(rt; path_flaw(b"/a//b"), Some(2));
    assert_eq!(rt; path_flaw(b"/a.b"), Some(2));
    assert_eq!(rt; part_flaw(b"m-0"), None);
    assert_eq!(rt; part_flaw(b"m/0"), Some(2));
    assert_eq!(rt; read_path(b"\x00\x00"), Err(Fault::Bad(2)));
    assert_eq!(rt; read_path(b"\x00\x03/a/b"), Err(Fault::Bad(2)));
    assert_eq!(rt; read_name(b"\x00\x01ab").is_ok(), true);
    assert_eq!(rt; read_name(b"\x00\x01/"), Err(Fault::Bad(1)));
    Ok(())
}

#[test]
fn counts_the_bytes_of_a_part(rt: HostRuntime) -> Result<(), Fail> {
    let alloc = rt.alloc();
    assert_eq!(rt; read_path(&path_field(alloc, 80)?).is_ok(), true);
    assert_eq!(rt; read_path(&path_field(alloc, 81)?), Err(Fault::Bad(1)));
    assert_eq!(rt; read_stem(&path_field(alloc, 70)?).is_ok(), true);
    assert_eq!(rt; read_stem(&path_field(alloc, 71)?), Err(Fault::Bad(74)));
    assert_eq!(rt; is_stem(b"/a/b"), true);
    Ok(())
}

#[test]
fn reads_codes_and_items_and_writes_runs(rt: HostRuntime) -> Result<(), Fail> {
    let alloc = rt.alloc();
    let (items, rest) = read_items(alloc, &ByteReader, 2, &[7, 8, 9])?;
    assert_eq!(rt;
        (items.as_slice(), rest),
        ([7, 8].as_slice(), [9].as_slice())
    );
    let missing = read_items(alloc, &ByteReader, 2, &[7]).err();
    assert_eq!(rt; missing, Some(Stop::Fault(Fault::Short(0))));
    let colours = [RED, BLUE];
    let bytes = [7u8, 2].as_slice();
    assert_eq!(rt; read_code(&colours, bytes), Ok((BLUE, &bytes[1..])));
    assert_eq!(rt; read_code(&colours, &bytes[1..]), Err(Fault::Bad(1)));
    let mut out = Vec::new(alloc);
    put_run_u16(alloc, &mut out, b"hi")?;
    put_run_u32(alloc, &mut out, b"!")?;
    assert_eq!(rt; out.as_slice(), [0, 2, 104, 105, 0, 0, 0, 1, 33].as_slice());
    Ok(())
}
