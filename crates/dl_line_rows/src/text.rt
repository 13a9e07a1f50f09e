ghost use Rattle.std.specs.Prelude.{◌≡◌, if◌then◌else◌, codes};

use dl_text::field::{put_bytes, put_place};
use dl_text::hex::{end_of, hex_of, put_hex};
use dl_text::laws::{
    fields_are_exact, hex_is_exact, lines_end_at_feeds, numbers_are_exact, whole_numbers_are_read,
    words_are_exact,
};
use dl_text::line::first_line;
use dl_text::name::name_of;
use dl_text::number::{number_of, put_number};
use dl_text::payloads::{payloads_of, put_payloads};
use dl_text::place::place_of;
use dl_text::stop::Stop;
use dl_text::word::{Word, word_at};
use dl_types::dlsn::Dlsn;
use dl_types::memory::NoMemory;
use dl_types::payload::Payload;
use std::test::Fail;

/// A word of two.
#[derive(Clone, Copy, Debug, PartialEq, Eq)]
struct Answer(bool);

impl Word for Answer {
    ghost text = { λ a. if a.0 then codes "north " else codes "no " };

    fn text(self) -> &'static [u8] {
        if self.0 { b"north " } else { b"no " }
    }
}

#[test]
fn numbers_stop_where_none_goes_on(rt: HostRuntime) {
    let table: [(&[u8], Result<u64, Stop>); 12] = [
        (b"0 ", Ok(0)),
        (b"1000 7", Ok(1000)),
        (b"", Err(Stop::Left(0))),
        (b"99", Err(Stop::Left(0))),
        (b" ", Err(Stop::Left(1))),
        (b"x1 ", Err(Stop::Left(3))),
        (b"00 ", Err(Stop::Left(2))),
        (b"1001 ", Err(Stop::Left(2))),
        (b"101\n", Err(Stop::Left(1))),
        (b"1\xb2 ", Err(Stop::Left(2))),
        (b"-1 ", Err(Stop::Left(3))),
        (b"10000 ", Err(Stop::Left(2))),
    ];
    for (text, want) in table {
        match number_of(0, 1000, b' ', text) {
            Ok((number, _)) => assert_eq!(rt; Ok(number), want, "{text:?}"),
            Err(stop) => assert_eq!(rt; Err(stop), want, "{text:?}"),
        }
    }
    numbers_are_exact();
    whole_numbers_are_read();
}

#[test]
fn bytes_stop_where_none_go_on(rt: HostRuntime) {
    let table: [(&[u8], Stop); 8] = [
        (b"", Stop::Left(0)),
        (b"-", Stop::Left(0)),
        (b"0f", Stop::Left(0)),
        (b"0f1\n", Stop::Left(1)),
        (b"0F\n", Stop::Left(2)),
        (b"-0f\n", Stop::Left(3)),
        (b"\n", Stop::Left(1)),
        (b"0f-\n", Stop::Left(2)),
    ];
    for (text, want) in table {
        match hex_of(rt.alloc(), b'\n', text) {
            Ok(_) => assert!(rt; false, "{text:?}"),
            Err(stop) => assert_eq!(rt; stop, want, "{text:?}"),
        }
    }
    hex_is_exact();
}

#[test]
fn what_is_put_is_read_again(rt: HostRuntime) -> Result<(), Fail> {
    let alloc = rt.alloc();
    let payload = vec![in alloc; 0xa7u8; 1000]?;
    let mut out = Vec::new(alloc);
    put_number(&mut out, b' ', u64::MAX)?;
    put_hex(&mut out, b' ', &[])?;
    put_hex(&mut out, b'\n', &[0, 0x9f, 0xf0])?;
    assert_eq!(rt;
        out.as_slice(),
        b"18446744073709551615 - 009ff0\n".as_slice()
    );
    put_hex(&mut out, b'\n', &payload)?;
    let (number, rest) = number_of(1, u64::MAX, b' ', &out)?;
    assert_eq!(rt; number, u64::MAX);
    let (none, rest) = hex_of(alloc, b' ', rest)?;
    assert_eq!(rt; none.len(), 0);
    let (three, rest) = hex_of(alloc, b'\n', rest)?;
    assert_eq!(rt; three.as_slice(), [0, 0x9f, 0xf0].as_slice());
    let (many, rest) = hex_of(alloc, b'\n', rest)?;
    assert_eq!(rt; many.as_slice(), payload.as_slice());
    assert_eq!(rt; rest.len(), 0);
    Ok(())
}

#[test]
fn fields_that_are_put_are_read_again(rt: HostRuntime) -> Result<(), Fail> {
    let alloc = rt.alloc();
    let place = Dlsn {
        segment: 1,
        entry: 0,
        slot: u32::MAX,
    };
    let mut payloads = Vec::new(alloc);
    payloads.push(Payload::new(alloc, &[])?)?;
    payloads.push(Payload::new(alloc, &[7, 0xff])?)?;
    let mut out = Vec::new(alloc);
    put_bytes(&mut out, b' ', b"a_1-z")?;
    put_place(&mut out, b' ', place)?;
    put_payloads(&mut out, &payloads)?;
    assert_eq!(rt; out.as_slice(), b"a_1-z 1:0:4294967295 - 07ff\n".as_slice());
    let (name, rest) = name_of(b' ', &out)?;
    assert_eq!(rt; name, b"a_1-z".as_slice());
    let (found, rest) = place_of(1, b' ', rest)?;
    assert_eq!(rt; found, place);
    let (read, rest) = payloads_of(alloc, 1, rest)?;
    assert_eq!(rt; read.as_slice(), payloads.as_slice());
    assert_eq!(rt; rest.len(), 0);
    assert_eq!(rt; end_of(b' ', b"m"), Err(Stop::Left(1)));
    match payloads_of(alloc, 0, b"- 07\n") {
        Ok(_) => assert!(rt; false, "two payloads"),
        Err(stop) => assert_eq!(rt; stop, Stop::Left(4)),
    }
    fields_are_exact();
    Ok(())
}

#[test]
fn words_stop_where_none_goes_on(rt: HostRuntime) -> Result<(), Fail> {
    let words = [Answer(true), Answer(false)];
    let (word, rest) = word_at(&words, b"no north ")?;
    assert_eq!(rt; word, Answer(false));
    assert_eq!(rt; word_at(&words, rest), Ok((Answer(true), b"".as_slice())));
    assert_eq!(rt; word_at(&words, b"nor\n"), Err(Stop::Left(1)));
    assert_eq!(rt; word_at(&words, b"no\n"), Err(Stop::Left(1)));
    assert_eq!(rt; word_at(&words, b"north"), Err(Stop::Left(0)));
    assert_eq!(rt; word_at(&words, b"\xffno "), Err(Stop::Left(4)));
    assert_eq!(rt; Stop::from(NoMemory), Stop::NoMemory);
    words_are_exact::<Answer>();
    Ok(())
}

#[test]
fn a_line_ends_at_its_feed(rt: HostRuntime) {
    assert_eq!(rt;
        first_line(b"a\n\nb"),
        Some((b"a\n".as_slice(), b"\nb".as_slice()))
    );
    assert_eq!(rt;
        first_line(b"\nb"),
        Some((b"\n".as_slice(), b"b".as_slice()))
    );
    assert_eq!(rt; first_line(b"b"), None);
    lines_end_at_feeds();
}
