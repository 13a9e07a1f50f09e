ghost use Rattle.std.specs.Prelude.{◌≡◌, ◌≤◌, ◌<◌, ◌+◌, ◌*◌, ◌%◌, ℕ, IfOk};
ghost use Rattle.std.specs.Option.{SomeIff};
ghost use Rattle.dl_text.specs.Readers.{Gives};
ghost use Rattle.dl_text.specs.Numbers.{number, number_at, digits_at, IsRange, IsWithin};
ghost use Rattle.dl_text.specs.Outputs.{Puts};

use crate::stop::Stop;
use dl_types::memory::NoMemory;
use itoa::write_digits;

/// The most digits of a number: those of the greatest u64.
const DIGITS: usize = 20;

/// Room for any number, and the byte that ends it.
const FIELD: usize = DIGITS + 1;

/// The value with one more digit, where it is at most `high`.
fn push_digit(high: u64, value: u64, digit: u8) -> Option<u64>
    requires { digit < 10 }
    ensures { SomeIff result (value * 10 + digit ≤ high) (value * 10 + digit) }
{
    let wide = u128::from(value) * 10 + u128::from(digit);
    if wide <= u128::from(high) {
        Some(wide as u64)
    } else {
        None
    }
}

/// The digits behind the first, whose value is given, and the byte that ends them.
fn digits_of(high: u64, end: u8, first: u64, bytes: &[u8]) -> Result<(u64, &[u8]), Stop>
    ensures { Gives (λ x. (x.0, x.1.now)) result (digits_at high end first bytes.now) }
{
    let mut value = first;
    let mut rest = bytes;
    while let [c, more @ ..] = rest {
        if *c == end {
            return Ok((value, more));
        }
        if !(b'0' <= *c && *c <= b'9') || value == 0 {
            return Err(Stop::Left(rest.len()));
        }
        match push_digit(high, value, *c - b'0') {
            None => return Err(Stop::Left(rest.len())),
            Some(next) => {
                value = next;
                rest = more;
            }
        }
    }
    Err(Stop::Left(0))
}

/// A number from `low` to `high` at the front of the bytes, decimal and without leading zeros, and the bytes behind
/// the byte `end` that ends it. It stops at the first byte at which no such number goes on.
pub fn number_of(low: u64, high: u64, end: u8, bytes: &[u8]) -> Result<(u64, &[u8]), Stop>
    requires { IsRange low high end }
    ensures exact { Gives (λ x. (x.0, x.1.now)) result (number_at low high end bytes.now) }
    ensures within { IfOk result (λ x. IsWithin low high x.0) }
{
    match bytes {
        [] => Err(Stop::Left(0)),
        [c, rest @ ..] => {
            if b'0' + low as u8 <= *c && *c <= b'9' && u64::from(*c - b'0') <= high {
                digits_of(high, end, u64::from(*c - b'0'), rest)
            } else {
                Err(Stop::Left(bytes.len()))
            }
        }
    }
}

/// The last digit of a number.
#[inline]
fn last_digit(n: u64) -> u8
    ensures { result ≡ 48 + n % 10 }
{
    b'0' + (n % 10) as u8
}

/// Puts a number of any size, and the byte `end` behind it.
fn put_long(out: &mut Vec<u8>, end: u8, n: u64) -> Result<(), NoMemory>
    ensures { Puts out.old.items out.new.items (number end n) result }
{
    let mut field = [end; FIELD];
    let start = write_digits(n, &mut field, DIGITS);
    out.extend_from_slice(&field[start..])?;
    Ok(())
}

/// Puts a number of two digits or more, and the byte `end` behind it. Up to six digits are an array of their own for each
/// length, so that they go from registers into the text.
#[inline(never)]
fn put_digits(out: &mut Vec<u8>, end: u8, n: u64) -> Result<(), NoMemory>
    requires { 10 ≤ n }
    ensures { Puts out.old.items out.new.items (number end n) result }
{
    let (e, f) = (last_digit(n / 10), last_digit(n));
    if n < 100 {
        out.extend_from_slice(&[e, f, end])?;
        return Ok(());
    }
    let d = last_digit(n / 100);
    if n < 1_000 {
        out.extend_from_slice(&[d, e, f, end])?;
        return Ok(());
    }
    let c = last_digit(n / 1_000);
    if n < 10_000 {
        out.extend_from_slice(&[c, d, e, f, end])?;
        return Ok(());
    }
    let b = last_digit(n / 10_000);
    if n < 100_000 {
        out.extend_from_slice(&[b, c, d, e, f, end])?;
        return Ok(());
    }
    let a = last_digit(n / 100_000);
    if n < 1_000_000 {
        out.extend_from_slice(&[a, b, c, d, e, f, end])?;
        return Ok(());
    }
    put_long(out, end, n)
}

/// Puts the one spelling of a number at the end of a text, and the byte `end` behind it, in one go. No memory is taken but
/// for the text's own growth; where that is refused, the text is as before. Most numbers have one digit: those are put
/// without a call.
#[inline]
pub fn put_number(out: &mut Vec<u8>, end: u8, n: u64) -> Result<(), NoMemory>
    ensures { Puts out.old.items out.new.items (number end n) result }
{
    if n < 10 {
        out.extend_from_slice(&[b'0' + n as u8, end])?;
        return Ok(());
    }
    put_digits(out, end, n)
}
