ghost use Rattle.std.specs.Prelude.{◌≡◌, ℕ, ◌++◌, length, OnOk, MatchOption};
ghost use Rattle.dl_fields.specs.Digits.{digits, HasTenDigits};

use dl_types::memory::NoMemory;

/// Puts the last digits of a number, so many, at the end of `out`. Where memory runs out, a part of them may have been put.
pub fn put_digits(out: &mut Vec<u8>, count: u8, number: u64) -> Result<(), NoMemory>
    ensures { OnOk result (out.new.items ≡ out.old.items ++ digits count number) }
{
    if count == 0 {
        return Ok(());
    }
    put_digits(out, count - 1, number / 10)?;
    out.push(b'0' + (number % 10) as u8)?;
    Ok(())
}

/// The number that ten digits spell, and nothing where the text is something else.
pub fn read_ten_digits(text: &[u8]) -> Option<u64>
    ensures { MatchOption result ((k : ℕ) → text.now ≡ digits 10 k → ⊥)
        (λ k. HasTenDigits k × (text.now ≡ digits 10 k)) }
{
    if text.len() != 10 {
        return None;
    }
    let mut number: u64 = 0;
    for byte in text {
        if !byte.is_ascii_digit() {
            return None;
        }
        number = number * 10 + u64::from(*byte - b'0');
    }
    Some(number)
}
