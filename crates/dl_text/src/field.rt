ghost use Rattle.std.specs.Prelude.{◌≡◌, ◌++◌, OnOk};
ghost use Rattle.dl_text.specs.Fields.{bytes_field, place_field};
ghost use Rattle.dl_text.specs.Refusals.{refusal_rest, refusal_field};

use crate::number::put_number;
use crate::refusal_word::RefusalWord;
use crate::word::Word;
use dl_types::dlsn::Dlsn;
use dl_types::memory::NoMemory;
use dl_types::refusal::Refusal;

/// Puts bytes as they are at the end of a text, as a name or a path, and the byte `end` behind them. After
/// want of memory some front of it may stand there, here and below.
pub fn put_bytes(out: &mut Vec<u8>, end: u8, bytes: &[u8]) -> Result<(), NoMemory>
    ensures { OnOk result (out.new.items ≡ out.old.items ++ bytes_field end bytes.now) }
{
    out.extend_from_slice(bytes)?;
    out.push(end)?;
    Ok(())
}

/// Puts the one spelling of a place at the end of a text, and the byte `end` behind it.
pub fn put_place(out: &mut Vec<u8>, end: u8, place: Dlsn) -> Result<(), NoMemory>
    ensures { OnOk result (out.new.items ≡ out.old.items ++ place_field end place) }
{
    put_number(out, b':', place.segment)?;
    put_number(out, b':', place.entry)?;
    put_number(out, end, u64::from(place.slot))
}

/// Puts what a line says of a refusal behind its word.
fn put_rest(out: &mut Vec<u8>, refusal: &Refusal) -> Result<(), NoMemory>
    ensures { OnOk result (out.new.items ≡ out.old.items ++ refusal_rest refusal.now) }
{
    match refusal {
        Refusal::Expired { session } => put_number(out, b'\n', session.number()),
        Refusal::Held { member } => put_number(out, b'\n', *member),
        Refusal::Fenced { bookie } => put_number(out, b'\n', u64::from(bookie.number())),
        Refusal::Moved { path, version } => {
            put_bytes(out, b' ', path.as_slice())?;
            put_number(out, b'\n', *version)
        }
        Refusal::TxidBack { last, given } => {
            put_number(out, b' ', last.number())?;
            put_number(out, b'\n', given.number())
        }
        Refusal::TooLong { length } => put_number(out, b'\n', *length),
        Refusal::BeyondEnd { end } => put_place(out, b'\n', *end),
        Refusal::Truncated { point } => put_place(out, b'\n', *point),
        Refusal::NotEmpty { count } => put_number(out, b'\n', *count),
        Refusal::Busy { line } => put_number(out, b'\n', u64::from(*line)),
        Refusal::BadName { at } => put_number(out, b'\n', u64::from(*at)),
        Refusal::GaveUp { path } => put_bytes(out, b'\n', path.as_slice()),
        Refusal::NoStream | Refusal::StreamExists | Refusal::NoWriter | Refusal::WindowFull => Ok(
            (),
        ),
    }
}

/// Puts what a line says of a refusal at the end of a text, to the end of the line.
pub fn put_refusal(out: &mut Vec<u8>, refusal: &Refusal) -> Result<(), NoMemory>
    ensures { OnOk result (out.new.items ≡ out.old.items ++ refusal_field refusal.now) }
{
    out.extend_from_slice(RefusalWord::of(refusal).text())?;
    put_rest(out, refusal)
}
