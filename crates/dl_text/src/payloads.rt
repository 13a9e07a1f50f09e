ghost use Rattle.std.specs.Prelude.{◌≡◌, ◌++◌, OnOk};
ghost use Rattle.dl_text.specs.Readers.{Gives};
ghost use Rattle.dl_text.specs.Hex.{hex, hex_at};
ghost use Rattle.dl_text.specs.ListFields.{list_field, list_at, item_at};

use crate::hex::{hex_of, put_hex};
use crate::stop::Stop;
use dl_types::memory::NoMemory;
use dl_types::payload::Payload;
use std::alloc::Global;

/// The bytes of a payload, and whether others follow.
#[derive(Debug, Drop)]
struct Item {
    bytes: Vec<u8>,
    follow: bool,
}

/// A payload of a list: a space stands behind it where others follow, and a line feed where none do.
fn item_of(alloc: Global, bytes: &[u8]) -> Result<(Item, &[u8]), Stop>
    ensures { Gives (λ x. ((x.0.bytes.items, x.0.follow), x.1.now)) result
        (item_at hex_at bytes.now) }
{
    let one = match hex_of(alloc, b' ', bytes) {
        Ok((bytes, rest)) => {
            return Ok((
                Item {
                    bytes,
                    follow: true,
                },
                rest,
            ));
        }
        Err(Stop::NoMemory) => return Err(Stop::NoMemory),
        Err(Stop::Left(one)) => one,
    };
    match hex_of(alloc, b'\n', bytes) {
        Ok((bytes, rest)) => Ok((
            Item {
                bytes,
                follow: false,
            },
            rest,
        )),
        Err(Stop::NoMemory) => Err(Stop::NoMemory),
        Err(Stop::Left(other)) => Err(Stop::Left(if one < other { one } else { other })),
    }
}

/// A payload and at most `more` others at the front of a text, with a space behind each and a line feed behind the last,
/// and the text behind that. It stops at the first byte at which no such list goes on.
pub fn payloads_of(alloc: Global, more: u64, bytes: &[u8]) -> Result<(Vec<Payload>, &[u8]), Stop>
    ensures { Gives (λ x. (x.0.items, x.1.now)) result (list_at hex_at more bytes.now) }
{
    let mut found = Vec::new(alloc);
    let mut rest = bytes;
    let mut left = more;
    while left > 0 {
        let (item, behind) = item_of(alloc, rest)?;
        let follow = item.follow;
        let payload = Payload::from_vec(item.bytes)?;
        found.push(payload)?;
        if !follow {
            return Ok((found, behind));
        }
        rest = behind;
        left -= 1;
    }
    let (last, behind) = hex_of(alloc, b'\n', rest)?;
    let payload = Payload::from_vec(last)?;
    found.push(payload)?;
    Ok((found, behind))
}

/// Puts a list of payloads at the end of a text, with a space behind each and a line feed behind the last. After want of
/// memory some front of it may stand there.
pub fn put_payloads(out: &mut Vec<u8>, payloads: &[Payload]) -> Result<(), NoMemory>
    ensures { OnOk result (out.new.items ≡ out.old.items ++ list_field hex payloads.now) }
{
    let mut rest = payloads;
    while let [payload, others @ ..] = rest {
        let end = if others.is_empty() { b'\n' } else { b' ' };
        put_hex(out, end, payload.as_slice())?;
        rest = others;
    }
    Ok(())
}
