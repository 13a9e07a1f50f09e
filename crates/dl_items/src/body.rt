ghost use Rattle.std.specs.Prelude.{◌≡◌, ◌<◌, ◌+◌, ◌^◌, length, OnOk};
ghost use Rattle.dl_rules_nodes.specs.Reading.{items_in, left_of, batch_at};
ghost use Rattle.dl_items.specs.Reading.{verdict, IsBody};

use crate::read::read_item;
use dl_fields::fault::Fault;
use dl_rules_nodes::limits::LONGEST_BATCH;

/// How many bytes behind the gate of its batch a body begins: the gate itself, a number and a length.
pub const BEFORE_BODY: u64 = 13;

/// How many bytes behind the gate of its batch the length of a body stands.
pub const BEFORE_LENGTH: u64 = 9;

/// Whether the bytes are items up to their end.
fn check_items(body: &[u8]) -> Result<(), Fault>
    ensures { verdict (items_in body.now) ≡ result }
{
    let mut rest = body;
    while !rest.is_empty() {
        let (_item, more) = read_item(rest)?;
        rest = more;
    }
    Ok(())
}

/// How many bytes are left at a fault.
fn left_of(fault: Fault) -> usize
    ensures { result ≡ left_of fault }
{
    match fault {
        Fault::Short(left) => left,
        Fault::Bad(left) => left,
        Fault::Long(left) => left,
    }
}

/// Whether the body of a batch is at least one item and nothing else, and not too long, where the gate of the batch stands at this
/// offset of its file. The error is the offset of the first fault; an empty or too long body is broken at its length. It takes no
/// memory.
pub fn check_batch(gate: u64, body: &[u8]) -> Result<(), u64>
    requires { gate + BEFORE_BODY + length body.now < 2 ^ 64 }
    ensures exact { verdict (batch_at gate body.now) ≡ result }
    // A body without a fault is the spelling of a batch.
    ensures found { OnOk result (IsBody body.now) }
{
    if body.is_empty() || body.len() > LONGEST_BATCH {
        return Err(gate + BEFORE_LENGTH);
    }
    match check_items(body) {
        Ok(()) => Ok(()),
        Err(fault) => {
            let end = gate + BEFORE_BODY + body.len() as u64;
            Err(end.saturating_sub(left_of(fault) as u64))
        }
    }
}
