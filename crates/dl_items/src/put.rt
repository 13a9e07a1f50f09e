ghost use Rattle.std.specs.Prelude.{◌≡◌, ◌≤◌, ◌+◌, ◌++◌, length, vec_len};
ghost use Rattle.std.specs.Int.{w8, w32, w64};
ghost use Rattle.dl_codec.specs.Fields.{field};
ghost use Rattle.dl_rules_nodes.specs.Items.{item_bytes, item_length, entry_fields};
ghost use Rattle.dl_items.specs.Heads.{item_of};
ghost use Rattle.dl_items.specs.Frames.{HasRoom, Grows};

use crate::head::{BEFORE_ENTRY, FENCE_LENGTH, Head};
use crate::kind::{ADD, COPY, FENCE};
use dl_record::limits::ENTRY_MAX;

/// Adds bytes at the end of a frame that has room for them. It takes no memory.
pub fn put_bytes(frame: &mut Vec<u8>, bytes: &[u8])
    requires { HasRoom frame.old (length bytes.now) }
    ensures { Grows frame.old frame.new bytes.now }
{
    let _added = frame.extend_from_slice(bytes);
}

/// Adds a byte.
#[tactic(auto, unfolding(dl_codec::specs::Fields::field))]
fn put_u8(frame: &mut Vec<u8>, number: u8)
    requires { HasRoom frame.old 1 }
    ensures grows { Grows frame.old frame.new (field w8 number) }
    ensures len { vec_len frame.new ≡ vec_len frame.old + 1 }
{
    put_bytes(frame, &number.to_be_bytes());
}

/// Adds the four bytes of a number, the high byte first.
#[tactic(auto, unfolding(dl_codec::specs::Fields::field))]
fn put_u32(frame: &mut Vec<u8>, number: u32)
    requires { HasRoom frame.old 4 }
    ensures grows { Grows frame.old frame.new (field w32 number) }
    ensures len { vec_len frame.new ≡ vec_len frame.old + 4 }
{
    put_bytes(frame, &number.to_be_bytes());
}

/// Adds the eight bytes of a number, the high byte first.
#[tactic(auto, unfolding(dl_codec::specs::Fields::field))]
fn put_u64(frame: &mut Vec<u8>, number: u64)
    requires { HasRoom frame.old 8 }
    ensures grows { Grows frame.old frame.new (field w64 number) }
    ensures len { vec_len frame.new ≡ vec_len frame.old + 8 }
{
    put_bytes(frame, &number.to_be_bytes());
}

/// Adds a kind, and behind it the fields of an item that has an entry.
fn put_entry(frame: &mut Vec<u8>, kind: u8, ledger: u64, entry: u64, count: u64, bytes: &[u8])
    requires short { length bytes.now ≤ ENTRY_MAX }
    requires room { HasRoom frame.old (BEFORE_ENTRY + length bytes.now) }
    ensures { Grows frame.old frame.new
        (field w8 kind ++ entry_fields ledger entry count bytes.now) }
{
    put_u8(frame, kind);
    put_u64(frame, ledger);
    put_u64(frame, entry);
    put_u64(frame, count);
    put_u32(frame, bytes.len() as u32);
    put_bytes(frame, bytes);
}

/// Adds the item of a fence.
fn put_fence(frame: &mut Vec<u8>, ledger: u64)
    requires { HasRoom frame.old FENCE_LENGTH }
    ensures { Grows frame.old frame.new (field w8 FENCE ++ field w64 ledger) }
{
    put_u8(frame, FENCE);
    put_u64(frame, ledger);
}

/// Adds an item at the end of a frame that has room for it: its head, and the bytes of its entry where it has one. It takes no
/// memory.
#[tactic(auto, unfolding(dl_rules_nodes::specs::Items::item_bytes))]
pub fn put_item(frame: &mut Vec<u8>, head: Head, bytes: &[u8])
    requires short { length bytes.now ≤ ENTRY_MAX }
    requires room { HasRoom frame.old (item_length (item_of head bytes.now)) }
    ensures { Grows frame.old frame.new (item_bytes (item_of head bytes.now)) }
{
    match head {
        Head::Add {
            ledger,
            entry,
            count,
        } => put_entry(frame, ADD, ledger, entry, count, bytes),
        Head::Copy {
            ledger,
            entry,
            count,
        } => put_entry(frame, COPY, ledger, entry, count, bytes),
        Head::Fence { ledger } => put_fence(frame, ledger),
    }
}
