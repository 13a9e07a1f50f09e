ghost use Rattle.std.specs.Prelude.{◌≡◌, ◌==◌, ◌&&◌, ℕ, ◌+◌, ◌<◌, [], length, Some, if◌then◌else◌, is_some, IfOk, IsSome, ◌⊎◌};
ghost use Rattle.dl_marks.specs.Tables.{marks_at};

use crate::marks::{EntryKey, EntryMarks};
use dl_rules_nodes::limits::MOST_ENTRIES;
use dl_types::memory::NoMemory;
use indexmap::IndexMap;
use std::alloc::Global;
use std::marker::Model;

/// What is kept of each entry, in the order of their first use. It has room for 65,536 entries from the start, so that no call
/// but `new` takes memory. Contracts see it as the list of its keys with their marks.
#[derive(Drop)]
pub struct EntryTable {
    map: IndexMap<EntryKey, EntryMarks>,
}

impl Model for EntryTable {
    ghost use Rattle.std.specs.Prelude.{ℕ, ◌+◌, ◌≤◌, List};
    ghost use Rattle.indexmap.specs.IndexMap.{index_map_len, spare};
    ghost use Rattle.dl_marks.specs.declared.marks.EntryKey.{EntryKey};
    ghost use Rattle.dl_marks.specs.declared.marks.EntryMarks.{EntryMarks};

    ghost Value = { List (EntryKey × EntryMarks) };

    ghost view = { λ t. t.map.entries };

    ghost invariant = { λ t. 65536 ≤ index_map_len t.map + spare t.map };
}

impl EntryTable {
    /// A table without an entry.
    pub fn new(alloc: Global) -> Result<EntryTable, NoMemory>
        ensures { IfOk result (λ t. t ≡ []) }
    {
        let map = IndexMap::with_capacity(alloc, MOST_ENTRIES)?;
        Ok(EntryTable { map })
    }

    /// How many entries there are.
    pub fn len(&self) -> usize
        ensures { result ≡ length self.now }
    {
        self.map.len()
    }

    /// What is kept of an entry.
    pub fn get(&self, key: EntryKey) -> Option<EntryMarks>
        ensures { result ≡ marks_at self.now key.ledger key.entry }
    {
        match self.map.get(&key) {
            Some(marks) => Some(*marks),
            None => None,
        }
    }

    /// Keeps these marks of an entry.
    pub fn put(&mut self, key: EntryKey, marks: EntryMarks)
        requires { (length self.old < MOST_ENTRIES)
            ⊎ IsSome (marks_at self.old key.ledger key.entry) }
        ensures each { (l e : ℕ) → marks_at self.new l e
            ≡ (if key.ledger == l && key.entry == e then Some marks else marks_at self.old l e) }
        ensures count { length self.new ≡ length self.old
            + (if is_some (marks_at self.old key.ledger key.entry) then 0 else 1) }
    {
        match self.map.get_mut(&key) {
            Some(slot) => *slot = marks,
            None => {
                let _stored = self.map.insert(key, marks);
            }
        }
    }
}
