ghost use Rattle.std.specs.Prelude.{◌≡◌, ◌==◌, ℕ, ◌+◌, ◌<◌, [], length, Some, if◌then◌else◌, is_some, IfOk, IsSome, ◌⊎◌};
ghost use Rattle.dl_marks.specs.Tables.{ledger_at};

use crate::marks::LedgerMarks;
use dl_rules_nodes::limits::MOST_LEDGERS;
use dl_types::memory::NoMemory;
use indexmap::IndexMap;
use std::alloc::Global;
use std::marker::Model;

/// What is kept of each ledger, in the order of their first use. It has room for 4,096 ledgers from the start, so that no call
/// but `new` takes memory. Contracts see it as the list of its ledgers with their marks.
#[derive(Drop)]
pub struct LedgerTable {
    map: IndexMap<u64, LedgerMarks>,
}

impl Model for LedgerTable {
    ghost use Rattle.std.specs.Prelude.{ℕ, ◌+◌, ◌≤◌, List};
    ghost use Rattle.indexmap.specs.IndexMap.{index_map_len, spare};
    ghost use Rattle.dl_marks.specs.declared.marks.LedgerMarks.{LedgerMarks};

    ghost Value = { List (ℕ × LedgerMarks) };

    ghost view = { λ t. t.map.entries };

    ghost invariant = { λ t. 4096 ≤ index_map_len t.map + spare t.map };
}

impl LedgerTable {
    /// A table without a ledger.
    pub fn new(alloc: Global) -> Result<LedgerTable, NoMemory>
        ensures { IfOk result (λ t. t ≡ []) }
    {
        let map = IndexMap::with_capacity(alloc, MOST_LEDGERS)?;
        Ok(LedgerTable { map })
    }

    /// How many ledgers there are.
    pub fn len(&self) -> usize
        ensures { result ≡ length self.now }
    {
        self.map.len()
    }

    /// What is kept of a ledger.
    pub fn get(&self, ledger: u64) -> Option<LedgerMarks>
        ensures { result ≡ ledger_at self.now ledger }
    {
        match self.map.get(&ledger) {
            Some(marks) => Some(*marks),
            None => None,
        }
    }

    /// Keeps these marks of a ledger.
    pub fn put(&mut self, ledger: u64, marks: LedgerMarks)
        requires { (length self.old < MOST_LEDGERS) ⊎ IsSome (ledger_at self.old ledger) }
        ensures each { (l : ℕ) → ledger_at self.new l
            ≡ (if ledger == l then Some marks else ledger_at self.old l) }
        ensures count { length self.new ≡ length self.old
            + (if is_some (ledger_at self.old ledger) then 0 else 1) }
    {
        match self.map.get_mut(&ledger) {
            Some(slot) => *slot = marks,
            None => {
                let _stored = self.map.insert(ledger, marks);
            }
        }
    }
}
