// What no clause says: a worked journal, and that the calls succeed.
use dl_items::head::Head;
use dl_items::put::put_item;
use dl_journal::batch::Batch;
use dl_marks::entries::EntryTable;
use dl_marks::ledgers::LedgerTable;
use dl_marks::marks::EntryKey;
use dl_restore::restore::restore;
use dl_types::body::Body;
use std::alloc::Global;
use std::test::Fail;

/// One record at position 0 with the id 5 and the payload `hi`.
const ENTRY: [u8; 30] = [
    1, 0, 0, 1, 0, 0, 0, 22, 0, 0, 0, 0, 0, 0, 0, 0, 0, 0, 0, 0, 0, 0, 0, 5, 0, 0, 0, 2, 104, 105,
];

/// The items of the first batch, and of the second.
const BATCHES: [[Head; 3]; 2] = [
    [
        Head::Add {
            ledger: 1,
            entry: 0,
            count: 6,
        },
        Head::Fence { ledger: 1 },
        Head::Copy {
            ledger: 1,
            entry: 1,
            count: 4,
        },
    ],
    [
        Head::Add {
            ledger: 1,
            entry: 1,
            count: 5,
        },
        Head::Copy {
            ledger: 2,
            entry: 0,
            count: 7,
        },
        Head::Copy {
            ledger: 1,
            entry: 0,
            count: 0,
        },
    ],
];

/// What is kept of entries and ledgers that the batches name, and of some that they do not.
const KEPT: &str = "1/0 true 50+30
1/1 true 118+30
2/0 false 249+30
2/1 none
1 true 6
2 false 7
3 none
";

/// The body of a batch.
fn body(alloc: Global, heads: &[Head]) -> Result<Vec<u8>, Fail> {
    let mut body = Vec::new(alloc);
    for head in heads {
        let mut frame = Vec::with_capacity(alloc, head.size(&ENTRY))?;
        put_item(&mut frame, *head, &ENTRY);
        body.extend_from_slice(&frame)?;
    }
    Ok(body)
}

/// What the tables keep, a line for each entry and each ledger.
fn kept(alloc: Global, entries: &EntryTable, ledgers: &LedgerTable) -> Result<String, Fail> {
    let mut out = String::new(alloc);
    for (ledger, entry) in [(1, 0), (1, 1), (2, 0), (2, 1)] {
        match entries.get(EntryKey { ledger, entry }) {
            None => writeln!(out, "{ledger}/{entry} none")?,
            Some(marks) => match marks.place {
                None => writeln!(out, "{ledger}/{entry} {}", marks.added)?,
                Some(place) => {
                    let (at, size) = (place.at, place.size);
                    writeln!(out, "{ledger}/{entry} {} {at}+{size}", marks.added)?;
                }
            },
        }
    }
    for ledger in 1..4 {
        match ledgers.get(ledger) {
            None => writeln!(out, "{ledger} none")?,
            Some(marks) => writeln!(out, "{ledger} {} {}", marks.fenced, marks.greatest)?,
        }
    }
    Ok(out)
}

/// What a load of two bodies leaves, or why there is none.
fn outcome(alloc: Global, first: &[u8], second: &[u8]) -> Result<String, Fail> {
    let mut out = String::new(alloc);
    if first.len() > 1_000 || second.len() > 1_000 {
        return Ok(out);
    }
    let batches = [
        Batch {
            number: 3,
            body: Body::new(alloc, first)?,
        },
        Batch {
            number: 4,
            body: Body::new(alloc, second)?,
        },
    ];
    let mut entries = EntryTable::new(alloc)?;
    let mut ledgers = LedgerTable::new(alloc)?;
    match restore(&batches, &mut entries, &mut ledgers) {
        Ok(()) => return kept(alloc, &entries, &ledgers),
        Err(fault) => write!(out, "{fault}")?,
    }
    Ok(out)
}

#[test]
fn a_journal_gives_its_tables(rt: HostRuntime) -> Result<(), Fail> {
    let alloc = rt.alloc();
    let [first, second] = BATCHES;
    let (first, second) = (body(alloc, &first)?, body(alloc, &second)?);
    assert_eq!(rt; outcome(alloc, &first, &second)?.as_str(), KEPT);
    Ok(())
}

#[test]
fn damage_is_told_at_its_place(rt: HostRuntime) -> Result<(), Fail> {
    let alloc = rt.alloc();
    let [first, second] = BATCHES;
    let first = body(alloc, &first)?;
    for (at, want) in [
        (0, "items damaged at 161"),
        (30, "items damaged at 191"),
        (118, "items damaged at 279"),
    ] {
        let mut second = body(alloc, &second)?;
        if let Some(byte) = second.get_mut(at) {
            *byte = 9;
        }
        assert_eq!(rt;
            outcome(alloc, &first, &second)?.as_str(),
            want,
            "byte {at}"
        );
    }
    assert_eq!(rt;
        outcome(alloc, &first, &[])?.as_str(),
        "items damaged at 157"
    );
    Ok(())
}
