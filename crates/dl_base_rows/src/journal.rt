// What no clause says: worked rows, and that the calls succeed.
use dl_depot::depot::Depot;
use dl_depot::device_call::DeviceCall;
use dl_depot::file_id::FileId;
use dl_depot::fuse::Outcome;
use dl_depot::memory::MemDepot;
use dl_depot::stopper::Stopper;
use dl_journal::batch::Batch;
use dl_journal::commit_fault::CommitFault;
use dl_journal::journal::Journal;
use dl_journal::load_fault::LoadFault;
use std::test::Fail;

const ABC: [u8; 16] = [9, 9, 9, 9, 9, 9, 9, 9, 9, 9, 9, 9, 97, 98, 99, 9];

fn is_abc(batches: &[Batch]) -> bool {
    match batches {
        [batch] => batch.number == 0 && batch.body.as_slice() == b"abc".as_slice(),
        _ => false,
    }
}

#[test]
fn a_commit_makes_four_calls(rt: HostRuntime) -> Result<(), Fail> {
    let file = FileId::new(1);
    let mut depot = MemDepot::new(rt.alloc())?;
    let mut journal = Journal::make(&mut depot, file)?;
    let mut frame = ABC;
    assert_eq!(rt; journal.body_place(), 21);
    journal.commit(&mut depot, &mut frame)?;
    let calls = [
        DeviceCall::Write { at: 0, length: 9 },
        DeviceCall::Sync,
        DeviceCall::Write { at: 9, length: 16 },
        DeviceCall::Sync,
        DeviceCall::Write { at: 8, length: 1 },
        DeviceCall::Sync,
    ];
    assert_eq!(rt; depot.calls(file), calls.as_slice());
    assert_eq!(rt; depot.size(file)?, 25);
    assert_eq!(rt; journal.spare(), 268_435_418);
    let (loaded, batches) = Journal::load(rt.alloc(), &mut depot, file)?;
    assert!(rt; is_abc(&batches));
    assert_eq!(rt; loaded.spare(), 268_435_418);
    Ok(())
}

#[test]
fn a_stop_leaves_the_batch_or_not(rt: HostRuntime) -> Result<(), Fail> {
    let file = FileId::new(1);
    for (call, outcome, is_left) in [
        (1, Outcome::Before, false),
        (1, Outcome::After, false),
        (2, Outcome::Before, false),
        (2, Outcome::After, false),
        (3, Outcome::Before, false),
        (3, Outcome::After, true),
        (4, Outcome::Before, false),
        (4, Outcome::After, true),
    ] {
        let mut depot = MemDepot::new(rt.alloc())?;
        depot.fuse(file, call + 1, outcome);
        let mut journal = Journal::make(&mut depot, file)?;
        let mut frame = ABC;
        assert_eq!(rt;
            journal.commit(&mut depot, &mut frame),
            Err(CommitFault::Device)
        );
        assert!(rt; depot.revive(file));
        let (_, batches) = Journal::load(rt.alloc(), &mut depot, file)?;
        assert_eq!(rt;
            is_abc(&batches),
            is_left,
            "stopped in call {call}, {outcome:?}"
        );
        assert_eq!(rt; batches.is_empty(), !is_left);
    }
    Ok(())
}

#[test]
fn a_fault_leaves_the_batch_or_not(rt: HostRuntime) -> Result<(), Fail> {
    let file = FileId::new(1);
    for (call, is_left) in [(1, false), (2, false), (3, false), (4, true)] {
        let mut depot = MemDepot::new(rt.alloc())?;
        depot.fail_once(file, call + 2);
        let mut journal = Journal::make(&mut depot, file)?;
        let mut frame = ABC;
        assert_eq!(rt;
            journal.commit(&mut depot, &mut frame),
            Err(CommitFault::Device)
        );
        if journal.spare() >= 3 {
            assert_eq!(rt;
                journal.commit(&mut depot, &mut frame),
                Err(CommitFault::Failed)
            );
        }
        let (_, batches) = Journal::load(rt.alloc(), &mut depot, file)?;
        assert_eq!(rt; is_abc(&batches), is_left, "call {call} fails");
        assert_eq!(rt; batches.is_empty(), !is_left);
    }
    Ok(())
}

// How many batches are in force in these bytes, or the place at which they are damaged.
fn batches_in(rt: &impl AllocGlobal, bytes: &[u8]) -> Result<Result<usize, u64>, Fail> {
    let file = FileId::new(1);
    let mut depot = MemDepot::new(rt.alloc())?;
    depot.write_at(file, 0, bytes)?;
    match Journal::load(rt.alloc(), &mut depot, file) {
        Ok((_, batches)) => Ok(Ok(batches.len())),
        Err(LoadFault::Damaged(at)) => Ok(Err(at)),
        Err(fault) => Err(Fail::from(fault)),
    }
}

#[test]
fn damage_has_its_place(rt: HostRuntime) -> Result<(), Fail> {
    let one = b"DLJRNL01\x01\0\0\0\0\0\0\0\x07\0\0\0\0";
    let rows = [
        (b"".as_slice(), Err(0)),
        (b"DLJ", Err(0)),
        (b"DLJRNL02\0", Err(0)),
        (b"DLJRNL01", Err(8)),
        (b"DLJRNL01\0", Ok(0)),
        (b"DLJRNL01\x02abc", Ok(0)),
        (b"DLJRNL01\x01\0\0", Err(9)),
        (b"DLJRNL01\x01\x80\0\0\0\0\0\0\0\0\0\0\0\0", Err(9)),
        (
            b"DLJRNL01\x01\x7f\xff\xff\xff\xff\xff\xff\xff\0\0\0\0\0",
            Ok(1),
        ),
        (b"DLJRNL01\x01\0\0\0\0\0\0\0\0\0\0", Err(17)),
        (b"DLJRNL01\x01\0\0\0\0\0\0\0\0\0\0\0\x05abcd", Err(17)),
        (one, Err(21)),
        (b"DLJRNL01\x01\0\0\0\0\0\0\0\x07\0\0\0\0\0", Ok(1)),
        (
            b"DLJRNL01\x01\0\0\0\0\0\0\0\x07\0\0\0\0\x01\0\0\0\0\0\0\0\x09\0\0\0\0\0",
            Err(22),
        ),
        (
            b"DLJRNL01\x01\x7f\xff\xff\xff\xff\xff\xff\xff\0\0\0\0\x01\x80\0\0\0\0\0\0\0\0\0\0\0\0",
            Err(22),
        ),
        (
            b"DLJRNL01\x01\0\0\0\0\0\0\0\x07\0\0\0\0\x01\0\0\0\0\0\0\0\x08\0\0\0\0\0",
            Ok(2),
        ),
    ];
    for (bytes, wanted) in rows {
        assert_eq!(rt; batches_in(&rt, bytes)?, wanted, "in {bytes:?}");
    }
    Ok(())
}
