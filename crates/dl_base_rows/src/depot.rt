// What no clause says: that the calls of a depot in memory succeed, and what stops and faults leave, row by row.
use dl_depot::depot::Depot;
use dl_depot::device_call::DeviceCall;
use dl_depot::device_fault::DeviceFault;
use dl_depot::file_id::FileId;
use dl_depot::fuse::Outcome;
use dl_depot::memory::MemDepot;
use dl_depot::stopper::Stopper;
use std::test::Fail;

// Two appends, each with its sync.
fn work<D: Depot>(depot: &mut D, file: FileId) -> Result<(), DeviceFault> {
    depot.write_at(file, 0, b"abc")?;
    depot.sync(file)?;
    let end = depot.size(file)?;
    depot.write_at(file, end, b"de")?;
    depot.sync(file)
}

fn revived<D: Stopper>(
    depot: &mut D,
    file: FileId,
    into: &mut [u8],
) -> Result<(bool, usize), DeviceFault> {
    let has_stopped = depot.revive(file);
    let count = depot.read(file, 0, into)?;
    Ok((has_stopped, count))
}

#[test]
fn a_stop_leaves_what_its_outcome_says(rt: HostRuntime) -> Result<(), Fail> {
    let rows = [
        (0, Outcome::Before, b"".as_slice()),
        (0, Outcome::After, b"abc".as_slice()),
        (1, Outcome::Before, b"".as_slice()),
        (1, Outcome::After, b"abc".as_slice()),
        (2, Outcome::Before, b"abc".as_slice()),
        (2, Outcome::After, b"abcde".as_slice()),
        (3, Outcome::Before, b"abc".as_slice()),
        (3, Outcome::After, b"abcde".as_slice()),
    ];
    let file = FileId::new(33);
    for (calls, outcome, left) in rows {
        let mut depot = MemDepot::new(rt.alloc())?;
        depot.fuse(file, calls, outcome);
        assert!(rt; work(&mut depot, file).is_err());
        assert!(rt;
            depot.size(file).is_err(),
            "a file that was stopped fails each call"
        );
        let mut into = [0u8; 8];
        let (has_stopped, count) = revived(&mut depot, file, &mut into)?;
        assert!(rt; has_stopped);
        assert!(rt; count <= 8);
        assert_eq!(rt; &into[..count], left, "after {calls} calls, {outcome:?}");
        assert_eq!(rt; depot.calls(file).len() as u64, calls + 1);
        assert_eq!(rt; depot.faults(file), 2);
        assert!(rt;
            work(&mut depot, FileId::new(0)).is_ok(),
            "another file goes on"
        );
    }
    Ok(())
}

#[test]
fn a_listed_call_fails(rt: HostRuntime) -> Result<(), Fail> {
    let file = FileId::new(0);
    for (number, made) in [(1, 0), (2, 1), (3, 2), (4, 2), (5, 3)] {
        let mut depot = MemDepot::new(rt.alloc())?;
        depot.fail_once(file, number);
        assert!(rt; work(&mut depot, file).is_err());
        assert_eq!(rt; depot.faults(file), 1);
        assert_eq!(rt; depot.calls(file).len(), made, "call {number} fails");
    }
    let mut depot = MemDepot::new(rt.alloc())?;
    depot.fail_once(file, 6);
    work(&mut depot, file)?;
    let calls = [
        DeviceCall::Write { at: 0, length: 3 },
        DeviceCall::Sync,
        DeviceCall::Write { at: 3, length: 2 },
        DeviceCall::Sync,
    ];
    assert_eq!(rt; depot.calls(file), calls.as_slice());
    assert!(rt; depot.size(file).is_err());
    let size = depot.size(file)?;
    assert_eq!(rt; size, 5);
    depot.cut(file, size - 4)?;
    assert_eq!(rt; depot.size(file)?, 1);
    assert_eq!(rt; depot.faults(file), 1);
    assert!(rt; !depot.revive(file));
    Ok(())
}
