ghost use Rattle.std.specs.Prelude.{◌<◌};

use dl_quorum::place_set::PlaceSet;
use dl_quorum::placement::{confirmed, covers, denied, write_place, write_set};
use dl_types::ensemble::Ensemble;
use dl_types::quorum::Quorum;
use std::test::Fail;

#[test]
fn quorums_keep_their_rule(rt: HostRuntime) {
    for (e, qw, qa, good) in [
        (3, 3, 4, false),
        (17, 3, 2, false),
        (1, 1, 1, true),
        (16, 16, 16, true),
        (3, 4, 2, false),
        (3, 2, 0, false),
        (5, 3, 2, true),
    ] {
        let found = Quorum::new(e, qw, qa);
        assert_eq!(rt; found.is_ok(), good, "{e}, {qw}, {qa}");
    }
}

#[test]
fn an_ensemble_is_a_ring_of_neighbours(rt: HostRuntime) {
    for (ledger, first, second, third) in [(7, 2, 3, 4), (9, 4, 0, 1), (0, 0, 1, 2)] {
        let ensemble = Ensemble::of(ledger, 5, 3);
        assert_eq!(rt; ensemble.bookie(0), first);
        assert_eq!(rt; ensemble.bookie(1), second);
        assert_eq!(rt; ensemble.bookie(2), third);
    }
}

#[test]
fn an_entry_goes_round_the_ring(rt: HostRuntime) -> Result<(), Fail> {
    let q = Quorum::new(5, 3, 2)?;
    assert_eq!(rt; write_place(q, 4, 0), 4);
    assert_eq!(rt; write_place(q, 4, 1), 0);
    assert_eq!(rt; write_place(q, 4, 2), 1);
    assert_eq!(rt; write_place(q, u64::MAX, 0), 0);
    let set = write_set(q, 4);
    for (place, inside) in [(0, true), (1, true), (2, false), (3, false), (4, true)] {
        assert_eq!(rt; set.contains(place), inside, "{place}");
    }
    Ok(())
}

#[test]
fn a_cover_reaches_every_write_set(rt: HostRuntime) -> Result<(), Fail> {
    let q = Quorum::new(5, 3, 2)?;
    let three = PlaceSet::empty().with(0).with(2).with(4);
    assert!(rt; !covers(q, three));
    let four = PlaceSet::empty().with(0).with(1).with(3).with(4);
    assert!(rt; covers(q, four));
    Ok(())
}

/// The places below five whose bits are set.
fn set_of(bits: u8) -> PlaceSet {
    let mut set = PlaceSet::empty();
    for place in 0..5u8 {
        if (bits >> place) & 1 == 1 {
            set = set.with(place);
        }
    }
    set
}

/// How many of `qw` places, from the entry's on and round after `e`, have their bits set.
fn plain_count(e: u8, qw: u8, entry: u8, bits: u8) -> u8 {
    let mut place = entry;
    let mut count = 0u8;
    for _ in 0..qw {
        if place >= e {
            place = 0;
        }
        if place < 8 && (bits >> place) & 1 == 1 {
            count = count.saturating_add(1);
        }
        place = place.saturating_add(1);
    }
    count
}

/// Compares what the set decides for each entry with plain counts, and whether it covers with all of them.
fn compare_set(rt: &impl std::process::Abort, q: Quorum, bits: u8) {
    let set = set_of(bits);
    let mut covered = true;
    for entry in 0..q.e {
        let count = plain_count(q.e, q.qw, entry, bits);
        let others = q.qw.saturating_sub(count);
        assert_eq!(rt;
            confirmed(q, u64::from(entry), set),
            count >= q.qa,
            "{q:?}, {entry}, {bits}"
        );
        assert_eq!(rt;
            denied(q, u64::from(entry), set),
            others < q.qa,
            "{q:?}, {entry}, {bits}"
        );
        covered = covered && others < q.qa;
    }
    assert_eq!(rt; covers(q, set), covered, "{q:?}, {bits}");
}

#[test]
fn all_small_quorums_agree_with_plain_counts(rt: HostRuntime) -> Result<(), Fail> {
    let mut tried = 0u32;
    for e in 1..6u8 {
        for qw in 1..6u8 {
            for qa in 1..6u8 {
                if qa <= qw && qw <= e {
                    let q = Quorum::new(e, qw, qa)?;
                    for bits in 0..32u8 {
                        compare_set(&rt, q, bits);
                        tried = tried.saturating_add(1);
                    }
                }
            }
        }
    }
    assert_eq!(rt; tried, 1120);
    Ok(())
}
