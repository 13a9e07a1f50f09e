ghost use Rattle.dl_formats.specs.NodeBytes.{IsBetween, most_count};

use dl_formats::allocation::Alloc;
use dl_formats::children::{read_member, read_segment};
use dl_formats::conf::Conf;
use dl_formats::cut::Cut;
use dl_formats::decode::{
    decode_alloc, decode_conf, decode_cut, decode_ledger, decode_maxseq, decode_segment,
};
use dl_formats::encode::{
    encode_alloc, encode_conf, encode_cut, encode_ledger, encode_maxseq, encode_segment,
};
use dl_formats::fault::MetaBytesFault;
use dl_formats::laws::{
    insert_is_by_key, keys_are_told, keys_have_paths_of_their_own, paths_go_by_parents,
    paths_have_their_form, remove_is_by_key,
};
use dl_formats::ledger::{LedgerMeta, LedgerState};
use dl_formats::maxseq::MaxSeq;
use dl_formats::paths::{
    alloc_path, completed_path, conf_path, cut_path, ledger_path, ledger_stem, lock_path,
    maxseq_path, member_stem, progress_path, segs_path, stream_path,
};
use dl_formats::segment::SegmentMeta;
use dl_formats::segment_name::SegmentName;
use dl_types::dlsn::Dlsn;
use dl_types::memory::NoMemory;
use dl_types::name::Name;
use dl_types::path::Path;
use dl_types::quorum::Quorum;
use dl_types::txid::{MAX_TXID, TxId};
use std::alloc::Global;
use std::test::Fail;

/// The bytes of `/conf`.
static CONF: [u8; 5] = [1, 16, 3, 3, 2];

/// The bytes of a closed ledger.
static CLOSED: [u8; 13] = [1, 3, 3, 3, 2, 0, 0, 0, 0, 0, 0, 0, 8];

/// The bytes of a ledger that is written.
static WRITING: [u8; 13] = [1, 1, 5, 3, 2, 0, 0, 0, 0, 0, 0, 0, 0];

/// The bytes of a segment in progress.
static IN_PROGRESS: [u8; 18] = [1, 1, 0, 0, 0, 0, 0, 0, 0, 12, 0, 0, 0, 2, 84, 11, 227, 255];

/// The bytes of a complete segment.
static COMPLETED: [u8; 42] = [
    1, 2, 0, 0, 0, 2, 84, 11, 227, 255, 0, 0, 0, 0, 0, 0, 0, 7, 0, 0, 1, 0, 0, 0, 0, 0, 0, 0, 2, 0,
    0, 0, 0, 0, 127, 255, 255, 255, 255, 255, 255, 255,
];

/// The bytes of a greatest segment.
static MAXSEQ: [u8; 17] = [1, 0, 0, 0, 0, 0, 0, 0, 12, 0, 0, 0, 0, 0, 0, 0, 77];

/// The bytes of a cut.
static CUT: [u8; 21] = [
    1, 0, 0, 0, 0, 0, 0, 0, 1, 0, 0, 0, 0, 0, 0, 0, 0, 0, 0, 0, 0,
];

/// The bytes of no allocated ledger.
static NONE: [u8; 10] = [1, 0, 0, 0, 0, 0, 0, 0, 0, 0];

/// The bytes of an allocated ledger.
static SOME: [u8; 10] = [1, 1, 0, 0, 0, 0, 0, 0, 0, 7];

#[test]
fn reads_where_a_stream_is_cut_off(rt: HostRuntime) -> Result<(), Fail> {
    let mut bytes = CUT.to_vec(rt.alloc())?;
    match decode_cut(&bytes) {
        Ok(cut) => {
            assert_eq!(rt; cut.point.segment, 1);
            assert_eq!(rt; cut.point.entry, 0);
            assert_eq!(rt; cut.point.slot, 0);
        }
        Err(_) => assert!(rt; false),
    }
    bytes.push(0)?;
    assert_eq!(rt; decode_cut(&bytes), Err(MetaBytesFault::Long { at: 21 }));
    Ok(())
}

/// The bytes of the values of the rows, in their order.
fn encoded(alloc: Global, place: u8) -> Result<Vec<u8>, NoMemory> {
    match place {
        0 => encode_conf(
            alloc,
            &Conf {
                b: 16,
                e: 3,
                qw: 3,
                qa: 2,
            },
        ),
        1 => encoded_ledger(alloc, LedgerState::Closed, 3, 8),
        2 => encoded_ledger(alloc, LedgerState::Writing, 5, 0),
        3 => encode_segment(
            alloc,
            &SegmentMeta::InProgress {
                segment: 12,
                ledger: 9_999_999_999,
            },
        ),
        4 => encode_segment(
            alloc,
            &SegmentMeta::Completed {
                segment: 9_999_999_999,
                ledger: 7,
                entries: 1_099_511_627_776,
                rows: 2_199_023_255_552,
                last: TxId::new(MAX_TXID),
            },
        ),
        5 => encode_maxseq(
            alloc,
            &MaxSeq {
                segment: 12,
                last: TxId::new(77),
            },
        ),
        6 => encode_cut(
            alloc,
            &Cut {
                point: Dlsn {
                    segment: 1,
                    entry: 0,
                    slot: 0,
                },
            },
        ),
        7 => encode_alloc(alloc, &Alloc { ledger: None }),
        _ => encode_alloc(alloc, &Alloc { ledger: Some(7) }),
    }
}

/// The bytes of a ledger.
fn encoded_ledger(alloc: Global, state: LedgerState, e: u8, count: u64) -> Result<Vec<u8>, NoMemory>
    requires { IsBetween 0 (most_count state) count }
{
    match Quorum::new(e, 3, 2) {
        Ok(q) => encode_ledger(alloc, &LedgerMeta { state, q, count }),
        Err(_) => Err(NoMemory),
    }
}

/// The rows in their order.
fn row(place: u8) -> &'static [u8] {
    match place {
        0 => &CONF,
        1 => &CLOSED,
        2 => &WRITING,
        3 => &IN_PROGRESS,
        4 => &COMPLETED,
        5 => &MAXSEQ,
        6 => &CUT,
        7 => &NONE,
        _ => &SOME,
    }
}

#[test]
fn writes_each_row(rt: HostRuntime) -> Result<(), Fail> {
    for place in 0u8..9 {
        let bytes = encoded(rt.alloc(), place)?;
        assert_eq!(rt; bytes.as_slice(), row(place), "row {place}");
    }
    Ok(())
}

#[test]
fn finds_the_first_fault(rt: HostRuntime) -> Result<(), Fail> {
    assert_eq!(rt; decode_conf(&[]), Err(MetaBytesFault::Short { at: 0 }));
    assert_eq!(rt;
        decode_conf(&[2, 3, 3, 3, 2]),
        Err(MetaBytesFault::BadVersion { at: 0 })
    );
    assert_eq!(rt;
        decode_conf(&[1, 3, 4, 3, 2]),
        Err(MetaBytesFault::BadKind { at: 2 })
    );
    assert_eq!(rt;
        decode_conf(&[1, 3, 3, 3]),
        Err(MetaBytesFault::Short { at: 4 })
    );
    assert_eq!(rt;
        decode_conf(&[1, 3, 3, 3, 2, 0]),
        Err(MetaBytesFault::Long { at: 5 })
    );
    assert_eq!(rt;
        decode_alloc(&[1, 2]),
        Err(MetaBytesFault::BadKind { at: 1 })
    );
    assert_eq!(rt; decode_segment(&IN_PROGRESS).is_ok(), true);
    assert_eq!(rt; decode_segment(&COMPLETED).is_ok(), true);
    assert_eq!(rt; decode_maxseq(&MAXSEQ).is_ok(), true);
    assert_eq!(rt; decode_ledger(&CLOSED).is_ok(), true);
    Ok(())
}

/// One path of each maker.
fn path_at(alloc: Global, stream: &Name, place: u8) -> Result<Path, NoMemory> {
    match place {
        0 => conf_path(alloc),
        1 => ledger_stem(alloc),
        2 => ledger_path(alloc, 7),
        3 => stream_path(alloc, stream),
        4 => lock_path(alloc, stream),
        5 => member_stem(alloc, stream),
        6 => segs_path(alloc, stream),
        7 => maxseq_path(alloc, stream),
        8 => cut_path(alloc, stream),
        9 => alloc_path(alloc, stream),
        10 => progress_path(alloc, stream, 12),
        _ => completed_path(alloc, stream, 9_876_543_210),
    }
}

/// Their texts, for the stream `s`.
fn path_text(place: u8) -> &'static [u8] {
    match place {
        0 => b"/conf",
        1 => b"/ledgers/L",
        2 => b"/ledgers/L0000000007",
        3 => b"/streams/s",
        4 => b"/streams/s/lock",
        5 => b"/streams/s/lock/m-",
        6 => b"/streams/s/segs",
        7 => b"/streams/s/maxseq",
        8 => b"/streams/s/cut",
        9 => b"/streams/s/alloc",
        10 => b"/streams/s/segs/p0000000012",
        _ => b"/streams/s/segs/c9876543210",
    }
}

#[test]
fn makes_each_path(rt: HostRuntime) -> Result<(), Fail> {
    let stream = Name::new(rt.alloc(), b"s")?;
    for place in 0u8..12 {
        let path = path_at(rt.alloc(), &stream, place)?;
        assert_eq!(rt; path.as_slice(), path_text(place), "path {place}");
    }
    Ok(())
}

/// A letter and a number for what a name says of a segment.
fn segment_said(name: &[u8]) -> (u8, u64) {
    match read_segment(name) {
        Some(SegmentName::Progress { segment }) => (b'p', segment),
        Some(SegmentName::Completed { segment }) => (b'c', segment),
        None => (b'-', 0),
    }
}

#[test]
fn reads_the_names_of_segments(rt: HostRuntime) -> Result<(), Fail> {
    assert_eq!(rt; segment_said(b"p0000000012"), (b'p', 12));
    assert_eq!(rt; segment_said(b"c9876543210"), (b'c', 9_876_543_210));
    assert_eq!(rt; segment_said(b"p0000000000"), (b'-', 0));
    assert_eq!(rt; segment_said(b"p000000012"), (b'-', 0));
    Ok(())
}

#[test]
fn reads_the_names_of_members(rt: HostRuntime) -> Result<(), Fail> {
    assert_eq!(rt; read_member(b"m-0000000000"), Some(0));
    assert_eq!(rt; read_member(b"m-00000000x0"), None);
    Ok(())
}

#[test]
fn laws_hold_for_a_type(_rt: HostRuntime) -> Result<(), Fail> {
    keys_have_paths_of_their_own();
    keys_are_told();
    insert_is_by_key::<u8>();
    remove_is_by_key::<u8>();
    paths_go_by_parents();
    paths_have_their_form();
    Ok(())
}
