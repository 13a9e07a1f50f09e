// What no clause says: worked rows, and that the calls succeed.
mod requests;
mod spoilt;

ghost use Rattle.std.specs.Prelude.{◌≡◌, IfOk, OnOk};
ghost use Rattle.dl_depot.specs.Memory.{view_by};
ghost use Rattle.dl_journal.specs.Commits.{IsEmpty};
ghost use Rattle.dl_journal.specs.Settled.{Stands};
ghost use Rattle.dl_tree_msg.specs.declared.rule.PathRule.TheVariants.{AllButConf};
ghost use Rattle.dl_tree_msg.specs.Rules.{allows};
ghost use Rattle.dl_tree_msg.specs.Requests.{IsRequest, IsAllowed};
ghost use Rattle.dl_formats.specs.NodeBytes.{IsConf};
ghost use Rattle.dl_meta.specs.Standing.{meta_file};

use dl_depot::depot::Depot;
use dl_depot::file_id::FileId;
use dl_depot::fuse::Outcome;
use dl_depot::memory::MemDepot;
use dl_depot::stopper::Stopper;
use dl_formats::conf::Conf;
use dl_meta::meta_fault::MetaFault;
use dl_meta::store::MetaStore;
use dl_msg::meta_reply::MetaReply;
use dl_tree_msg::answer::read_answer;
use dl_tree_msg::request::read_request;
use dl_tree_msg::rule::PathRule;
use dl_types::meta_answer::MetaAnswer;
use dl_types::meta_op::MetaOp;
use dl_types::one_answer::OneAnswer;
use dl_types::path::Path;
use requests::ROWS;
use spoilt::{FILE, FOUND};
use std::alloc::{AllocError, Global};
use std::test::Fail;

/// The metadata file.
fn file() -> FileId
    ensures { result ≡ 0 }
{
    FileId::new(0)
}

/// Three bookies, and a quorum of 3, 3, 2.
fn conf() -> Conf
    ensures { IsConf result }
{
    Conf {
        b: 3,
        e: 3,
        qw: 3,
        qa: 2,
    }
}

/// A store that was just made.
fn made(alloc: Global, depot: &mut MemDepot) -> Result<MetaStore, Fail>
    requires { IsEmpty (view_by depot.old) meta_file }
    ensures { IfOk result (λ store. Stands (view_by depot.new) store.journal) }
{
    let store = MetaStore::make(alloc, depot, conf())?;
    Ok(store)
}

/// Adds an operation: `create PATH`, `ephemeral PATH`, `check PATH`, or `get PATH`.
fn put_one(out: &mut Vec<u8>, text: &str) -> Result<(), AllocError> {
    let (verb, path) = text.split_once(' ').unwrap_or((text, ""));
    let head = if verb == "create" {
        [1, 0].as_slice()
    } else if verb == "ephemeral" {
        [1, 1].as_slice()
    } else if verb == "check" {
        [4].as_slice()
    } else {
        [5].as_slice()
    };
    out.extend_from_slice(head)?;
    out.extend_from_slice(&[0, (path.len() % 256) as u8])?;
    out.extend_from_slice(path.as_bytes())?;
    if head.len() == 2 {
        out.extend_from_slice(&[0; 4])?;
    } else if verb == "check" {
        out.push(0)?;
    }
    Ok(())
}

/// Bytes in decimal, with a space between two.
fn bytes_of(alloc: Global, text: &str) -> Result<Vec<u8>, AllocError> {
    let mut bytes = Vec::new(alloc);
    for word in text.split(' ') {
        bytes.push(word.parse().unwrap_or(0))?;
    }
    Ok(bytes)
}

/// The bytes of one operation, or of several with `; ` between them after the word `all`; or these bytes, after the word `bytes`.
fn spelling_of(alloc: Global, text: &str) -> Result<Vec<u8>, AllocError> {
    if let Some(text) = text.strip_prefix("bytes ") {
        return bytes_of(alloc, text);
    }
    let mut bytes = Vec::new(alloc);
    match text.strip_prefix("all ") {
        Some(ops) => {
            bytes.extend_from_slice(&[7, 0, (ops.split("; ").count() % 256) as u8])?;
            for op in ops.split("; ") {
                put_one(&mut bytes, op)?;
            }
        }
        None => put_one(&mut bytes, text)?,
    }
    Ok(bytes)
}

/// The request of a text.
fn request_of(alloc: Global, text: &str) -> Result<MetaOp, Fail>
    ensures valid { IfOk result IsRequest }
    ensures allowed { IfOk result (IsAllowed (allows AllButConf)) }
{
    let bytes = spelling_of(alloc, text)?;
    let (op, _rest) = read_request(alloc, PathRule::AllButConf, &bytes)?;
    Ok(op)
}

/// Bytes as text.
fn text_of(bytes: &[u8]) -> &str {
    std::str::from_utf8(bytes).unwrap_or("?")
}

/// A reply as text.
fn told(alloc: Global, reply: &Option<MetaReply>) -> Result<String, AllocError> {
    match reply {
        None => format!(in alloc; "none"),
        Some(MetaReply::Expired) => format!(in alloc; "expired"),
        Some(MetaReply::Answer(answer)) => match answer {
            MetaAnswer::One(OneAnswer::Made(path)) => {
                let path = text_of(path.as_slice());
                format!(in alloc; "made {path}")
            }
            MetaAnswer::One(_) => format!(in alloc; "one"),
            MetaAnswer::Many(answers) => {
                let count = answers.as_slice().len();
                format!(in alloc; "many {count}")
            }
            MetaAnswer::Failed { place, why } => format!(in alloc; "failed {place} {why:?}"),
        },
    }
}

/// Whether a reply is the one that is wanted: an answer by its bytes, after the word `bytes`, or a reply as text.
fn is_reply(alloc: Global, reply: &Option<MetaReply>, wanted: &str) -> Result<bool, Fail> {
    match wanted.strip_prefix("bytes ") {
        Some(text) => {
            let bytes = bytes_of(alloc, text)?;
            let (wanted, _rest) = read_answer(alloc, &bytes)?;
            let reply = format!(in alloc; "{reply:?}")?;
            let wanted = format!(in alloc; "Some(Answer({wanted:?}))")?;
            Ok(reply == wanted)
        }
        None => Ok(told(alloc, reply)?.as_str() == wanted),
    }
}

/// Whether the reply to a request is the one that is wanted.
fn served(
    alloc: Global,
    depot: &mut MemDepot,
    store: &mut MetaStore,
    session: u64,
    number: u32,
    text: &str,
    wanted: &str,
) -> Result<bool, Fail>
    requires { Stands (view_by depot.old) store.old.journal }
    ensures { Stands (view_by depot.new) store.new.journal }
{
    let op = request_of(alloc, text)?;
    let reply = store.serve(depot, session, number, &op)?;
    is_reply(alloc, &reply, wanted)
}

/// Whether the call of a row answers as the row says, with so many writing calls. A row is `connect => SESSION`, `end SESSION =>
/// WAS LIVE`, or `SESSION NUMBER REQUEST => REPLY`.
fn row_holds(
    alloc: Global,
    depot: &mut MemDepot,
    store: &mut MetaStore,
    row: &str,
) -> Result<bool, Fail>
    requires { Stands (view_by depot.old) store.old.journal }
    ensures { Stands (view_by depot.new) store.new.journal }
{
    let (call, wanted) = row.split_once(" => ").unwrap_or((row, ""));
    let (first, rest) = call.split_once(' ').unwrap_or((call, ""));
    if first == "connect" {
        let session = store.connect(depot)?;
        return Ok(format!(in alloc; "{session}")?.as_str() == wanted);
    }
    if first == "end" {
        let was_live = store.expire(depot, rest.parse().unwrap_or(0))?;
        return Ok(format!(in alloc; "{was_live}")?.as_str() == wanted);
    }
    let (number, text) = rest.split_once(' ').unwrap_or((rest, ""));
    let session = first.parse().unwrap_or(0);
    let number = number.parse().unwrap_or(0);
    served(alloc, depot, store, session, number, text, wanted)
}

/// Whether the call of a row answers as the row says, with so many writing calls as stand before it.
fn row_runs(
    alloc: Global,
    depot: &mut MemDepot,
    store: &mut MetaStore,
    row: &str,
) -> Result<bool, Fail>
    requires { Stands (view_by depot.old) store.old.journal }
    ensures { Stands (view_by depot.new) store.new.journal }
{
    let (calls, row) = row.split_once(": ").unwrap_or((row, ""));
    let before = depot.calls(file()).len();
    let holds = row_holds(alloc, depot, store, row)?;
    let made = depot.calls(file()).len().saturating_sub(before);
    Ok(holds && made == calls.parse().unwrap_or(usize::MAX))
}

/// Calls of two sessions, each with the number of its writing calls.
const CALLS: &str = "\
4: connect => 1
4: 1 1 create /streams/s => made /streams/s
0: 1 1 create /streams/s => none
4: 1 2 all create /streams/t; check /x => failed 1 NoNode
4: 1 3 check /streams/t => failed 0 NoNode
0: 2 1 get /conf => expired
4: 1 4 ephemeral /streams/s/e => made /streams/s/e
0: end 2 => false
4: connect => 2
4: end 1 => true
0: 1 5 get /conf => expired
4: 2 1 check /streams/s/e => failed 0 NoNode
4: 2 2 all check /streams/s; get /conf => many 2";

#[test]
fn requests_run_once(rt: HostRuntime) -> Result<(), Fail> {
    let alloc = rt.alloc();
    let mut depot = MemDepot::new(alloc)?;
    let mut store = made(alloc, &mut depot)?;
    'rows: for row in CALLS.split('\n') {
        assert!(rt; row_runs(alloc, &mut depot, &mut store, row)?, "{row}");
    }
    let path = Path::new(alloc, b"/streams/t")?;
    assert!(rt; store.tree().look(&path).is_none());
    assert_eq!(rt; store.live(), [2].as_slice());
    assert_eq!(rt; store.last(), 2);
    Ok(())
}

/// The store in the metadata file.
fn loaded(alloc: Global, depot: &mut MemDepot) -> Result<MetaStore, Fail>
    ensures { IfOk result (λ store. Stands (view_by depot.new) store.journal) }
{
    match MetaStore::load(alloc, depot)? {
        Some(store) => Ok(store),
        None => Err(Fail::from(MetaFault::Damaged(0))),
    }
}

/// The text of the request that is stopped.
const STOPPED: &str = "create /streams/s";

/// Whether a request is stopped at the device.
fn is_stopped(alloc: Global, depot: &mut MemDepot, store: &mut MetaStore) -> Result<bool, Fail>
    requires { Stands (view_by depot.old) store.old.journal }
    ensures { Stands (view_by depot.new) store.new.journal }
{
    let op = request_of(alloc, STOPPED)?;
    let reply = store.serve(depot, 1, 1, &op);
    Ok(matches!(reply, Err(MetaFault::Device)))
}

/// Whether a request, a new session and the end of one say that the store failed before.
fn is_at_its_end(alloc: Global, depot: &mut MemDepot, store: &mut MetaStore) -> Result<bool, Fail>
    requires { Stands (view_by depot.old) store.old.journal }
{
    let op = request_of(alloc, STOPPED)?;
    let reply = store.serve(depot, 2, 1, &op);
    let ended = store.expire(depot, 7);
    let session = store.connect(depot);
    Ok(
        matches!(reply, Err(MetaFault::Failed))
            && ended == Err(MetaFault::Failed)
            && session == Err(MetaFault::Failed),
    )
}

/// A depot whose metadata file stops in a writing call.
fn fused(alloc: Global, call: u64, outcome: Outcome) -> Result<MemDepot, Fail>
    ensures { IfOk result (λ depot. IsEmpty (view_by depot) meta_file) }
{
    let mut depot = MemDepot::new(alloc)?;
    depot.fuse(file(), call, outcome);
    Ok(depot)
}

/// Whether a store whose request stops at the device does nothing from then on.
fn stops(alloc: Global, depot: &mut MemDepot) -> Result<bool, Fail>
    requires { IsEmpty (view_by depot.old) meta_file }
{
    let mut store = made(alloc, depot)?;
    let session = store.connect(depot)?;
    if session != 1 || !is_stopped(alloc, depot, &mut store)? {
        return Ok(false);
    }
    is_at_its_end(alloc, depot, &mut store)
}

/// Whether the reply to the same request, from the file that is left, is the one that is wanted.
fn is_told_after(alloc: Global, depot: &mut MemDepot, wanted: &str) -> Result<bool, Fail> {
    let mut store = loaded(alloc, depot)?;
    served(alloc, depot, &mut store, 1, 1, STOPPED, wanted)
}

/// Whether a request that stops in a writing call of the metadata file is left as a row says. A row is `CALL OUTCOME => REPLY`:
/// the reply to the same request afterwards.
fn stop_holds(alloc: Global, row: &str) -> Result<bool, Fail> {
    let (stop, wanted) = row.split_once(" => ").unwrap_or((row, ""));
    let (call, outcome) = stop.split_once(' ').unwrap_or((stop, ""));
    let outcome = if outcome == "after" {
        Outcome::After
    } else {
        Outcome::Before
    };
    let mut depot = fused(alloc, call.parse().unwrap_or(0), outcome)?;
    if !stops(alloc, &mut depot)? || !depot.revive(file()) {
        return Ok(false);
    }
    is_told_after(alloc, &mut depot, wanted)
}

/// Stops in the calls of a request, which come behind six of a new store and four of a session.
const STOPS: &str = "\
10 before => made /streams/s
10 after => made /streams/s
11 before => made /streams/s
11 after => made /streams/s
12 before => made /streams/s
12 after => none
13 before => made /streams/s
13 after => none";

#[test]
fn a_stop_leaves_the_request_or_not(rt: HostRuntime) -> Result<(), Fail> {
    let alloc = rt.alloc();
    for row in STOPS.split('\n') {
        assert!(rt; stop_holds(alloc, row)?, "{row}");
    }
    Ok(())
}

/// What a load finds in these bytes: the place of a fault; or 60000 where there is no store; or 61000, and 100 for each live
/// session, and the last session given.
fn found(alloc: Global, bytes: &[u8]) -> Result<u64, Fail> {
    let mut depot = MemDepot::new(alloc)?;
    depot.write_at(file(), 0, bytes)?;
    match MetaStore::load(alloc, &mut depot) {
        Ok(None) => Ok(60_000),
        Ok(Some(store)) => {
            let live = store.live().len() as u64;
            Ok(
                (live % 10 * 100)
                    .saturating_add(store.last())
                    .saturating_add(61_000),
            )
        }
        Err(MetaFault::Damaged(at)) => Ok(at),
        Err(fault) => Err(Fail::from(fault)),
    }
}

/// The same, with another byte at a place.
fn found_with(alloc: Global, file: &[u8], at: usize, byte: u8) -> Result<u64, Fail> {
    let mut bytes = Vec::new(alloc);
    bytes.extend_from_slice(file)?;
    if let Some(place) = bytes.get_mut(at) {
        *place = byte;
    }
    found(alloc, &bytes)
}

/// Whether a load finds what a row says of a byte.
fn finds(alloc: Global, file: &[u8], at: usize, row: &str) -> Result<bool, Fail> {
    let (cut, rest) = row.split_once(' ').unwrap_or((row, ""));
    let (turned, raised) = rest.split_once(' ').unwrap_or((rest, ""));
    let byte = file.get(at).copied().unwrap_or(0);
    let left = found(alloc, file.get(..at).unwrap_or(b""))?;
    let other = found_with(alloc, file, at, !byte)?;
    let higher = found_with(alloc, file, at, byte.wrapping_add(1))?;
    Ok(
        left == cut.parse().unwrap_or(0)
            && other == turned.parse().unwrap_or(0)
            && higher == raised.parse().unwrap_or(0),
    )
}

#[test]
fn damage_has_its_place(rt: HostRuntime) -> Result<(), Fail> {
    let alloc = rt.alloc();
    let file = bytes_of(alloc, FILE)?;
    assert_eq!(rt; found(alloc, &file)?, 61_102);
    for (at, row) in FOUND.split('\n').enumerate() {
        assert!(rt; finds(alloc, &file, at, row)?, "byte {at}: {row}");
    }
    Ok(())
}

/// Whether the call of a row answers as the row says; after each seventh row the store is loaded anew.
fn row_holds_anew(
    alloc: Global,
    depot: &mut MemDepot,
    store: &mut MetaStore,
    count: usize,
    row: &str,
) -> Result<bool, Fail>
    requires { Stands (view_by depot.old) store.old.journal }
    ensures { OnOk result (Stands (view_by depot.new) store.new.journal) }
{
    let holds = row_holds(alloc, depot, store, row)?;
    if count % 7 == 0 {
        *store = loaded(alloc, depot)?;
    }
    Ok(holds)
}

#[test]
fn random_requests_are_served(rt: HostRuntime) -> Result<(), Fail> {
    let alloc = rt.alloc();
    let mut depot = MemDepot::new(alloc)?;
    let mut store = made(alloc, &mut depot)?;
    'rows: for (count, row) in ROWS.split('\n').enumerate() {
        assert!(rt;
            row_holds_anew(alloc, &mut depot, &mut store, count, row)?,
            "{row}"
        );
    }
    Ok(())
}
