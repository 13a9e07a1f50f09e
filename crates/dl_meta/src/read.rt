//! Reading the items of the metadata node, each after those before it. A fault is the first in the order of the bytes, told by
//! how many bytes are left at it.

ghost use Rattle.std.specs.Prelude.{◌≡◌, ◌==◌, ◌+◌, IfOk};
ghost use Rattle.std.specs.Int.{w8};
ghost use Rattle.dl_fields.specs.Readers.{Reads, Gives};
ghost use Rattle.dl_fields.specs.Codes.{value_of_code, code_from};
ghost use Rattle.dl_session.specs.Sessions.{number_in, is_live};
ghost use Rattle.dl_formats.specs.Reading.{between_from, conf_from};
ghost use Rattle.dl_rules_nodes.specs.Items.{meta_code};
ghost use Rattle.dl_rules_nodes.specs.MetaReading.{kinds_due, is_above, new_session_from, live_session_from};
ghost use Rattle.dl_rules_nodes.specs.MetaReading.{new_number_from, meta_rest_from, meta_item_from, meta_item_in};
ghost use Rattle.dl_rules_nodes.specs.MetaOrder.{IsDue};
ghost use Rattle.dl_meta.specs.Changes.{item_for, kind_for, maybe_kind};

use crate::change::{Change, Kind};
use crate::frame::{ASK, CONF, CONNECT, EXPIRE};
use dl_fields::fault::Fault;
use dl_fields::number::{read_u8, read_u32, read_u64};
use dl_fields::stop::Stop;
use dl_formats::conf::Conf;
use dl_session::admit::Admit;
use dl_session::sessions::Sessions;
use dl_tree_msg::request::read_request;
use dl_tree_msg::rule::PathRule;
use std::alloc::Global;

/// The kind of a code, where it may come: the configuration first, and the others later.
fn kind_of(is_first: bool, code: u8) -> Option<Kind>
    ensures { maybe_kind result ≡ value_of_code meta_code (kinds_due is_first) code }
{
    if is_first {
        if code == CONF { Some(Kind::Conf) } else { None }
    } else if code == CONNECT {
        Some(Kind::Connect)
    } else if code == EXPIRE {
        Some(Kind::Expire)
    } else if code == ASK {
        Some(Kind::Ask)
    } else {
        None
    }
}

/// The kind at the front, and the bytes behind it. One that may not come is bad.
fn read_kind(is_first: bool, bytes: &[u8]) -> Result<(Kind, &[u8]), Fault>
    ensures { Reads (λ x. (kind_for x.0, x.1.now)) result
        (code_from meta_code (kinds_due is_first) bytes.now) }
{
    let (code, rest) = read_u8(bytes)?;
    match kind_of(is_first, code) {
        Some(kind) => Ok((kind, rest)),
        None => Err(Fault::Bad(bytes.len())),
    }
}

/// The byte at the front, from 1 to a highest one, and the bytes behind it. Another one is bad.
fn read_up_to(high: u8, bytes: &[u8]) -> Result<(u8, &[u8]), Fault>
    ensures { Reads (λ x. (x.0, x.1.now)) result (between_from w8 1 high bytes.now) }
{
    let (number, rest) = read_u8(bytes)?;
    if 1 <= number && number <= high {
        Ok((number, rest))
    } else {
        Err(Fault::Bad(bytes.len()))
    }
}

/// A configuration behind its kind, and the bytes behind it.
fn read_conf(bytes: &[u8]) -> Result<(Conf, &[u8]), Fault>
    ensures { Reads (λ x. (x.0, x.1.now)) result (conf_from bytes.now) }
{
    let (b, rest) = read_up_to(16, bytes)?;
    let (e, rest) = read_up_to(b, rest)?;
    let (qw, rest) = read_up_to(e, rest)?;
    let (qa, rest) = read_up_to(qw, rest)?;
    Ok((Conf { b, e, qw, qa }, rest))
}

/// Whether a session is one more than the last.
fn is_next(sessions: &Sessions, session: u64) -> bool
    ensures { result ≡ (session == sessions.now.last + 1) }
{
    match session.checked_sub(1) {
        Some(last) => last == sessions.last(),
        None => false,
    }
}

/// Whether a session is live.
fn is_live(sessions: &Sessions, session: u64) -> bool
    ensures { result ≡ is_live sessions.now session }
{
    match sessions.admit(session, 0) {
        Admit::Expired => false,
        Admit::Old => true,
        Admit::Run => true,
    }
}

/// Whether a number is above the last one run in a live session.
fn is_above(sessions: &Sessions, session: u64, number: u32) -> bool
    ensures { result ≡ is_above (number_in sessions.now.live session) number }
{
    match sessions.admit(session, number) {
        Admit::Expired => false,
        Admit::Old => false,
        Admit::Run => true,
    }
}

/// The next session, and the bytes behind it. Another session is bad.
fn read_new_session<'a>(sessions: &Sessions, bytes: &'a [u8]) -> Result<(u64, &'a [u8]), Fault>
    ensures { Reads (λ x. (x.0, x.1.now)) result (new_session_from sessions.now bytes.now) }
{
    let (session, rest) = read_u64(bytes)?;
    if is_next(sessions, session) {
        Ok((session, rest))
    } else {
        Err(Fault::Bad(bytes.len()))
    }
}

/// A live session, and the bytes behind it. Another session is bad.
fn read_live_session<'a>(sessions: &Sessions, bytes: &'a [u8]) -> Result<(u64, &'a [u8]), Fault>
    ensures { Reads (λ x. (x.0, x.1.now)) result (live_session_from sessions.now bytes.now) }
{
    let (session, rest) = read_u64(bytes)?;
    if is_live(sessions, session) {
        Ok((session, rest))
    } else {
        Err(Fault::Bad(bytes.len()))
    }
}

/// A number above the last one run in a session, and the bytes behind it. Another number is bad.
fn read_new_number<'a>(
    sessions: &Sessions,
    session: u64,
    bytes: &'a [u8],
) -> Result<(u32, &'a [u8]), Fault>
    ensures { Reads (λ x. (x.0, x.1.now)) result (new_number_from sessions.now session bytes.now) }
{
    let (number, rest) = read_u32(bytes)?;
    if is_above(sessions, session, number) {
        Ok((number, rest))
    } else {
        Err(Fault::Bad(bytes.len()))
    }
}

/// An item behind its kind, and the bytes behind it.
fn read_rest<'a>(
    alloc: Global,
    sessions: &Sessions,
    kind: Kind,
    bytes: &'a [u8],
) -> Result<(Change, &'a [u8]), Stop>
    ensures { Gives (λ x. (item_for x.0, x.1.now)) result
        (meta_rest_from sessions.now (kind_for kind) bytes.now) }
{
    match kind {
        Kind::Conf => {
            let (conf, rest) = read_conf(bytes)?;
            Ok((Change::Setup(conf), rest))
        }
        Kind::Connect => {
            let (session, rest) = read_new_session(sessions, bytes)?;
            Ok((Change::Connect(session), rest))
        }
        Kind::Expire => {
            let (session, rest) = read_live_session(sessions, bytes)?;
            Ok((Change::Expire(session), rest))
        }
        Kind::Ask => {
            let (session, rest) = read_live_session(sessions, bytes)?;
            let (number, rest) = read_new_number(sessions, session, rest)?;
            let (op, rest) = read_request(alloc, PathRule::AllButConf, rest)?;
            Ok((
                Change::Ask {
                    session,
                    number,
                    op,
                },
                rest,
            ))
        }
    }
}

/// An item, and the bytes behind it.
fn read_item<'a>(
    alloc: Global,
    is_first: bool,
    sessions: &Sessions,
    bytes: &'a [u8],
) -> Result<(Change, &'a [u8]), Stop>
    ensures { Gives (λ x. (item_for x.0, x.1.now)) result
        (meta_item_from is_first sessions.now bytes.now) }
{
    let (kind, rest) = read_kind(is_first, bytes)?;
    read_rest(alloc, sessions, kind, rest)
}

/// The item that is all of a body, the first one or a later one, after those that leave these sessions.
pub(crate) fn read_body(
    alloc: Global,
    is_first: bool,
    sessions: &Sessions,
    body: &[u8],
) -> Result<Change, Stop>
    ensures exact { Gives item_for result (meta_item_in is_first sessions.now body.now) }
    ensures due { IfOk result (λ change. IsDue is_first sessions.now (item_for change)) }
{
    let (change, rest) = read_item(alloc, is_first, sessions, body)?;
    if rest.is_empty() {
        Ok(change)
    } else {
        Err(Stop::Fault(Fault::Long(rest.len())))
    }
}
