ghost use Rattle.std.specs.Prelude.{◌≡◌, ◌≤◌, ◌++◌, length, IfOk, OnOk};
ghost use Rattle.std.specs.Int.{w16};
ghost use Rattle.dl_fields.specs.Readers.{Gives, Reads};
ghost use Rattle.dl_fields.specs.Fields.{counted_field};
ghost use Rattle.dl_fields.specs.Outputs.{Puts};
ghost use Rattle.dl_fields.specs.Paths.{IsPart, name_from};
ghost use Rattle.dl_tree_msg.specs.Answers.{why_rest, why_bytes, answer_rest, answer_bytes};
ghost use Rattle.dl_tree_msg.specs.Answers.{IsAnswer, outcome_rest, outcome_bytes, IsOutcome};
ghost use Rattle.dl_tree_msg.specs.Sizes.{max_name, max_answer_rest, max_answer, max_outcome};
ghost use Rattle.dl_tree_msg.specs.AnswerReading.{why_rest_from, why_from, names_from, answer_rest_from};
ghost use Rattle.dl_tree_msg.specs.AnswerReading.{answer_from, answers_from, outcome_rest_from, outcome_from};

use crate::answer_kind::{AnswerKind, OutcomeKind, WhyKind};
use crate::items::{Item, put_items, size_of_items};
use dl_codec::write::{put_u8, put_u16, put_u32, put_u64};
use dl_fields::code::{Code, read_code};
use dl_fields::fault::Fault;
use dl_fields::items::{ItemReader, read_items};
use dl_fields::number::{read_u16, read_u32, read_u64};
use dl_fields::path::{read_name, read_path};
use dl_fields::run::read_run_u32;
use dl_fields::size::{size_of_run_u16, size_of_run_u32};
use dl_fields::stop::Stop;
use dl_fields::write::{put_run_u16, put_run_u32};
use dl_types::body::Body;
use dl_types::memory::NoMemory;
use dl_types::meta_answer::MetaAnswer;
use dl_types::names::Names;
use dl_types::one_answer::OneAnswer;
use dl_types::one_answers::OneAnswers;
use dl_types::path::Path;
use dl_types::why::Why;
use std::alloc::Global;

/// A reason behind its kind.
fn read_why_rest(kind: WhyKind, bytes: &[u8]) -> Result<(Why, &[u8]), Fault>
    ensures { Reads (λ x. (x.0, x.1.now)) result (why_rest_from kind bytes.now) }
{
    match kind {
        WhyKind::NoNode => Ok((Why::NoNode, bytes)),
        WhyKind::NodeExists => Ok((Why::NodeExists, bytes)),
        WhyKind::BadVersion => {
            let (version, rest) = read_u64(bytes)?;
            Ok((Why::BadVersion(version), rest))
        }
        WhyKind::NotEmpty => {
            let (children, rest) = read_u64(bytes)?;
            Ok((Why::NotEmpty(children), rest))
        }
        WhyKind::EphemeralParent => Ok((Why::EphemeralParent, bytes)),
        WhyKind::Spent => Ok((Why::Spent, bytes)),
    }
}

/// A reason.
fn read_why(bytes: &[u8]) -> Result<(Why, &[u8]), Fault>
    ensures { Reads (λ x. (x.0, x.1.now)) result (why_from bytes.now) }
{
    let (kind, rest) = read_code(&WhyKind::ALL, bytes)?;
    read_why_rest(kind, rest)
}

/// Names of a listing.
#[derive(Drop)]
struct NameReader;

impl ItemReader for NameReader {
    type Item = Path;

    ghost from = { λ _. name_from };

    fn read_item<'a>(&self, alloc: Global, bytes: &'a [u8]) -> Result<(Path, &'a [u8]), Stop> {
        let (name, rest) = read_name(bytes)?;
        let name = Path::new(alloc, name)?;
        Ok((name, rest))
    }
}

/// Names behind their count.
fn read_names(alloc: Global, bytes: &[u8]) -> Result<(Vec<Path>, &[u8]), Stop>
    ensures { Gives (λ x. (x.0.items, x.1.now)) result (names_from bytes.now) }
{
    let (count, rest) = read_u32(bytes)?;
    read_items(alloc, &NameReader, count, rest)
}

/// An answer to one operation behind its kind.
fn read_answer_rest(
    alloc: Global,
    kind: AnswerKind,
    bytes: &[u8],
) -> Result<(OneAnswer, &[u8]), Stop>
    ensures { Gives (λ x. (x.0, x.1.now)) result (answer_rest_from kind bytes.now) }
{
    match kind {
        AnswerKind::Made => {
            let (path, rest) = read_path(bytes)?;
            let path = Path::new(alloc, path)?;
            Ok((OneAnswer::Made(path), rest))
        }
        AnswerKind::Done => Ok((OneAnswer::Done, bytes)),
        AnswerKind::Version => {
            let (version, rest) = read_u64(bytes)?;
            Ok((OneAnswer::Version(version), rest))
        }
        AnswerKind::Bytes => {
            let (run, rest) = read_run_u32(bytes)?;
            let (version, rest) = read_u64(rest)?;
            let bytes = Body::new(alloc, run)?;
            Ok((OneAnswer::Bytes { bytes, version }, rest))
        }
        AnswerKind::Names => {
            let (items, rest) = read_names(alloc, bytes)?;
            let names = Names::from_vec(items);
            Ok((OneAnswer::Names(names), rest))
        }
    }
}

/// Answers to operations.
#[derive(Drop)]
struct AnswerReader;

impl ItemReader for AnswerReader {
    type Item = OneAnswer;

    ghost from = { λ _. answer_from };

    fn read_item<'a>(&self, alloc: Global, bytes: &'a [u8]) -> Result<(OneAnswer, &'a [u8]), Stop> {
        let (kind, rest) = read_code(&AnswerKind::ALL, bytes)?;
        read_answer_rest(alloc, kind, rest)
    }
}

/// Answers behind their count.
fn read_answers(alloc: Global, bytes: &[u8]) -> Result<(Vec<OneAnswer>, &[u8]), Stop>
    ensures { Gives (λ x. (x.0.items, x.1.now)) result (answers_from bytes.now) }
{
    let (count, rest) = read_u16(bytes)?;
    read_items(alloc, &AnswerReader, u32::from(count), rest)
}

/// An answer to a request behind its kind.
fn read_outcome_rest(
    alloc: Global,
    kind: OutcomeKind,
    bytes: &[u8],
) -> Result<(MetaAnswer, &[u8]), Stop>
    ensures { Gives (λ x. (x.0, x.1.now)) result (outcome_rest_from kind bytes.now) }
{
    match kind {
        OutcomeKind::One(kind) => {
            let (answer, rest) = read_answer_rest(alloc, kind, bytes)?;
            Ok((MetaAnswer::One(answer), rest))
        }
        OutcomeKind::Many => {
            let (items, rest) = read_answers(alloc, bytes)?;
            let answers = OneAnswers::from_vec(items);
            Ok((MetaAnswer::Many(answers), rest))
        }
        OutcomeKind::Failed => {
            let (place, rest) = read_u16(bytes)?;
            let (why, rest) = read_why(rest)?;
            Ok((MetaAnswer::Failed { place, why }, rest))
        }
    }
}

/// An answer to a request.
fn read_outcome(alloc: Global, bytes: &[u8]) -> Result<(MetaAnswer, &[u8]), Stop>
    ensures { Gives (λ x. (x.0, x.1.now)) result (outcome_from bytes.now) }
{
    let (kind, rest) = read_code(&OutcomeKind::ALL, bytes)?;
    read_outcome_rest(alloc, kind, rest)
}

/// The answer to a request on the metadata tree at the front of the bytes, and the bytes behind it. A fault is the first
/// in the order of the bytes, told by how many bytes are left at it.
pub fn read_answer(alloc: Global, bytes: &[u8]) -> Result<(MetaAnswer, &[u8]), Stop>
    ensures exact { Gives (λ x. (x.0, x.1.now)) result (outcome_from bytes.now) }
    // What is read is valid, and the bytes are its one spelling and what is behind it.
    ensures found { IfOk result (λ x. IsOutcome x.0 × (bytes.now ≡ outcome_bytes x.0 ++ x.1.now)) }
{
    let (answer, rest) = read_outcome(alloc, bytes)?;
    Ok((answer, rest))
}

/// Adds a reason behind its kind.
fn put_why_rest(alloc: Global, out: &mut Vec<u8>, why: &Why) -> Result<(), NoMemory>
    ensures { OnOk result (out.new.items ≡ out.old.items ++ why_rest why.now) }
{
    match why {
        Why::NoNode => Ok(()),
        Why::NodeExists => Ok(()),
        Why::BadVersion(version) => put_u64(alloc, out, *version),
        Why::NotEmpty(children) => put_u64(alloc, out, *children),
        Why::EphemeralParent => Ok(()),
        Why::Spent => Ok(()),
    }
}

/// Adds a reason.
fn put_why(alloc: Global, out: &mut Vec<u8>, why: &Why) -> Result<(), NoMemory>
    ensures { OnOk result (out.new.items ≡ out.old.items ++ why_bytes why.now) }
{
    let kind = WhyKind::of(why);
    put_u8(alloc, out, kind.code())?;
    put_why_rest(alloc, out, why)
}

/// A name of a listing.
impl Item for Path {
    ghost valid = { IsPart };

    ghost spelling = { counted_field w16 };

    ghost most = { max_name };

    fn put_item(&self, alloc: Global, out: &mut Vec<u8>) -> Result<(), NoMemory> {
        put_run_u16(alloc, out, self.as_slice())
    }

    fn size_of_item(&self) -> u64 {
        size_of_run_u16(self.as_slice())
    }
}

/// Adds an answer to one operation behind its kind.
fn put_answer_rest(alloc: Global, out: &mut Vec<u8>, answer: &OneAnswer) -> Result<(), NoMemory>
    requires { IsAnswer answer.now }
    ensures { OnOk result (out.new.items ≡ out.old.items ++ answer_rest answer.now) }
{
    match answer {
        OneAnswer::Made(path) => put_run_u16(alloc, out, path.as_slice()),
        OneAnswer::Done => Ok(()),
        OneAnswer::Version(version) => put_u64(alloc, out, *version),
        OneAnswer::Bytes { bytes, version } => {
            put_run_u32(alloc, out, bytes.as_slice())?;
            put_u64(alloc, out, *version)
        }
        OneAnswer::Names(names) => {
            let names = names.as_slice();
            put_u32(alloc, out, names.len() as u32)?;
            put_items(alloc, out, names)
        }
    }
}

/// Adds an answer to a request behind its kind.
fn put_outcome_rest(alloc: Global, out: &mut Vec<u8>, answer: &MetaAnswer) -> Result<(), NoMemory>
    requires { IsOutcome answer.now }
    ensures { OnOk result (out.new.items ≡ out.old.items ++ outcome_rest answer.now) }
{
    match answer {
        MetaAnswer::One(answer) => put_answer_rest(alloc, out, answer),
        MetaAnswer::Many(answers) => {
            let answers = answers.as_slice();
            put_u16(alloc, out, answers.len() as u16)?;
            put_items(alloc, out, answers)
        }
        MetaAnswer::Failed { place, why } => {
            put_u16(alloc, out, *place)?;
            put_why(alloc, out, why)
        }
    }
}

/// Adds an answer to a request; where memory runs out, a part of it may have been added.
fn put_outcome(alloc: Global, out: &mut Vec<u8>, answer: &MetaAnswer) -> Result<(), NoMemory>
    requires { IsOutcome answer.now }
    ensures { OnOk result (out.new.items ≡ out.old.items ++ outcome_bytes answer.now) }
{
    let kind = OutcomeKind::of(answer);
    put_u8(alloc, out, kind.code())?;
    put_outcome_rest(alloc, out, answer)
}

/// Adds an answer to a request on the metadata tree at the end of `out`. Where memory runs out, `out` is as before.
pub fn put_answer(alloc: Global, out: &mut Vec<u8>, answer: &MetaAnswer) -> Result<(), NoMemory>
    requires { IsOutcome answer.now }
    ensures { Puts out.old.items out.new.items (outcome_bytes answer.now) result }
{
    let mut bytes = Vec::new(alloc);
    put_outcome(alloc, &mut bytes, answer)?;
    out.extend_from_slice(&bytes)?;
    Ok(())
}

/// How many bytes a reason has.
#[tactic(auto, using(dl_fields::proofs::SizeLemmas::sizes))]
fn size_of_why(why: &Why) -> u64
    ensures exact { result ≡ length (why_bytes why.now) }
    ensures bound { result ≤ 9 }
{
    match why {
        Why::NoNode => 1,
        Why::NodeExists => 1,
        Why::BadVersion(_) => 9,
        Why::NotEmpty(_) => 9,
        Why::EphemeralParent => 1,
        Why::Spent => 1,
    }
}

/// How many bytes an answer to one operation has behind its kind.
#[tactic(auto, using(dl_fields::proofs::SizeLemmas::sizes))]
fn size_of_answer_rest(answer: &OneAnswer) -> u64
    requires { IsAnswer answer.now }
    ensures exact { result ≡ length (answer_rest answer.now) }
    ensures bound { result ≤ max_answer_rest }
{
    match answer {
        OneAnswer::Made(path) => size_of_run_u16(path.as_slice()),
        OneAnswer::Done => 0,
        OneAnswer::Version(_) => 8,
        OneAnswer::Bytes { bytes, .. } => size_of_run_u32(bytes.as_slice()) + 8,
        OneAnswer::Names(names) => size_of_items(names.as_slice()) + 4,
    }
}

impl Item for OneAnswer {
    ghost valid = { IsAnswer };

    ghost spelling = { answer_bytes };

    ghost most = { max_answer };

    fn put_item(&self, alloc: Global, out: &mut Vec<u8>) -> Result<(), NoMemory> {
        let kind = AnswerKind::of(self);
        put_u8(alloc, out, kind.code())?;
        put_answer_rest(alloc, out, self)
    }

    #[tactic(auto, using(dl_fields::proofs::SizeLemmas::sizes))]
    fn size_of_item(&self) -> u64 {
        size_of_answer_rest(self) + 1
    }
}

/// How many bytes an answer to a request on the metadata tree has.
#[tactic(auto, using(dl_fields::proofs::SizeLemmas::sizes))]
pub fn size_of_answer(answer: &MetaAnswer) -> u64
    requires { IsOutcome answer.now }
    ensures exact { result ≡ length (outcome_bytes answer.now) }
    ensures bound { result ≤ max_outcome }
{
    match answer {
        MetaAnswer::One(answer) => answer.size_of_item(),
        MetaAnswer::Many(answers) => size_of_items(answers.as_slice()) + 3,
        MetaAnswer::Failed { why, .. } => size_of_why(why) + 3,
    }
}
