//! What a look at a stream told.

ghost use Rattle.std.specs.Prelude.{◌≡◌, IfOk};
ghost use Rattle.dl_types.specs.declared.meta_answer.MetaAnswer.TheVariants as answer;
ghost use Rattle.dl_rules_stream.specs.Orders.{Done, or_refused};
ghost use Rattle.dl_rules_stream.specs.Looks.{Looking, LookDone, look_values, look_answers};
ghost use Rattle.dl_requests.specs.Turns.{goes_by};
ghost use Rattle.dl_look.specs.Looking.{in_progress, looked_of, look_move};

use crate::looked::Looked;
use dl_formats::segment_name::SegmentName;
use dl_requests::listing::last_listed;
use dl_requests::looks::look;
use dl_requests::nodes::{alloc_of, maxseq_of};
use dl_requests::refusals::{is_missing, no_way_on};
use dl_types::memory::NoMemory;
use dl_types::meta_answer::MetaAnswer;
use dl_types::name::Name;
use dl_types::one_answer::OneAnswer;
use dl_types::path::Path;
use dl_types::refusal::Refusal;
use dl_types::why::Why;
use std::alloc::Global;

/// What an answer says of a look.
#[derive(Debug, Drop)]
pub enum LookAnswer {
    /// Nothing: it answers something else.
    Stays,
    /// What the look told.
    Told(Looked),
    /// The order is refused.
    Refused(Refusal),
}

/// The number of a segment that is in progress.
pub fn in_progress(last: Option<SegmentName>) -> Option<u64>
    ensures { result ≡ in_progress last }
{
    match last {
        Some(SegmentName::Progress { segment }) => Some(segment),
        Some(SegmentName::Completed { .. }) => None,
        None => None,
    }
}

/// The nodes were read: the names of the segments, and the bytes of `maxseq` and `alloc`, each with its version.
fn after_values(
    alloc: Global,
    stream: &Name,
    names: &[Path],
    maxseq: &[u8],
    version: u64,
    named: &[u8],
    alloc_version: u64,
) -> Result<LookAnswer, NoMemory>
    ensures { IfOk result (λ a. look_move a ≡ goes_by looked_of (or_refused LookDone
        (λ x. (LookDone, Done x))
        (look_values stream.now names.now maxseq.now version named.now alloc_version))) }
{
    let maxseq = match maxseq_of(alloc, stream, maxseq)? {
        Ok(maxseq) => maxseq,
        Err(refusal) => return Ok(LookAnswer::Refused(refusal)),
    };
    match alloc_of(alloc, stream, named)? {
        Ok(old) => {
            let last = last_listed(alloc, names)?;
            Ok(LookAnswer::Told(Looked {
                last,
                maxseq,
                version,
                old,
                alloc_version,
            }))
        }
        Err(refusal) => Ok(LookAnswer::Refused(refusal)),
    }
}

/// The answers to the operations of the look.
#[tactic(auto, unfolding(dl_rules_stream::specs::Looks::look_answers))]
fn after_many(alloc: Global, stream: &Name, answers: &[OneAnswer]) -> Result<LookAnswer, NoMemory>
    ensures { IfOk result (λ a. look_move a
        ≡ goes_by looked_of (look_answers stream.now Looking (answer.Many answers.now))) }
{
    match answers {
        [
            OneAnswer::Names(names),
            OneAnswer::Bytes {
                bytes: maxseq,
                version,
            },
            OneAnswer::Bytes {
                bytes: named,
                version: alloc_version,
            },
        ] => {
            let (names, maxseq, named) = (names.as_slice(), maxseq.as_slice(), named.as_slice());
            after_values(
                alloc,
                stream,
                names,
                maxseq,
                *version,
                named,
                *alloc_version,
            )
        }
        _ => Ok(LookAnswer::Stays),
    }
}

/// The look failed: the stream isn't there, or there is no way on.
#[tactic(auto, using(crate::proofs::Failures::look_missing, crate::proofs::Failures::look_failed))]
fn after_failed(alloc: Global, stream: &Name, place: u16, why: Why) -> Result<LookAnswer, NoMemory>
    ensures { IfOk result (λ a. look_move a
        ≡ goes_by looked_of (look_answers stream.now Looking (answer.Failed place why))) }
{
    if is_missing(place, why) {
        return Ok(LookAnswer::Refused(Refusal::NoStream));
    }
    let request = look(alloc, stream)?;
    let refusal = no_way_on(alloc, request, place, why)?;
    Ok(LookAnswer::Refused(refusal))
}

/// What the answer to a look told, or the refusal of its order: a stream that isn't there is `NoStream`; where bytes are not in
/// the form of their node, or the look fails otherwise, the order gives up at their path, or the node has moved on.
#[tactic(auto, unfolding(dl_rules_stream::specs::Looks::look_answers))]
pub fn after_look(alloc: Global, stream: &Name, answer: &MetaAnswer) -> Result<LookAnswer, NoMemory>
    ensures { IfOk result (λ a. look_move a
        ≡ goes_by looked_of (look_answers stream.now Looking answer.now)) }
{
    match answer {
        MetaAnswer::Many(answers) => after_many(alloc, stream, answers.as_slice()),
        MetaAnswer::Failed { place, why } => after_failed(alloc, stream, *place, *why),
        _ => Ok(LookAnswer::Stays),
    }
}
