//! Copies of answers of the metadata node, which an order is let hear. They share all bytes.

ghost use Rattle.std.specs.Prelude.{◌≡◌, IfOk};

use dl_types::memory::NoMemory;
use dl_types::meta_answer::MetaAnswer;
use dl_types::names::Names;
use dl_types::one_answer::OneAnswer;
use dl_types::one_answers::OneAnswers;
use dl_types::path::Path;
use std::alloc::Global;

/// Other owners of these names.
fn share_names(alloc: Global, names: &[Path]) -> Result<Names, NoMemory>
    ensures { IfOk result (λ shared. shared ≡ names.now) }
{
    let mut shared = Vec::with_capacity(alloc, names.len())?;
    for name in names {
        shared.push(name.share()?)?;
    }
    Ok(Names::from_vec(shared))
}

/// Another owner of the answer to one operation.
fn share_one(alloc: Global, answer: &OneAnswer) -> Result<OneAnswer, NoMemory>
    ensures { IfOk result (λ shared. shared ≡ answer.now) }
{
    match answer {
        OneAnswer::Made(path) => Ok(OneAnswer::Made(path.share()?)),
        OneAnswer::Done => Ok(OneAnswer::Done),
        OneAnswer::Version(version) => Ok(OneAnswer::Version(*version)),
        OneAnswer::Bytes { bytes, version } => Ok(OneAnswer::Bytes {
            bytes: bytes.share()?,
            version: *version,
        }),
        OneAnswer::Names(names) => Ok(OneAnswer::Names(share_names(alloc, names.as_slice())?)),
    }
}

/// Other owners of the answers to several operations.
fn share_many(alloc: Global, answers: &[OneAnswer]) -> Result<OneAnswers, NoMemory>
    ensures { IfOk result (λ shared. shared ≡ answers.now) }
{
    let mut shared = Vec::with_capacity(alloc, answers.len())?;
    for answer in answers {
        shared.push(share_one(alloc, answer)?)?;
    }
    Ok(OneAnswers::from_vec(shared))
}

/// Another owner of an answer.
pub(crate) fn share_answer(alloc: Global, answer: &MetaAnswer) -> Result<MetaAnswer, NoMemory>
    ensures { IfOk result (λ shared. shared ≡ answer.now) }
{
    match answer {
        MetaAnswer::One(one) => Ok(MetaAnswer::One(share_one(alloc, one)?)),
        MetaAnswer::Many(many) => Ok(MetaAnswer::Many(share_many(alloc, many.as_slice())?)),
        MetaAnswer::Failed { place, why } => Ok(MetaAnswer::Failed {
            place: *place,
            why: *why,
        }),
    }
}
