//! The versions of nodes that were set, in answers.

ghost use Rattle.std.specs.Prelude.{◌≡◌};
ghost use Rattle.dl_rules_stream.specs.Opens.{version_in, last_version, alloc_version_in, maxseq_version_in};

use dl_msg::heard::Heard;
use dl_types::meta_answer::MetaAnswer;
use dl_types::one_answer::OneAnswer;

/// The version that an operation answered.
fn version_in(answer: &OneAnswer) -> u64
    ensures { result ≡ version_in answer.now }
{
    match answer {
        OneAnswer::Version(now) => *now,
        _ => 0,
    }
}

/// The version that the last of these answered.
fn last_version(answers: &[OneAnswer]) -> u64
    ensures { result ≡ last_version answers.now }
{
    match answers.last() {
        Some(answer) => version_in(answer),
        None => 0,
    }
}

/// The version of `alloc` that the request which named a ledger answered; its last operation set it.
pub(crate) fn alloc_version_in(heard: &Heard) -> u64
    ensures { result ≡ alloc_version_in heard.now }
{
    match heard {
        Heard::Reply(MetaAnswer::Many(answers)) => last_version(answers.as_slice()),
        _ => 0,
    }
}

/// The version of `maxseq` that the start of a segment answered; its second operation set it.
pub(crate) fn maxseq_version_in(answers: &[OneAnswer]) -> u64
    ensures { result ≡ maxseq_version_in answers.now }
{
    match answers {
        [_, answer, ..] => version_in(answer),
        _ => 0,
    }
}
