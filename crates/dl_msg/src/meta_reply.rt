use dl_types::meta_answer::MetaAnswer;

/// What the metadata node replies to a request.
#[derive(Clone, Debug, Drop)]
pub enum MetaReply {
    /// The session isn't live, and the request was not run.
    Expired,
    /// The request was run, and this is its answer.
    Answer(MetaAnswer),
}
