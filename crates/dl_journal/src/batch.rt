use dl_types::body::Body;

/// What one commit put into a journal, and its number: one more than that of the batch before.
#[derive(Drop, Debug)]
pub struct Batch {
    /// The number, at most 9,223,372,036,854,775,807.
    pub number: u64,
    /// The bytes that were committed. Those of a load are a piece of the file's, which all its batches share.
    pub body: Body,
}
