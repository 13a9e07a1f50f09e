use dl_types::limit::LimitName;

/// How a run over the lines of a schedule ends.
#[derive(Clone, Copy, Debug, PartialEq, Eq)]
pub enum Ended {
    /// All lines were run.
    Done,
    /// The line of this number, from 1, is outside the grammar: no line goes on at this column, from 1.
    BadLine { line: u64, column: u64 },
    /// A line is past this limit.
    Limit { name: LimitName, number: u64 },
}
