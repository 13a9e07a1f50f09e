use crate::new_writer::NewWriter;
use dl_msg::turn::Turn;
use dl_types::dlsn::Dlsn;

/// What an order that opens a stream answers.
#[derive(Drop)]
pub struct OpenTurn {
    /// What it does next.
    pub turn: Turn<NewWriter>,
    /// Where it completed a segment by what it heard, the place below which all rows of that segment stand.
    pub recovered: Option<Dlsn>,
}
