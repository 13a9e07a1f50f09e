use dl_msg::msg::Msg;

/// What a storage node does with a message.
#[derive(Debug, Drop)]
pub enum Taken {
    /// The message is answered by a look at what is durable.
    Look,
    /// The reply waits for the next commit.
    Queued,
    /// The reply.
    Answer(Msg),
}
