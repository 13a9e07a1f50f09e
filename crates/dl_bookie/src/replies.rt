ghost use Rattle.std.specs.Prelude.{◌≡◌, ◌==◌, ◌<◌, [], ◌∷◌, ◌++◌, length, option_to_list, IfOk};

use dl_msg::msg::Msg;
use dl_rules_nodes::limits::MOST_WAITING;
use dl_types::memory::NoMemory;
use std::alloc::Global;
use std::collections::VecDeque;
use std::marker::Model;

/// A reply of a storage node, and whom it is for.
#[derive(Debug, Drop)]
pub struct Reply {
    /// The client.
    pub client: u16,
    /// The client's session.
    pub session: u64,
    /// The reply.
    pub msg: Msg,
}

/// The replies that leave with a commit, in the order in which they waited. It has room for 4,096 from the start, so that a commit
/// takes no memory. Contracts see it as the list of the replies.
#[derive(Drop)]
pub struct Replies {
    items: VecDeque<Reply>,
}

impl Model for Replies {
    ghost use Rattle.std.specs.Prelude.{◌≤◌, List};
    ghost use Rattle.std.specs.VecDeque.{deque_capacity};
    ghost use Rattle.dl_bookie.specs.declared.replies.Reply.{Reply};

    ghost Value = { List Reply };

    ghost view = { λ r. r.items.items };

    ghost invariant = { λ r. 4096 ≤ deque_capacity r.items };
}

impl Replies {
    /// Room for the replies of a commit, without a reply.
    pub fn new(alloc: Global) -> Result<Replies, NoMemory>
        ensures { IfOk result (λ r. r ≡ []) }
    {
        let items = VecDeque::with_capacity(alloc, MOST_WAITING)?;
        Ok(Replies { items })
    }

    /// How many replies there are.
    pub fn len(&self) -> usize
        ensures { result ≡ length self.now }
    {
        self.items.len()
    }

    /// Whether there is no reply.
    pub fn is_empty(&self) -> bool
        ensures { result ≡ (length self.now == 0) }
    {
        self.items.len() == 0
    }

    /// Takes the first reply out, if there is one.
    pub fn pop_front(&mut self) -> Option<Reply>
        ensures { self.old ≡ option_to_list result ++ self.new }
    {
        self.items.pop_front()
    }

    /// Adds a reply behind the others.
    pub(crate) fn push(&mut self, reply: Reply)
        requires { length self.old < MOST_WAITING }
        ensures { self.new ≡ self.old ++ reply ∷ [] }
    {
        self.items.push_back_reserved(reply);
    }

    /// Leaves no reply.
    pub(crate) fn clear(&mut self)
        ensures { self.new ≡ [] }
    {
        self.items.clear();
    }
}
