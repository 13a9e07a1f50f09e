ghost use Rattle.std.specs.Prelude.{◌≡◌, ◌+◌, ◌<◌, ◌^◌, ◌==◌, ◌&&◌, [], ℕ, Bool, true, List, Some, IfOk, OnErr};
ghost use Rattle.dl_msg.specs.declared.heard.Heard.TheVariants.{Reply};
ghost use Rattle.dl_msg.specs.declared.meta_reply.MetaReply.TheVariants.{Expired};
ghost use Rattle.dl_msg.specs.declared.msg.Msg.TheVariants.{EntryIs};
ghost use Rattle.dl_msg.specs.declared.turn.Turn.TheVariants as turns;
ghost use Rattle.dl_rules_stream.specs.Makes.{make_first};
ghost use Rattle.dl_rules_stream.specs.Purges.{purge_first};
ghost use Rattle.dl_rules_stream.specs.Removes.{remove_first};
ghost use Rattle.dl_rules_stream.specs.Requests.{Request, op_of};
ghost use Rattle.dl_rules_stream.specs.Truncates.{truncate_first};
ghost use Rattle.dl_rules_client.specs.Acts.{Input, Line, Came, ClientArgs, no_acts};
ghost use Rattle.dl_rules_client.specs.Clients.{bookie_in, if_free, meta_hears, reply_hears};
ghost use Rattle.dl_rules_client.specs.Clients.{tagged_hears, takes_line, takes_msg, takes_order};
ghost use Rattle.dl_rules_client.specs.Moves as moves;
ghost use Rattle.dl_rules_client.specs.Orders.{begins};
ghost use Rattle.dl_rules_client.specs.Views as rule;
ghost use Rattle.dl_rules_client.specs.Views.{ClientNow, stays, truncate_args};
ghost use Rattle.dl_acts.specs.declared.front.Front.TheVariants as front;
ghost use Rattle.dl_client.specs.Facts.{args_of};
ghost use Rattle.dl_client.specs.Hearing.{hears_in, replied};
ghost use Rattle.dl_client.specs.Moves.{after_turn, is_record, is_tag, parts_at, without_order, HasTask};
ghost use Rattle.dl_client.specs.Standing.{Does, NowStands, OrderStands, StandsFor, Takes};

use crate::copies::share_answer;
use crate::doing::Doing;
use crate::order::Order;
use crate::turns::first_turn;
use bytes::Bytes;
use dl_acts::acts::Acts;
use dl_acts::asked::Asked;
use dl_acts::front::Front;
use dl_acts::parts::Parts;
use dl_formats::conf::Conf;
use dl_msg::heard::Heard;
use dl_msg::letter::Letter;
use dl_msg::meta_reply::MetaReply;
use dl_msg::msg::Msg;
use dl_msg::turn::Turn;
use dl_namespace::make::Make;
use dl_namespace::remove::Remove;
use dl_schedule::step::Step;
use dl_transcript::event::Event;
use dl_trunc::purge::Purge;
use dl_trunc::truncate::Truncate;
use dl_types::address::Address;
use dl_types::client::ClientId;
use dl_types::dlsn::Dlsn;
use dl_types::memory::NoMemory;
use dl_types::meta_answer::MetaAnswer;
use dl_types::meta_op::MetaOp;
use dl_types::name::Name;
use dl_types::refusal::Refusal;
use dl_types::session::SessionId;
use std::alloc::Global;
use std::marker::Model;

/// A client process: it takes lines of the schedule and letters, and runs one order at a time.
#[derive(Drop)]
pub struct Client {
    alloc: Global,
    number: ClientId,
    session: SessionId,
    conf: Conf,
    asked: u32,
    awaits: bool,
    taken: u32,
    order: Option<Order>,
}

impl Model for Client {
    ghost use Rattle.dl_client.specs.Facts.{ClientFacts};

    ghost Value = { ClientFacts };

    ghost view = { λ c. record {
      number = c.number;
      session = c.session;
      conf = c.conf;
      asked = c.asked;
      awaits = c.awaits;
      taken = c.taken;
      order = c.order;
    } };
}

/// The number of the bookie from which a letter is.
fn bookie_in(from: Address) -> u8
    ensures { result ≡ bookie_in from }
{
    match from {
        Address::Bookie(bookie) => bookie.number(),
        _ => 0,
    }
}

/// Whether a line takes records, or sends them.
fn is_record(step: &Step) -> bool
    ensures { result ≡ is_record step.now }
{
    match step {
        Step::Append { .. } => true,
        Step::Set { .. } => true,
        Step::Flush { .. } => true,
        _ => false,
    }
}

impl Client {
    /// A client process of this number that begins with this session and configuration; earlier processes of the number have had so
    /// many records taken.
    #[tactic(auto, unfolding(dl_rules_client::specs::Clients::client_of))]
    pub fn new(
        alloc: Global,
        number: ClientId,
        session: SessionId,
        conf: Conf,
        calls: u32,
    ) -> Result<Client, NoMemory>
        ensures { IfOk result (StandsFor (args_of number session conf calls) []) }
    {
        Ok(Client {
            alloc,
            number,
            session,
            conf,
            asked: 0,
            awaits: false,
            taken: calls,
            order: None,
        })
    }

    /// It does nothing.
    fn quiet(&self) -> Parts
        ensures { result ≡ parts_at self.now front.Nothing turns.Wait }
    {
        Parts::new(self.alloc, self.number, self.session, Front::Nothing)
    }

    /// It is refused something.
    fn refuses(&self, refusal: Refusal) -> Parts
        ensures { result ≡ parts_at self.now front.Nothing (turns.Refused refusal) }
    {
        let client = self.number;
        let event = Event::Refused { client, refusal };
        Parts::ending(self.alloc, client, self.session, Front::Nothing, event)
    }

    /// Its order ends.
    fn end(&mut self)
        ensures { self.new ≡ without_order self.old }
    {
        self.order = None;
        self.awaits = false;
    }

    /// It makes a request.
    fn ask(&mut self, first: Front, op: MetaOp) -> Parts
        requires few { self.old.asked + 1 < 2 ^ 32 }
        ensures stands { self.new ≡ after_turn self.old (turns.Ask op) }
        ensures parts { result ≡ parts_at self.old first (turns.Ask op) }
    {
        let number = self.asked + 1;
        self.asked = number;
        self.awaits = true;
        let asked = Asked { number, op };
        Parts::asking(self.alloc, self.number, self.session, first, asked)
    }

    /// Its order goes on so, behind what it shows first.
    fn go_on(&mut self, first: Front, turn: Turn<Event>) -> Parts
        requires few { self.old.asked + 1 < 2 ^ 32 }
        ensures stands { self.new ≡ after_turn self.old turn }
        ensures parts { result ≡ parts_at self.old first turn }
    {
        match turn {
            Turn::Wait => Parts::new(self.alloc, self.number, self.session, first),
            Turn::Ask(op) => self.ask(first, op),
            Turn::Tell(letters) => Parts::telling(self.number, self.session, first, letters),
            Turn::Done(event) => {
                self.end();
                Parts::ending(self.alloc, self.number, self.session, first, event)
            }
            Turn::Refused(refusal) => {
                self.end();
                let client = self.number;
                let event = Event::Refused { client, refusal };
                Parts::ending(self.alloc, client, self.session, first, event)
            }
        }
    }

    /// Its order under way, where there is one, hears something.
    fn order_hears(&mut self, heard: &Heard) -> Result<Parts, NoMemory>
        requires few { self.old.asked + 1 < 2 ^ 32 }
        ensures goes { IfOk result (λ parts. (me : ClientArgs) (n : ClientNow)
            → NowStands me n self.old
            → Does me (hears_in me n heard.now n.order) parts self.new) }
        ensures kept { OnErr result (self.new ≡ self.old) }
    {
        let Some(order) = &mut self.order else {
            return Ok(self.quiet());
        };
        let turn = order.hear(self.number, heard)?;
        Ok(self.go_on(Front::Nothing, turn))
    }

    /// The answer to its request, for which it waits.
    fn hear_answer(&mut self, answer: &MetaAnswer) -> Result<Parts, NoMemory>
        requires few { self.old.asked + 1 < 2 ^ 32 }
        requires awaits { self.old.awaits ≡ true }
        ensures goes { IfOk result (λ parts. (me : ClientArgs) (n : ClientNow)
            → NowStands me n self.old
            → Does me (hears_in me (replied n) (Reply answer.now) n.order) parts self.new) }
        ensures kept { OnErr result (self.new ≡ self.old) }
    {
        let shared = share_answer(self.alloc, answer)?;
        let heard = Heard::Reply(shared);
        self.awaits = false;
        match self.order_hears(&heard) {
            Ok(parts) => Ok(parts),
            Err(fault) => {
                self.awaits = true;
                Err(fault)
            }
        }
    }

    /// Its session has ended, and so does its order, where there is one.
    fn hear_expired(&mut self) -> Parts
        ensures { (me : ClientArgs) (n : ClientNow) → NowStands me n self.old
            → Does me (reply_hears me (replied n) n.order Expired) result self.new }
    {
        if self.order.is_none() {
            self.awaits = false;
            return self.quiet();
        }
        self.end();
        self.refuses(Refusal::Expired {
            session: self.session,
        })
    }

    /// Whether a reply to the request of this number in a session is that to the present one.
    fn is_present(&self, session: u64, number: u32) -> bool
        ensures { result ≡ (session == self.now.session && number == self.now.asked
            && self.now.awaits) }
    {
        session == self.session.number() && number == self.asked && self.awaits
    }

    /// The reply to its request, for which it waits.
    fn hear_present(&mut self, reply: &MetaReply) -> Result<Parts, NoMemory>
        requires few { self.old.asked + 1 < 2 ^ 32 }
        requires awaits { self.old.awaits ≡ true }
        ensures goes { IfOk result (λ parts. (me : ClientArgs) (n : ClientNow)
            → NowStands me n self.old
            → Does me (reply_hears me (replied n) n.order reply.now) parts self.new) }
        ensures kept { OnErr result (self.new ≡ self.old) }
    {
        match reply {
            MetaReply::Answer(answer) => self.hear_answer(answer),
            MetaReply::Expired => Ok(self.hear_expired()),
        }
    }

    /// A reply counts for the present request alone, and once.
    fn hear_reply(
        &mut self,
        session: u64,
        number: u32,
        reply: &MetaReply,
    ) -> Result<Parts, NoMemory>
        requires few { self.old.asked + 1 < 2 ^ 32 }
        ensures goes { IfOk result (λ parts. (me : ClientArgs) (n : ClientNow)
            → NowStands me n self.old
            → Does me (meta_hears me n session number reply.now) parts self.new) }
        ensures kept { OnErr result (self.new ≡ self.old) }
    {
        if self.is_present(session, number) {
            return self.hear_present(reply);
        }
        Ok(self.quiet())
    }

    /// Whether its order under way has this tag.
    fn has_tag(&self, tag: u32) -> bool
        ensures { result ≡ is_tag tag self.now.order }
    {
        match &self.order {
            Some(order) => tag == order.line,
            None => false,
        }
    }

    /// A message with a tag counts for the order of its line alone.
    fn hear_tagged(&mut self, tag: u32, from: Address, msg: Msg) -> Result<Parts, NoMemory>
        requires few { self.old.asked + 1 < 2 ^ 32 }
        ensures goes { IfOk result (λ parts. (me : ClientArgs) (n : ClientNow)
            → NowStands me n self.old
            → Does me (tagged_hears me n n.order tag (bookie_in from) msg) parts self.new) }
        ensures kept { OnErr result (self.new ≡ self.old) }
    {
        if self.has_tag(tag) {
            let heard = Heard::From(bookie_in(from), msg);
            return self.order_hears(&heard);
        }
        Ok(self.quiet())
    }

    /// The bytes of an entry for which its order asked.
    fn hear_entry(
        &mut self,
        tag: u32,
        from: Address,
        ledger: u64,
        entry: u64,
        bytes: &Bytes,
    ) -> Result<Parts, NoMemory>
        requires few { self.old.asked + 1 < 2 ^ 32 }
        ensures goes { IfOk result (λ parts. (me : ClientArgs) (n : ClientNow)
            → NowStands me n self.old → Does me (tagged_hears me n n.order tag (bookie_in from)
            (EntryIs tag ledger entry bytes.now)) parts self.new) }
        ensures kept { OnErr result (self.new ≡ self.old) }
    {
        let bytes = bytes.clone()?;
        let msg = Msg::EntryIs {
            tag,
            ledger,
            entry,
            bytes,
        };
        self.hear_tagged(tag, from, msg)
    }

    /// A message, by its kind.
    #[tactic(auto, unfolding(dl_rules_client::specs::Clients::takes_msg))]
    fn hear_msg(&mut self, from: Address, msg: &Msg) -> Result<Parts, NoMemory>
        requires few { self.old.asked + 1 < 2 ^ 32 }
        ensures goes { IfOk result (λ parts. (me : ClientArgs) (n : ClientNow)
            → NowStands me n self.old
            → Does me (takes_msg me n (bookie_in from) msg.now) parts self.new) }
        ensures kept { OnErr result (self.new ≡ self.old) }
    {
        match msg {
            &Msg::CopyOk { tag, ledger, entry } => {
                self.hear_tagged(tag, from, Msg::CopyOk { tag, ledger, entry })
            }
            &Msg::LacIs {
                tag,
                ledger,
                fenced,
                count,
            } => self.hear_tagged(
                tag,
                from,
                Msg::LacIs {
                    tag,
                    ledger,
                    fenced,
                    count,
                },
            ),
            &Msg::NoEntry {
                tag,
                ledger,
                entry,
                fenced,
            } => self.hear_tagged(
                tag,
                from,
                Msg::NoEntry {
                    tag,
                    ledger,
                    entry,
                    fenced,
                },
            ),
            Msg::EntryIs {
                tag,
                ledger,
                entry,
                bytes,
            } => self.hear_entry(*tag, from, *ledger, *entry, bytes),
            Msg::MetaReply {
                session,
                number,
                reply,
            } => self.hear_reply(*session, *number, reply),
            _ => Ok(self.quiet()),
        }
    }

    /// Takes a letter. A reply counts where session and number are those of the present request, and once; a message with a tag
    /// counts for the order of its line alone; what else comes changes nothing. Want of memory leaves the client as it is.
    pub fn hear(&mut self, letter: &Letter) -> Result<Acts, NoMemory>
        requires few { self.old.asked + 1 < 2 ^ 32 }
        ensures takes { IfOk result (λ acts. (me : ClientArgs) (view : List Input)
            → StandsFor me view self.old → Takes me view (Came letter.now) acts self.new) }
        ensures kept { OnErr result (self.new ≡ self.old) }
    {
        let parts = self.hear_msg(letter.from, &letter.msg)?;
        Ok(Acts::new(parts, None))
    }

    /// An order begins with its first turn.
    fn begin(&mut self, order: Order, turn: Turn<Event>) -> Parts
        requires few { self.old.asked + 1 < 2 ^ 32 }
        ensures { (me : ClientArgs) (n : ClientNow) (o : rule.Order) (r : Request)
            → NowStands me n self.old → OrderStands me o order → turn ≡ turns.Ask (op_of r)
            → Does me (moves.asks me n o no_acts r) result self.new }
    {
        self.order = Some(order);
        self.go_on(Front::Nothing, turn)
    }

    /// It makes a stream.
    fn begin_make(&mut self, line: u32, stream: &Name) -> Result<Parts, NoMemory>
        requires few { self.old.asked + 1 < 2 ^ 32 }
        ensures goes { IfOk result (λ parts. (me : ClientArgs) (n : ClientNow)
            → NowStands me n self.old → Does me (begins me n line stream.now (rule.Makes [])
            (λ o. (make_first stream.now).1)) parts self.new) }
        ensures kept { OnErr result (self.new ≡ self.old) }
    {
        let (task, turn) = Make::start(self.alloc, line, stream)?;
        let stream = stream.share()?;
        let doing = Doing::Makes(task);
        let turn = first_turn(turn);
        Ok(self.begin(
            Order {
                line,
                stream,
                doing,
            },
            turn,
        ))
    }

    /// It removes a stream.
    fn begin_remove(&mut self, line: u32, stream: &Name) -> Result<Parts, NoMemory>
        requires few { self.old.asked + 1 < 2 ^ 32 }
        ensures goes { IfOk result (λ parts. (me : ClientArgs) (n : ClientNow)
            → NowStands me n self.old → Does me (begins me n line stream.now (rule.Removes [])
            (λ o. (remove_first stream.now).1)) parts self.new) }
        ensures kept { OnErr result (self.new ≡ self.old) }
    {
        let (task, turn) = Remove::start(self.alloc, line, stream)?;
        let stream = stream.share()?;
        let doing = Doing::Removes(task);
        let turn = first_turn(turn);
        Ok(self.begin(
            Order {
                line,
                stream,
                doing,
            },
            turn,
        ))
    }

    /// It moves the point of a stream.
    fn begin_truncate(&mut self, line: u32, stream: &Name, to: Dlsn) -> Result<Parts, NoMemory>
        requires few { self.old.asked + 1 < 2 ^ 32 }
        ensures goes { IfOk result (λ parts. (me : ClientArgs) (n : ClientNow)
            → NowStands me n self.old
            → Does me (begins me n line stream.now (rule.Truncates to [])
            (λ o. (truncate_first (truncate_args o to)).1)) parts self.new) }
        ensures kept { OnErr result (self.new ≡ self.old) }
    {
        let (task, turn) = Truncate::start(self.alloc, line, stream, to)?;
        let stream = stream.share()?;
        let doing = Doing::Truncates(task);
        let turn = first_turn(turn);
        Ok(self.begin(
            Order {
                line,
                stream,
                doing,
            },
            turn,
        ))
    }

    /// It deletes the segments below the point of a stream.
    fn begin_purge(&mut self, line: u32, stream: &Name) -> Result<Parts, NoMemory>
        requires few { self.old.asked + 1 < 2 ^ 32 }
        ensures goes { IfOk result (λ parts. (me : ClientArgs) (n : ClientNow)
            → NowStands me n self.old → Does me (begins me n line stream.now (rule.Purges [])
            (λ o. (purge_first stream.now).1)) parts self.new) }
        ensures kept { OnErr result (self.new ≡ self.old) }
    {
        let (task, turn) = Purge::start(self.alloc, line, stream)?;
        let stream = stream.share()?;
        let doing = Doing::Purges(task);
        let turn = first_turn(turn);
        Ok(self.begin(
            Order {
                line,
                stream,
                doing,
            },
            turn,
        ))
    }

    /// An order, where none is under way.
    #[tactic(auto, unfolding(dl_rules_client::specs::Clients::takes_order))]
    fn take_order(&mut self, line: u32, step: &Step) -> Result<Parts, NoMemory>
        requires few { self.old.asked + 1 < 2 ^ 32 }
        requires task { HasTask step.now }
        ensures goes { IfOk result (λ parts. (me : ClientArgs) (n : ClientNow)
            → NowStands me n self.old → Does me (takes_order me n line step.now) parts self.new) }
        ensures kept { OnErr result (self.new ≡ self.old) }
    {
        match step {
            Step::Create { stream, .. } => self.begin_make(line, stream),
            Step::Remove { stream, .. } => self.begin_remove(line, stream),
            Step::Purge { stream, .. } => self.begin_purge(line, stream),
            Step::Truncate { stream, place, .. } => {
                self.begin_truncate(line, stream, place.dlsn())
            }
            Step::Commit { .. } => Ok(self.refuses(Refusal::NoWriter)),
            Step::Close { .. } => Ok(self.refuses(Refusal::NoWriter)),
            _ => Ok(self.quiet()),
        }
    }

    /// An order; a client has one under way.
    fn take_if_free(&mut self, line: u32, step: &Step) -> Result<Parts, NoMemory>
        requires few { self.old.asked + 1 < 2 ^ 32 }
        requires task { HasTask step.now }
        ensures goes { IfOk result (λ parts. (me : ClientArgs) (n : ClientNow)
            → NowStands me n self.old
            → Does me (if_free me n n.order line step.now) parts self.new) }
        ensures kept { OnErr result (self.new ≡ self.old) }
    {
        if let Some(order) = &self.order {
            let line = order.line;
            return Ok(self.refuses(Refusal::Busy { line }));
        }
        let parts = self.take_order(line, step)?;
        Ok(parts)
    }

    /// A line; records are taken and sent at once, also while an order is under way.
    fn take_line(&mut self, line: u32, step: &Step) -> Result<Parts, NoMemory>
        requires few { self.old.asked + 1 < 2 ^ 32 }
        requires task { HasTask step.now }
        ensures goes { IfOk result (λ parts. (me : ClientArgs) (n : ClientNow)
            → NowStands me n self.old → Does me (takes_line me n line step.now) parts self.new) }
        ensures kept { OnErr result (self.new ≡ self.old) }
    {
        if is_record(step) {
            return Ok(self.refuses(Refusal::NoWriter));
        }
        let parts = self.take_if_free(line, step)?;
        Ok(parts)
    }

    /// Takes a line of the schedule, by its number. A client has one order under way, and another one is refused as `Busy`. Want of
    /// memory leaves the client as it is.
    pub fn order(&mut self, line: u32, step: &Step) -> Result<Acts, NoMemory>
        requires few { self.old.asked + 1 < 2 ^ 32 }
        requires task { HasTask step.now }
        ensures takes { IfOk result (λ acts. (me : ClientArgs) (view : List Input)
            → StandsFor me view self.old → Takes me view (Line line step.now) acts self.new) }
        ensures kept { OnErr result (self.new ≡ self.old) }
    {
        let parts = self.take_line(line, step)?;
        Ok(Acts::new(parts, None))
    }
}
