ghost use Rattle.std.specs.Prelude.{◌≡◌, ◌++◌, OnOk, None, Some};
ghost use Rattle.dl_transcript.specs.Lines.{print_all};
ghost use Rattle.dlog.specs.Machine.{State, start, one, settle, finish, on_log, confirm, Within};

use crate::log::{Log, SEGMENT};
use crate::order::Order;
use dl_schedule::step::Step;
use dl_transcript::event::Event;
use dl_transcript::print::{put_event, put_joined, put_writer};
use dl_types::memory::NoMemory;
use dl_types::session::SessionId;
use std::alloc::Global;
use std::marker::Model;

/// The plain machine: one stream that a client writes, without bookies and without a network. Contracts see it as the
/// state of specs/Machine.antt. After want of memory a machine has ended, and is not used again.
#[derive(Drop)]
pub struct Machine {
    alloc: Global,
    sessions: u64,
    order: Option<Order>,
    log: Option<Log>,
}

impl Model for Machine {
    ghost use Rattle.dlog.specs.Machine.{State};

    ghost Value = { State };

    ghost view = { λ m. record { sessions = m.sessions; order = m.order; log = m.log } };
}

impl Machine {
    /// A machine before the first step.
    pub fn new(alloc: Global) -> Machine
        ensures { result ≡ start }
    {
        Machine {
            alloc,
            sessions: 0,
            order: None,
            log: None,
        }
    }

    /// The step of this line, from 1; its events are printed at the end of a text as they come. After want of memory the
    /// text is of no more use.
    #[tactic(auto, unfolding(crate::specs::Machine::one))]
    pub fn step(&mut self, line: u32, step: Step, out: &mut Vec<u8>) -> Result<(), NoMemory>
        requires { Within line self.old }
        ensures state { OnOk result (self.new ≡ (one self.old step).0) }
        ensures shown { OnOk result
            (out.new.items ≡ out.old.items ++ print_all line (one self.old step).1) }
    {
        match step {
            Step::Join { client } => {
                self.sessions += 1;
                put_joined(out, line, client, SessionId::new(self.sessions))
            }
            Step::Create { client, stream } => {
                self.order = Some(Order::Create { client, stream });
                Ok(())
            }
            Step::Open { client, stream } => {
                self.order = Some(Order::Open { client, stream });
                Ok(())
            }
            Step::Append { txid, payload, .. } => match &mut self.log {
                None => put_event(out, line, &Event::Nothing),
                Some(log) => log.append(txid, payload, line, out),
            },
            Step::Flush { .. } => match &mut self.log {
                None => put_event(out, line, &Event::Nothing),
                Some(log) => log.flush(line, out),
            },
            Step::Settle => self.settle(line, out),
            _ => Ok(()),
        }
    }

    /// The order under way ends, and then the entries that were sent are confirmed.
    #[tactic(auto, unfolding(crate::specs::Machine::settle))]
    fn settle(&mut self, line: u32, out: &mut Vec<u8>) -> Result<(), NoMemory>
        ensures state { OnOk result (self.new ≡ (settle self.old).0) }
        ensures shown { OnOk result
            (out.new.items ≡ out.old.items ++ print_all line (settle self.old).1) }
    {
        self.finish(line, out)?;
        match &mut self.log {
            None => Ok(()),
            Some(log) => log.confirm(line, out),
        }
    }

    /// The order under way, if there is one, ends well.
    fn finish(&mut self, line: u32, out: &mut Vec<u8>) -> Result<(), NoMemory>
        ensures state { OnOk result (self.new ≡ (finish self.old self.old.order).0) }
        ensures shown { OnOk result
            (out.new.items ≡ out.old.items ++ print_all line (finish self.old self.old.order).1) }
    {
        match self.order.take() {
            None => Ok(()),
            Some(order) => self.end(order, line, out),
        }
    }

    /// This order ends well.
    fn end(&mut self, order: Order, line: u32, out: &mut Vec<u8>) -> Result<(), NoMemory>
        requires { self.old.order ≡ None }
        ensures state { OnOk result (self.new ≡ (finish self.old (Some order)).0) }
        ensures shown { OnOk result
            (out.new.items ≡ out.old.items ++ print_all line (finish self.old (Some order)).1) }
    {
        match order {
            Order::Create { client, stream } => {
                put_event(out, line, &Event::Created { client, stream })
            }
            Order::Open { client, stream } => {
                put_writer(out, line, client, &stream, SEGMENT)?;
                self.log = Some(Log::new(self.alloc, client, stream));
                Ok(())
            }
        }
    }
}
