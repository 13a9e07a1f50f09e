ghost use Rattle.std.specs.Prelude.{◌≡◌, IfOk};
ghost use Rattle.dl_msg.specs.declared.turn.Turn.TheVariants as turn;
ghost use Rattle.dl_rules_stream.specs.Requests.{Request, op_of};
ghost use Rattle.dl_rules_stream.specs.Orders.{no_way_on, tells};
ghost use Rattle.dl_requests.specs.Turns.{turn_of, stage_behind, turn_in};
ghost use Rattle.dl_requests.specs.declared.moves.Move.TheVariants.{Goes};

use crate::refusals::no_way_on;
use dl_msg::letters::Letters;
use dl_msg::turn::Turn;
use dl_types::memory::NoMemory;
use dl_types::meta_op::MetaOp;
use dl_types::refusal::Refusal;
use dl_types::why::Why;
use std::alloc::Global;

/// What a task does at what it hears: it stays and waits, or goes to another stage with a turn.
#[derive(Drop)]
pub enum Move<S, A> {
    /// It waits where it is.
    Stays,
    /// It goes to this stage, and answers with this turn.
    Goes(S, Turn<A>),
}

/// A task takes a move: it is at the stage behind it from now on, and answers with its turn.
pub fn take<S: Drop, A>(stage: &mut S, step: Move<S, A>) -> Turn<A>
    ensures stage { stage.new ≡ stage_behind stage.old step }
    ensures turn { result ≡ turn_in step }
{
    match step {
        Move::Stays => Turn::Wait,
        Move::Goes(next, turn) => {
            *stage = next;
            turn
        }
    }
}

/// The task asks for a request, and waits at this stage for its answer.
pub fn asks<S, A>(stage: S, request: MetaOp) -> Move<S, A>
    ensures { result ≡ Goes stage (turn.Ask request) }
{
    Move::Goes(stage, Turn::Ask(request))
}

/// Messages are told, where there are any.
pub fn tells<A>(letters: Letters) -> Turn<A>
    ensures { result ≡ turn_of (tells letters) }
{
    if letters.as_slice().is_empty() {
        Turn::Wait
    } else {
        Turn::Tell(letters)
    }
}

/// The task is done with this value; this is the stage of one that is over.
pub fn done<S, A>(over: S, value: A) -> Move<S, A>
    ensures { result ≡ Goes over (turn.Done value) }
{
    Move::Goes(over, Turn::Done(value))
}

/// The task is refused; this is the stage of one that is over.
pub fn refused<S, A>(over: S, refusal: Refusal) -> Move<S, A>
    ensures { result ≡ Goes over (turn.Refused refusal) }
{
    Move::Goes(over, Turn::Refused(refusal))
}

/// The task is refused, since its request failed at this place and there is no way on from there; this is the stage of one
/// that is over.
pub fn gives_up<S: Drop, A>(
    alloc: Global,
    over: S,
    request: MetaOp,
    place: u16,
    why: Why,
) -> Result<Move<S, A>, NoMemory>
    ensures { IfOk result (λ move. (r : Request) → request ≡ op_of r
        → move ≡ Goes over (turn.Refused (no_way_on r place why))) }
{
    let refusal = no_way_on(alloc, request, place, why)?;
    Ok(refused(over, refusal))
}
