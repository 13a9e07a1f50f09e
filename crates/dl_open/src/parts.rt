//! The turns of an order's parts.

ghost use Rattle.std.specs.Prelude.{◌≡◌};
ghost use Rattle.dl_types.specs.declared.meta_op.MetaOp.{MetaOp};
ghost use Rattle.dl_msg.specs.declared.turn.Turn.TheVariants.{Ask};

use dl_msg::turn::Turn;

/// The first turn of a part, by which it asks for its first request, as that of the order.
pub(crate) fn first_turn<A: Drop, B>(turn: Turn<A>) -> Turn<B>
    ensures { (op : MetaOp) → turn ≡ Ask op → result ≡ Ask op }
{
    match turn {
        Turn::Wait => Turn::Wait,
        Turn::Ask(request) => Turn::Ask(request),
        Turn::Tell(letters) => Turn::Tell(letters),
        Turn::Done(_) => Turn::Wait,
        Turn::Refused(refusal) => Turn::Refused(refusal),
    }
}
