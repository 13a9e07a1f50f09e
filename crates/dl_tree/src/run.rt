ghost use Rattle.std.specs.Prelude.{◌≡◌, ◌≤◌, Ok, IfOk, IfErr, length};
ghost use Rattle.dl_tree.specs.Faults.{IsRunFault, at_place};
ghost use Rattle.dl_tree.specs.Trees.{run_of};

use crate::fault::{OneFault, RunFault};
use crate::nodes::Nodes;
use crate::one::one;
use dl_types::one_answer::OneAnswer;
use dl_types::one_op::OneOp;
use std::alloc::Global;

/// A fault of the operation at a place.
fn at_place(fault: OneFault, place: u16) -> RunFault
    ensures { result ≡ at_place fault place }
{
    match fault {
        OneFault::NoMemory => RunFault::NoMemory,
        OneFault::Failed(why) => RunFault::Failed { place, why },
    }
}

/// Operations in order, each on what the earlier ones leave. After a failure the nodes wait to go back.
pub(crate) fn all(
    nodes: &mut Nodes,
    alloc: Global,
    session: u64,
    ops: &[OneOp],
) -> Result<Vec<OneAnswer>, RunFault>
    requires { length ops.now ≤ 65535 }
    ensures ok { IfOk result (λ answers. run_of nodes.old.0 session 0 ops.now
        ≡ Ok (answers.items, nodes.new.0)) }
    ensures err { IfErr result (IsRunFault (run_of nodes.old.0 session 0 ops.now)) }
    ensures back { nodes.new.1 ≡ nodes.old.1 }
{
    let mut answers = Vec::new(alloc);
    for (place, op) in ops.iter().enumerate() {
        match one(nodes, alloc, session, op) {
            Ok(answer) => answers.push(answer)?,
            Err(fault) => return Err(at_place(fault, place as u16)),
        }
    }
    Ok(answers)
}
