//! Requests on the members of a stream's lock (ZooKeeper recipes, "Locks").

ghost use Rattle.std.specs.Prelude.{◌≡◌, IfOk};
ghost use Rattle.dl_rules_stream.specs.Requests.{MakeMember, ListMembers, LeaveLock, op_of};

use crate::build::create;
use dl_formats::paths::{lock_path, member_stem};
use dl_types::memory::NoMemory;
use dl_types::meta_op::MetaOp;
use dl_types::mode::Mode;
use dl_types::name::Name;
use dl_types::one_op::OneOp;
use dl_types::path::Path;
use std::alloc::Global;

/// The request that makes a member of a stream's lock, which goes with its session.
#[tactic(auto, unfolding(dl_rules_stream::specs::Requests::op_of))]
pub fn make_member(alloc: Global, stream: &Name) -> Result<MetaOp, NoMemory>
    ensures { IfOk result (λ op. op ≡ op_of (MakeMember stream.now)) }
{
    let path = member_stem(alloc, stream)?;
    let member = create(path, Vec::new(alloc), Mode::EphemeralCounted)?;
    Ok(MetaOp::One(member))
}

/// The request that lists the members of a stream's lock.
#[tactic(auto, unfolding(dl_rules_stream::specs::Requests::op_of))]
pub fn list_members(alloc: Global, stream: &Name) -> Result<MetaOp, NoMemory>
    ensures { IfOk result (λ op. op ≡ op_of (ListMembers stream.now)) }
{
    let path = lock_path(alloc, stream)?;
    Ok(MetaOp::One(OneOp::Children { path }))
}

/// The request that deletes a member of a lock.
#[tactic(auto, unfolding(dl_rules_stream::specs::Requests::op_of))]
pub fn leave_lock(member: &Path) -> Result<MetaOp, NoMemory>
    ensures { IfOk result (λ op. op ≡ op_of (LeaveLock member.now)) }
{
    let path = member.share()?;
    Ok(MetaOp::One(OneOp::Delete {
        path,
        version: None,
    }))
}
