//! Operations from their parts.

ghost use Rattle.std.specs.Prelude.{◌≡◌, ◌∷◌, [], IfOk, None, Some};
ghost use Rattle.dl_types.specs.declared.mode.Mode.TheVariants as mode;
ghost use Rattle.dl_types.specs.declared.one_op.OneOp.TheVariants.{Create, Set};
ghost use Rattle.dl_types.specs.declared.meta_op.MetaOp.TheVariants as op;

use dl_types::body::Body;
use dl_types::memory::NoMemory;
use dl_types::meta_op::MetaOp;
use dl_types::mode::Mode;
use dl_types::one_op::OneOp;
use dl_types::one_ops::OneOps;
use dl_types::path::Path;

/// The creation of a node with these bytes.
pub(crate) fn create(path: Path, bytes: Vec<u8>, mode: Mode) -> Result<OneOp, NoMemory>
    ensures { IfOk result (λ x. x ≡ Create path bytes.items mode) }
{
    let bytes = Body::from_vec(bytes)?;
    Ok(OneOp::Create { path, bytes, mode })
}

/// The creation of a lasting node with these bytes.
pub(crate) fn lasting(path: Path, bytes: Vec<u8>) -> Result<OneOp, NoMemory>
    ensures { IfOk result (λ x. x ≡ Create path bytes.items mode.Lasting) }
{
    create(path, bytes, Mode::Lasting)
}

/// New bytes for a node of this version.
pub(crate) fn set(path: Path, bytes: Vec<u8>, version: u64) -> Result<OneOp, NoMemory>
    ensures { IfOk result (λ x. x ≡ Set path bytes.items (Some version)) }
{
    let bytes = Body::from_vec(bytes)?;
    Ok(OneOp::Set {
        path,
        bytes,
        version: Some(version),
    })
}

/// Several operations, as one change.
pub(crate) fn multi(ops: Vec<OneOp>) -> MetaOp
    ensures { result ≡ op.Multi ops.items }
{
    MetaOp::Multi {
        ops: OneOps::from_vec(ops),
    }
}
