ghost use Rattle.std.specs.Prelude.{◌≡◌, IfOk, OnOk};
ghost use Rattle.std.specs.FinMap.{insert};
ghost use Rattle.dl_types.specs.declared.mode.Mode.TheVariants.{Lasting};
ghost use Rattle.dl_tree.specs.Trees.{new_node};
ghost use Rattle.dl_formats.specs.NodeBytes.{IsConf};
ghost use Rattle.dl_formats.specs.Keys.{Key, Streams, Ledgers, path_of};
ghost use Rattle.dl_rules_nodes.specs.Metadata.{first_tree};
ghost use Rattle.dl_meta.specs.Growing.{IsNewBelowRoot};

use dl_formats::conf::Conf;
use dl_formats::encode::encode_conf;
use dl_formats::paths::conf_path;
use dl_tree::tree::Tree;
use dl_types::body::Body;
use dl_types::memory::NoMemory;
use dl_types::meta_op::MetaOp;
use dl_types::mode::Mode;
use dl_types::one_op::OneOp;
use dl_types::path::Path;
use std::alloc::Global;

/// Makes a lasting node below the root.
fn add_node(tree: &mut Tree, path: Path, bytes: Body) -> Result<(), NoMemory>
    requires { IsNewBelowRoot tree.old path }
    ensures { OnOk result (tree.new ≡ insert tree.old path (new_node bytes Lasting 0)) }
{
    let op = MetaOp::One(OneOp::Create {
        path,
        bytes,
        mode: Mode::Lasting,
    });
    tree.apply(0, &op)?;
    Ok(())
}

/// The path of the node above all streams.
fn streams_path(alloc: Global) -> Result<Path, NoMemory>
    ensures { IfOk result (λ path. path ≡ path_of Streams) }
{
    Path::new(alloc, b"/streams")
}

/// The path of the node above all ledgers.
fn ledgers_path(alloc: Global) -> Result<Path, NoMemory>
    ensures { IfOk result (λ path. path ≡ path_of Ledgers) }
{
    Path::new(alloc, b"/ledgers")
}

/// The tree with which a configuration begins: `/conf` with its bytes, and the nodes above all streams and all ledgers.
pub(crate) fn first_tree(alloc: Global, conf: &Conf) -> Result<Tree, NoMemory>
    requires { IsConf conf.now }
    ensures { IfOk result (λ tree. tree ≡ first_tree conf.now) }
{
    let mut tree = Tree::new(alloc)?;
    let bytes = encode_conf(alloc, conf)?;
    let bytes = Body::from_vec(bytes)?;
    let path = conf_path(alloc)?;
    add_node(&mut tree, path, bytes)?;
    let path = streams_path(alloc)?;
    let bytes = Body::new(alloc, b"")?;
    add_node(&mut tree, path, bytes)?;
    let path = ledgers_path(alloc)?;
    let bytes = Body::new(alloc, b"")?;
    add_node(&mut tree, path, bytes)?;
    Ok(tree)
}
