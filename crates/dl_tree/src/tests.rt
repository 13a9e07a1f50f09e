ghost use Rattle.std.specs.Prelude.{IfOk};
ghost use Rattle.dl_tree.specs.Trees.{HasPlaces};

use crate::fault::OneFault;
use crate::laws::{
    ended_owns_none, failed_is_nothing, owner_stays, parts_are_found, set_raises_by_one,
};
use crate::node::{Node, NodeView};
use crate::nodes::Nodes;
use crate::one::one;
use crate::tree::Tree;
use dl_types::body::Body;
use dl_types::memory::NoMemory;
use dl_types::meta_answer::MetaAnswer;
use dl_types::meta_op::MetaOp;
use dl_types::mode::Mode;
use dl_types::one_answer::OneAnswer;
use dl_types::one_op::OneOp;
use dl_types::one_ops::OneOps;
use dl_types::path::Path;
use dl_types::why::Why;
use std::alloc::Global;
use std::test::Fail;

/// A version that may be named: a number, or another word for none.
fn version_of(word: &str) -> Option<u64> {
    match word.parse::<u64>() {
        Ok(version) => Some(version),
        Err(_) => None,
    }
}

/// The mode of a word, or the lasting one.
fn mode_of(word: &str) -> Mode {
    if word == "ephemeral" {
        Mode::Ephemeral
    } else if word == "counted" {
        Mode::Counted
    } else if word == "ephemeral-counted" {
        Mode::EphemeralCounted
    } else {
        Mode::Lasting
    }
}

/// The operation of a verb, a path, one word more, and what is left.
fn op_of(
    alloc: Global,
    verb: &str,
    path: &str,
    word: &str,
    bytes: &str,
) -> Result<OneOp, NoMemory> {
    let path = Path::new(alloc, path.as_bytes())?;
    if verb == "create" {
        let mode = mode_of(word);
        let bytes = Body::new(alloc, bytes.as_bytes())?;
        Ok(OneOp::Create { path, bytes, mode })
    } else if verb == "delete" {
        let version = version_of(word);
        Ok(OneOp::Delete { path, version })
    } else if verb == "set" {
        let version = version_of(word);
        let bytes = Body::new(alloc, bytes.as_bytes())?;
        Ok(OneOp::Set {
            path,
            bytes,
            version,
        })
    } else if verb == "check" {
        let version = version_of(word);
        Ok(OneOp::Check { path, version })
    } else if verb == "get" {
        Ok(OneOp::Get { path })
    } else {
        Ok(OneOp::Children { path })
    }
}

/// What stands before the first space, and what stands after it.
fn cut(text: &str) -> (&str, &str) {
    text.split_once(' ').unwrap_or((text, ""))
}

/// One operation, as `create PATH MODE BYTES`, `delete PATH VERSION`, `set PATH VERSION BYTES`, `check PATH VERSION`,
/// `get PATH` or `children PATH`.
fn one_of(alloc: Global, text: &str) -> Result<OneOp, NoMemory> {
    let (verb, rest) = cut(text);
    let (path, rest) = cut(rest);
    let (word, bytes) = cut(rest);
    op_of(alloc, verb, path, word, bytes)
}

/// Operations with `; ` between them.
fn ops_of(alloc: Global, text: &str) -> Result<Vec<OneOp>, NoMemory> {
    let mut ops = Vec::new(alloc);
    for text in text.split("; ") {
        ops.push(one_of(alloc, text)?)?;
    }
    Ok(ops)
}

/// One operation, or several with `; ` between them after the word `all`.
fn request_of(alloc: Global, text: &str) -> Result<MetaOp, NoMemory>
    ensures { IfOk result HasPlaces }
{
    match text.strip_prefix("all ") {
        Some(text) => {
            let ops = ops_of(alloc, text)?;
            if ops.len() > 65535 {
                return Err(NoMemory);
            }
            let ops = OneOps::from_vec(ops);
            Ok(MetaOp::Multi { ops })
        }
        None => Ok(MetaOp::One(one_of(alloc, text)?)),
    }
}

/// Bytes as text.
fn text_of(bytes: &[u8]) -> &str {
    std::str::from_utf8(bytes).unwrap_or("?")
}

fn tell_names(out: &mut String, names: &[Path]) -> Result<(), NoMemory> {
    out.push_str("names")?;
    for name in names {
        let name = text_of(name.as_slice());
        write!(out, " {name}")?;
    }
    Ok(())
}

fn tell_one(out: &mut String, answer: &OneAnswer) -> Result<(), NoMemory> {
    match answer {
        OneAnswer::Made(path) => {
            let path = text_of(path.as_slice());
            write!(out, "made {path}")?;
        }
        OneAnswer::Done => out.push_str("done")?,
        OneAnswer::Version(version) => write!(out, "version {version}")?,
        OneAnswer::Bytes { bytes, version } => {
            let bytes = text_of(bytes.as_slice());
            write!(out, "bytes {bytes} at {version}")?;
        }
        OneAnswer::Names(names) => tell_names(out, names.as_slice())?,
    }
    Ok(())
}

fn tell_why(out: &mut String, why: Why) -> Result<(), NoMemory> {
    match why {
        Why::NoNode => out.push_str("no node")?,
        Why::NodeExists => out.push_str("node exists")?,
        Why::BadVersion(version) => write!(out, "bad version {version}")?,
        Why::NotEmpty(count) => write!(out, "not empty {count}")?,
        Why::EphemeralParent => out.push_str("ephemeral parent")?,
        Why::Spent => out.push_str("spent")?,
    }
    Ok(())
}

fn tell(alloc: Global, answer: &MetaAnswer) -> Result<String, NoMemory> {
    let mut out = String::new(alloc);
    match answer {
        MetaAnswer::One(answer) => tell_one(&mut out, answer)?,
        MetaAnswer::Many(answers) => {
            out.push_str("all")?;
            for answer in answers.as_slice() {
                out.push_str("; ")?;
                tell_one(&mut out, answer)?;
            }
        }
        MetaAnswer::Failed { place, why } => {
            write!(out, "failed {place} ")?;
            tell_why(&mut out, *why)?;
        }
    }
    Ok(out)
}

/// A node's bytes, version, owner and counter.
fn tell_view(out: &mut String, view: &NodeView<'_>) -> Result<(), NoMemory> {
    let bytes = text_of(view.bytes);
    let version = view.version;
    let counter = view.counter;
    match view.owner {
        Some(owner) => write!(out, "{bytes} {version} {owner} {counter}")?,
        None => write!(out, "{bytes} {version} - {counter}")?,
    }
    Ok(())
}

/// What a look at a path shows.
fn look(tree: &Tree, alloc: Global, path: &str) -> Result<String, NoMemory> {
    let path = Path::new(alloc, path.as_bytes())?;
    let mut out = String::new(alloc);
    match tree.look(&path) {
        Some(view) => tell_view(&mut out, &view)?,
        None => out.push_str("none")?,
    }
    Ok(out)
}

/// The names of a node's children.
fn list(tree: &Tree, alloc: Global, path: &str) -> Result<String, NoMemory> {
    let path = Path::new(alloc, path.as_bytes())?;
    let mut out = String::new(alloc);
    match tree.children(alloc, &path)? {
        Some(names) => tell_names(&mut out, names.as_slice())?,
        None => out.push_str("none")?,
    }
    Ok(out)
}

/// The answer to a session's request.
fn request(tree: &mut Tree, alloc: Global, session: u64, text: &str) -> Result<String, NoMemory> {
    let request = request_of(alloc, text)?;
    let answer = tree.apply(session, &request)?;
    tell(alloc, &answer)
}

/// What a line gives: `look PATH`, `list PATH`, or a session's number and its request or `end`, with which it ends.
fn run(tree: &mut Tree, alloc: Global, line: &str) -> Result<String, NoMemory> {
    let (first, text) = cut(line);
    let session = version_of(first).unwrap_or(0);
    if first == "look" {
        look(tree, alloc, text)
    } else if first == "list" {
        list(tree, alloc, text)
    } else if text == "end" {
        tree.drop_session(session);
        Ok(String::from_str(alloc, "ended")?)
    } else {
        request(tree, alloc, session, text)
    }
}

/// Lines, and after ` => ` what the table of operations gives for each.
fn rows() -> &'static str {
    "
# the root and one node
5 create / lasting x => failed 0 no node
5 delete / - => failed 0 not empty 0
5 children / => names
5 get / => bytes  at 0
5 create /a lasting x => made /a
5 set /a 0 yz => version 1
5 set /a 0 w => failed 0 bad version 1
5 create /a ephemeral x => failed 0 node exists
5 get /a => bytes yz at 1
5 get /b => failed 0 no node
5 set /b - w => failed 0 no node
5 delete /b - => failed 0 no node
5 check /b - => failed 0 no node
5 children /b => failed 0 no node
5 check /a - => done
5 check /a 1 => done
5 check /a 7 => failed 0 bad version 1
5 set /a - yz => version 2
5 create /b/c lasting x => failed 0 no node
# children in byte order, and what stands beside them
5 create /a/b lasting x => made /a/b
5 create /a/B lasting x => made /a/B
5 create /a/- lasting x => made /a/-
5 create /a/0 lasting x => made /a/0
5 create /a/b/c lasting x => made /a/b/c
5 create /a- lasting x => made /a-
5 create /a0 lasting x => made /a0
5 children /a => names - 0 B b
5 children / => names a a- a0
5 children /a0 => names
5 delete /a 2 => failed 0 not empty 4
5 delete /a 0 => failed 0 bad version 2
5 delete / 9 => failed 0 not empty 3
5 delete /a/b 0 => failed 0 not empty 1
5 delete /a/b/c 0 => done
5 delete /a/b/c - => failed 0 no node
5 delete /a/b - => done
# counters go on after deletes
5 create /a/m counted x => made /a/m0000000000
5 delete /a/m0000000000 - => done
5 create /a/m counted x => made /a/m0000000001
5 create /a/e ephemeral-counted x => made /a/e0000000002
5 create /a/ counted x => made /a/0000000003
5 create / counted x => made /0000000000
5 create /a/e0000000002/x lasting x => failed 0 ephemeral parent
5 create /a/e0000000002/x counted x => failed 0 ephemeral parent
# several operations, all or none
5 all create /b lasting x; check /c - => failed 1 no node
5 get /b => failed 0 no node
5 all create /b lasting x; set /b 0 yz; check /b 1; create /b/n counted x; children /b; get /b => all; made /b; version 1; done; made /b/n0000000000; names n0000000000; bytes yz at 1
5 all delete /b/n0000000000 -; create /b/n counted x; set /b 0 w => failed 2 bad version 1
5 children /b => names n0000000000
5 get /b => bytes yz at 1
5 create /b/n counted x => made /b/n0000000001
5 all delete /b/n0000000000 -; delete /b/n0000000001 -; delete /b 1 => all; done; done; done
5 create /b ephemeral x => made /b
5 all delete /b -; create /b lasting w; create /b lasting w => failed 2 node exists
5 get /b => bytes x at 0
5 all get /a- => all; bytes x at 0
# ends of sessions
6 create /a/f ephemeral x => made /a/f
4 end => ended
6 children /a => names - 0 0000000003 B e0000000002 f m0000000001
5 end => ended
6 children /a => names - 0 0000000003 B f m0000000001
6 get /b => failed 0 no node
6 check /a/f 0 => done
6 end => ended
5 children /a => names - 0 0000000003 B m0000000001
5 create /a/m counted x => made /a/m0000000004
# looks
look / =>  0 - 1
look /a => yz 2 - 5
look /a/f => none
list /a => names - 0 0000000003 B m0000000001 m0000000004
list /a/f => none
7 create /e ephemeral-counted yz => made /e0000000001
look /e0000000001 => yz 0 7 0
7 end => ended
look /e0000000001 => none
"
}

#[test]
fn each_row_of_the_table_of_operations(rt: HostRuntime) -> Result<(), Fail> {
    let alloc = rt.alloc();
    let mut tree = Tree::new(alloc)?;
    let mut count = 0u32;
    for row in rows().lines() {
        let Some((line, want)) = row.split_once(" => ") else {
            continue;
        };
        let told = run(&mut tree, alloc, line)?;
        assert_eq!(rt; told.as_str(), want, "at {line}");
        count = count.saturating_add(1);
    }
    assert_eq!(rt; count, 75);
    Ok(())
}

/// What one operation gives on nodes that no request has made.
fn told_by(nodes: &mut Nodes, alloc: Global, text: &str) -> Result<String, NoMemory> {
    let mut out = String::new(alloc);
    match one(nodes, alloc, 1, &one_of(alloc, text)?) {
        Ok(answer) => tell_one(&mut out, &answer)?,
        Err(OneFault::Failed(why)) => tell_why(&mut out, why)?,
        Err(OneFault::NoMemory) => return Err(NoMemory),
    }
    Ok(out)
}

/// The root with this version and this counter.
fn root_with(alloc: Global, version: u64, counter: u64) -> Result<Nodes, NoMemory> {
    let mut nodes = Nodes::new(alloc)?;
    let root = Node {
        bytes: Body::new(alloc, b"")?,
        version,
        owner: None,
        counter,
    };
    let _was = nodes.put(&Path::new(alloc, b"/")?, root)?;
    Ok(nodes)
}

#[test]
fn a_counter_and_a_version_come_to_an_end(rt: HostRuntime) -> Result<(), Fail> {
    let alloc = rt.alloc();
    let mut nodes = root_with(alloc, 18446744073709551614, 9999999999)?;
    let table = [
        ("create /m counted x", "made /m9999999999"),
        ("create /m ephemeral-counted x", "spent"),
        ("create /m lasting x", "made /m"),
        ("set / - y", "version 18446744073709551615"),
        ("set / - z", "spent"),
        ("get /", "bytes y at 18446744073709551615"),
    ];
    for (text, want) in table {
        let told = told_by(&mut nodes, alloc, text)?;
        assert_eq!(rt; told.as_str(), want, "at {text}");
    }
    Ok(())
}

#[test]
fn the_laws_stand() {
    failed_is_nothing();
    set_raises_by_one();
    owner_stays();
    ended_owns_none();
    parts_are_found();
}
