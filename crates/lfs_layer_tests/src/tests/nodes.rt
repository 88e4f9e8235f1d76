//! A run of look-ups, renames, removals and forgets, with answers worked out by hand, and names at the limits of a
//! path.

ghost use Rattle.std.specs.Prelude.{◌≡◌};

use super::expect_eq;
use lfs_nodes::{LookUpFault, NodeId, Nodes, PathFault, Renaming};
use lfs_types::name::Name;
use std::alloc::Global;
use std::process::Abort;

/// The root's node.
const ROOT: NodeId = NodeId(1);

/// The name that these bytes are.
fn name(rt: &impl Abort, alloc: Global, bytes: &[u8]) -> Name
    ensures { result ≡ bytes.now }
{
    Name::parse(alloc, bytes).expect(rt, "a name")
}

/// How many names lead to a node, or why none do.
fn depth(alloc: Global, nodes: &Nodes, node: NodeId) -> Result<usize, PathFault> {
    match nodes.names(alloc, node) {
        Ok(names) => Ok(names.len()),
        Err(fault) => Err(fault),
    }
}

/// The node that a look-up of a row's name in a directory gives.
fn look_up(
    rt: &impl Abort,
    alloc: Global,
    nodes: &mut Nodes,
    parent: NodeId,
    name: &[u8],
    row: u32,
) -> NodeId {
    let name = self::name(rt, alloc, name);
    nodes.look_up(alloc, parent, name, row).expect(rt, "a node")
}

/// Asserts how many names lead to a node, or why none do.
fn expect_depth(
    rt: &impl Abort,
    alloc: Global,
    nodes: &Nodes,
    node: NodeId,
    wanted: Result<usize, PathFault>,
) {
    expect_eq(rt, depth(alloc, nodes, node), wanted);
}

/// The nodes of a directory, of a file in it, and of one that is made behind it.
const DIR: NodeId = NodeId(2);

const FILE: NodeId = NodeId(3);

const MADE: NodeId = NodeId(4);

/// A file is removed, and one with its number and name is made: it is another node.
fn remove_and_make(rt: &impl Abort, alloc: Global, nodes: &mut Nodes) {
    nodes.removed(DIR, name(rt, alloc, b"b"));
    expect_eq(rt, nodes.is_gone(FILE), true);
    expect_depth(rt, alloc, nodes, FILE, Err(PathFault::Stale));
    expect_eq(rt, look_up(rt, alloc, nodes, DIR, b"b", 5), MADE);
}

/// The directory is renamed: what hangs in it needs no change.
fn rename(rt: &impl Abort, alloc: Global, nodes: &mut Nodes) {
    nodes.make_room().expect(rt, "room");
    nodes.moved(Renaming {
        from: ROOT,
        name: name(rt, alloc, b"a"),
        to: ROOT,
        new_name: name(rt, alloc, b"c"),
        copy: name(rt, alloc, b"c"),
    });
}

/// Asserts which names lead to a node.
fn expect_names(rt: &impl Abort, alloc: Global, nodes: &Nodes, node: NodeId, wanted: &[&[u8]]) {
    let names = nodes.names(alloc, node).expect(rt, "names");
    expect_eq(rt, names.len(), wanted.len());
    for (name, bytes) in names.iter().zip(wanted) {
        expect_eq(rt, name.as_bytes(), *bytes);
    }
}

/// The directory is forgotten first, and stays until the file in it is.
fn forget_both(rt: &impl Abort, alloc: Global, nodes: &mut Nodes) {
    nodes.forget(DIR, 1);
    expect_eq(rt, nodes.row(DIR), Some(4));
    nodes.open(MADE);
    nodes.forget(MADE, 1);
    expect_depth(rt, alloc, nodes, MADE, Ok(2));
    nodes.close(MADE);
    expect_depth(rt, alloc, nodes, MADE, Err(PathFault::Unknown));
    expect_eq(rt, nodes.row(DIR), None);
}

/// The removed file, which was looked up twice, is forgotten twice, and nothing is found in the directory any more.
fn forget_removed(rt: &impl Abort, alloc: Global, nodes: &mut Nodes) {
    nodes.forget(FILE, 1);
    expect_eq(rt, nodes.row(FILE), Some(5));
    nodes.forget(FILE, 1);
    expect_eq(rt, nodes.row(FILE), None);
    let gone = nodes.look_up(alloc, DIR, name(rt, alloc, b"b"), 5);
    expect_eq(rt, gone, Err(LookUpFault::Stale));
}

#[test]
fn run_of_changes(rt: HostRuntime) {
    let alloc = rt.alloc();
    let mut nodes = Nodes::new(alloc).expect(&rt, "nodes");
    expect_eq(&rt, nodes.row(ROOT), Some(2));
    expect_eq(&rt, look_up(&rt, alloc, &mut nodes, ROOT, b"a", 4), DIR);
    expect_eq(&rt, look_up(&rt, alloc, &mut nodes, DIR, b"b", 5), FILE);
    expect_eq(&rt, look_up(&rt, alloc, &mut nodes, DIR, b"b", 5), FILE);
    expect_depth(&rt, alloc, &nodes, FILE, Ok(2));
    remove_and_make(&rt, alloc, &mut nodes);
    rename(&rt, alloc, &mut nodes);
    expect_names(&rt, alloc, &nodes, MADE, &[b"c", b"b"]);
    forget_both(&rt, alloc, &mut nodes);
    forget_removed(&rt, alloc, &mut nodes);
}

#[test]
fn longest_names(rt: HostRuntime) {
    let alloc = rt.alloc();
    let mut nodes = Nodes::new(alloc).expect(&rt, "nodes");
    let mut at = ROOT;
    for row in 4..8u32 {
        at = look_up(&rt, alloc, &mut nodes, at, &[b'x'; 255], row);
    }
    // Four names of 255 bytes take 1,024 bytes with their slashes.
    expect_depth(&rt, alloc, &nodes, at, Ok(4));
    at = look_up(&rt, alloc, &mut nodes, at, b"y", 8);
    expect_depth(&rt, alloc, &nodes, at, Err(PathFault::Long));
}

#[test]
fn deepest_path(rt: HostRuntime) {
    let alloc = rt.alloc();
    let mut nodes = Nodes::new(alloc).expect(&rt, "nodes");
    let mut at = ROOT;
    for row in 4..516u32 {
        at = look_up(&rt, alloc, &mut nodes, at, b"d", row);
    }
    expect_depth(&rt, alloc, &nodes, at, Ok(512));
    at = look_up(&rt, alloc, &mut nodes, at, b"d", 516);
    expect_depth(&rt, alloc, &nodes, at, Err(PathFault::Long));
}
