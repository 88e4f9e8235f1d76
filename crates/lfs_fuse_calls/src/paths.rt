//! The paths of nodes, and of names in them.

ghost use Rattle.std.specs.Prelude.{◌≡◌, ℕ, Err, IfErr, IfOk, List, Option, Some, option_copied};
ghost use Rattle.lfs_types.specs.Naming.{ParsesName};
ghost use Rattle.lfs_nodes.specs.declared.node.Hang.{Hang};
ghost use Rattle.lfs_nodes.specs.declared.node.Hang.TheVariants.{Gone};
ghost use Rattle.lfs_nodes.specs.Maps.{node_at};
ghost use Rattle.lfs_nodes.specs.Nodes.{known};
ghost use Rattle.lfs_nodes.specs.Reads.{hang_in};
ghost use Rattle.lfs_nodes.specs.Ways.{NamesDown};
ghost use Rattle.lfs_fuse_calls.specs.Paths.{
  IsPathError,
  IsPathOf,
  IsStale,
  LacksName,
  LacksNames,
  LacksPath,
  LeadsToRow,
};

use lfs_fuse_reply::errno::Errno;
use lfs_nodes::{NodeId, Nodes, PathFault};
use lfs_types::name::{BadName, Name};
use lfs_types::path::Path;
use std::alloc::Global;

/// The error of a node that has no path: it is gone, or the path is too long.
fn error_of_node(fault: PathFault) -> Errno
    ensures error { IsPathError result }
    ensures stale { fault ≡ PathFault.Stale → result ≡ Errno.ESTALE }
    ensures memory { fault ≡ PathFault.Memory → result ≡ Errno.ENOMEM }
    ensures lacks { (hangs : ℕ → Option Hang) (node : ℕ) (name : Option (List ℕ))
        → NamesDown hangs node (Err fault) → LacksNames hangs node name result }
{
    match fault {
        PathFault::Unknown | PathFault::Stale => Errno::ESTALE,
        PathFault::Long => Errno::ENAMETOOLONG,
        PathFault::Memory => Errno::ENOMEM,
        PathFault::Name(_) => Errno::EINVAL,
    }
}

/// The error of bytes that are no name.
fn error_of_name(fault: BadName) -> Errno
    ensures error { IsPathError result }
    ensures lacks { (bytes : List ℕ) → ParsesName bytes (Err fault)
        → LacksName (Some bytes) result }
{
    match fault {
        BadName::Empty => Errno::ENOENT,
        BadName::Long => Errno::ENAMETOOLONG,
        BadName::Slash | BadName::Nul | BadName::Dot => Errno::EINVAL,
        BadName::Memory => Errno::ENOMEM,
    }
}

/// The name that these bytes are.
///
/// # Errors
///
/// `ENOENT` of no bytes, `ENAMETOOLONG` of more than 255, `EINVAL` of bytes that are no name, and
/// `ENOMEM`.
pub fn name_of(alloc: Global, bytes: &[u8]) -> Result<Name, Errno>
    ensures name { IfOk result (λ name. name ≡ bytes.now) }
    ensures error { IfErr result IsPathError }
    ensures lacks { IfErr result (LacksName (Some bytes.now)) }
{
    match Name::parse(alloc, bytes) {
        Ok(name) => Ok(name),
        Err(fault) => Err(error_of_name(fault)),
    }
}

#[tactic(auto, using(crate::proofs::PathLemmas::gone_names))]
/// The names from the root to a node, and then a name in it, if one is asked for.
fn names_of(
    alloc: Global,
    nodes: &Nodes,
    node: u64,
    name: Option<&[u8]>,
) -> Result<Vec<Name>, Errno>
    ensures path { IfOk result (λ names. IsPathOf (λ q. hang_in (node_at nodes.now.table q)) node
        (option_copied name.entry) names.items) }
    ensures row { IfOk result (λ names. LeadsToRow (known nodes.now) node
        (option_copied name.entry) names.items) }
    ensures error { IfErr result IsPathError }
    ensures lacks { IfErr result (LacksPath (λ q. hang_in (node_at nodes.now.table q)) node
        (option_copied name.entry)) }
    ensures gone { hang_in (node_at nodes.now.table node) ≡ Some Gone → IsStale result }
{
    let mut names = match nodes.names(alloc, NodeId(node)) {
        Ok(names) => names,
        Err(fault) => return Err(error_of_node(fault)),
    };
    if let Some(bytes) = name {
        let name = name_of(alloc, bytes)?;
        if names.push(name).is_err() {
            return Err(Errno::ENOMEM);
        }
    }
    Ok(names)
}

/// The path of a node, or of a name in it.
///
/// # Errors
///
/// `ESTALE` where the node, or one above it, isn't known or is gone; `ENAMETOOLONG` where the path
/// has more than 1,024 bytes; those of `name_of`; and `ENOMEM`.
pub fn path_of(alloc: Global, nodes: &Nodes, node: u64, name: Option<&[u8]>) -> Result<Path, Errno>
    ensures path { IfOk result (λ path. IsPathOf (λ q. hang_in (node_at nodes.now.table q)) node
        (option_copied name.entry) path) }
    ensures row { IfOk result (λ path. LeadsToRow (known nodes.now) node
        (option_copied name.entry) path) }
    ensures error { IfErr result IsPathError }
    ensures lacks { IfErr result (LacksPath (λ q. hang_in (node_at nodes.now.table q)) node
        (option_copied name.entry)) }
    ensures gone { hang_in (node_at nodes.now.table node) ≡ Some Gone → IsStale result }
{
    match Path::from_names(names_of(alloc, nodes, node, name)?) {
        Some(path) => Ok(path),
        None => Err(Errno::ENAMETOOLONG),
    }
}
