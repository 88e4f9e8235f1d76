//! What nodes are true of after changes that move no name.

ghost use Rattle.std.specs.Prelude.{◌≡◌, ℕ, None, List};
ghost use Rattle.std.specs.FinMap as map;
ghost use Rattle.lfs_types.specs.Caller.{Caller};
ghost use Rattle.lfs_types.specs.Tree.{File, World};
ghost use Rattle.lfs_types.specs.declared.attrs.Kind.{Kind};
ghost use Rattle.lfs_types.specs.declared.limits.TheConstants.{FIRST_INODE};
ghost use Rattle.lfs_model.specs.Effects.{least_unused, with_file, with_new};
ghost use Rattle.lfs_nodes.specs.Nodes.{AreNodes, known};

use crate::nodes::Nodes;

/// Nodes stay true of a tree in which the file of a row changes, or which gets a new row. It does nothing.
pub fn stay_true(_nodes: &Nodes)
    ensures changed { (w : World) (n : ℕ) (change : File → File)
        → AreNodes w.rows (known _nodes.now)
        → AreNodes (with_file (map.get w.rows n) n change w).rows (known _nodes.now) }
    ensures grown { (w : World) (numbers : ℕ) (caller : Caller) (path : List (List ℕ)) (kind : Kind)
        (mode : ℕ) → map.get w.rows (least_unused w.rows numbers FIRST_INODE) ≡ None
        → AreNodes w.rows (known _nodes.now)
        → AreNodes (with_new numbers w caller path kind mode).rows (known _nodes.now) }
{}
