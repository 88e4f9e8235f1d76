//! What the nodes of a mount are true of between messages, and what comes of messages to nodes that
//! are gone.

ghost use Rattle.std.specs.Prelude.{◌≡◌, ℕ, ◌⊎◌, List, Option, Some};
ghost use Rattle.lfs_types.specs.Caller.{Caller};
ghost use Rattle.lfs_volume.specs.Journals.{AtPresent, Begins, HasBegun};
ghost use Rattle.lfs_volume.specs.Seen.{Seen};
ghost use Rattle.lfs_nodes.specs.declared.node.Hang.{Hang};
ghost use Rattle.lfs_nodes.specs.declared.node.Hang.TheVariants.{Gone};
ghost use Rattle.lfs_nodes.specs.declared.parts.Parts.{Parts};
ghost use Rattle.lfs_fuse_wire.specs.Said.{Said};
ghost use Rattle.lfs_fuse_wire.specs.declared.attributes.SetAttr.{SetAttr};
ghost use Rattle.lfs_fuse_wire.specs.declared.ioctl.Ioctl.{Ioctl};
ghost use Rattle.lfs_fuse_calls.specs.Paths.{IsStaleError, LacksPath};
ghost use Rattle.lfs_fuse_calls.specs.Telling.{named_in};
ghost use Rattle.lfs_fuse_calls.specs.declared.told.Told.{Told};
ghost use Rattle.lfs_mount.specs.Handled.{
  IsFlagged,
  IsGoneError,
  IsHandled,
  IsRefused,
  IsRenamed,
  IsSetAttr,
  hangs_in,
};
ghost use Rattle.lfs_mount.specs.Runs.{GoesOn, IsRun};
ghost use Rattle.lfs_mount.specs.Tending.{let_go};
ghost use Rattle.lfs_mount.specs.Trees.{StayTrue};

use crate::mount::Mount;
use lfs_types::store::FileStore;

/// Nodes stay true of the tree that a volume shows where no content changes and its journal goes
/// on, where its entries are let go, and where the tree is shown still that its journal led to. It
/// does nothing.
pub fn stay_true<F: FileStore + Drop>(_mount: &Mount<F>)
    ensures tended { (old new : Seen F) (nodes : Parts) → IsRun F.state old → IsRun F.state new
        → (F.state new.store).content ≡ (F.state old.store).content → GoesOn F.state old new
        → StayTrue F.state old nodes new nodes }
    ensures let_go { (old : Seen F) (nodes : Parts) → IsRun F.state old
        → HasBegun (F.state old.since) old.since_level
        → StayTrue F.state old nodes (let_go old) nodes }
    ensures shown { (old new : Seen F) (nodes : Parts)
        → AtPresent F.state old (Begins (F.state new.store) new.level)
        → IsRun F.state new → HasBegun (F.state old.since) old.since_level
        → StayTrue F.state old nodes new nodes }
{}

/// A message to a node that is gone makes no call, and is told that it is gone, that memory is
/// wanting, or what is wrong with a name that it tells, where nothing that is kept answers it. It
/// does nothing.
pub fn gone_is_refused<F: FileStore + Drop>(_mount: &Mount<F>)
    ensures handled { (caller : Caller) (nodes nodes_after : Parts) (node : ℕ) (message : Said)
        (reply : Told) (old new : Seen F) → hangs_in nodes node ≡ Some Gone
        → IsHandled F.state F.is_flushed caller nodes nodes_after node message reply old new
        → IsRefused (IsGoneError (named_in message)) reply old new }
    ensures set { (caller : Caller) (hangs : ℕ → Option Hang) (node : ℕ) (fields : SetAttr)
        (reply : Told) (old new : Seen F) → hangs node ≡ Some Gone
        → IsSetAttr F.state F.is_flushed caller hangs node fields reply old new
        → IsRefused IsStaleError reply old new }
    ensures flagged { (caller : Caller) (hangs : ℕ → Option Hang) (node : ℕ) (fields : Ioctl)
        (reply : Told) (old new : Seen F) → hangs node ≡ Some Gone
        → IsFlagged F.state F.is_flushed caller hangs node fields reply old new
        → IsRefused IsStaleError reply old new }
    ensures renamed { (caller : Caller) (hangs : ℕ → Option Hang) (node directory : ℕ)
        (name new_name : List ℕ) (reply : Told) (old new : Seen F) → hangs node ≡ Some Gone
        → IsRenamed F.state F.is_flushed caller hangs node name directory new_name reply old new
        → IsRefused (λ error. IsGoneError (Some name) error
        ⊎ LacksPath hangs directory (Some new_name) error) reply old new }
{}
