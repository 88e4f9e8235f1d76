//! Messages whose calls depend on what a first call shows, and those that speak of two names or of
//! none.

ghost use Rattle.std.specs.Prelude.{◌≡◌, ◌∷◌, [], ◌<◌, ◌⊎◌, Some, IfOk, IfErr, IsSome};
ghost use Rattle.lfs_fuse_calls.specs.Paths.{LacksName, LeadsToRow};
ghost use Rattle.lfs_fuse_calls.specs.Telling.{SaysOr, attr_told, refusal_in, seen_in};
ghost use Rattle.lfs_nodes.specs.Maps.{node_at, room_in};
ghost use Rattle.lfs_nodes.specs.Nodes.{known, place_at};
ghost use Rattle.lfs_nodes.specs.Staying.{IdsStay};
ghost use Rattle.lfs_mount.specs.Handled.{
  IsDone,
  IsGivenOrNot,
  IsReleased,
  IsRenamed,
  IsRenamedToFree,
  is_missing,
  IsSet,
  IsSetAttr,
  IsSetJudged,
  IsSynced,
  SaysDone,
  WantsMemory,
  hangs_in,
};
ghost use Rattle.lfs_mount.specs.Making.{AreMade};
ghost use Rattle.lfs_mount.specs.Moving.{MovesIfDone};
ghost use Rattle.lfs_mount.specs.Trees.{MovesRow, StayTrue, UnlessRefused};

use crate::making::make;
use crate::node_tree::NodeTree;
use lfs_fuse_calls::asked::asked_to_set;
use lfs_fuse_calls::paths::{name_of, path_of};
use lfs_fuse_calls::telling::{attr_told, refusal_in, seen_in};
use lfs_fuse_calls::told::Told;
use lfs_fuse_reply::errno::Errno;
use lfs_fuse_wire::attributes::SetAttr;
use lfs_fuse_wire::message::Message;
use lfs_nodes::{NodeId, Renaming};
use lfs_opens::head::Head;
use lfs_stamps::leave::dating_refusal;
use lfs_types::answer::Answer;
use lfs_types::attrs::Attrs;
use lfs_types::cred::Cred;
use lfs_types::mode::Mode;
use lfs_types::path::Path;
use lfs_types::request::Request;
use lfs_types::store::FileStore;
use std::alloc::Global;

/// A call that shows nothing, as done or as refused.
fn done_told(answers: &[Answer]) -> Told
    ensures { SaysDone result answers.now }
{
    match refusal_in(answers) {
        Some(errno) => Told::Error(errno),
        None => Told::Done,
    }
}

/// What a change of attributes shows.
fn set_told(answers: &[Answer]) -> Told
    ensures { SaysOr (refusal_in answers.now) (result ≡ attr_told (seen_in answers.now)) result }
{
    match refusal_in(answers) {
        Some(errno) => Told::Error(errno),
        None => attr_told(answers),
    }
}

/// A name in the directory of a node.
#[derive(Clone, Copy)]
pub(crate) struct Spot<'m> {
    /// The node.
    pub(crate) node: u64,
    /// The name.
    pub(crate) name: &'m [u8],
}

impl<'m> Spot<'m> {
    /// This name in the directory of this node.
    pub(crate) fn of(node: u64, name: &'m [u8]) -> Spot<'m>
        ensures node { result.node ≡ node }
        ensures name { result.name.now ≡ name.now }
    {
        Spot { node, name }
    }
}

/// The old name of what a Rename moves, and the new one.
#[derive(Clone, Copy)]
pub(crate) struct Spots<'m> {
    /// The old one.
    pub(crate) from: Spot<'m>,
    /// The new one.
    pub(crate) to: Spot<'m>,
}

/// The paths of these names.
#[derive(Drop)]
struct RenamePaths {
    from: Path,
    to: Path,
}

/// What a Rename of these names does to nodes.
fn renaming_of(alloc: Global, spots: &Spots<'_>) -> Result<Renaming, Errno>
    ensures from { IfOk result (λ renaming. renaming.from.0 ≡ spots.now.from.node) }
    ensures name { IfOk result (λ renaming. renaming.name ≡ spots.now.from.name.now) }
    ensures to { IfOk result (λ renaming. renaming.to.0 ≡ spots.now.to.node) }
    ensures new_name { IfOk result (λ renaming. renaming.new_name ≡ spots.now.to.name.now) }
    ensures lacks { IfErr result (λ error. LacksName (Some spots.now.from.name.now) error
        ⊎ LacksName (Some spots.now.to.name.now) error) }
{
    let name = name_of(alloc, spots.from.name)?;
    let new_name = name_of(alloc, spots.to.name)?;
    let copy = name_of(alloc, spots.to.name)?;
    Ok(Renaming {
        from: NodeId(spots.from.node),
        name,
        to: NodeId(spots.to.node),
        new_name,
        copy,
    })
}

/// Whether an error says that a name is missing.
fn is_missing(errno: Errno) -> bool
    ensures { result ≡ is_missing errno }
{
    matches!(errno, Errno::ENOENT)
}

impl<F: FileStore + Drop> NodeTree<F> {
    /// Makes one call, and gives its answer, in a list; an error where there is no memory for that.
    pub(crate) fn one(
        &mut self,
        alloc: Global,
        cred: &Cred,
        request: Request,
    ) -> Result<Vec<Answer>, Errno>
        ensures made { IfOk result (λ answers. AreMade F.state F.is_flushed cred.now
            (request ∷ []) answers.items
            self.old.volume self.new.volume) }
        ensures none { IfErr result (λ _. self.new.volume ≡ self.old.volume) }
        ensures error { IfErr result WantsMemory }
        ensures nodes { self.new.nodes ≡ self.old.nodes }
    {
        let mut requests = Vec::new(alloc);
        if requests.push(request).is_err() {
            return Err(Errno::ENOMEM);
        }
        match make(alloc, &mut self.volume, cred, requests) {
            Some(answers) => Ok(answers),
            None => Err(Errno::ENOMEM),
        }
    }

    /// Writes what waits to be written.
    pub(crate) fn synced(&mut self, alloc: Global, cred: &Cred) -> Told
        ensures told { IsSynced F.state F.is_flushed cred.now result self.old.volume
            self.new.volume }
        ensures nodes { self.new.nodes ≡ self.old.nodes }
    {
        match self.one(alloc, cred, Request::Sync) {
            Ok(answers) => done_told(answers.as_slice()),
            Err(errno) => Told::Error(errno),
        }
    }

    /// Sets attributes that are these at present, and shows them.
    fn set(&mut self, alloc: Global, head: &Head, fields: &SetAttr, present: &Attrs) -> Told
        ensures told { IsSet F.state F.is_flushed head.now.cred
            (hangs_in self.old.nodes) head.now.node fields.now
            result self.old.volume self.new.volume present.now }
        ensures nodes { self.new.nodes ≡ self.old.nodes }
    {
        let path = match path_of(alloc, &self.nodes, head.node, None) {
            Ok(path) => path,
            Err(errno) => return Told::Error(errno),
        };
        let Ok(requests) = asked_to_set(alloc, fields, present, &path) else {
            return Told::Error(Errno::ENOMEM);
        };
        match make(alloc, &mut self.volume, &head.cred, requests) {
            Some(answers) => set_told(answers.as_slice()),
            None => Told::Error(Errno::ENOMEM),
        }
    }

    /// Sets attributes that are these at present, where the caller may set the times that are set
    /// with them.
    fn set_judged(&mut self, alloc: Global, head: &Head, fields: &SetAttr, present: &Attrs) -> Told
        ensures told { IsSetJudged F.state F.is_flushed head.now.cred
            (hangs_in self.old.nodes) head.now.node fields.now
            result self.old.volume self.new.volume present.now }
        ensures nodes { self.new.nodes ≡ self.old.nodes }
    {
        match dating_refusal(&head.cred, fields, present) {
            Some(errno) => Told::Error(errno),
            None => self.set(alloc, head, fields, present),
        }
    }

    /// Sets attributes, behind a look at those that there are.
    pub(crate) fn set_attr(&mut self, alloc: Global, head: &Head, fields: &SetAttr) -> Told
        ensures told { IsSetAttr F.state F.is_flushed head.now.cred
            (hangs_in self.old.nodes) head.now.node fields.now
            result self.old.volume self.new.volume }
        ensures nodes { self.new.nodes ≡ self.old.nodes }
    {
        let message = Message::SetAttr(*fields);
        let answers = match self.calls(alloc, head, &message) {
            Ok(answers) => answers,
            Err(errno) => return Told::Error(errno),
        };
        if let Some(errno) = refusal_in(answers.as_slice()) {
            return Told::Error(errno);
        }
        match seen_in(answers.as_slice()) {
            Some(seen) => self.set_judged(alloc, head, fields, &seen.attrs),
            None => Told::Error(Errno::EIO),
        }
    }

    /// Gives a node's file a mode, where it has a path and there is memory for that.
    fn give(&mut self, alloc: Global, head: &Head, mode: Mode)
        ensures given { IsGivenOrNot F.state F.is_flushed head.now.cred
            (hangs_in self.old.nodes) head.now.node mode
            self.old.volume self.new.volume }
        ensures nodes { self.new.nodes ≡ self.old.nodes }
    {
        let Ok(path) = path_of(alloc, &self.nodes, head.node, None) else {
            return;
        };
        let _ = self.one(alloc, &head.cred, Request::Chmod { path, mode });
    }

    /// A file is closed, and gets the mode that is due then, if there is one.
    pub(crate) fn released(&mut self, alloc: Global, head: &Head, due: Option<Mode>) -> Told
        ensures told { IsReleased F.state F.is_flushed head.now.cred
            (hangs_in self.old.nodes) head.now.node due
            result self.old.volume self.new.volume }
        ensures nodes { self.new.nodes ≡ self.old.nodes }
    {
        if let Some(mode) = due {
            self.give(alloc, head, mode);
        }
        Told::Done
    }

    /// Moves the node of what was renamed, where that was served.
    fn moved(&mut self, renaming: Renaming, answers: &[Answer]) -> Told
        requires { 0 < room_in self.old.nodes.index }
        ensures says { SaysDone result answers.now }
        ensures nodes { UnlessRefused (refusal_in answers.now)
            (MovesRow renaming.from.0 renaming.name renaming.to.0 renaming.new_name
            self.old.nodes self.new.nodes) self.old.nodes self.new.nodes }
        ensures moves { IsSome (node_at self.old.nodes.table renaming.to.0) → MovesIfDone result
            (place_at renaming.from.0 renaming.name) (place_at renaming.to.0 renaming.new_name)
            self.old.nodes self.new.nodes }
        ensures ids { IdsStay self.old.nodes self.new.nodes }
        ensures volume { self.new.volume ≡ self.old.volume }
    {
        if let Some(errno) = refusal_in(answers) {
            return Told::Error(errno);
        }
        self.nodes.moved(renaming);
        Told::Done
    }

    /// Makes a Rename between two paths, and moves the node.
    fn rename_paths(
        &mut self,
        alloc: Global,
        renaming: Renaming,
        paths: RenamePaths,
        cred: &Cred,
    ) -> Told
        ensures told { IsDone F.state F.is_flushed cred.now (Request.Rename paths.from paths.to)
            result self.old.volume self.new.volume }
        ensures stay { LeadsToRow (known self.old.nodes) renaming.from.0 (Some renaming.name)
            paths.from
            → LeadsToRow (known self.old.nodes) renaming.to.0 (Some renaming.new_name) paths.to
            → StayTrue F.state self.old.volume self.old.nodes self.new.volume self.new.nodes }
        ensures moves { IsSome (node_at self.old.nodes.table renaming.to.0) → MovesIfDone result
            (place_at renaming.from.0 renaming.name) (place_at renaming.to.0 renaming.new_name)
            self.old.nodes self.new.nodes }
        ensures ids { IdsStay self.old.nodes self.new.nodes }
    {
        if self.nodes.make_room().is_err() {
            return Told::Error(Errno::ENOMEM);
        }
        let RenamePaths { from, to } = paths;
        match self.one(alloc, cred, Request::Rename { from, to }) {
            Ok(answers) => self.moved(renaming, answers.as_slice()),
            Err(errno) => Told::Error(errno),
        }
    }

    /// Gives a name in a directory another place. What has that place is replaced.
    pub(crate) fn renamed(&mut self, alloc: Global, spots: &Spots<'_>, cred: &Cred) -> Told
        ensures told { IsRenamed F.state F.is_flushed cred.now
            (hangs_in self.old.nodes) spots.now.from.node spots.now.from.name.now
            spots.now.to.node spots.now.to.name.now result self.old.volume self.new.volume }
        ensures stay { StayTrue F.state self.old.volume self.old.nodes self.new.volume
            self.new.nodes }
        ensures moves { MovesIfDone result
            (place_at spots.now.from.node spots.now.from.name.now)
            (place_at spots.now.to.node spots.now.to.name.now) self.old.nodes self.new.nodes }
        ensures ids { IdsStay self.old.nodes self.new.nodes }
    {
        let renaming = match renaming_of(alloc, spots) {
            Ok(renaming) => renaming,
            Err(errno) => return Told::Error(errno),
        };
        let from = match path_of(alloc, &self.nodes, spots.from.node, Some(spots.from.name)) {
            Ok(path) => path,
            Err(errno) => return Told::Error(errno),
        };
        let to = match path_of(alloc, &self.nodes, spots.to.node, Some(spots.to.name)) {
            Ok(path) => path,
            Err(errno) => return Told::Error(errno),
        };
        self.rename_paths(alloc, renaming, RenamePaths { from, to }, cred)
    }

    /// The same, where the new place must be free.
    pub(crate) fn renamed_to_free(&mut self, alloc: Global, spots: &Spots<'_>, cred: &Cred) -> Told
        ensures told { IsRenamedToFree F.state F.is_flushed cred.now
            (hangs_in self.old.nodes) spots.now.from.node spots.now.from.name.now
            spots.now.to.node spots.now.to.name.now result self.old.volume self.new.volume }
        ensures stay { StayTrue F.state self.old.volume self.old.nodes self.new.volume
            self.new.nodes }
        ensures moves { MovesIfDone result
            (place_at spots.now.from.node spots.now.from.name.now)
            (place_at spots.now.to.node spots.now.to.name.now) self.old.nodes self.new.nodes }
        ensures ids { IdsStay self.old.nodes self.new.nodes }
    {
        let path = match path_of(alloc, &self.nodes, spots.to.node, Some(spots.to.name)) {
            Ok(path) => path,
            Err(errno) => return Told::Error(errno),
        };
        let answers = match self.one(alloc, cred, Request::Stat { path }) {
            Ok(answers) => answers,
            Err(errno) => return Told::Error(errno),
        };
        match refusal_in(answers.as_slice()) {
            None => Told::Error(Errno::EEXIST),
            Some(errno) => {
                if is_missing(errno) {
                    self.renamed(alloc, spots, cred)
                } else {
                    Told::Error(errno)
                }
            }
        }
    }
}
