//! Messages whose calls are known when they come: they are made in order, and what they show is
//! told.

ghost use Rattle.std.specs.Prelude.{◌≡◌, IfOk, IfErr};
ghost use Rattle.lfs_fuse_wire.specs.Views.{view};
ghost use Rattle.lfs_fuse_calls.specs.Telling.{SaysServed, named_in, seen_in};
ghost use Rattle.lfs_nodes.specs.Staying.{IdsStay};
ghost use Rattle.lfs_fuse_calls.specs.Paths.{LacksPath};
ghost use Rattle.lfs_mount.specs.Entries.{NodesFollow};
ghost use Rattle.lfs_mount.specs.Handled.{AreAskedAndMade, IsHandled, hangs_in};
ghost use Rattle.lfs_mount.specs.Trees.{AreLedAndMade, LeavesNodes, StayTrue};

use crate::making::make;
use crate::node_tree::NodeTree;
use lfs_fuse_calls::asked::asked;
use lfs_fuse_calls::paths::{name_of, path_of};
use lfs_fuse_calls::telling::{
    access_told, attr_told, bytes_told, named_in, opened_told, refusal_told, seen_in, written_by,
};
use lfs_fuse_calls::told::Told;
use lfs_fuse_reply::errno::Errno;
use lfs_fuse_wire::message::Message;
use lfs_opens::head::Head;
use lfs_types::answer::Answer;
use lfs_types::name::Name;
use lfs_types::store::FileStore;
use std::alloc::Global;

/// What the calls of a message showed, which were served, and the name that it tells, if it tells
/// one.
#[derive(Drop)]
struct ServedCalls {
    name: Option<Name>,
    answers: Vec<Answer>,
}

impl<F: FileStore + Drop> NodeTree<F> {
    /// Makes the calls that a message asks for, of the path of its node or of the name that it
    /// tells in it.
    pub(crate) fn calls(
        &mut self,
        alloc: Global,
        head: &Head,
        message: &Message<'_>,
    ) -> Result<Vec<Answer>, Errno>
        ensures made { IfOk result (λ answers. AreAskedAndMade F.state F.is_flushed head.now.cred
            (hangs_in self.old.nodes) head.now.node
            (view message.now) answers.items self.old.volume self.new.volume) }
        ensures led { IfOk result (λ answers. AreLedAndMade F.state F.is_flushed head.now.cred
            self.old.nodes head.now.node
            (view message.now) answers.items self.old.volume self.new.volume) }
        ensures none { IfErr result (λ _. self.new.volume ≡ self.old.volume) }
        ensures lacks { IfErr result (LacksPath (hangs_in self.old.nodes) head.now.node
            (named_in (view message.now))) }
        ensures nodes { self.new.nodes ≡ self.old.nodes }
    {
        let path = path_of(alloc, &self.nodes, head.node, named_in(message))?;
        let Ok(requests) = asked(alloc, message, &path) else {
            return Err(Errno::ENOMEM);
        };
        match make(alloc, &mut self.volume, &head.cred, requests) {
            Some(answers) => Ok(answers),
            None => Err(Errno::ENOMEM),
        }
    }

    /// What is told of answers that are served.
    fn served_told(
        &mut self,
        alloc: Global,
        head: &Head,
        message: &Message<'_>,
        served: ServedCalls,
    ) -> Told
        ensures says { SaysServed head.now.cred (view message.now) served.answers.items result }
        ensures nodes { served.name ≡ named_in (view message.now)
            → LeavesNodes (view message.now) head.now.node
            (seen_in served.answers.items) self.old.nodes self.new.nodes }
        ensures follows { served.name ≡ named_in (view message.now)
            → NodesFollow (view message.now) head.now.node
            (seen_in served.answers.items) result self.old.nodes self.new.nodes }
        ensures ids { IdsStay self.old.nodes self.new.nodes }
        ensures volume { self.new.volume ≡ self.old.volume }
    {
        let ServedCalls { name, answers } = served;
        match message {
            Message::Lookup(_) | Message::Mknod(_, _) | Message::Mkdir(_, _) => {
                let seen = seen_in(answers.as_slice());
                self.entry_told(alloc, head.node, name, seen)
            }
            Message::Create(_, _) => {
                let seen = seen_in(answers.as_slice());
                self.created_told(alloc, head.node, name, seen)
            }
            Message::Unlink(_) | Message::Rmdir(_) => self.removed_told(head.node, name),
            Message::GetAttr(_) => attr_told(answers.as_slice()),
            Message::Access(wanted) => access_told(&head.cred, wanted, answers.as_slice()),
            Message::Open(fields) => { opened_told(&head.cred, &fields.flags, answers.as_slice()) }
            Message::Read(_) => bytes_told(alloc, answers.as_slice()),
            Message::Write(_, bytes) => {
                Told::Written(written_by(bytes.len(), answers.as_slice()))
            }
            Message::Opendir(_) => Told::Error(Errno::EIO),
            _ => Told::Error(Errno::EINVAL),
        }
    }

    /// Makes the calls that a message asks for, and tells what they show, or the first refusal.
    pub(crate) fn once(&mut self, alloc: Global, head: &Head, message: &Message<'_>) -> Told
        ensures told { IsHandled F.state F.is_flushed head.now.cred
            self.old.nodes self.new.nodes head.now.node (view message.now)
            result self.old.volume self.new.volume }
        ensures stay { StayTrue F.state self.old.volume self.old.nodes self.new.volume
            self.new.nodes }
        ensures ids { IdsStay self.old.nodes self.new.nodes }
    {
        let name = match named_in(message) {
            Some(bytes) => match name_of(alloc, bytes) {
                Ok(name) => Some(name),
                Err(errno) => return Told::Error(errno),
            },
            None => None,
        };
        let answers = match self.calls(alloc, head, message) {
            Ok(answers) => answers,
            Err(errno) => return Told::Error(errno),
        };
        match refusal_told(message, answers.as_slice()) {
            Some(errno) => Told::Error(errno),
            None => self.served_told(alloc, head, message, ServedCalls { name, answers }),
        }
    }
}
