//! What a message changes, by what is told of it.

ghost use Rattle.std.specs.Prelude.{◌≡◌};
ghost use Rattle.lfs_fuse_wire.specs.Views.{view};
ghost use Rattle.lfs_stamps.specs.Change.{change_of, cut_by, if_done, made_by, node_if, other_node, set_by, wrote};

use lfs_fuse_calls::told::Told;
use lfs_fuse_wire::attributes::SetAttr;
use lfs_fuse_wire::message::Message;

/// How the file of a node changes.
#[derive(Clone, Copy, PartialEq, Eq, Debug)]
pub enum Mark {
    /// Its bytes, or the names in it.
    Written,
    /// Its attributes.
    Restated,
    /// Those that a message sets.
    Set(SetAttr),
}

/// What a message changes.
#[derive(Clone, Copy, PartialEq, Eq, Debug)]
pub enum Change {
    /// Nothing.
    Nothing,
    /// The file of its node.
    Node(Mark),
    /// A file of this inode number is made, in its node's directory.
    Made(u64),
    /// A name moves from its node's directory to another's.
    Moved,
}

/// A change of its node's file, or nothing.
fn node_if(holds: bool, mark: Mark) -> Change
    ensures { result ≡ node_if holds mark }
{
    if holds {
        Change::Node(mark)
    } else {
        Change::Nothing
    }
}

/// A file was made, where an entry is told.
fn made_by(told: &Told) -> Change
    ensures { result ≡ made_by told.now }
{
    match told {
        Told::Entry(entry) | Told::Create(entry, _) => Change::Made(entry.attr.inode),
        _ => Change::Nothing,
    }
}

/// The change, where it is told that it is done.
fn if_done(change: Change, told: &Told) -> Change
    ensures { result ≡ if_done change told.now }
{
    match told {
        Told::Done | Told::Ioctl => change,
        _ => Change::Nothing,
    }
}

/// A file was cut, where it is told that it is open.
fn cut_by(truncates: bool, told: &Told) -> Change
    ensures { result ≡ cut_by truncates told.now }
{
    match told {
        Told::Open(_) => node_if(truncates, Mark::Written),
        _ => Change::Nothing,
    }
}

/// Bytes were written, where some are told.
fn wrote(told: &Told) -> Change
    ensures { result ≡ wrote told.now }
{
    match told {
        Told::Written(count) => node_if(*count != 0, Mark::Written),
        _ => Change::Nothing,
    }
}

/// Attributes were set, where they are told.
fn set_by(fields: &SetAttr, told: &Told) -> Change
    ensures { result ≡ set_by fields.now told.now }
{
    match told {
        Told::Attr(_) => Change::Node(Mark::Set(*fields)),
        _ => Change::Nothing,
    }
}

/// What a message changes, of which this is told.
pub fn change_of(message: &Message<'_>, told: &Told) -> Change
    ensures { result ≡ change_of (view message.now) told.now }
{
    match message {
        Message::Mknod(_, _) | Message::Mkdir(_, _) | Message::Create(_, _) => made_by(told),
        Message::Unlink(_) | Message::Rmdir(_) => if_done(Change::Node(Mark::Written), told),
        Message::Rename(_, _, _) => if_done(Change::Moved, told),
        Message::Open(fields) => cut_by(fields.flags.truncate, told),
        Message::Write(_, _) => wrote(told),
        Message::SetAttr(fields) => set_by(fields, told),
        Message::Ioctl(_) => if_done(Change::Node(Mark::Restated), told),
        _ => Change::Nothing,
    }
}

/// The node of a message's second directory, or 0, which is none.
pub fn other_node(message: &Message<'_>) -> u64
    ensures { result ≡ other_node (view message.now) }
{
    match message {
        Message::Rename(fields, _, _) => fields.directory,
        _ => 0,
    }
}
