//! The law of the lines: each tells its entry. Its functions walk an entry for what the types of its parts keep.

ghost use Rattle.std.specs.Prelude.{◌≡◌, ◌^◌, ◌<◌, Ok};
ghost use Rattle.std.specs.List.{All};
ghost use Rattle.lfs_words.specs.CallerText.{AreShort};
ghost use Rattle.lfs_words.specs.Infos.{IsShortInfo};
ghost use Rattle.lfs_journal_lines.specs.EntryText.{entry_text};
ghost use Rattle.lfs_journal_lines.specs.Ranges.{AreAttrs, AreBytes, AreFlags, IsAct, IsAnswer, IsCaller, IsEvent, IsName, IsOutcome, IsPath, IsPayload, IsPlace, IsRequest, IsShown, IsTold};
ghost use Rattle.lfs_journal_lines.specs.Reading.{entry_told};

use lfs_model::asking::CleanerAct;
use lfs_model::journal::{CleanerOutcome, Entry, Event};
use lfs_types::answer::{Answer, Served};
use lfs_types::attrs::Attrs;
use lfs_types::cleaner::{BlockInfo, CleanFault};
use lfs_types::cred::Cred;
use lfs_types::file_flags::FileFlags;
use lfs_types::mode::Mode;
use lfs_types::name::Name;
use lfs_types::path::Path;
use lfs_types::payload::Payload;
use lfs_types::request::{Place, Request};
use lfs_types::rule::Denial;

/// The line of an entry tells this entry, of each entry that a journal may have.
pub fn reads_back(entry: &Entry)
    ensures { IsTold entry.now.event → entry_told (entry_text entry.now) ≡ Ok entry.now }
{
    let _session = entry.session;
    walk_caller(&entry.cred);
    walk_event(&entry.event);
}

/// The user and the groups of a credential are in their ranges.
fn walk_caller(cred: &Cred)
    ensures { IsCaller cred.now }
{
    let _uid = cred.uid();
    walk_groups(cred.groups());
}

/// Groups are below 2^32.
fn walk_groups(groups: &[u32])
    ensures { AreShort groups.now }
{
    let _groups = groups;
}

/// What an event asks and tells is in its ranges.
fn walk_event(event: &Event)
    ensures { IsEvent event.now }
{
    match event {
        Event::User(request, answer) => {
            walk_request(request);
            walk_answer(answer);
        }
        Event::Cleaner(act, outcome) => {
            walk_act(act);
            walk_outcome(*outcome);
        }
    }
}

/// The operands of a call are in their ranges.
fn walk_request(request: &Request)
    ensures { IsRequest request.now }
{
    match request {
        Request::Stat { path }
        | Request::List { path }
        | Request::Unlink { path }
        | Request::Rmdir { path } => walk_path(path),
        Request::Read { path, off, len } => {
            walk_path(path);
            let _range = (*off, *len);
        }
        Request::Write { path, place, bytes } => {
            walk_path(path);
            walk_place(*place);
            walk_payload(bytes);
        }
        Request::SetLength { path, len } => {
            walk_path(path);
            let _len = *len;
        }
        Request::Create { path, mode }
        | Request::Mkdir { path, mode }
        | Request::Chmod { path, mode } => {
            walk_path(path);
            walk_mode(*mode);
        }
        Request::Rename { from, to } => {
            walk_path(from);
            walk_path(to);
        }
        Request::Chown { path, uid, gid } => {
            walk_path(path);
            let _owner = (*uid, *gid);
        }
        Request::Chflags { path, flags } => {
            walk_path(path);
            walk_flags(*flags);
        }
        Request::SetLevel { .. } | Request::Sync => (),
    }
}

/// The names of a path have no fault, and are few.
fn walk_path(path: &Path)
    ensures { IsPath path.now }
{
    walk_names(path.names());
}

/// Names have no fault.
fn walk_names(names: &[Name])
    ensures { All IsName names.now }
{
    for name in names {
        walk_name(name);
    }
}

/// A name has no fault.
fn walk_name(name: &Name)
    ensures { IsName name.now }
{
    walk_bytes(name.as_bytes());
}

/// Bytes are below 256.
fn walk_bytes(bytes: &[u8])
    ensures { AreBytes bytes.now }
{
    let _bytes = bytes;
}

/// The bytes of a Write are few.
fn walk_payload(payload: &Payload)
    ensures { IsPayload payload.now }
{
    walk_bytes(payload.as_slice());
}

/// A place has 64 bits.
fn walk_place(place: Place)
    ensures { IsPlace place }
{
    if let Place::At(off) = place {
        let _off = off;
    }
}

/// A mode is below 4,096.
fn walk_mode(mode: Mode)
    ensures { mode < 4096 }
{
    let _bits = mode.bits();
}

/// Flags are known ones.
fn walk_flags(flags: FileFlags)
    ensures { AreFlags flags }
{
    let _bits = flags.bits();
}

/// What is answered is in its ranges.
fn walk_answer(answer: &Answer)
    ensures { IsAnswer answer.now }
{
    match answer {
        Answer::Served(shown) => walk_shown(shown),
        Answer::Denied(denial) => walk_denial(*denial),
        Answer::Refused(_) => (),
    }
}

/// The place of a denial is in its ranges.
fn walk_denial(denial: Denial)
    ensures { (denial.path < 256) × (denial.at < 2 ^ 32) }
{
    let _path = denial.path;
    let _at = denial.at;
}

/// What a call shows is in its ranges.
fn walk_shown(shown: &Served)
    ensures { IsShown shown.now }
{
    match shown {
        Served::Stat(number, attrs) => {
            let _number = *number;
            walk_attrs(attrs);
        }
        Served::Bytes(bytes) => walk_bytes(bytes.as_slice()),
        Served::Names(names) => walk_names(names.as_slice()),
        Served::Done => (),
    }
}

/// Attributes are in their ranges.
fn walk_attrs(attrs: &Attrs)
    ensures { AreAttrs attrs.now }
{
    let _uid = attrs.uid;
    let _gid = attrs.gid;
    let _size = attrs.size;
    walk_mode(attrs.mode);
    walk_flags(attrs.flags);
}

/// The segment or the infos of a call of the cleaner are in their ranges.
fn walk_act(act: &CleanerAct)
    ensures { IsAct act.now }
{
    match act {
        CleanerAct::Ifile | CleanerAct::Gain => (),
        CleanerAct::Infos(segment) | CleanerAct::Segclean(segment) => {
            let _segment = *segment;
        }
        CleanerAct::Bmapv(infos) => walk_infos(infos.items()),
        CleanerAct::Markv(marks) => walk_infos(marks.items()),
    }
}

/// Infos are in their ranges.
fn walk_infos(infos: &[BlockInfo])
    ensures { All IsShortInfo infos.now }
{
    for info in infos {
        walk_info(*info);
    }
}

/// Each part of an info is below 2^32.
fn walk_info(info: BlockInfo)
    ensures { IsShortInfo info }
{
    let _number = (info.ino, info.version);
    let _place = (info.lbn, info.addr);
}

/// What came of a call of the cleaner is in its range.
fn walk_outcome(outcome: CleanerOutcome)
    ensures { IsOutcome outcome }
{
    match outcome {
        CleanerOutcome::Done(number) => {
            let _number = number;
        }
        CleanerOutcome::Fault(CleanFault::Live(bytes)) => {
            let _bytes = bytes;
        }
        _ => (),
    }
}
