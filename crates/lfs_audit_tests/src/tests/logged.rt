//! A volume that counts what a crash would leave: behind each call its blocks are searched, and what is found is what the
//! entries that it counts led to.

ghost use Rattle.std.specs.Prelude.{◌<◌};
ghost use Rattle.lfs_calls.specs.Volumes.{HasWorld};
ghost use Rattle.lfs_logstore.specs.States.{state_of};

use super::expect_eq;
use lfs_durable_store::DurableStore;
use lfs_logged::Logged;
use lfs_logstore::LogStore;
use lfs_model::journal::CleanerAnswer;
use lfs_rescue::recover_blocks;
use lfs_script::plan::{Act, Step};
use lfs_script::script::parse_script;
use lfs_types::answer::{Answer, Served};
use lfs_types::block::BLOCK_SIZE;
use lfs_types::cleaner::CleanerCall;
use lfs_types::cred::Cred;
use lfs_types::level::Level;
use lfs_types::limits::{LEAST_FRAMES, SEGMENT_BLOCKS};
use lfs_types::path::Path;
use lfs_types::request::Request;
use lfs_types::store::Params;
use lfs_volume::volume::Volume;
use std::alloc::Global;
use std::process::Abort;

/// The numbers of the volume.
const LEAST: Params = Params {
    segments: 6,
    inodes: 16,
    frames: 32,
    journal: 64,
};

/// A fresh one. It lies in memory of its own, since a function that holds a value of so many parts takes the prover seconds.
fn fresh(rt: &impl Abort, alloc: Global) -> Box<Logged> {
    let store = DurableStore::format(alloc, LEAST).expect(rt, "a store");
    let volume = Volume::new(alloc, store, LEAST.journal).expect(rt, "a volume");
    Box::new(alloc, Logged::over(volume)).expect(rt, "memory")
}

/// The only call of a line of a script.
fn request_of(rt: &impl Abort, alloc: Global, line: &str) -> Request {
    let script = format!(in alloc; "session 1\n{line}\n").expect(rt, "memory");
    assert!(rt; script.len() <= 8_192);
    let plan = parse_script(alloc, script.as_bytes()).expect(rt, "a script");
    for Step { act, .. } in plan.into_steps() {
        if let Act::User(request) = act {
            return request;
        }
    }
    panic!(rt; "no call")
}

/// The superuser.
fn superuser(rt: &impl Abort) -> Cred {
    Cred::new(0, &[0], false).expect(rt, "a caller")
}

/// Has the superuser make the call of a line, and asserts that it is served.
fn serve(rt: &impl Abort, alloc: Global, logged: &mut Logged, line: &str) {
    let request = request_of(rt, alloc, line);
    let answer = logged.call(1, &superuser(rt), request);
    expect_eq(rt, matches!(answer, Answer::Served(_)), true);
}

/// The bytes of the blocks beneath.
fn blocks_of(rt: &impl Abort, alloc: Global, logged: &Logged) -> Vec<u8> {
    let log = &logged.volume().store().log().parts().log;
    let mut bytes = Vec::new(alloc);
    for address in 0..log.segments() * SEGMENT_BLOCKS {
        bytes
            .extend_from_slice(log.block(address))
            .expect(rt, "memory");
    }
    bytes
}

/// How many bytes the file has that is found in the blocks beneath, if it is there.
fn size_found(rt: &impl Abort, alloc: Global, logged: &Logged) -> Option<u64> {
    let blocks = blocks_of(rt, alloc, logged);
    size_in_blocks(rt, alloc, blocks.as_slice())
}

/// How many bytes the file has that is found in blocks, if it is there.
fn size_in_blocks(rt: &impl Abort, alloc: Global, blocks: &[u8]) -> Option<u64> {
    let found = recover_blocks(alloc, blocks, LEAST_FRAMES);
    size_in(rt, alloc, found.expect(rt, "a volume"))
}

/// How many bytes the file has in a store.
fn size_in(rt: &impl Abort, alloc: Global, store: LogStore) -> Option<u64>
    requires { HasWorld (state_of store) }
{
    let mut volume = Volume::over(alloc, store, Level::Insecure, 1).expect(rt, "a volume");
    let path = Path::parse(alloc, "/f").expect(rt, "a path");
    let answer = volume.call(1, &superuser(rt), Request::Stat { path });
    match &answer {
        Answer::Served(Served::Stat(_, attrs)) => Some(attrs.size),
        _ => None,
    }
}

/// Calls, each with how many entries a crash behind it leaves, and with how many bytes the file is found then.
const CALLS: [(&str, u32, Option<u64>); 8] = [
    ("create /f 0644", 0, None),
    ("write /f at 0 61", 0, None),
    ("sync", 3, Some(1)),
    ("write /f at 1 62", 3, Some(1)),
    ("stat /f", 3, Some(1)),
    ("sync", 6, Some(2)),
    ("unlink /f", 6, Some(2)),
    ("sync", 8, None),
];

#[test]
fn a_sync_keeps_all_entries_and_a_change_none_more(rt: HostRuntime) {
    let mut logged = fresh(&rt, rt.alloc());
    for (line, kept, size) in CALLS {
        serve(&rt, rt.alloc(), &mut *logged, line);
        expect_eq(&rt, logged.durable(), kept);
        expect_eq(&rt, size_found(&rt, rt.alloc(), &*logged), size);
    }
}

/// A Write of 2,048 bytes at the end of a file.
fn appended(rt: &impl Abort, alloc: Global) -> String {
    let mut line = String::new(alloc);
    line.push_str("write /f end ").expect(rt, "memory");
    for _ in 0..2_048 {
        line.push_str("61").expect(rt, "memory");
    }
    line
}

/// How many bytes the file has where so many entries are kept: the first makes it, each other adds 2,048.
fn size_after(kept: u32) -> Option<u64> {
    let writes = kept.checked_sub(1)?;
    Some(2_048 * u64::from(writes))
}

#[test]
fn what_waits_is_kept_where_later_changes_have_it_written(rt: HostRuntime) {
    let mut logged = fresh(&rt, rt.alloc());
    serve(&rt, rt.alloc(), &mut *logged, "create /f 0644");
    let line = appended(&rt, rt.alloc());
    for _ in 0..24 {
        serve(&rt, rt.alloc(), &mut *logged, line.as_str());
        let size = size_after(logged.durable());
        expect_eq(&rt, size_found(&rt, rt.alloc(), &*logged), size);
    }
    // Some were written meanwhile, and something waits in the end.
    expect_eq(&rt, logged.durable() > 1, true);
    expect_eq(&rt, logged.durable() < 25, true);
}

/// Puts a block of some blocks into others, and says whether that changed them.
fn put(rt: &impl Abort, blocks: &mut Vec<u8>, from: &[u8], number: usize) -> bool
    requires { number < 384 }
{
    let (start, end) = (number * BLOCK_SIZE, (number + 1) * BLOCK_SIZE);
    match (
        blocks.as_mut_slice().get_mut(start..end),
        from.get(start..end),
    ) {
        (Some(room), Some(block)) => {
            let is_new = &*room != block;
            room.copy_from_slice(block);
            is_new
        }
        _ => panic!(rt; "no block"),
    }
}

/// Lands the blocks that a call wrote, one by one: each time the file is found with one of these sizes, and never with
/// fewer bytes than before.
fn land(
    rt: &impl Abort,
    alloc: Global,
    blocks: &mut Vec<u8>,
    after: &[u8],
    sizes: [Option<u64>; 3],
) {
    let [mut last, ..] = sizes;
    for number in 0..384 {
        if put(rt, blocks, after, number) {
            let size = size_in_blocks(rt, alloc, blocks.as_slice());
            expect_eq(rt, sizes.contains(&size) && last <= size, true);
            last = size;
        }
    }
    let [.., kept] = sizes;
    expect_eq(rt, last, kept);
}

#[test]
fn each_prefix_of_what_is_written_is_found_as_counted(rt: HostRuntime) {
    let mut logged = fresh(&rt, rt.alloc());
    serve(&rt, rt.alloc(), &mut *logged, "create /f 0644");
    let line = appended(&rt, rt.alloc());
    let mut blocks = blocks_of(&rt, rt.alloc(), &*logged);
    for entries in 1..25 {
        let kept = size_after(logged.durable());
        serve(&rt, rt.alloc(), &mut *logged, line.as_str());
        let sizes = [kept, size_after(entries), size_after(logged.durable())];
        let after = blocks_of(&rt, rt.alloc(), &*logged);
        land(&rt, rt.alloc(), &mut blocks, after.as_slice(), sizes);
    }
}

#[test]
fn a_gain_keeps_all_entries(rt: HostRuntime) {
    let mut logged = fresh(&rt, rt.alloc());
    serve(&rt, rt.alloc(), &mut *logged, "create /f 0644");
    let answer = logged.clean(255, &superuser(&rt), CleanerCall::Gain);
    // No segment is dirty.
    expect_eq(&rt, matches!(&answer, CleanerAnswer::Fault(_)), true);
    expect_eq(&rt, logged.durable(), 2);
    expect_eq(&rt, size_found(&rt, rt.alloc(), &*logged), Some(0));
}

/// How many entries are handed out, if they are.
fn handed(rt: &impl Abort, alloc: Global, logged: &mut Logged) -> Option<usize> {
    let limit = logged.volume().journal_limit() as usize;
    let room = Vec::with_capacity(alloc, limit).expect(rt, "memory");
    match logged.drain(room) {
        Ok(entries) => Some(entries.len()),
        Err(_) => None,
    }
}

#[test]
fn entries_are_handed_out_behind_a_sync(rt: HostRuntime) {
    let mut logged = fresh(&rt, rt.alloc());
    serve(&rt, rt.alloc(), &mut *logged, "create /f 0644");
    expect_eq(&rt, handed(&rt, rt.alloc(), &mut *logged), None);
    serve(&rt, rt.alloc(), &mut *logged, "sync");
    expect_eq(&rt, handed(&rt, rt.alloc(), &mut *logged), Some(2));
    expect_eq(&rt, logged.durable(), 0);
    serve(&rt, rt.alloc(), &mut *logged, "write /f at 0 61");
    expect_eq(&rt, logged.durable(), 0);
    serve(&rt, rt.alloc(), &mut *logged, "sync");
    expect_eq(&rt, logged.durable(), 2);
    expect_eq(&rt, size_found(&rt, rt.alloc(), &*logged), Some(1));
}
