//! What no clause says of a run on threads: that its cache has at the end the frames with which it began.

use super::bell::push;
use super::{SMALL, plan_of};
use lfs_cache::{BlockCode, Key};
use lfs_logstore::LogStore;
use lfs_server::serve::serve;
use lfs_server::serving::Closed;
use lfs_types::store::Params;
use std::alloc::Global;
use std::process::Abort;
use std::sync::Wait;
use std::thread::Threads;

/// The files that a session makes, by their names and numbers.
const FILES: [(&str, u32); 5] = [("a", 4), ("b", 5), ("c", 6), ("d", 7), ("e", 8)];

/// How many blocks of 512 bytes are written of each.
const BLOCKS: u32 = 8;

/// The code of a file's first block of data.
const FIRST: u32 = 131;

/// Appends the calls that make a file of eight blocks, have them written and read them.
fn push_file(rt: &impl Abort, alloc: Global, script: &mut String, name: &str) {
    let bytes = "5a".repeat(alloc, 4096).expect(rt, "memory");
    for (verb, operands) in [("create /", " 0666\n"), ("write /", " at 0 ")] {
        push(rt, script, verb);
        push(rt, script, name);
        push(rt, script, operands);
    }
    push(rt, script, bytes.as_str());
    push(rt, script, "\nsync\nread /");
    push(rt, script, name);
    push(rt, script, " 0 4096\n");
}

/// How many of the blocks have a frame.
fn blocks_in_frames(closed: &Closed<LogStore>) -> usize {
    let cache = &closed.volume.store().parts().cache;
    let mut count = 0usize;
    for (_, ino) in FILES {
        for block in 0..BLOCKS {
            let key = Key {
                ino,
                version: 1,
                lbn: BlockCode(FIRST + block),
            };
            count = count.saturating_add(usize::from(cache.peek(key).is_some()));
        }
    }
    count
}

/// Runs such a session with so many frames, and says how many of the blocks have one then.
fn blocks_kept<R: Abort + Threads + Wait + Sync>(rt: &R, alloc: Global, frames: u32) -> usize {
    let mut script = String::new(alloc);
    push(rt, &mut script, "session 1\n");
    for (name, _) in FILES {
        push_file(rt, alloc, &mut script, name);
    }
    let plan = plan_of(rt, alloc, script.as_str());
    let (setup, sessions) = plan.split(alloc).expect(rt, "sessions");
    let params = Params { frames, ..SMALL };
    let closed = serve(rt, alloc, params, setup, sessions, &()).expect(rt, "a run");
    blocks_in_frames(&closed)
}

/// All 40 blocks and that of the root directory have their frames in 48, and not in 32.
#[test]
fn frames_are_those_that_were_asked_for(rt: HostRuntime) {
    assert_eq!(&rt; blocks_kept(&rt, rt.alloc(), 48), 40);
    assert!(&rt; blocks_kept(&rt, rt.alloc(), 32) <= 32);
}
