//! Two clients whose calls are held until the other's are begun: so each has a thread of its own, and no session waits for
//! another but for the lock.

use super::watch::Watch;
use super::{User, answers, calls, serve_fresh};
use lfs_server::gate::Gate;
use std::alloc::Global;
use std::process::Abort;
use std::sync::Wait;
use std::thread::Threads;

/// Holds the first call of each of two sessions until the other's is begun, and the second until the other's first is
/// made.
#[derive(Drop)]
struct Meeting<'a, R: Wait> {
    /// The first calls that are begun.
    begun: Watch<'a, R>,
    /// The first calls that are made.
    made: Watch<'a, R>,
}

impl<'a, R: Wait + Sync> Gate for Meeting<'a, R> {
    fn before(&self, session: u8, index: u32) {
        let other = match session {
            1 => 2,
            2 => 1,
            _ => return,
        };
        if index == 0 {
            self.begun.note(session, 0);
            self.begun.wait_for(other, 0);
        } else if index == 1 {
            self.made.wait_for(other, 0);
        }
    }

    fn after(&self, session: u8, index: u32) {
        if index == 0 && (session == 1 || session == 2) {
            self.made.note(session, 0);
        }
    }
}

/// The superuser makes a file, writes it and reads it.
const MAKER: &str = "create /a 0600\nwrite /a end 6869\nread /a 0 9\n";

/// User 8 may make no file in the root directory, which he may list; and what isn't there he doesn't find.
const OTHER: &str = "as 8 8\ncreate /b 0600\nread /b 0 9\n";

/// What they were answered where the superuser's session has the lower number.
const MAKER_FIRST: &[u8] =
    b"1 ok\n1 ok\n1 bytes 6869\n2 denied M2 EACCES 0 0\n2 denied N2 ENOENT 0 1\n";

/// What they were answered where it has the higher.
const OTHER_FIRST: &[u8] =
    b"1 denied M2 EACCES 0 0\n1 denied N2 ENOENT 0 1\n2 ok\n2 ok\n2 bytes 6869\n";

/// Both clients.
fn both(rt: &impl Abort, alloc: Global) -> Vec<User> {
    let mut users = Vec::new(alloc);
    for script in [MAKER, OTHER] {
        let calls = calls(rt, alloc, script);
        users.push(User { calls }).ok().expect(rt, "memory");
    }
    users
}

/// Lets both use a server at this gate, and gives what they were answered.
fn serve_meeting<R: Abort + Threads + Wait + Sync>(
    rt: &R,
    alloc: Global,
    gate: &Meeting<'_, R>,
) -> Vec<u8> {
    let users = both(rt, alloc);
    let stopped = serve_fresh(rt, alloc, users, gate).expect(rt, "a stop");
    answers(rt, alloc, stopped.transcripts.as_slice())
}

#[test]
fn two_clients_meet(rt: HostRuntime) {
    let gate = Meeting {
        begun: Watch::new(&rt, rt.alloc()),
        made: Watch::new(&rt, rt.alloc()),
    };
    let found = serve_meeting(&rt, rt.alloc(), &gate);
    gate.begun.assert_unfailed(&rt);
    gate.made.assert_unfailed(&rt);
    assert!(&rt; found.as_slice() == MAKER_FIRST || found.as_slice() == OTHER_FIRST);
}
