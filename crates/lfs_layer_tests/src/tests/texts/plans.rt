//! What scripts without a fault ask.

use super::{repeated, steps_of};
use crate::tests::expect_eq;
use lfs_script::plan::{Plan, Step};
use lfs_script::script::parse_script;
use lfs_script::split::SplitFault;
use lfs_types::cred::Cred;
use lfs_types::request::Request;
use lfs_types::script::Script;
use std::alloc::Global;
use std::process::Abort;

/// The plan of a script that has no fault.
fn plan_of(rt: &impl Abort, alloc: Global, script: &[u8]) -> Plan {
    assert!(rt; script.len() <= 65_536);
    parse_script(alloc, script).expect(rt, "a script")
}

/// A user of these groups.
fn user(rt: &impl Abort, uid: u32, groups: &[u32], init: bool) -> Cred {
    Cred::new(uid, groups, init).expect(rt, "a credential")
}

/// Asserts that the steps of a plan are of these callers.
fn expect_callers(rt: &impl Abort, steps: &[Step], callers: &[Cred]) {
    expect_eq(rt, steps.len(), callers.len());
    for (step, caller) in steps.iter().zip(callers) {
        expect_eq(rt, &step.cred, caller);
    }
}

#[test]
fn sixteen_groups(rt: HostRuntime) {
    let script = b"stat /\nas 0 1,2,3,4,5,6,7,8,9,10,11,12,13,14,15,00016 init\nstat /a\n";
    let groups = [1, 2, 3, 4, 5, 6, 7, 8, 9, 10, 11, 12, 13, 14, 15, 16];
    let callers = [user(&rt, 0, &[0], false), user(&rt, 0, &groups, true)];
    let plan = plan_of(&rt, rt.alloc(), script);
    let steps = steps_of(&rt, rt.alloc(), plan);
    expect_callers(&rt, steps.as_slice(), &callers);
}

#[test]
fn steps_of_three_chunks(rt: HostRuntime) {
    let lines = "session 1\nsync\nsession 2\nsync\n";
    let script = repeated(&rt, rt.alloc(), "", lines, 300);
    let plan = plan_of(&rt, rt.alloc(), script.as_bytes());
    let steps = steps_of(&rt, rt.alloc(), plan);
    expect_eq(&rt, steps.len(), 600);
    for (index, step) in steps.iter().enumerate() {
        expect_eq(&rt, usize::from(step.session), 1 + index % 2);
    }
}

/// A script with users' calls.
const CALLS: &[u8] = b"
# nothing
stat /
create /d/f 6755
read /f 18446744073709551615 4294967295
write /f at 00000000000000000007 00ff6a
write /f end -
list /f
unlink /f
rmdir /f
length /f 71680
rename /f /
sync
mkdir /f 755
chmod /f 1777
chown /f 7 0008
chflags /f 70007
level -1
level -01
level 0
level -0
level 00
level 00000000000000000001
level 2
";

/// What its lines ask for, each with its session and its user.
const ASKED: &str = "\
0 0 User(Stat { path: Path { names: [] } })
0 0 User(Create { path: Path { names: [\
Name { stored: Short(ShortBytes { count: 1, bytes: [100, 0, 0, 0, 0, 0, 0, 0, 0, 0, 0, 0, 0, 0] }) }, \
Name { stored: Short(ShortBytes { count: 1, bytes: [102, 0, 0, 0, 0, 0, 0, 0, 0, 0, 0, 0, 0, 0] }) }\
] }, \
mode: Mode { set: ModeBits(3565) } })
0 0 User(Read { path: Path { names: [\
Name { stored: Short(ShortBytes { count: 1, bytes: [102, 0, 0, 0, 0, 0, 0, 0, 0, 0, 0, 0, 0, 0] }) }\
] }, off: 18446744073709551615, len: 4294967295 })
0 0 User(Write { path: Path { names: [\
Name { stored: Short(ShortBytes { count: 1, bytes: [102, 0, 0, 0, 0, 0, 0, 0, 0, 0, 0, 0, 0, 0] }) }\
] }, place: At(7), bytes: Payload { content: [0, \
255, 106] } })
0 0 User(Write { path: Path { names: [\
Name { stored: Short(ShortBytes { count: 1, bytes: [102, 0, 0, 0, 0, 0, 0, 0, 0, 0, 0, 0, 0, 0] }) }\
] }, place: End, \
bytes: Payload { content: [] } })
0 0 User(List { path: Path { names: [\
Name { stored: Short(ShortBytes { count: 1, bytes: [102, 0, 0, 0, 0, 0, 0, 0, 0, 0, 0, 0, 0, 0] }) }\
] } })
0 0 User(Unlink { path: Path { names: [\
Name { stored: Short(ShortBytes { count: 1, bytes: [102, 0, 0, 0, 0, 0, 0, 0, 0, 0, 0, 0, 0, 0] }) }\
] } })
0 0 User(Rmdir { path: Path { names: [\
Name { stored: Short(ShortBytes { count: 1, bytes: [102, 0, 0, 0, 0, 0, 0, 0, 0, 0, 0, 0, 0, 0] }) }\
] } })
0 0 User(SetLength { path: Path { names: [\
Name { stored: Short(ShortBytes { count: 1, bytes: [102, 0, 0, 0, 0, 0, 0, 0, 0, 0, 0, 0, 0, 0] }) }\
] }, len: 71680 })
0 0 User(Rename { from: Path { names: [\
Name { stored: Short(ShortBytes { count: 1, bytes: [102, 0, 0, 0, 0, 0, 0, 0, 0, 0, 0, 0, 0, 0] }) }\
] }, to: Path { names: [] } })
0 0 User(Sync)
0 0 User(Mkdir { path: Path { names: [\
Name { stored: Short(ShortBytes { count: 1, bytes: [102, 0, 0, 0, 0, 0, 0, 0, 0, 0, 0, 0, 0, 0] }) }\
] }, mode: Mode { set: ModeBits(493) } })
0 0 User(Chmod { path: Path { names: [\
Name { stored: Short(ShortBytes { count: 1, bytes: [102, 0, 0, 0, 0, 0, 0, 0, 0, 0, 0, 0, 0, 0] }) }\
] }, mode: Mode { set: ModeBits(1023) } })
0 0 User(Chown { path: Path { names: [\
Name { stored: Short(ShortBytes { count: 1, bytes: [102, 0, 0, 0, 0, 0, 0, 0, 0, 0, 0, 0, 0, 0] }) }\
] }, uid: 7, gid: 8 })
0 0 User(Chflags { path: Path { names: [\
Name { stored: Short(ShortBytes { count: 1, bytes: [102, 0, 0, 0, 0, 0, 0, 0, 0, 0, 0, 0, 0, 0] }) }\
] }, \
flags: FileFlags { set: FlagBits(458759) } })
0 0 User(SetLevel { level: PermanentlyInsecure })
0 0 User(SetLevel { level: PermanentlyInsecure })
0 0 User(SetLevel { level: Insecure })
0 0 User(SetLevel { level: Insecure })
0 0 User(SetLevel { level: Insecure })
0 0 User(SetLevel { level: Secure })
0 0 User(SetLevel { level: HighlySecure })
";

/// A script with the cleaner's lines.
const CLEANER_LINES: &[u8] = b"\
ifile
session 8
infos 3
as 7 7
bmapv 4:1:2147483648:65 4:1:4294967295:66
bmapv
session 2
markv 5:2:139:0
segclean 1023
pass
";

/// What they ask for, each with its session and its user.
const CLEANER_CALLS: &str = "\
0 0 Cleaner(HeldCall { call: Ifile })
8 0 Cleaner(HeldCall { call: Infos(3) })
8 7 Cleaner(HeldCall { call: Bmapv(BlockInfos { items: [BlockInfo { ino: 4, version: 1, lbn: 2147483648, addr: 65 }, \
BlockInfo { ino: 4, version: 1, lbn: 4294967295, addr: 66 }] }) })
8 7 Cleaner(HeldCall { call: Bmapv(BlockInfos { items: [] }) })
2 7 Cleaner(HeldCall { call: Markv(BlockInfos { items: [BlockInfo { ino: 5, version: 2, lbn: 139, addr: 0 }] }) })
2 7 Cleaner(HeldCall { call: Segclean(1023) })
2 7 Pass
";

/// Adds what a step asks for, with its session and its user, as a line.
fn say(rt: &impl Abort, said: &mut String, step: &Step) {
    let Step { session, cred, act } = step;
    let uid = cred.uid();
    writeln!(said, "{session} {uid} {act:?}").expect(rt, "memory");
}

/// Asserts what the lines of a plan ask for, each with its session and its user.
fn expect_said(rt: &impl Abort, alloc: Global, plan: Plan, wanted: &str) {
    let mut said = String::new(alloc);
    for step in plan.into_steps() {
        say(rt, &mut said, &step);
    }
    expect_eq(rt, said.as_str(), wanted);
}

#[test]
fn each_call_as_it_is_written(rt: HostRuntime) {
    let plan = plan_of(&rt, rt.alloc(), CALLS);
    expect_said(&rt, rt.alloc(), plan, ASKED);
}

#[test]
fn cleaner_calls_as_they_are_written(rt: HostRuntime) {
    let plan = plan_of(&rt, rt.alloc(), CLEANER_LINES);
    expect_eq(&rt, plan.sessions(), 8);
    expect_said(&rt, rt.alloc(), plan, CLEANER_CALLS);
}

/// Asserts that a script is Syncs, by these callers.
fn expect_syncs(rt: &impl Abort, script: &Script, callers: &[Cred]) {
    let calls = script.as_slice();
    expect_eq(rt, calls.len(), callers.len());
    for ((cred, request), caller) in calls.iter().zip(callers) {
        expect_eq(rt, cred, caller);
        expect_eq(rt, matches!(request, Request::Sync), true);
    }
}

/// A script with three sessions, of which the second alone has lines of its own.
const SESSIONS: &[u8] = b"\
sync
session 2
as 7 8
sync
session 0
sync
session 3
session 2
sync
";

/// Asserts that three scripts are Syncs: of the first and the third none, of the second two by this caller.
fn expect_sessions(rt: &impl Abort, scripts: &[Script], caller: Cred) {
    let [first, second, third] = scripts else {
        panic!(rt; "three scripts")
    };
    expect_syncs(rt, first, &[]);
    expect_syncs(rt, second, &[caller, caller]);
    expect_syncs(rt, third, &[]);
}

#[test]
fn a_script_for_each_session(rt: HostRuntime) {
    let (root, caller) = (user(&rt, 0, &[0], false), user(&rt, 7, &[8], false));
    let plan = plan_of(&rt, rt.alloc(), SESSIONS);
    let (setup, scripts) = plan.split(rt.alloc()).expect(&rt, "scripts");
    expect_syncs(&rt, &setup, &[root, caller]);
    expect_sessions(&rt, scripts.as_slice(), caller);
}

#[test]
fn cleaner_lines_have_no_session(rt: HostRuntime) {
    for line in [
        "ifile\n",
        "infos 0\n",
        "bmapv\n",
        "markv\n",
        "segclean 1\n",
        "pass\n",
    ] {
        let plan = plan_of(&rt, rt.alloc(), line.as_bytes());
        let fault = plan.split(rt.alloc()).err();
        expect_eq(&rt, fault, Some(SplitFault::CleanerLine));
    }
}
