//! The first fault of a script, and what one without a fault asks.

use super::repeated;
use crate::tests::expect_eq;
use lfs_script::fault::ScriptFault;
use lfs_script::script::parse_script;
use lfs_types::cred::BadCred;
use lfs_types::name::BadName;
use lfs_types::path::BadPath;
use lfs_words::fault::FaultKind;
use std::alloc::Global;
use std::process::Abort;

/// The most bytes of a script of these tests.
const MOST_BYTES: usize = 65_536;

/// Lines with a byte that no line may hold.
const BYTES: &str = "\
stat /a\tb
#\u{7f}
\r
list \u{1f}
# é";

/// Lines of wrong words.
const WORDS: &str = "\
\x20
sync\x20
sync /
Stat /
session
session 1 2
ifile 0
infos
infos 0 1
segclean
segclean 0 x
bmapv  1:1:1:1
markv 1:1:1:1\x20
pass 1
mount /
stat
stat /a /b
stat a\x20
\x20stat a
stat  a
as x
as 0 0 Init
as 0 0 init init
create /a
create a x y
read /a 0
read /a 0 1 2
write /a in 0 61
write a at x
write /a end
write /a end 61 62
write /a at 0 61 62
write /a at 0 61 62 63 64
as 0 0\x20
list
list a b
unlink
unlink a 0
rmdir
rmdir a b
length a
length a x y
mkdir a
mkdir a x y
chmod a
chmod a x y
rename a
rename a b c
chown a x
chown a x y z
chflags a
chflags a x y
level
level x y";

/// Lines with a number that is none.
const NUMBER: &str = "\
read /a x 1
read /a +1 1
read /a -1 1
read /a 1 1x
read /a 0x1 1
read /a 000000000000000000001 1
create /a 0000644
create /a 8
create /a 0o644
as -1 0
as 0 ,
as 0 1,
as 0 ,1
as 0 1,,2
as 0 4294967296,x
as 5 x init
write /a at x zz
as x 4294967296
length /a -1
length /a 000000000000000000001
mkdir /a 8
mkdir /a 0000755
chmod /a 08
chmod /a -1
chown /a x 4294967296
chown /a 0 1,2
chflags /a 000000000
chflags /a 0x2
chflags /a 4A
chflags /a -
level -
level --1
level +1
level 1-
level x
level 000000000000000000001
level -000000000000000000001
session x
session 000000000000000000001
infos -1
segclean 0x1
bmapv 1:1:1
bmapv 1:1:1:1:1
bmapv 1:1:1:
markv 4294967296:1:1:x
markv 1:1:1:1 x";

/// Lines with a number out of its range.
const RANGE: &str = "\
read /a 18446744073709551616 x
read /a 99999999999999999999 1
read /a 0 4294967296
create /a 10000
create /a 777777
as 4294967296 x
as 0 4294967296
as 5 1,4294967296 init
write /a at 18446744073709551616 zz
length /a 18446744073709551616
mkdir /a 10000
chmod /a 777777
chown /a 4294967296 x
chown /a 0 4294967296
chflags /a 8
chflags /a a
chflags /a 00080000
chflags /a ffffffff
level 3
level -2
level 18446744073709551616
level -99999999999999999999
session 9
infos 4294967296
segclean 4294967296
bmapv 4294967296:1:1:1 x
markv 1:1:1:4294967296";

/// Lines with wrong digits of bytes.
const HEX: &str = "\
write /a end 6
write /a end 6g
write /a end 6A
write /a end --
write /a end -6
write /a at 0 616
write /a at 0 0x";

/// Lines whose path is refused as one that does not begin with a slash.
const NOT_ABSOLUTE: &str = "\
stat a
write a/b end zz
list a
unlink a
rmdir a
length a x
mkdir a 8
chmod a 8
chown a x y
chflags a x
rename a //";

/// Lines, and the fault of each of them.
const FAULTS: [(FaultKind, &str); 11] = [
    (FaultKind::Bytes, BYTES),
    (FaultKind::Words, WORDS),
    (FaultKind::Number, NUMBER),
    (FaultKind::Range, RANGE),
    (FaultKind::Path(BadPath::NotAbsolute), NOT_ABSOLUTE),
    (
        FaultKind::Path(BadPath::Name(1, BadName::Empty)),
        "stat //\nrename /a //",
    ),
    (
        FaultKind::Path(BadPath::Name(2, BadName::Empty)),
        "read /a/ x 1",
    ),
    (
        FaultKind::Path(BadPath::Name(1, BadName::Dot)),
        "create /.. x",
    ),
    (FaultKind::Hex, HEX),
    (FaultKind::Cred(BadCred::InitNotRoot), "as 5 5 init"),
    (
        FaultKind::Cred(BadCred::TooManyGroups),
        "as 5 1,2,3,4,5,6,7,8,9,10,11,12,13,14,15,16,17 init",
    ),
];

/// The first fault of a script, where it has one.
fn fault_of(rt: &impl Abort, alloc: Global, script: &str) -> Option<ScriptFault> {
    let text = script.as_bytes();
    assert!(rt; text.len() <= MOST_BYTES);
    parse_script(alloc, text).err()
}

/// Asserts that a line, as the second of a script, has this fault.
fn expect_fault(rt: &impl Abort, alloc: Global, line: &str, kind: FaultKind) {
    let script = format!(in alloc; "# a comment\n{line}\nlist\n").expect(rt, "memory");
    let fault = ScriptFault { line: 2, kind };
    expect_eq(rt, fault_of(rt, alloc, script.as_str()), Some(fault));
}

/// Asserts that each line of this text has this fault.
fn expect_kind(rt: &impl Abort, alloc: Global, lines: &str, kind: FaultKind) {
    for line in lines.split('\n') {
        expect_fault(rt, alloc, line, kind);
    }
}

#[test]
fn cut(rt: HostRuntime) {
    for (script, line) in [("#", 1), ("stat /\nstat /", 2), ("\n\n \u{7f}", 3)] {
        let kind = FaultKind::Cut;
        let fault = ScriptFault { line, kind };
        expect_eq(&rt, fault_of(&rt, rt.alloc(), script), Some(fault));
    }
}

#[test]
fn first_fault_of_each_line(rt: HostRuntime) {
    for (kind, lines) in FAULTS {
        expect_kind(&rt, rt.alloc(), lines, kind);
    }
}

/// The beginning of a line, what follows it at most so often, and what may not stand behind that.
const LONGEST: [(&str, &str, u32, &[(&str, FaultKind)]); 4] = [
    (
        "write /a end ",
        "7a",
        4096,
        &[
            ("7a", FaultKind::Range),
            ("z", FaultKind::Range),
            ("zz", FaultKind::Range),
        ],
    ),
    ("stat ", "/a", 512, &[("a", FaultKind::Path(BadPath::Long))]),
    (
        "bmapv",
        " 4294967295:1:2147483648:65",
        248,
        &[(" x", FaultKind::Many), (" x ", FaultKind::Words)],
    ),
    (
        "markv",
        " 4294967295:1:2147483648:65",
        8,
        &[(" x", FaultKind::Many), (" x ", FaultKind::Words)],
    ),
];

/// Asserts that a line has no fault by itself, and with each of these behind it the fault that is named.
fn expect_longest(rt: &impl Abort, alloc: Global, line: &str, more: &[(&str, FaultKind)]) {
    let script = format!(in alloc; "{line}\n").expect(rt, "memory");
    expect_eq(rt, fault_of(rt, alloc, script.as_str()), None);
    drop(script);
    for (behind, kind) in more {
        let longer = format!(in alloc; "{line}{behind}").expect(rt, "memory");
        expect_fault(rt, alloc, longer.as_str(), *kind);
    }
}

#[test]
fn longest_lines(rt: HostRuntime) {
    for (before, part, times, more) in LONGEST {
        let line = repeated(&rt, rt.alloc(), before, part, times);
        expect_longest(&rt, rt.alloc(), line.as_str(), more);
    }
}
