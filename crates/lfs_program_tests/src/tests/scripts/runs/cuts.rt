//! A script that is cut after each of its bytes.

use super::{PARAMS, expect_unwritten};
use crate::tests::expect_eq;
use crate::tests::scripts::output_with;
use lfs_audit::fault::RunFault;
use lfs_script::fault::ScriptFault;
use lfs_words::fault::FaultKind;

/// A script of six lines.
const SCRIPT: &str = "\
as 0 0
create /a 0644
write /a at 0 616263
as 5 5
read /a 0 10
write /a at 0 64
";

/// What it prints where it is cut behind each line: the answers, and the report whole.
const OUTPUTS: [&str; 6] = [
    "entries 0\nserved 0\ndenied 0\nrefused 0\ncleaner 0\n",
    "0 ok\nentries 1\nserved 1\ndenied 0\nrefused 0\ncleaner 0\n",
    "0 ok\n0 ok\nentries 2\nserved 2\ndenied 0\nrefused 0\ncleaner 0\n",
    "0 ok\n0 ok\nentries 2\nserved 2\ndenied 0\nrefused 0\ncleaner 0\n",
    "0 ok\n0 ok\n0 bytes 616263\nentries 3\nserved 3\ndenied 0\nrefused 0\ncleaner 0\n",
    "0 ok\n0 ok\n0 bytes 616263\n0 denied M2 EACCES 0 1\n\
     entries 4\nserved 3\ndenied 1\nrefused 0\ncleaner 0\nrule M2 1\n",
];

/// The first bytes of the script, so many.
fn cut_at(count: usize) -> &'static str {
    SCRIPT.get(..count).unwrap_or_default()
}

#[test]
fn script_cut_behind_each_line(rt: HostRuntime) {
    let mut lines = 0usize;
    for count in 1..=SCRIPT.len() {
        let cut = cut_at(count);
        if cut.ends_with("\n") {
            let output = OUTPUTS.get(lines).copied().unwrap_or("none");
            let written = output_with(&rt, rt.alloc(), cut, PARAMS);
            expect_eq(&rt, written.as_slice(), output.as_bytes());
            lines = lines.saturating_add(1);
        }
    }
    expect_eq(&rt, lines, 6);
}

#[test]
fn script_cut_within_each_line(rt: HostRuntime) {
    let mut line = 1u32;
    for count in 1..SCRIPT.len() {
        let cut = cut_at(count);
        if cut.ends_with("\n") {
            line = line.saturating_add(1);
            continue;
        }
        let kind = FaultKind::Cut;
        let fault = RunFault::Script(ScriptFault { line, kind });
        expect_unwritten(&rt, rt.alloc(), &mut cut.as_bytes(), PARAMS, fault);
    }
    expect_eq(&rt, line, 6);
}
