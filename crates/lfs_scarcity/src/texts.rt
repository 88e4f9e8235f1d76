//! What is copied, split and printed.

use crate::asked::{Asked, calls};
use crate::told::{on_the_way, told};
use crate::volumes::log;
use lfs_audit::plan::Plan;
use lfs_audit::print::{print_answer, print_cleaner};
use lfs_audit::report::report_counts;
use lfs_audit::script::parse_script;
use lfs_logstore::LogStore;
use lfs_model::journal::{CleanerAnswer, CleanerKind, Entry, Event};
use lfs_types::answer::Answer;
use lfs_types::cleaner::InfoList;
use lfs_types::request::Request;
use lfs_volume::volume::Volume;
use std::alloc::Global;
use std::io::Write;

/// A line for each kind of user's call. Those on a file that is there are answered with all that can be shown.
const LINES: &str = "\
as 7 7,8,9
stat /a
as 0 0
create /a 0644
write /a at 0 616263
write /a end 64
read /a 0 10
list /
length /a 9
mkdir /d 0755
rename /a /nnnnnnnnnnnnnnnnnnnnnnnnn
chmod /d 0700
chown /d 7 8
chflags /d 2
level 1
sync
unlink /nnnnnnnnnnnnnnnnnnnnnnnnn
rmdir /d
";

/// Each request of the lines is copied, and each answer to them.
pub(crate) fn copies<W: Write>(alloc: Global, writer: &mut W) {
    let Some(asked) = calls(alloc, writer, LINES) else {
        return;
    };
    for (_, _, request) in &asked {
        copy_request(alloc, writer, request);
    }
    let Some(mut looked) = log(alloc, writer, &[]) else {
        return;
    };
    answer_all(&mut looked.volume, asked);
    for entry in looked.volume.journal() {
        if let Some(answer) = answer_in(entry) {
            copy_answer(writer, answer);
        }
    }
}

/// Makes calls, whatever they are answered.
fn answer_all(volume: &mut Volume<LogStore>, asked: Vec<Asked>) {
    for (session, cred, request) in asked {
        drop(volume.call(session, &cred, request));
    }
}

/// The answer that an entry has to a user's call.
fn answer_in(entry: &Entry) -> Option<&Answer> {
    match &entry.event {
        Event::User(_, answer) => Some(answer),
        Event::Cleaner(_, _) => None,
    }
}

/// Copies a request; once more where memory was refused. The copy is the request.
fn copy_request<W: Write>(alloc: Global, writer: &mut W, request: &Request) {
    for _ in 0..2 {
        if let Some(copy) = on_the_way(writer, "request", request.try_clone(alloc)) {
            let is_same = copy == *request;
            let _ = writeln!(writer, "request same {is_same}");
            return;
        }
    }
}

/// Copies an answer, which takes no memory. The copy is the answer.
fn copy_answer<W: Write>(writer: &mut W, answer: &Answer) {
    if let Some(copy) = on_the_way(writer, "answer", answer.try_clone()) {
        let is_same = copy == *answer;
        let _ = writeln!(writer, "answer same {is_same}");
    }
}

/// A plan is split, answers and a cleaner's are printed, and a report.
pub(crate) fn texts<W: Write>(alloc: Global, writer: &mut W) {
    split(alloc, writer);
    let Some(asked) = calls(alloc, writer, LINES) else {
        return;
    };
    let Some(mut looked) = log(alloc, writer, &[]) else {
        return;
    };
    answer_all(&mut looked.volume, asked);
    for entry in looked.volume.journal() {
        if let Some(answer) = answer_in(entry) {
            print(alloc, writer, answer);
        }
    }
    print_of_cleaner(alloc, writer, &CleanerAnswer::Infos(InfoList::empty()));
    print_of_cleaner(alloc, writer, &CleanerAnswer::Marked(1_048_576));
    report(alloc, writer, &looked.volume);
}

/// Lines of two sessions.
const SESSIONS: &str = "stat /\nsession 2\nas 7 7\nlist /\nsession 1\nread /a 0 1\n";

/// A plan is split; once more where memory was refused.
fn split<W: Write>(alloc: Global, writer: &mut W) {
    for _ in 0..2 {
        let Some(plan) = plan(alloc, writer) else {
            return;
        };
        if !told(writer, "split", plan.split(alloc)) {
            return;
        }
    }
}

/// The plan of the lines of two sessions, asked for once more where memory was refused.
fn plan<W: Write>(alloc: Global, writer: &mut W) -> Option<Plan> {
    let script = SESSIONS.as_bytes();
    match on_the_way(writer, "script", parse_script(alloc, script)) {
        Some(plan) => Some(plan),
        None => on_the_way(writer, "script", parse_script(alloc, script)),
    }
}

/// An answer is printed; once more where memory was refused.
fn print<W: Write>(alloc: Global, writer: &mut W, answer: &Answer) {
    if told(writer, "print", print_answer(alloc, 1, answer)) {
        told(writer, "print", print_answer(alloc, 1, answer));
    }
}

/// A cleaner's answer is printed; once more where memory was refused.
fn print_of_cleaner<W: Write>(alloc: Global, writer: &mut W, answer: &CleanerAnswer) {
    let kind = CleanerKind::Infos;
    if told(writer, "cleaner", print_cleaner(alloc, 1, kind, answer)) {
        told(writer, "cleaner", print_cleaner(alloc, 1, kind, answer));
    }
}

/// The report on a volume; once more where memory was refused.
fn report<W: Write>(alloc: Global, writer: &mut W, volume: &Volume<LogStore>) {
    if told(writer, "counts", report_counts(alloc, volume.counts())) {
        told(writer, "counts", report_counts(alloc, volume.counts()));
    }
}
