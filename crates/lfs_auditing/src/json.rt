//! What an audit tells, as JSON.

ghost use Rattle.std.specs.Prelude.{◌≡◌, ◌++◌, ◌∷◌, [], IfOk, OnOk, length, map};
ghost use Rattle.serde_json.specs.View.{view};
ghost use Rattle.serde_json.specs.Written.{compact_text};
ghost use Rattle.lfs_auditing.specs.Json.{ArePlain, IsJson, IsPlain, IsStopped, is_legal, report_data, rule_data, rules_data, user_data, users_data};

use crate::audit::{Audit, Stop};
use crate::last::{Last, LastOnes};
use crate::telling::next_of;
use crate::users::Users;
use lfs_journal_lines::telling::push_entry;
use lfs_model::counts::Counts;
use lfs_model::journal::Entry;
use lfs_print::print::push_answer;
use lfs_types::answer::{Answer, Served};
use lfs_types::path::Path;
use lfs_types::rule::{Denial, RULES, Rule};
use lfs_who::act::Act;
use lfs_who::line::Line;
use lfs_who::who::Who;
use lfs_words::spelling::spell_path;
use serde_json::{Value, json};
use std::alloc::{AllocError, Global};

/// What the JSON of an audit has beside the verdict.
struct Parts {
    /// Where the audit stopped.
    stopped: Value,
    /// How each user's calls were answered.
    users: Value,
    /// Who changed each file last.
    changed: Value,
    /// Who else than its owner read each file last.
    read: Value,
    /// Who could act by the path that is asked of.
    who: Value,
}

impl Audit {
    /// The JSON text, in a line, of an audit that stopped there: an object with `legal`, whether the journal is legal
    /// up to its end; `entries`, how many entries are legal; `stopped`, null or the number of the entry behind them,
    /// with its line and what the rules say, or its fault; `users`, how each user's calls were answered; `changed` and
    /// `read`, who did so last; and `who`, who could act by a path that is asked of.
    pub fn tell_json(&mut self, stop: &Stop, who: &Option<Path>) -> Result<Vec<u8>, AllocError>
        ensures { IfOk result (λ text. IsJson self.old stop.now text.items) }
    {
        let entries = self.entries;
        let users = users_value(self.alloc, &self.users)?;
        let changed = self.last_values(&self.changed)?;
        let read = self.last_values(&self.read)?;
        let stopped = self.stopped_value(entries, stop)?;
        let who = self.who_value(who)?;
        let parts = Parts {
            stopped,
            users,
            changed,
            read,
            who,
        };
        text_of(self.alloc, is_legal(stop), entries, parts)
    }

    /// Where an audit of so many entries stopped.
    fn stopped_value(&mut self, entries: u32, stop: &Stop) -> Result<Value, AllocError>
        ensures stopped { IfOk result (λ v. IsStopped entries stop.now (view v)) }
        ensures plain { IfOk result IsPlain }
    {
        match stop {
            Stop::End => Ok(Value::Null),
            Stop::Illegal(entry) => {
                let line = line_of(self.alloc, entry)?;
                let rules = self.rules_of(entry)?;
                json!(in self.alloc; {"entry": next_of(entries), "line": line, "rules": rules})
            }
            Stop::Unread(unread) => {
                let fault = format!(in self.alloc; "{unread}")?;
                json!(in self.alloc; {"entry": next_of(entries), "fault": fault})
            }
        }
    }

    /// What the rules say of an entry.
    fn rules_of(&mut self, entry: &Entry) -> Result<String, AllocError> {
        let mut text = Vec::new(self.alloc);
        self.push_rules(&mut text, entry)?;
        String::from_utf8_lossy(self.alloc, text.as_slice())
    }

    /// An object for each file that is there and of which somebody is put down, by inode number.
    fn last_values(&self, ones: &LastOnes) -> Result<Value, AllocError>
        ensures { IfOk result IsPlain }
    {
        let mut values = Vec::new(self.alloc);
        for number in 0..self.numbers {
            match ones.of(number) {
                Some(last) if self.checker.is_used(number) => {
                    push_plain(&mut values, last_value(self.alloc, last)?)?;
                }
                _ => (),
            }
        }
        Ok(Value::Array(values))
    }

    /// Who could act by a path, if one is asked of.
    fn who_value(&mut self, who: &Option<Path>) -> Result<Value, AllocError>
        ensures { IfOk result IsPlain }
    {
        match who {
            None => Ok(Value::Null),
            Some(path) => self.acts_value(path),
        }
    }

    /// An object for each class of callers of each act by a path.
    fn acts_value(&mut self, path: &Path) -> Result<Value, AllocError>
        ensures { IfOk result IsPlain }
    {
        let kind = self.checker.row(path).map(|row| row.attrs.kind);
        let mut values = Vec::new(self.alloc);
        for act in Act::all_of(kind) {
            let who = self.checker.who(*act, path)?;
            push_who(self.alloc, &mut values, *act, &who)?;
        }
        Ok(Value::Array(values))
    }
}

/// Whether a journal is legal up to its end.
fn is_legal(stop: &Stop) -> bool
    ensures { result ≡ is_legal stop.now }
{
    match stop {
        Stop::End => true,
        Stop::Illegal(_) | Stop::Unread(_) => false,
    }
}

/// The text of a report, in a line.
fn text_of(alloc: Global, legal: bool, entries: u32, parts: Parts) -> Result<Vec<u8>, AllocError>
    requires stopped { IsPlain parts.stopped }
    requires users { IsPlain parts.users }
    requires changed { IsPlain parts.changed }
    requires read { IsPlain parts.read }
    requires who { IsPlain parts.who }
    ensures { IfOk result (λ text. text.items
        ≡ compact_text (report_data legal entries parts) ++ 10 ∷ []) }
{
    let value = report_value(alloc, legal, entries, parts)?;
    let mut text = value.to_vec(alloc)?;
    text.push(b'\n')?;
    Ok(text)
}

/// A report.
fn report_value(alloc: Global, legal: bool, entries: u32, parts: Parts) -> Result<Value, AllocError>
    ensures { IfOk result (λ v. view v ≡ report_data legal entries parts) }
{
    let Parts {
        stopped,
        users,
        changed,
        read,
        who,
    } = parts;
    json!(in alloc; {
        "changed": changed,
        "entries": entries,
        "legal": legal,
        "read": read,
        "stopped": stopped,
        "users": users,
        "who": who
    })
}

/// An object for each user who has an entry, in their order.
fn users_value(alloc: Global, users: &Users) -> Result<Value, AllocError>
    ensures { IfOk result (λ v. view v ≡ users_data users.now.counts.entries) }
{
    let mut values = Vec::new(alloc);
    for (uid, counts) in users.counts.iter() {
        values.push(user_value(alloc, *uid, counts)?)?;
    }
    Ok(Value::Array(values))
}

/// How a user's calls were answered.
fn user_value(alloc: Global, uid: u32, counts: &Counts) -> Result<Value, AllocError>
    ensures { IfOk result (λ v. view v ≡ user_data (uid, counts.now)) }
{
    let rules = rules_value(alloc, &RULES, &counts.rules)?;
    json!(in alloc; {
        "cleaner": counts.cleaner,
        "denied": counts.denied,
        "refused": counts.refused,
        "rules": rules,
        "served": counts.served,
        "user": uid
    })
}

/// An object for each rule that denied calls.
fn rules_value(alloc: Global, rules: &[Rule], numbers: &[u32]) -> Result<Value, AllocError>
    requires { length numbers.now ≡ length rules.now }
    ensures { IfOk result (λ v. view v ≡ rules_data rules.now numbers.now) }
{
    let mut values = Vec::new(alloc);
    for place in 0..rules.len() {
        push_rule(alloc, &mut values, rules[place], numbers[place])?;
    }
    Ok(Value::Array(values))
}

/// Puts how many calls a rule denied, where it denied any.
fn push_rule(
    alloc: Global,
    values: &mut Vec<Value>,
    rule: Rule,
    number: u32,
) -> Result<(), AllocError>
    ensures { OnOk result (map view values.new.items
        ≡ map view values.old.items ++ rule_data (rule, number)) }
{
    if number == 0 {
        return Ok(());
    }
    let value = json!(in alloc; {"denied": number, "rule": rule.code()})?;
    Ok(values.push(value)?)
}

/// Puts a value behind others.
fn push_plain(values: &mut Vec<Value>, value: Value) -> Result<(), AllocError>
    requires { IsPlain value }
    ensures { OnOk result (ArePlain values.old.items → ArePlain values.new.items) }
{
    Ok(values.push(value)?)
}

/// Who did something last to a file.
fn last_value(alloc: Global, last: &Last) -> Result<Value, AllocError>
    ensures { IfOk result IsPlain }
{
    let path = path_text(alloc, &last.path)?;
    json!(in alloc; {
        "entry": last.entry,
        "path": path,
        "session": last.session,
        "user": last.uid
    })
}

/// Puts an object for each class of callers of an act.
fn push_who(alloc: Global, values: &mut Vec<Value>, act: Act, who: &Who) -> Result<(), AllocError>
    ensures { OnOk result (ArePlain values.old.items → ArePlain values.new.items) }
{
    for named in &who.named {
        push_lines(alloc, values, (act, Some(named.uid)), &named.lines)?;
    }
    push_lines(alloc, values, (act, None), &who.others)
}

/// Puts an object for each of the lines of a user, or of everybody else, of an act.
fn push_lines(
    alloc: Global,
    values: &mut Vec<Value>,
    of: (Act, Option<u32>),
    lines: &[Line],
) -> Result<(), AllocError>
    ensures { OnOk result (ArePlain values.old.items → ArePlain values.new.items) }
{
    for line in lines {
        push_plain(values, line_value(alloc, of, line)?)?;
    }
    Ok(())
}

/// A class of callers of an act, and how the rules decide.
fn line_value(alloc: Global, of: (Act, Option<u32>), line: &Line) -> Result<Value, AllocError>
    ensures { IfOk result IsPlain }
{
    let (act, user) = of;
    let inside = groups_value(alloc, line.inside())?;
    let outside = groups_value(alloc, line.outside())?;
    let answer = answer_text(alloc, line.denial())?;
    json!(in alloc; {
        "act": act.word(),
        "answer": answer,
        "in": inside,
        "not_in": outside,
        "user": or_null(user)
    })
}

/// A user, or null for everybody else.
fn or_null(user: Option<u32>) -> Value
    ensures { IsPlain result }
{
    match user {
        Some(uid) => Value::from(uid),
        None => Value::Null,
    }
}

/// An array of groups.
fn groups_value(alloc: Global, groups: &[u32]) -> Result<Value, AllocError>
    ensures { IfOk result IsPlain }
{
    let mut values = Vec::new(alloc);
    for group in groups {
        push_plain(&mut values, Value::from(*group))?;
    }
    Ok(Value::Array(values))
}

/// The answer by a decision, as `ok` or `denied M2 EACCES 0 1`.
fn answer_text(alloc: Global, denial: Option<Denial>) -> Result<String, AllocError> {
    let answer = match denial {
        Some(denial) => Answer::Denied(denial),
        None => Answer::Served(Served::Done),
    };
    let mut text = Vec::new(alloc);
    push_answer(&mut text, &answer)?;
    text_in(alloc, text.as_slice())
}

/// The line of an entry.
fn line_of(alloc: Global, entry: &Entry) -> Result<String, AllocError> {
    let mut text = Vec::new(alloc);
    push_entry(&mut text, entry)?;
    text_in(alloc, text.as_slice())
}

/// A path.
fn path_text(alloc: Global, path: &Path) -> Result<String, AllocError> {
    let mut text = Vec::new(alloc);
    spell_path(&mut text, path)?;
    text_in(alloc, text.as_slice())
}

/// A text without a space before it, and without a line feed behind it.
fn text_in(alloc: Global, text: &[u8]) -> Result<String, AllocError> {
    let text = match text.split_first() {
        Some((b' ', rest)) => rest,
        _ => text,
    };
    let text = match text.split_last() {
        Some((b'\n', rest)) => rest,
        _ => text,
    };
    String::from_utf8_lossy(alloc, text)
}
