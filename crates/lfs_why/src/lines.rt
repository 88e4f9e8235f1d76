//! An explanation as lines of text.

ghost use Rattle.std.specs.Prelude.{◌≡◌, ◌-◌, ◌++◌, IfOk, OnOk, slice_get};
ghost use Rattle.lfs_explain.specs.Trails.{first_names, second_names};
ghost use Rattle.lfs_why.specs.WhyText.{asks_bit, asks_caller, asks_name, class_word, is_sticky, paths_of, rule_words, sign, told_text, with_asked, with_caller, with_check, with_class, with_directory, with_head, with_name, with_row, with_subject, with_verdict};

use lfs_explain::check::Check;
use lfs_explain::class::Class;
use lfs_explain::explain::{Explanation, first_of, second_of};
use lfs_explain::trail::{ShownRow, row_of};
use lfs_rules::access::grants;
use lfs_types::attrs::{Attrs, Bit};
use lfs_types::cred::Cred;
use lfs_types::name::Name;
use lfs_types::request::Request;
use lfs_types::rule::{Denial, Rule};
use lfs_words::append::{push_flags, push_mode, push_name, push_number, push_word};
use std::alloc::{AllocError, Global};

/// The path that a check is of.
#[derive(Clone, Copy)]
struct Way<'a> {
    /// Its names.
    names: &'a [Name],
    /// The rows that they lead through.
    rows: &'a [ShownRow],
}

/// The lines of an explanation of a call by a caller: one for each check, and what they come to.
pub fn tell_explanation(
    alloc: Global,
    explanation: &Explanation,
    cred: &Cred,
    request: &Request,
) -> Result<Vec<u8>, AllocError>
    ensures { IfOk result (λ text. text.items ≡ told_text cred.now
        (paths_of request.now explanation.now) explanation.now.checks.items) }
{
    let mut text = Vec::new(alloc);
    for check in &explanation.checks {
        push_check(&mut text, explanation, cred, request, check)?;
    }
    push_verdict(&mut text, explanation.verdict())?;
    Ok(text)
}

/// Appends the line of a check.
fn push_check(
    out: &mut Vec<u8>,
    explanation: &Explanation,
    cred: &Cred,
    request: &Request,
    check: &Check,
) -> Result<(), AllocError>
    ensures { OnOk result (out.new.items ≡ with_check out.old.items cred.now
        (paths_of request.now explanation.now) check.now) }
{
    let Denial { rule, path, at } = check.denial();
    push_head(out, check)?;
    if path == 0 {
        let way = Way {
            names: first_of(request),
            rows: explanation.first.rows.as_slice(),
        };
        push_subject(out, cred, rule, at, way)?;
    } else {
        let way = Way {
            names: second_of(request),
            rows: explanation.second.rows.as_slice(),
        };
        push_subject(out, cred, rule, at, way)?;
    }
    Ok(out.push(b'\n')?)
}

/// Appends a rule, the path's index, the component, and whether it is met.
fn push_head(out: &mut Vec<u8>, check: &Check) -> Result<(), AllocError>
    ensures { OnOk result (out.new.items ≡ with_head out.old.items check.now) }
{
    let Denial { rule, path, at } = check.denial();
    let met = if check.is_met() { "yes" } else { "no " };
    out.extend_from_slice(rule.code().as_bytes())?;
    push_word(out, rule_words(rule))?;
    push_word(out, "path")?;
    push_number(out, u64::from(path))?;
    push_word(out, "at")?;
    push_number(out, u64::from(at))?;
    push_word(out, met)
}

/// Appends of what a rule is asked at component `at` of a path.
fn push_subject(
    out: &mut Vec<u8>,
    cred: &Cred,
    rule: Rule,
    at: u32,
    path: Way<'_>,
) -> Result<(), AllocError>
    ensures { OnOk result (out.new.items ≡ with_subject out.old.items cred.now rule at
        path.entry.names.now path.entry.rows.now) }
{
    let before = (at as usize).saturating_sub(1);
    if asks_name(rule) {
        return if at == 0 {
            Ok(())
        } else {
            push_name_at(out, path.names, before)
        };
    }
    push_asked(out, cred, rule, row_of(path.rows, at as usize))?;
    push_directory(out, rule, row_of(path.rows, before))?;
    push_caller(out, cred, rule)
}

/// Appends the name of this index, if there is one.
fn push_name_at(out: &mut Vec<u8>, names: &[Name], index: usize) -> Result<(), AllocError>
    ensures { OnOk result (out.new.items ≡ with_name out.old.items (slice_get names.now index)) }
{
    if index < names.len() {
        push_name(out, &names[index])
    } else {
        Ok(())
    }
}

/// Appends the row of which a rule is asked, if there is one.
fn push_asked(
    out: &mut Vec<u8>,
    cred: &Cred,
    rule: Rule,
    row: Option<ShownRow>,
) -> Result<(), AllocError>
    ensures { OnOk result (out.new.items ≡ with_asked out.old.items cred.now rule row) }
{
    let Some(ShownRow { number, attrs }) = row else {
        return Ok(());
    };
    push_row(out, number, &attrs)?;
    if asks_bit(rule) {
        push_class(out, cred, &attrs)?;
    }
    Ok(())
}

/// Appends the directory whose sticky bit is asked for, if there is one.
fn push_directory(out: &mut Vec<u8>, rule: Rule, row: Option<ShownRow>) -> Result<(), AllocError>
    ensures { OnOk result (out.new.items ≡ with_directory out.old.items rule row) }
{
    let Some(ShownRow { number, attrs }) = row else {
        return Ok(());
    };
    if is_sticky(rule) {
        push_word(out, "in")?;
        push_row(out, number, &attrs)?;
    }
    Ok(())
}

/// Appends the caller where a rule asks who he is.
fn push_caller(out: &mut Vec<u8>, cred: &Cred, rule: Rule) -> Result<(), AllocError>
    ensures { OnOk result (out.new.items ≡ with_caller out.old.items cred.now rule) }
{
    if asks_caller(rule) {
        push_word(out, "user")?;
        push_number(out, u64::from(cred.uid()))?;
    }
    Ok(())
}

/// Appends a row: number, kind, owner, group, mode and flags.
fn push_row(out: &mut Vec<u8>, number: u32, attrs: &Attrs) -> Result<(), AllocError>
    ensures { OnOk result (out.new.items ≡ with_row out.old.items
        (record { number = number; attrs = attrs.now })) }
{
    let kind = if attrs.kind.is_directory() {
        "dir"
    } else {
        "file"
    };
    push_number(out, u64::from(number))?;
    push_word(out, kind)?;
    push_number(out, u64::from(attrs.uid))?;
    push_number(out, u64::from(attrs.gid))?;
    push_mode(out, attrs.mode)?;
    push_flags(out, attrs.flags)
}

/// Appends by which class a caller is judged, and what the mode grants.
fn push_class(out: &mut Vec<u8>, cred: &Cred, attrs: &Attrs) -> Result<(), AllocError>
    ensures { OnOk result (out.new.items ≡ with_class out.old.items cred.now attrs.now) }
{
    push_word(out, class_word(Class::of(attrs, cred)))?;
    let read = sign(grants(attrs, cred, Bit::Read), b'r');
    let write = sign(grants(attrs, cred, Bit::Write), b'w');
    let search = sign(grants(attrs, cred, Bit::Search), b'x');
    out.extend_from_slice(&[b' ', read, write, search])
}

/// Appends what checks come to.
fn push_verdict(out: &mut Vec<u8>, verdict: Option<Denial>) -> Result<(), AllocError>
    ensures { OnOk result (out.new.items ≡ with_verdict out.old.items verdict) }
{
    let Some(Denial { rule, path, at }) = verdict else {
        return out.extend_from_slice(b"allowed\n");
    };
    out.extend_from_slice(b"denied")?;
    push_word(out, rule.code())?;
    push_word(out, rule.error().name())?;
    push_number(out, u64::from(path))?;
    push_number(out, u64::from(at))?;
    Ok(out.push(b'\n')?)
}

/// A letter, or a dash.
fn sign(granted: bool, letter: u8) -> u8
    ensures { result ≡ sign granted letter }
{
    if granted { letter } else { b'-' }
}

/// The word for a class.
fn class_word(class: Class) -> &'static str
    ensures { result.now ≡ class_word class }
{
    match class {
        Class::Superuser => "superuser",
        Class::Owner => "owner",
        Class::Group => "group",
        Class::Others => "others",
    }
}

/// Whether a rule asks for a name.
fn asks_name(rule: Rule) -> bool
    ensures { result ≡ asks_name rule }
{
    matches!(rule, Rule::NameThere | Rule::NameFree)
}

/// Whether a rule asks for a bit of the mode.
fn asks_bit(rule: Rule) -> bool
    ensures { result ≡ asks_bit rule }
{
    matches!(
        rule,
        Rule::GrantsSearch | Rule::GrantsRead | Rule::GrantsWrite
    )
}

/// Whether a rule asks for the sticky bit.
fn is_sticky(rule: Rule) -> bool
    ensures { result ≡ is_sticky rule }
{
    matches!(rule, Rule::PassesSticky)
}

/// Whether a rule asks who the caller is.
fn asks_caller(rule: Rule) -> bool
    ensures { result ≡ asks_caller rule }
{
    matches!(
        rule,
        Rule::PassesSticky
            | Rule::IsOwner
            | Rule::MaySetOwner
            | Rule::IsSuperuser
            | Rule::MaySetFlags
            | Rule::MaySetLevel
    )
}

/// What a rule asks, in 15 signs.
fn rule_words(rule: Rule) -> &'static str
    ensures { result.now ≡ rule_words rule }
{
    match rule {
        Rule::IsDirectory => "directory      ",
        Rule::GrantsSearch => "search         ",
        Rule::NameThere => "name there     ",
        Rule::NameFree => "name free      ",
        Rule::IsNoDirectory => "no directory   ",
        Rule::IsEmpty => "empty          ",
        Rule::IsNotRoot => "not the root   ",
        Rule::IsNotBeneathItself => "not beneath    ",
        Rule::IsMutable => "not immutable  ",
        Rule::IsNotAppendOnly => "not append-only",
        Rule::GrantsRead => "read           ",
        Rule::GrantsWrite => "write          ",
        Rule::PassesSticky => "sticky         ",
        Rule::IsOwner => "owner          ",
        Rule::MaySetOwner => "set owner      ",
        Rule::IsSuperuser => "superuser      ",
        Rule::MaySetFlags => "set flags      ",
        Rule::KeepsSystemLocks => "keeps locks    ",
        Rule::MaySetLevel => "set level      ",
        Rule::FitsFile => "fits           ",
    }
}
