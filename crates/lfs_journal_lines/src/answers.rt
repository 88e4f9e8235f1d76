//! Answers to users' calls, read back.

ghost use Rattle.std.specs.Prelude.{◌≡◌, map};
ghost use Rattle.lfs_words.specs.Faults.{ReadsAs};
ghost use Rattle.lfs_journal_lines.specs.Answers.{answer_told, attrs_told, bytes_told, denial_by, denial_of, denial_told, kind_named, octet_told, resource_named, rule_named, served_told, stat_of, stat_told};

use crate::escapes::names_told;
use lfs_types::answer::{Answer, Resource, Served};
use lfs_types::attrs::{Attrs, Kind};
use lfs_types::payload::Bytes;
use lfs_types::rule::{Denial, RULES, Rule};
use lfs_words::fault::FaultKind;
use lfs_words::hex::{flags, payload};
use lfs_words::number::{decimal, mode, short_decimal};
use lfs_words::words::{no_word, one_word};
use std::alloc::Global;

/// The answer that words tell. One for want of memory or of the journal's room is none: a journal has no such entry.
pub(crate) fn answer_told(alloc: Global, words: &[&str]) -> Result<Answer, FaultKind>
    ensures { ReadsAs (answer_told (map (λ x. x.now) words.now)) result }
{
    let [first, rest @ ..] = words else {
        return Err(FaultKind::Words);
    };
    if *first == "denied" {
        return Ok(Answer::Denied(denial_told(rest)?));
    }
    if *first == "refused" {
        let resource = resource_named(one_word(rest)?).ok_or(FaultKind::Words)?;
        return Ok(Answer::Refused(resource));
    }
    Ok(Answer::Served(served_told(alloc, first, rest)?))
}

/// What a served call shows, as a first word and those behind it tell.
fn served_told(alloc: Global, first: &str, words: &[&str]) -> Result<Served, FaultKind>
    ensures { ReadsAs (served_told first.now (map (λ x. x.now) words.now)) result }
{
    if first == "ok" {
        no_word(words)?;
        return Ok(Served::Done);
    }
    if first == "stat" {
        return stat_told(words);
    }
    if first == "bytes" {
        return bytes_told(alloc, words);
    }
    if first == "names" {
        return Ok(Served::Names(names_told(alloc, words)?));
    }
    Err(FaultKind::Words)
}

/// The bytes that a lone word tells.
fn bytes_told(alloc: Global, words: &[&str]) -> Result<Served, FaultKind>
    ensures { ReadsAs (bytes_told (map (λ x. x.now) words.now)) result }
{
    let bytes = payload(alloc, one_word(words)?)?;
    Ok(Served::Bytes(Bytes::new(bytes.into_vec())?))
}

/// The words of a file's attributes, in the order in which they stand.
#[derive(Clone, Copy)]
struct AttrWords<'a> {
    /// The kind of file.
    kind: &'a str,
    /// Its owner.
    uid: &'a str,
    /// Its group.
    gid: &'a str,
    /// Its mode.
    mode: &'a str,
    /// Its flags.
    flags: &'a str,
    /// Its size.
    size: &'a str,
}

/// A file's number and attributes.
fn stat_told(words: &[&str]) -> Result<Served, FaultKind>
    ensures { result ≡ stat_told (map (λ x. x.now) words.now) }
{
    match words {
        [number, kind, uid, gid, mode, flags, size] => {
            let words = AttrWords {
                kind,
                uid,
                gid,
                mode,
                flags,
                size,
            };
            stat_of(number, words)
        }
        _ => Err(FaultKind::Words),
    }
}

/// A file's number, told by a word, and its attributes.
fn stat_of(number: &str, words: AttrWords<'_>) -> Result<Served, FaultKind>
    ensures { result ≡ stat_of number.now
        words.entry.kind.now words.entry.uid.now words.entry.gid.now
        words.entry.mode.now words.entry.flags.now words.entry.size.now }
{
    let number = short_decimal(number)?;
    let attrs = attrs_told(words)?;
    Ok(Served::Stat(number, attrs))
}

/// The attributes of a file.
fn attrs_told(words: AttrWords<'_>) -> Result<Attrs, FaultKind>
    ensures { result ≡ attrs_told
        words.entry.kind.now words.entry.uid.now words.entry.gid.now
        words.entry.mode.now words.entry.flags.now words.entry.size.now }
{
    Ok(Attrs {
        kind: kind_named(words.kind).ok_or(FaultKind::Words)?,
        uid: short_decimal(words.uid)?,
        gid: short_decimal(words.gid)?,
        mode: mode(words.mode)?,
        flags: flags(words.flags)?,
        size: decimal(words.size)?,
    })
}

/// The kind of file that a word names.
fn kind_named(word: &str) -> Option<Kind>
    ensures { result ≡ kind_named word.now }
{
    if word == "file" {
        Some(Kind::File)
    } else if word == "dir" {
        Some(Kind::Directory)
    } else {
        None
    }
}

/// A denial: the rule's code and error, the path and the component.
fn denial_told(words: &[&str]) -> Result<Denial, FaultKind>
    ensures { result ≡ denial_told (map (λ x. x.now) words.now) }
{
    match words {
        [code, error, path, at] => denial_of(code, error, path, at),
        _ => Err(FaultKind::Words),
    }
}

/// A denial, each part of it as a word.
fn denial_of(code: &str, error: &str, path: &str, at: &str) -> Result<Denial, FaultKind>
    ensures { result ≡ denial_of code.now error.now path.now at.now }
{
    match rule_named(code) {
        Some(rule) => denial_by(rule, error, path, at),
        None => Err(FaultKind::Words),
    }
}

/// A denial by this rule, whose error is to be the one that a word names.
fn denial_by(rule: Rule, error: &str, path: &str, at: &str) -> Result<Denial, FaultKind>
    ensures { result ≡ denial_by rule error.now path.now at.now }
{
    if rule.error().name() != error {
        return Err(FaultKind::Words);
    }
    let path = octet_told(path)?;
    let at = short_decimal(at)?;
    Ok(Denial { rule, path, at })
}

/// The rule that a code names.
#[tactic(auto, unfolding(crate::specs::Answers::rule_named))]
fn rule_named(code: &str) -> Option<Rule>
    ensures { result ≡ rule_named code.now }
{
    RULES.iter().copied().find(|rule| rule.code() == code)
}

/// The number below 256 that 1 to 20 decimal digits spell.
pub(crate) fn octet_told(word: &str) -> Result<u8, FaultKind>
    ensures { result ≡ octet_told word.now }
{
    let number = decimal(word)?;
    if number <= 255 {
        Ok(number as u8)
    } else {
        Err(FaultKind::Range)
    }
}

/// The resource that a word names. Memory and the journal's room are none of them.
fn resource_named(word: &str) -> Option<Resource>
    ensures { result ≡ resource_named word.now }
{
    if word == "NoSpace" {
        Some(Resource::NoSpace)
    } else if word == "NoInodes" {
        Some(Resource::NoInodes)
    } else if word == "DirectoryFull" {
        Some(Resource::DirectoryFull)
    } else {
        None
    }
}
