//! The entry that a line tells.

ghost use Rattle.std.specs.Prelude.{◌≡◌, ◌≢◌, ◌<◌, Ok, Err, length, map, position, IfSome, MatchResult};
ghost use Rattle.lfs_words.specs.declared.fault.FaultKind.TheVariants.{Memory};
ghost use Rattle.lfs_words.specs.Faults.{ReadsAs};
ghost use Rattle.lfs_journal_lines.specs.Reading.{ReadsLine, cut_at_bar, entry_told, event_told, fields_told, in_field, is_bar, who_told, words_told};

use crate::answers::{answer_told, octet_told};
use crate::asked::{Asked, asked_told};
use crate::fault::{Field, LineFault};
use crate::outcomes::outcome_told;
use lfs_model::journal::{Entry, Event};
use lfs_types::cred::Cred;
use lfs_words::caller::caller;
use lfs_words::fault::FaultKind;
use lfs_words::line::{has_bare_word, text_of};
use lfs_words::words::{Pieces, pieces};
use std::alloc::Global;

/// The entry that a line tells, which is given without its line feed, or the line's first fault.
#[tactic(auto, unfolding(crate::specs::Reading::entry_told))]
pub fn read_entry(alloc: Global, line: &[u8]) -> Result<Entry, LineFault>
    ensures { ReadsLine (entry_told line.now) result }
{
    match words_told(alloc, line) {
        Ok(words) => entry_of(alloc, words.as_slice()),
        Err(kind) => Err(Field::Line.fault(kind)),
    }
}

/// The entry that words tell, or their first fault.
fn entry_of(alloc: Global, words: &[&str]) -> Result<Entry, LineFault>
    ensures { ReadsLine (fields_told (map (λ x. x.now) words.now)) result }
{
    let (who, behind) = match cut_at_bar(words) {
        Ok(cut) => cut,
        Err(kind) => return Err(Field::Line.fault(kind)),
    };
    let (call, answer) = match cut_at_bar(behind) {
        Ok(cut) => cut,
        Err(kind) => return Err(Field::Line.fault(kind)),
    };
    let (session, cred) = match who_told(who) {
        Ok(caller) => caller,
        Err(kind) => return Err(Field::Caller.fault(kind)),
    };
    match asked_told(alloc, call) {
        Ok(asked) => {
            let event = event_of(alloc, asked, answer)?;
            Ok(Entry {
                session,
                cred,
                event,
            })
        }
        Err(kind) => Err(Field::Call.fault(kind)),
    }
}

/// The event of what was asked and the words of what came of it, or the fault of these.
fn event_of(alloc: Global, asked: Asked, words: &[&str]) -> Result<Event, LineFault>
    ensures { ReadsLine (in_field Field.Answer (event_told asked (map (λ x. x.now) words.now))) result }
{
    match event_told(alloc, asked, words) {
        Ok(event) => Ok(event),
        Err(kind) => Err(Field::Answer.fault(kind)),
    }
}

/// The words of a line, none of them empty.
fn words_told(alloc: Global, line: &[u8]) -> Result<Pieces<'_>, FaultKind>
    ensures { MatchResult result
        (λ words. words_told line.now ≡ Ok (map (λ x. x.now) words.items))
        (λ kind. kind ≢ Memory → words_told line.now ≡ Err kind) }
{
    let text = text_of(line)?;
    let words = pieces(alloc, text, ' ')?;
    if has_bare_word(words.as_slice()) {
        return Err(FaultKind::Words);
    }
    Ok(words)
}

/// The words before the first bar, and those behind it.
fn cut_at_bar<'a, 'b>(words: &'b [&'a str]) -> Result<(&'b [&'a str], &'b [&'a str]), FaultKind>
    ensures { MatchResult result
        (λ cut. cut_at_bar (map (λ x. x.now) words.now) ≡ Ok (map (λ x. x.now) cut.0.now, map (λ x. x.now) cut.1.now))
        (λ kind. cut_at_bar (map (λ x. x.now) words.now) ≡ Err kind) }
{
    match bar_at(words) {
        Some(at) => Ok((&words[..at], &words[at + 1..])),
        None => Err(FaultKind::Words),
    }
}

/// Where the first bar stands.
fn bar_at(words: &[&str]) -> Option<usize>
    ensures place { result ≡ position is_bar (map (λ x. x.now) words.now) }
    ensures within { IfSome result (λ at. at < length words.now) }
{
    words.iter().position(|word| *word == "|")
}

/// The session and the credential that words tell.
fn who_told(words: &[&str]) -> Result<(u8, Cred), FaultKind>
    ensures { result ≡ who_told (map (λ x. x.now) words.now) }
{
    let [session, mark, rest @ ..] = words else {
        return Err(FaultKind::Words);
    };
    if *mark != "as" {
        return Err(FaultKind::Words);
    }
    let session = octet_told(session)?;
    let cred = caller(rest)?;
    Ok((session, cred))
}

/// The event of what was asked and the words of what came of it.
fn event_told(alloc: Global, asked: Asked, words: &[&str]) -> Result<Event, FaultKind>
    ensures { ReadsAs (event_told asked (map (λ x. x.now) words.now)) result }
{
    match asked {
        Asked::User(request) => Ok(Event::User(request, answer_told(alloc, words)?)),
        Asked::Cleaner(act) => Ok(Event::Cleaner(act, outcome_told(words)?)),
    }
}
