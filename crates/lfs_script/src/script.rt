//! Lines of a script.

ghost use Rattle.std.specs.Prelude.{◌≡◌, ◌^◌, ◌<◌, length, true, map, MatchResult};
ghost use Rattle.lfs_words.specs.Faults.{ReadsAs};
ghost use Rattle.lfs_words.specs.Lines.{is_printable};
ghost use Rattle.lfs_script.specs.Parsing.{ParsesScript};
ghost use Rattle.lfs_script.specs.Plans.{line_said, text_said, verb_said, words_said};
ghost use Rattle.lfs_words.specs.declared.fault.FaultKind.TheVariants.{Memory};

use crate::cleaner_calls::held_call;
use crate::fault::ScriptFault;
use crate::lines::LineParser;
use crate::plan::{Act, Line, Plan};
use crate::requests::request;
use crate::verb::Verb;
use lfs_words::caller::caller;
use lfs_words::fault::FaultKind;
use lfs_words::line::{has_bare_word, is_skipped, text_of};
use lfs_words::number::session;
use lfs_words::words::{no_word, one_word, pieces};
use std::alloc::Global;

/// What a script asks, or its first fault: that of the first line that has one.
pub fn parse_script(alloc: Global, script: &[u8]) -> Result<Plan, ScriptFault>
    requires { length script.now < 2 ^ 32 }
    ensures { ParsesScript script.now result }
{
    let mut lines = LineParser::new(alloc);
    let left = lines.take_lines(alloc, script);
    lines.finish(left)
}

/// What a line says, which is given without its line feed.
#[tactic(auto, unfolding(crate::specs::Plans::line_said))]
pub fn parse_line(alloc: Global, line: &[u8]) -> Result<Line, FaultKind>
    ensures said { ReadsAs (line_said line.now) result }
    ensures printable { MatchResult result
        (λ _. is_printable line.now ≡ true)
        (λ kind. kind ≡ Memory → is_printable line.now ≡ true) }
{
    let text = text_of(line)?;
    parse_text(alloc, text)
}

/// What the text of a line says.
fn parse_text(alloc: Global, text: &str) -> Result<Line, FaultKind>
    ensures { ReadsAs (text_said text.now) result }
{
    if is_skipped(text) {
        return Ok(Line::Nothing);
    }
    let words = pieces(alloc, text, ' ')?;
    if has_bare_word(words.as_slice()) {
        return Err(FaultKind::Words);
    }
    parse_words(alloc, words.as_slice())
}

/// What words say, of which the first is to be a verb.
fn parse_words(alloc: Global, words: &[&str]) -> Result<Line, FaultKind>
    ensures { ReadsAs (words_said (map (λ x. x.now) words.now)) result }
{
    let [first, rest @ ..] = words else {
        return Err(FaultKind::Words);
    };
    match Verb::of(first) {
        Some(verb) => parse_verb(alloc, verb, rest),
        None => Err(FaultKind::Words),
    }
}

/// What the words behind a verb say.
fn parse_verb(alloc: Global, verb: Verb, words: &[&str]) -> Result<Line, FaultKind>
    ensures { ReadsAs (verb_said verb (map (λ x. x.now) words.now)) result }
{
    match verb {
        Verb::Session => Ok(Line::Session(session(one_word(words)?)?)),
        Verb::As => Ok(Line::Caller(caller(words)?)),
        Verb::User(kind) => Ok(Line::Act(Act::User(request(alloc, kind, words)?))),
        Verb::Cleaner(kind) => Ok(Line::Act(Act::Cleaner(held_call(alloc, kind, words)?))),
        Verb::Pass => {
            no_word(words)?;
            Ok(Line::Act(Act::Pass))
        }
    }
}
