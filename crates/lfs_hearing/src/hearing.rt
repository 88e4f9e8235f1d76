//! What a line says: what a line of a script says, a word of the server's own, or why nothing.

ghost use Rattle.std.specs.Prelude.{◌≡◌, map, IfOk};
ghost use Rattle.lfs_script.specs.Plans.{line_said};
ghost use Rattle.lfs_script.specs.Requests.{lone_path};
ghost use Rattle.lfs_words.specs.Faults.{ReadsAs};
ghost use Rattle.lfs_hearing.specs.Hearing.{asked_act, asked_heard, asked_line, asks_check, asks_help, asks_save, asks_tree, call_heard, dot_alone, dot_heard, dot_of, dot_said, dot_with, dot_word, dotted_heard, heard_of, is_dotted, is_long, lone_dot, look_heard, look_place, no_call, other_heard, path_said, tree_heard, upkeep_heard, word_heard};

use crate::fault::{LineFault, Place};
use crate::look::Look;
use lfs_script::plan::{Act, Line};
use lfs_script::script::parse_line;
use lfs_types::path::Path;
use lfs_types::request::Request;
use lfs_words::fault::FaultKind;
use lfs_words::line::text_of;
use lfs_words::number::decimal;
use lfs_words::path::path_of;
use lfs_words::words::{one_word, pieces};
use std::alloc::{AllocError, Global};

/// The most bytes of a line.
pub const LINE_MAX: usize = 65_536;

/// A word of the server's own. It changes nothing.
#[derive(Clone, Copy, PartialEq, Eq, Debug)]
pub enum Dot {
    /// Tells the journal so far, or so many of its last entries.
    Journal(Option<u64>),
    /// Tells what stands in each segment of the log.
    Map,
    /// Tells each block of a segment.
    Segment(u64),
    /// Tells how full the volume and its journal are.
    Space,
    /// Tells the report so far.
    Report,
    /// Tells what may be said.
    Help,
    /// Ends, as the end of the input does.
    Quit,
}

/// What is asked about a call.
#[derive(Clone, Copy, PartialEq, Eq, Debug)]
pub enum Inquiry {
    /// Why it would be allowed or denied now, made by who speaks.
    Why,
    /// Who could make it now, over all callers.
    Who,
}

/// What a line says.
#[derive(Drop)]
pub enum Heard {
    /// What a line of a script says.
    Line(Line),
    /// Tells what is asked about a call, which is not made. It changes nothing.
    Asks(Inquiry, Request),
    /// Looks at a path, by calls of who speaks.
    Looks(Look, Path),
    /// A word of the server's own.
    Dot(Dot),
    /// Tells whether the volume is well. It changes nothing.
    Check,
    /// Saves the volume, behind a Sync.
    Save,
    /// Nothing that is done, for this fault, which stands there.
    Fault(LineFault, Place),
}

/// Every word of the server's own that may stand alone.
const DOTS: [Dot; 6] = [
    Dot::Journal(None),
    Dot::Map,
    Dot::Space,
    Dot::Report,
    Dot::Help,
    Dot::Quit,
];

impl Dot {
    /// The word of the server's own that a lone word is, where it is one.
    fn alone(word: &str) -> Option<Dot>
        ensures { result ≡ dot_alone word.now }
    {
        DOTS.iter().copied().find(|dot| dot.word() == word)
    }

    /// The word.
    fn word(self) -> &'static str
        ensures { result.now ≡ dot_word self }
    {
        match self {
            Dot::Journal(_) => ".journal",
            Dot::Map => ".map",
            Dot::Segment(_) => ".segment",
            Dot::Space => ".space",
            Dot::Report => ".report",
            Dot::Help => ".help",
            Dot::Quit => ".quit",
        }
    }
}

/// What a line says, which is given without its line feed.
///
/// # Errors
///
/// Memory ran out.
pub fn hear(alloc: Global, line: &[u8]) -> Result<Heard, AllocError>
    ensures { IfOk result (λ heard. heard ≡ heard_of line.now) }
{
    if line.len() > LINE_MAX {
        return Ok(Heard::Fault(LineFault::TooLong, Place::none(alloc)));
    }
    if is_dotted(line) {
        hear_dotted(alloc, line)
    } else {
        hear_call(alloc, line)
    }
}

/// Whether a line begins with a dot.
fn is_dotted(line: &[u8]) -> bool
    ensures { result ≡ is_dotted line.now }
{
    match line {
        [] => false,
        [first, ..] => *first == b'.',
    }
}

/// What a line says that doesn't begin with a dot.
fn hear_call(alloc: Global, line: &[u8]) -> Result<Heard, AllocError>
    ensures { IfOk result (λ heard. heard ≡ call_heard line.now (line_said line.now)) }
{
    match parse_line(alloc, line) {
        Ok(said) => Ok(Heard::Line(said)),
        Err(FaultKind::Memory) => Err(AllocError),
        Err(kind) => hear_other(alloc, line, kind),
    }
}

/// What a line says that is none of a script, for this fault.
fn hear_other(alloc: Global, line: &[u8], kind: FaultKind) -> Result<Heard, AllocError>
    ensures { IfOk result (λ heard. heard ≡ other_heard line.now kind) }
{
    if asks_help(line) {
        return Ok(Heard::Dot(Dot::Help));
    }
    let place = Place::of(alloc, 0, line)?;
    Ok(Heard::Fault(LineFault::Kind(kind), place))
}

/// Whether a line asks for help.
fn asks_help(line: &[u8]) -> bool
    ensures { result ≡ asks_help line.now }
{
    line == b"help".as_slice() || line == b"?".as_slice()
}

/// What a line says that begins with a dot.
fn hear_dotted(alloc: Global, line: &[u8]) -> Result<Heard, AllocError>
    ensures { IfOk result (λ heard. heard ≡ dotted_heard line.now) }
{
    if line.starts_with(b".why ") {
        return hear_inquiry(alloc, Inquiry::Why, &line[5..]);
    }
    if line.starts_with(b".who ") {
        return hear_inquiry(alloc, Inquiry::Who, &line[5..]);
    }
    hear_word(alloc, line)
}

/// What a line says that begins with a dot and asks nothing about a call.
fn hear_word(alloc: Global, line: &[u8]) -> Result<Heard, AllocError>
    ensures { IfOk result (λ heard. heard ≡ word_heard line.now) }
{
    if line.starts_with(b".ls ") {
        return hear_look(alloc, Look::Listing, &line[4..]);
    }
    if line.starts_with(b".cat ") {
        return hear_look(alloc, Look::Content, &line[5..]);
    }
    hear_tree(alloc, line)
}

/// What a line says that begins with a dot, asks nothing about a call, and neither lists nor shows.
fn hear_tree(alloc: Global, line: &[u8]) -> Result<Heard, AllocError>
    ensures { IfOk result (λ heard. heard ≡ tree_heard line.now) }
{
    if line.starts_with(b".tree ") {
        return hear_look(alloc, Look::Tree, &line[6..]);
    }
    if asks_tree(line) {
        return hear_look(alloc, Look::Tree, b"/");
    }
    hear_upkeep(alloc, line)
}

/// Whether a line asks for the tree below the root.
fn asks_tree(line: &[u8]) -> bool
    ensures { result ≡ asks_tree line.now }
{
    line == b".tree".as_slice()
}

/// What a line says that begins with a dot, asks nothing about a call and looks at no path.
fn hear_upkeep(alloc: Global, line: &[u8]) -> Result<Heard, AllocError>
    ensures { IfOk result (λ heard. heard ≡ upkeep_heard line.now) }
{
    if asks_check(line) {
        return Ok(Heard::Check);
    }
    if asks_save(line) {
        return Ok(Heard::Save);
    }
    hear_dot(alloc, line)
}

/// Whether a line asks whether the volume is well.
fn asks_check(line: &[u8]) -> bool
    ensures { result ≡ asks_check line.now }
{
    line == b".check".as_slice()
}

/// Whether a line asks that the volume be saved.
fn asks_save(line: &[u8]) -> bool
    ensures { result ≡ asks_save line.now }
{
    line == b".save".as_slice()
}

/// A look at the path that a word is.
fn hear_look(alloc: Global, look: Look, word: &[u8]) -> Result<Heard, AllocError>
    ensures { IfOk result (λ heard. heard ≡ look_heard look (path_said word.now)) }
{
    match path_in(alloc, word) {
        Ok(path) => Ok(Heard::Looks(look, path)),
        Err(FaultKind::Memory) => Err(AllocError),
        Err(kind) => {
            let place = Place::told(alloc, look_place(look))?;
            Ok(Heard::Fault(LineFault::Kind(kind), place))
        }
    }
}

/// What is told of a path to look at that is none.
fn look_place(look: Look) -> &'static str
    ensures { result.now ≡ look_place look }
{
    match look {
        Look::Listing => " at 5: a path stands here",
        Look::Content => " at 6: a path stands here",
        Look::Tree => " at 7: a path stands here",
    }
}

/// The path that a lone word of a line spells.
fn path_in(alloc: Global, line: &[u8]) -> Result<Path, FaultKind>
    ensures { ReadsAs (path_said line.now) result }
{
    let text = text_of(line)?;
    let words = pieces(alloc, text, ' ')?;
    lone_path(alloc, words.as_slice())
}

/// The path that a lone word spells.
fn lone_path(alloc: Global, words: &[&str]) -> Result<Path, FaultKind>
    ensures { ReadsAs (lone_path (map (λ x. x.now) words.now)) result }
{
    path_of(alloc, one_word(words)?)
}

/// What is asked about what a line of a script says: a user's call, and nothing else. Five bytes stand before it.
fn hear_inquiry(alloc: Global, inquiry: Inquiry, line: &[u8]) -> Result<Heard, AllocError>
    ensures { IfOk result (λ heard. heard ≡ asked_heard inquiry line.now (line_said line.now)) }
{
    match parse_line(alloc, line) {
        Ok(said) => asked_line(alloc, inquiry, said),
        Err(FaultKind::Memory) => Err(AllocError),
        Err(kind) => {
            let place = Place::of(alloc, 5, line)?;
            Ok(Heard::Fault(LineFault::Kind(kind), place))
        }
    }
}

/// No call that is asked about.
fn no_call(alloc: Global) -> Result<Heard, AllocError>
    ensures { IfOk result (λ heard. heard ≡ no_call) }
{
    let place = Place::told(alloc, " at 6: a user's call stands here")?;
    Ok(Heard::Fault(LineFault::Kind(FaultKind::Words), place))
}

/// What is asked about a line, if it is a user's call.
fn asked_line(alloc: Global, inquiry: Inquiry, said: Line) -> Result<Heard, AllocError>
    ensures { IfOk result (λ heard. heard ≡ asked_line inquiry said) }
{
    match said {
        Line::Act(act) => asked_act(alloc, inquiry, act),
        Line::Nothing => no_call(alloc),
        Line::Session(_) => no_call(alloc),
        Line::Caller(_) => no_call(alloc),
    }
}

/// What is asked about a user's call.
fn asked_act(alloc: Global, inquiry: Inquiry, act: Act) -> Result<Heard, AllocError>
    ensures { IfOk result (λ heard. heard ≡ asked_act inquiry act) }
{
    match act {
        Act::User(request) => Ok(Heard::Asks(inquiry, request)),
        Act::Cleaner(_) => no_call(alloc),
        Act::Pass => no_call(alloc),
    }
}

/// What a word of the server's own says that stands by itself, or with a number.
fn hear_dot(alloc: Global, line: &[u8]) -> Result<Heard, AllocError>
    ensures { IfOk result (λ heard. heard ≡ dot_heard (dot_said line.now)) }
{
    match dot_in(alloc, line) {
        Ok(dot) => Ok(Heard::Dot(dot)),
        Err(FaultKind::Memory) => Err(AllocError),
        Err(kind) => {
            let place = Place::told(alloc, " at 1: .help tells these words")?;
            Ok(Heard::Fault(LineFault::Kind(kind), place))
        }
    }
}

/// The word of the server's own that a line is.
fn dot_in(alloc: Global, line: &[u8]) -> Result<Dot, FaultKind>
    ensures { ReadsAs (dot_said line.now) result }
{
    let text = text_of(line)?;
    let words = pieces(alloc, text, ' ')?;
    dot_of(words.as_slice())
}

/// The word of the server's own that words are.
fn dot_of(words: &[&str]) -> Result<Dot, FaultKind>
    ensures { result ≡ dot_of (map (λ x. x.now) words.now) }
{
    match words {
        [word] => lone_dot(word),
        [word, operand] => dot_with(word, operand),
        _ => Err(FaultKind::Words),
    }
}

/// The word of the server's own that a lone word is.
fn lone_dot(word: &str) -> Result<Dot, FaultKind>
    ensures { result ≡ lone_dot word.now }
{
    match Dot::alone(word) {
        Some(dot) => Ok(dot),
        None => Err(FaultKind::Words),
    }
}

/// The word of the server's own that a word and what it is given are.
fn dot_with(word: &str, operand: &str) -> Result<Dot, FaultKind>
    ensures { result ≡ dot_with word.now operand.now }
{
    if word == ".journal" {
        return Ok(Dot::Journal(Some(decimal(operand)?)));
    }
    if word == ".segment" {
        return Ok(Dot::Segment(decimal(operand)?));
    }
    Err(FaultKind::Words)
}
