//! What a line does, and the text that is told of it.

ghost use Rattle.std.specs.Prelude.{◌≡◌, ◌++◌, [], false, List, length, Some, IfOk, IfSome, MatchOption, OnOk};
ghost use Rattle.lfs_model.specs.Counts.{counts_of};
ghost use Rattle.lfs_volume.specs.Cleanings.{cleaner_of};
ghost use Rattle.lfs_volume.specs.Journals.{AtPresent};
ghost use Rattle.lfs_audit.specs.Runs.{CountsLine};
ghost use Rattle.lfs_model.specs.declared.steps.StepAnswer.{StepAnswer};
ghost use Rattle.lfs_sinks.specs.Refusals.{AddsUp, run_report, tally_of};
ghost use Rattle.lfs_who.specs.WhoText.{IsWhoTold};
ghost use Rattle.lfs_why.specs.WhyText.{why_text};
ghost use Rattle.lfs_live.specs.Faulty.{is_faulty};
ghost use Rattle.lfs_hearing.specs.Hearing.{heard_of};
ghost use Rattle.lfs_live.specs.Talkers.{talker_of, texts_of};
ghost use Rattle.lfs_live.specs.Steps.{HasAnswered};
ghost use Rattle.lfs_live.specs.Talking.{Does, IsAnsweredBy, LooksOn, first_speaker};
ghost use Rattle.lfs_live.specs.HelpText.{help_text};
ghost use Rattle.lfs_live.specs.Telling.{cut_line, dot_text, entries_told};
ghost use Rattle.lfs_hearing.specs.FaultLines.{fault_line};
ghost use Rattle.lfs_hearing.specs.declared.hearing.Dot.TheVariants.{Quit};
ghost use Rattle.lfs_hearing.specs.declared.hearing.Heard.TheVariants as heard;

use crate::help::push_help;
use crate::journal::tell_journal;
use crate::upkeep::{check, save};
use crate::watch::Watch;
use lfs_audit::asker::Asker;
use lfs_audit::passing::run_step;
use lfs_browse::look::tell_look;
use lfs_checking::standing::ChecksLog;
use lfs_hearing::fault::{LineFault, Place, push_fault};
use lfs_hearing::hearing::{Dot, Heard, Inquiry, LINE_MAX, hear};
use lfs_model::counts::Counts;
use lfs_model::journal::Entry;
use lfs_script::plan::{Act, Line, Step};
use lfs_sinks::refusals::Refusals;
use lfs_sinks::totals::{Tally, Totals, push_report};
use lfs_types::cleaned::CleanedStore;
use lfs_types::cred::Cred;
use lfs_types::request::Request;
use lfs_types::store::FileStore;
use lfs_view::shows::ShowsLog;
use lfs_volume::volume::Volume;
use lfs_who::telling::tell_who_along;
use lfs_why::lines::tell_explanation;
use lfs_words::append::push_decimal;
use lfs_words::caller::first_caller;
use lfs_words::fault::FaultKind;
use std::alloc::{AllocError, Global};

/// Who speaks first: session 0, and the superuser with group 0, who is not init.
pub(crate) fn first_speaker() -> Asker
    ensures { result ≡ first_speaker }
{
    Asker {
        session: 0,
        cred: first_caller(),
    }
}

/// A line.
#[derive(Clone, Copy, Debug)]
pub struct NumberedLine<'a> {
    /// Its number, from 1 on.
    pub number: u64,
    /// Its bytes, without its line feed.
    pub bytes: &'a [u8],
}

/// A line that is said while one watches.
pub struct Said<'a, V> {
    /// The line.
    pub line: NumberedLine<'a>,
    /// The one who watches.
    pub watch: &'a V,
}

/// What is told of a line.
#[derive(Drop)]
pub struct Told {
    /// The text.
    pub text: Vec<u8>,
    /// Whether the line has a fault.
    pub has_fault: bool,
}

impl Told {
    /// What is told of a line without a fault.
    fn faultless(text: Vec<u8>) -> Told
        ensures { result ≡ record { text = text; has_fault = false } }
    {
        Told {
            text,
            has_fault: false,
        }
    }

    /// What is told of a word of the server's own: of a segment that there is not, a fault.
    fn of_dot(dot: Dot, text: Vec<u8>) -> Told
        ensures text { result.text ≡ text }
        ensures faulty { result.has_fault ≡ is_faulty (heard.Dot dot) text.items }
    {
        let has_fault = match dot {
            Dot::Segment(_) => text.as_slice().starts_with(b"fault "),
            _ => false,
        };
        Told { text, has_fault }
    }

    /// What is told where the volume is to be saved: where it isn't, a fault.
    fn of_save(text: Vec<u8>) -> Told
        ensures text { result.text ≡ text }
        ensures faulty { result.has_fault ≡ is_faulty heard.Save text.items }
    {
        let has_fault = text.as_slice().starts_with(b"fault ");
        Told { text, has_fault }
    }
}

/// Does what a line says, counts the answers to its calls, and gives what is told of it, or none for a line that quits.
///
/// # Errors
///
/// Memory ran out: before the line was read, or behind the calls of which no answer is told then.
pub fn answer<F: CleanedStore + ShowsLog + ChecksLog + Drop, V: Watch<F>>(
    alloc: Global,
    volume: &mut Volume<F>,
    tally: &mut Tally,
    speaker: &mut Asker,
    said: Said<'_, V>,
) -> Result<Option<Told>, AllocError>
    ensures told { IfOk result (λ given. MatchOption given
        ((heard_of said.entry.line.bytes.now ≡ heard.Dot Quit)
        × (volume.new ≡ volume.old) × (tally.new ≡ tally.old))
        (λ told. HasAnswered
        (talker_of (cleaner_of F.state F.is_flushed F.made F.cleaner)
        F.map_text F.segment_text F.space_text F.checked V.kept) said.entry.line.number
        volume.old volume.new tally.old tally.new speaker.old speaker.new
        (heard_of said.entry.line.bytes.now) told.text.items)) }
    ensures faulty { IfOk result (λ given. IfSome given (λ told. told.has_fault
        ≡ is_faulty (heard_of said.entry.line.bytes.now) told.text.items)) }
{
    let Said { line, watch } = said;
    match hear(alloc, line.bytes)? {
        Heard::Line(act) => {
            let text = obey(alloc, volume, &mut tally.refusals, speaker, act)?;
            Ok(Some(Told::faultless(text)))
        }
        Heard::Asks(inquiry, request) => {
            let text = tell_inquiry(alloc, volume, inquiry, &speaker.cred, &request);
            drop(request);
            Ok(Some(Told::faultless(text?)))
        }
        Heard::Looks(look, path) => {
            let text = tell_look(alloc, volume, speaker, look, &path);
            drop(path);
            Ok(Some(Told::faultless(text?)))
        }
        Heard::Dot(dot) => match tell_dot(alloc, volume, tally, dot)? {
            Some(text) => Ok(Some(Told::of_dot(dot, text))),
            None => Ok(None),
        },
        Heard::Check => {
            let text = check(alloc, volume)?;
            Ok(Some(Told::faultless(text)))
        }
        Heard::Save => {
            let text = save(alloc, volume, watch, line.number)?;
            Ok(Some(Told::of_save(text)))
        }
        Heard::Fault(fault, place) => {
            let text = tell_fault(alloc, line.number, fault, &place);
            drop(place);
            Ok(Some(Told {
                text: text?,
                has_fault: true,
            }))
        }
    }
}

/// Does what a line of a script says, counts the answers, and gives their lines.
fn obey<F: CleanedStore + Drop>(
    alloc: Global,
    volume: &mut Volume<F>,
    refusals: &mut Refusals,
    speaker: &mut Asker,
    line: Line,
) -> Result<Vec<u8>, AllocError>
    ensures { IfOk result (λ text. (given : List StepAnswer) × Does
        (cleaner_of F.state F.is_flushed F.made F.cleaner)
        volume.old speaker.old line text.items volume.new speaker.new given
        × AddsUp refusals.old refusals.new given) }
{
    let nothing = Vec::new(alloc);
    match line {
        Line::Nothing => Ok(nothing),
        Line::Session(session) => {
            speaker.session = session;
            Ok(nothing)
        }
        Line::Caller(cred) => {
            speaker.cred = cred;
            Ok(nothing)
        }
        Line::Act(act) => make(alloc, volume, refusals, speaker, act),
    }
}

/// Does what is asked, counts the answers, and gives their lines.
fn make<F: CleanedStore + Drop>(
    alloc: Global,
    volume: &mut Volume<F>,
    refusals: &mut Refusals,
    speaker: &Asker,
    act: Act,
) -> Result<Vec<u8>, AllocError>
    ensures { IfOk result (λ text. CountsLine
        (cleaner_of F.state F.is_flushed F.made F.cleaner)
        volume.old volume.new refusals.old refusals.new
        speaker.now.session speaker.now.cred act [] text.items) }
{
    let Asker { session, cred } = *speaker;
    let mut text = Vec::new(alloc);
    run_step(volume, refusals, Step { session, cred, act }, &mut text)?;
    Ok(text)
}

/// The lines of what is asked about a call, which is not made.
fn tell_inquiry<F: FileStore + Drop>(
    alloc: Global,
    volume: &mut Volume<F>,
    inquiry: Inquiry,
    cred: &Cred,
    request: &Request,
) -> Result<Vec<u8>, AllocError>
    ensures text { IfOk result (λ text. AtPresent F.state volume.old
        (λ w. IsAnsweredBy w inquiry cred.now request.now text.items)) }
    ensures looks { LooksOn (F.state volume.old.store) (F.state volume.new.store)
        volume.old volume.new }
{
    match inquiry {
        Inquiry::Why => tell_why(alloc, volume, cred, request),
        Inquiry::Who => tell_who(alloc, volume, request),
    }
}

/// The lines of who could make a call now, over all callers. The call is not made.
fn tell_who<F: FileStore + Drop>(
    alloc: Global,
    volume: &mut Volume<F>,
    request: &Request,
) -> Result<Vec<u8>, AllocError>
    ensures text { IfOk result (λ text. AtPresent F.state volume.old
        (λ w. IsWhoTold w request.now text.items)) }
    ensures looks { LooksOn (F.state volume.old.store) (F.state volume.new.store)
        volume.old volume.new }
{
    // By its clause the counts are those of the journal.
    let _counts = volume.counts();
    let explanation = volume.explain(&first_caller(), request)?;
    tell_who_along(alloc, volume.level(), request, &explanation)
}

/// The lines of why a call would be allowed or denied now. The call is not made.
fn tell_why<F: FileStore + Drop>(
    alloc: Global,
    volume: &mut Volume<F>,
    cred: &Cred,
    request: &Request,
) -> Result<Vec<u8>, AllocError>
    ensures text { IfOk result (λ text. AtPresent F.state volume.old
        (λ w. text.items ≡ why_text w cred.now request.now)) }
    ensures looks { LooksOn (F.state volume.old.store) (F.state volume.new.store)
        volume.old volume.new }
{
    let explanation = volume.explain(cred, request)?;
    tell_explanation(alloc, &explanation, cred, request)
}

/// The text that a word of the server's own tells, or none where it quits.
fn tell_dot<F: CleanedStore + ShowsLog + Drop>(
    alloc: Global,
    volume: &Volume<F>,
    tally: &Tally,
    dot: Dot,
) -> Result<Option<Vec<u8>>, AllocError>
    ensures { IfOk result (λ given. MatchOption given
        (dot ≡ Quit)
        (λ text. (handed : List Entry) (answers : List StepAnswer)
        → tally.now ≡ tally_of handed answers
        → dot_text (texts_of F.map_text F.segment_text F.space_text)
        dot handed answers volume.now ≡ Some text.items)) }
{
    match dot {
        Dot::Journal(count) => Ok(Some(tell_journal(alloc, volume.journal(), count)?)),
        Dot::Map => Ok(Some(tell_map(alloc, volume.store())?)),
        Dot::Segment(number) => Ok(Some(tell_segment(alloc, volume.store(), number)?)),
        Dot::Space => Ok(Some(tell_space(alloc, volume, &tally.totals)?)),
        Dot::Report => Ok(Some(tell_report(alloc, tally, volume.counts())?)),
        Dot::Help => Ok(Some(tell_help(alloc)?)),
        Dot::Quit => Ok(None),
    }
}

/// The report over all entries, of which the first were handed out, and of the answers that were told.
pub(crate) fn tell_report(
    alloc: Global,
    tally: &Tally,
    counts: &Counts,
) -> Result<Vec<u8>, AllocError>
    ensures { IfOk result (λ text. (handed kept : List Entry) (answers : List StepAnswer)
        → tally.now ≡ tally_of handed answers
        → counts.now ≡ counts_of kept → text.items ≡ run_report (handed ++ kept) answers) }
{
    let mut text = Vec::new(alloc);
    push_report(&mut text, tally, counts)?;
    Ok(text)
}

/// The text of `.map`.
fn tell_map<F: ShowsLog>(alloc: Global, store: &F) -> Result<Vec<u8>, AllocError>
    ensures { IfOk result (λ text. text.items ≡ F.map_text store.now) }
{
    let mut text = Vec::new(alloc);
    store.push_map(alloc, &mut text)?;
    Ok(text)
}

/// The text of `.segment`.
fn tell_segment<F: ShowsLog>(alloc: Global, store: &F, number: u64) -> Result<Vec<u8>, AllocError>
    ensures { IfOk result (λ text. text.items ≡ F.segment_text store.now number) }
{
    let mut text = Vec::new(alloc);
    store.push_segment(alloc, &mut text, number)?;
    Ok(text)
}

/// The text of `.space`.
fn tell_space<F: FileStore + ShowsLog + Drop>(
    alloc: Global,
    volume: &Volume<F>,
    told: &Totals,
) -> Result<Vec<u8>, AllocError>
    ensures { IfOk result (λ text. (handed : List Entry) → told.now ≡ counts_of handed → text.items
        ≡ F.space_text volume.now.store
        ++ entries_told (length volume.now.journal) volume.now.limit (length handed)) }
{
    let mut text = Vec::new(alloc);
    volume.store().push_space(&mut text)?;
    let kept = volume.journal().len() as u64;
    let limit = u64::from(volume.journal_limit());
    push_entries_told(&mut text, kept, limit, told.entries())?;
    Ok(text)
}

/// Appends how many entries a journal keeps of how many, and how many were handed out of it.
#[tactic(auto, unfolding(crate::specs::Telling::entries_told))]
fn push_entries_told(
    out: &mut Vec<u8>,
    kept: u64,
    limit: u64,
    handed: u64,
) -> Result<(), AllocError>
    ensures { OnOk result (out.new.items ≡ out.old.items ++ entries_told kept limit handed) }
{
    out.extend_from_slice(b"entries ")?;
    push_decimal(out, kept)?;
    out.extend_from_slice(b" kept of ")?;
    push_decimal(out, limit)?;
    out.extend_from_slice(b"\nentries ")?;
    push_decimal(out, handed)?;
    out.extend_from_slice(b" handed out\n")
}

/// The text of `.help`.
fn tell_help(alloc: Global) -> Result<Vec<u8>, AllocError>
    ensures { IfOk result (λ text. text.items ≡ help_text) }
{
    let mut text = Vec::new(alloc);
    push_help(&mut text)?;
    Ok(text)
}

/// The line of a fault of the line of this number, with where it stands.
pub(crate) fn tell_fault(
    alloc: Global,
    number: u64,
    fault: LineFault,
    place: &Place,
) -> Result<Vec<u8>, AllocError>
    ensures { IfOk result (λ text. text.items ≡ fault_line number fault place.now) }
{
    let mut text = Vec::new(alloc);
    push_fault(&mut text, number, fault, place)?;
    Ok(text)
}

/// The text that is told of what is behind the last line feed, where there is something.
pub(crate) fn tell_cut(alloc: Global, line: NumberedLine<'_>) -> Result<Vec<u8>, AllocError>
    ensures { IfOk result (λ text. text.items ≡ cut_line line.entry.number line.entry.bytes.now) }
{
    let fault = if line.bytes.len() > LINE_MAX {
        LineFault::TooLong
    } else {
        LineFault::Kind(FaultKind::Cut)
    };
    tell_fault(alloc, line.number, fault, &Place::none(alloc))
}
