//! Entries as lines.

ghost use Rattle.std.specs.Prelude.{◌≡◌, ◌++◌, OnOk};
ghost use Rattle.lfs_words.specs.Wording.{spaced};
ghost use Rattle.lfs_journal_lines.specs.EntryText.{asked_text, came_words, entries_text, entry_line, who_text};

use lfs_model::journal::{Entry, Event};
use lfs_print::print::{push_answer, push_outcome};
use lfs_script::cleaner_spelling::push_act;
use lfs_script::spelling::push_request;
use lfs_words::append::{push_decimal, push_word};
use lfs_words::caller::spell_caller;
use std::alloc::AllocError;

/// Appends the lines of entries.
pub fn push_entries(out: &mut Vec<u8>, entries: &[Entry]) -> Result<(), AllocError>
    ensures { OnOk result (out.new.items ≡ out.old.items ++ entries_text entries.now) }
{
    for entry in entries {
        push_entry(out, entry)?;
    }
    Ok(())
}

/// Appends the line of an entry: the session and the credential, what was asked, and what was answered, with ` | ` between.
/// The call is a line of a script, which says this call, a user's where a script can spell its paths (`push_request`,
/// `push_act`).
pub fn push_entry(out: &mut Vec<u8>, entry: &Entry) -> Result<(), AllocError>
    ensures { OnOk result (out.new.items ≡ out.old.items ++ entry_line entry.now) }
{
    push_who(out, entry)?;
    push_word(out, "|")?;
    out.push(b' ')?;
    push_asked(out, &entry.event)?;
    push_word(out, "|")?;
    push_came(out, &entry.event)?;
    Ok(out.push(b'\n')?)
}

/// Appends the session and the credential.
fn push_who(out: &mut Vec<u8>, entry: &Entry) -> Result<(), AllocError>
    ensures { OnOk result (out.new.items ≡ out.old.items ++ who_text entry.now) }
{
    push_decimal(out, u64::from(entry.session))?;
    push_word(out, "as")?;
    spell_caller(out, &entry.cred)
}

/// Appends what was asked.
fn push_asked(out: &mut Vec<u8>, event: &Event) -> Result<(), AllocError>
    ensures { OnOk result (out.new.items ≡ out.old.items ++ asked_text event.now) }
{
    match event {
        Event::User(request, _) => push_request(out, request),
        Event::Cleaner(act, _) => push_act(out, act),
    }
}

/// Appends the words of what was answered.
fn push_came(out: &mut Vec<u8>, event: &Event) -> Result<(), AllocError>
    ensures { OnOk result (out.new.items ≡ out.old.items ++ spaced (came_words event.now)) }
{
    match event {
        Event::User(_, answer) => push_answer(out, answer),
        Event::Cleaner(_, outcome) => push_outcome(out, *outcome),
    }
}
