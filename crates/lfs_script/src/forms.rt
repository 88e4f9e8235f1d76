//! How a line is formed that begins with a verb: how many words stand behind it, and which of them are fixed.

ghost use Rattle.std.specs.Prelude.{◌≡◌, map};
ghost use Rattle.lfs_script.specs.Forms.{form_of_call, form_of_cleaning, form_text, is_caller, is_cleaning, is_formed, is_call, words_of_call};

use crate::requests::write_words;
use crate::verb::{RequestKind, Verb};
use lfs_model::journal::CleanerKind;

/// Whether so many words, with these fixed ones, stand behind a verb.
pub fn is_formed(verb: Verb, words: &[&str]) -> bool
    ensures { result ≡ is_formed verb (map (λ x. x.now) words.now) }
{
    match verb {
        Verb::Session => words.len() == 1,
        Verb::As => is_caller(words),
        Verb::User(kind) => is_call(kind, words),
        Verb::Cleaner(kind) => is_cleaning(kind, words.len()),
        Verb::Pass => words.len() == 0,
    }
}

/// Whether so many words, with the mark of init, are those of a credential.
fn is_caller(words: &[&str]) -> bool
    ensures { result ≡ is_caller (map (λ x. x.now) words.now) }
{
    match words {
        [_, _] => true,
        [_, _, mark] => *mark == "init",
        _ => false,
    }
}

/// Whether so many words, with the fixed ones of a Write, stand behind the word of a user's call.
fn is_call(kind: RequestKind, words: &[&str]) -> bool
    ensures { result ≡ is_call kind (map (λ x. x.now) words.now) }
{
    match kind {
        RequestKind::Write => write_words(words).is_ok(),
        kind => words.len() == words_of_call(kind),
    }
}

/// How many words stand behind the word of a user's call that is no Write.
fn words_of_call(kind: RequestKind) -> usize
    ensures { result ≡ words_of_call kind }
{
    match kind {
        RequestKind::Stat => 1,
        RequestKind::Read => 3,
        RequestKind::Write => 4,
        RequestKind::List => 1,
        RequestKind::SetLength => 2,
        RequestKind::Create => 2,
        RequestKind::Mkdir => 2,
        RequestKind::Unlink => 1,
        RequestKind::Rmdir => 1,
        RequestKind::Rename => 2,
        RequestKind::Chmod => 2,
        RequestKind::Chown => 3,
        RequestKind::Chflags => 2,
        RequestKind::SetLevel => 1,
        RequestKind::Sync => 0,
    }
}

/// Whether so many words stand behind the word of a call of the cleaner.
fn is_cleaning(kind: CleanerKind, count: usize) -> bool
    ensures { result ≡ is_cleaning kind count }
{
    match kind {
        CleanerKind::Ifile => count == 0,
        CleanerKind::Infos => count == 1,
        CleanerKind::Bmapv => count <= 248,
        CleanerKind::Markv => count <= 8,
        CleanerKind::Segclean => count == 1,
        CleanerKind::Gain => count == 0,
    }
}

/// How a line is formed that begins with a verb, in words.
pub fn form_text(verb: Verb) -> &'static str
    ensures { result.now ≡ form_text verb }
{
    match verb {
        Verb::Session => "its form is session SESSION",
        Verb::As => "its form is as USER GROUPS, or as USER GROUPS init",
        Verb::User(kind) => form_of_call(kind),
        Verb::Cleaner(kind) => form_of_cleaning(kind),
        Verb::Pass => "its form is pass",
    }
}

/// The same of a user's call.
fn form_of_call(kind: RequestKind) -> &'static str
    ensures { result.now ≡ form_of_call kind }
{
    match kind {
        RequestKind::Stat => "its form is stat PATH",
        RequestKind::Read => "its form is read PATH OFFSET LENGTH",
        RequestKind::Write => "its form is write PATH at OFFSET BYTES, or write PATH end BYTES",
        RequestKind::List => "its form is list PATH",
        RequestKind::SetLength => "its form is length PATH LENGTH",
        RequestKind::Create => "its form is create PATH MODE",
        RequestKind::Mkdir => "its form is mkdir PATH MODE",
        RequestKind::Unlink => "its form is unlink PATH",
        RequestKind::Rmdir => "its form is rmdir PATH",
        RequestKind::Rename => "its form is rename PATH PATH",
        RequestKind::Chmod => "its form is chmod PATH MODE",
        RequestKind::Chown => "its form is chown PATH USER GROUP",
        RequestKind::Chflags => "its form is chflags PATH FLAGS",
        RequestKind::SetLevel => "its form is level LEVEL",
        RequestKind::Sync => "its form is sync",
    }
}

/// The same of a call of the cleaner.
fn form_of_cleaning(kind: CleanerKind) -> &'static str
    ensures { result.now ≡ form_of_cleaning kind }
{
    match kind {
        CleanerKind::Ifile => "its form is ifile",
        CleanerKind::Infos => "its form is infos SEGMENT",
        CleanerKind::Bmapv => "its form is bmapv and up to 248 infos",
        CleanerKind::Markv => "its form is markv and up to 8 infos",
        CleanerKind::Segclean => "its form is segclean SEGMENT",
        CleanerKind::Gain => "its form is gain",
    }
}
