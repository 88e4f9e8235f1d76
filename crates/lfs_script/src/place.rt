//! Where the fault of a line stands, and what was expected there.

ghost use Rattle.std.specs.Prelude.{◌≡◌, ◌++◌, OnOk, map};
ghost use Rattle.lfs_script.specs.Places.{bare_place, behind_place, beyond, byte_name, byte_place, byte_text, caller_place, is_printable_byte, place_text, shown, text_place, unread_place, verb_place, word_text, words_place};

use crate::forms::{form_text, is_formed};
use crate::operands::{Operands, fits, operand_at, operand_text, operands_of};
use crate::verb::Verb;
use lfs_words::append::push_number;
use lfs_words::caller::caller;
use lfs_words::line::{has_bare_word, is_skipped, text_of};
use lfs_words::words::pieces;
use std::alloc::{AllocError, Global};

/// So many bytes of a word are told.
const SHOWN: usize = 40;

/// Appends where the fault of a line stands, and what was expected there: a space, the word, its column, counted from 1, and
/// the form of such a word. The line is given without its line feed, and so many bytes stand before it. Nothing is appended of a
/// line without a fault.
///
/// # Errors
///
/// Memory ran out.
#[tactic(auto, unfolding(crate::specs::Places::place_text))]
pub fn push_place(
    alloc: Global,
    out: &mut Vec<u8>,
    before: u64,
    line: &[u8],
) -> Result<(), AllocError>
    ensures { OnOk result (out.new.items ≡ out.old.items ++ place_text before line.now) }
{
    let column = before.saturating_add(1);
    match text_of(line) {
        Ok(text) => push_text_place(alloc, out, column, text),
        Err(_) => push_byte_place(out, column, line),
    }
}

/// The column behind a word and a space that begin at this one.
fn beyond(column: u64, word: &str) -> u64
    ensures { result ≡ beyond column word.now }
{
    column.saturating_add(word.len() as u64 + 1)
}

/// Appends where the first byte stands that is not printable.
fn push_byte_place(out: &mut Vec<u8>, column: u64, line: &[u8]) -> Result<(), AllocError>
    ensures { OnOk result (out.new.items ≡ out.old.items ++ byte_place column line.now) }
{
    let mut at = column;
    for byte in line {
        if !is_printable(*byte) {
            return push_byte_text(out, at, *byte);
        }
        at = at.saturating_add(1);
    }
    Ok(())
}

/// Whether a byte is printable.
fn is_printable(byte: u8) -> bool
    ensures { result ≡ is_printable_byte byte }
{
    byte >= 0x20 && byte <= 0x7e
}

/// Appends the column of a byte that is not printable, and what it is.
fn push_byte_text(out: &mut Vec<u8>, column: u64, byte: u8) -> Result<(), AllocError>
    ensures { OnOk result (out.new.items ≡ out.old.items ++ byte_text column byte) }
{
    out.extend_from_slice(b" at")?;
    push_number(out, column)?;
    out.extend_from_slice(byte_name(byte).as_bytes())
}

/// What a byte is that is not printable.
fn byte_name(byte: u8) -> &'static str
    ensures { result.now ≡ byte_name byte }
{
    if byte == b'\t' {
        ": a tab, where one space stands between words"
    } else if byte == b'\r' {
        ": a carriage return, where a line feed alone ends a line"
    } else {
        ": a byte outside 20 to 7e"
    }
}

/// Appends where the fault of a line of printable bytes stands.
fn push_text_place(
    alloc: Global,
    out: &mut Vec<u8>,
    column: u64,
    text: &str,
) -> Result<(), AllocError>
    ensures { OnOk result (out.new.items ≡ out.old.items ++ text_place column text.now) }
{
    if is_skipped(text) {
        return Ok(());
    }
    let words = pieces(alloc, text, ' ')?;
    push_words_place(alloc, out, column, words.as_slice())
}

/// Appends where the fault of words stands.
fn push_words_place(
    alloc: Global,
    out: &mut Vec<u8>,
    column: u64,
    words: &[&str],
) -> Result<(), AllocError>
    ensures { OnOk result (out.new.items
        ≡ out.old.items ++ words_place column (map (λ x. x.now) words.now)) }
{
    if has_bare_word(words) {
        push_bare_place(out, column, words)
    } else {
        push_verb_place(alloc, out, column, words)
    }
}

/// Appends where the first word stands that has no bytes.
fn push_bare_place(out: &mut Vec<u8>, column: u64, words: &[&str]) -> Result<(), AllocError>
    ensures { OnOk result (out.new.items
        ≡ out.old.items ++ bare_place column (map (λ x. x.now) words.now)) }
{
    let mut at = column;
    for word in words {
        if word.is_empty() {
            return push_word_text(
                out,
                at,
                word,
                "one space stands between words, none elsewhere",
            );
        }
        at = beyond(at, word);
    }
    Ok(())
}

/// Appends where the fault of words stands, of which the first is to be a verb.
fn push_verb_place(
    alloc: Global,
    out: &mut Vec<u8>,
    column: u64,
    words: &[&str],
) -> Result<(), AllocError>
    ensures { OnOk result (out.new.items
        ≡ out.old.items ++ verb_place column (map (λ x. x.now) words.now)) }
{
    let [first, rest @ ..] = words else {
        return Ok(());
    };
    match Verb::of(first) {
        Some(verb) if is_formed(verb, rest) => {
            push_behind_place(alloc, out, beyond(column, first), verb, rest)
        }
        Some(verb) => push_word_text(out, column, first, form_text(verb)),
        None => push_word_text(out, column, first, "no line begins so"),
    }
}

/// Appends where the fault of the words behind a verb stands, which are as many as stand there.
fn push_behind_place(
    alloc: Global,
    out: &mut Vec<u8>,
    column: u64,
    verb: Verb,
    words: &[&str],
) -> Result<(), AllocError>
    ensures { OnOk result (out.new.items ≡ out.old.items
        ++ behind_place column verb (map (λ x. x.now) words.now)) }
{
    let operands = operands_of(verb, words.len());
    match verb {
        Verb::As => push_caller_place(alloc, out, column, words),
        Verb::Session | Verb::User(_) | Verb::Cleaner(_) | Verb::Pass => {
            push_unread_place(alloc, out, operands, column, words)
        }
    }
}

/// Appends where the fault of the words of a credential stands.
fn push_caller_place(
    alloc: Global,
    out: &mut Vec<u8>,
    column: u64,
    words: &[&str],
) -> Result<(), AllocError>
    ensures { OnOk result (out.new.items
        ≡ out.old.items ++ caller_place column (map (λ x. x.now) words.now)) }
{
    if caller(words).is_ok() {
        return Ok(());
    }
    let operands = operands_of(Verb::As, words.len());
    push_unread_place(alloc, out, operands, column, words)
}

/// Appends where the first word stands that is not read as its operand.
fn push_unread_place(
    alloc: Global,
    out: &mut Vec<u8>,
    operands: Operands,
    column: u64,
    words: &[&str],
) -> Result<(), AllocError>
    ensures { OnOk result (out.new.items ≡ out.old.items
        ++ unread_place operands 0 column (map (λ x. x.now) words.now)) }
{
    let mut at = column;
    for index in 0..words.len() {
        let word = words[index];
        let operand = operand_at(operands, index);
        if !fits(alloc, operand, word)? {
            return push_word_text(out, at, word, operand_text(operand));
        }
        at = beyond(at, word);
    }
    Ok(())
}

/// Appends a word, its column and what was expected there.
fn push_word_text(
    out: &mut Vec<u8>,
    column: u64,
    word: &str,
    expected: &str,
) -> Result<(), AllocError>
    ensures { OnOk result (out.new.items
        ≡ out.old.items ++ word_text column word.now expected.now) }
{
    out.extend_from_slice(b" '")?;
    push_shown(out, word.as_bytes())?;
    out.extend_from_slice(b"' at")?;
    push_number(out, column)?;
    out.extend_from_slice(b": ")?;
    out.extend_from_slice(expected.as_bytes())
}

/// Appends the bytes of a word that are told.
fn push_shown(out: &mut Vec<u8>, word: &[u8]) -> Result<(), AllocError>
    ensures { OnOk result (out.new.items ≡ out.old.items ++ shown word.now) }
{
    if word.len() <= SHOWN {
        return out.extend_from_slice(word);
    }
    let told = &word[..SHOWN];
    out.extend_from_slice(told)?;
    out.extend_from_slice(b"..")
}
