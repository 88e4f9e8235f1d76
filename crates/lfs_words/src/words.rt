//! The words of a line.

ghost use Rattle.std.specs.Prelude.{◌≡◌, ◌==◌, ◌<◌, [], ◌∷◌, Ok, Err, length, map, IfOk, MatchOption, MatchResult, ⊤};
ghost use Rattle.std.specs.List.{slice_split};
ghost use Rattle.lfs_words.specs.Wording.{no_word, one_word, two_words, three_words};

use crate::fault::FaultKind;
use memchr::memchr;
use smallvec::SmallVec;
use std::alloc::{AllocError, Global};

/// So many pieces of a text lie in the value itself and take no memory.
const INLINE_PIECES: usize = 8;

/// The pieces of a text.
pub type Pieces<'a> = SmallVec<&'a str, INLINE_PIECES>;

/// What stands between the separators of a text.
#[inline(always)]
pub fn pieces<'a>(alloc: Global, text: &'a str, separator: char) -> Result<Pieces<'a>, AllocError>
    requires { separator < 128 }
    ensures { IfOk result (λ v. map (λ x. x.now) v.items
        ≡ slice_split (λ b. b == separator) text.now) }
{
    let mut pieces = SmallVec::new(alloc);
    let mut rest = text;
    while let Some((piece, behind)) = cut_at(rest, separator) {
        pieces.push(piece)?;
        rest = behind;
    }
    pieces.push(rest)?;
    Ok(pieces)
}

/// What stands before the first separator of a text, and what stands behind it, where it has one.
#[inline(always)]
fn cut_at(text: &str, separator: char) -> Option<(&str, &str)>
    requires { separator < 128 }
    ensures pieces { MatchOption result
        (slice_split (λ b. b == separator) text.now ≡ text.now ∷ [])
        (λ cut. slice_split (λ b. b == separator) text.now
        ≡ cut.0.now ∷ slice_split (λ b. b == separator) cut.1.now) }
    ensures shorter { MatchOption result ⊤ (λ cut. length cut.1.now < length text.now) }
{
    match memchr(separator as u8, text.as_bytes()) {
        Some(at) => Some((&text[..at], &text[at + 1..])),
        None => None,
    }
}

/// Whether there is no word.
pub fn no_word(words: &[&str]) -> Result<(), FaultKind>
    ensures { MatchResult result
        (λ _. no_word (map (λ x. x.now) words.now) ≡ Ok [])
        (λ kind. no_word (map (λ x. x.now) words.now) ≡ Err kind) }
{
    match words {
        [] => Ok(()),
        _ => Err(FaultKind::Words),
    }
}

/// A lone word.
pub fn one_word<'a>(words: &[&'a str]) -> Result<&'a str, FaultKind>
    ensures { MatchResult result
        (λ word. one_word (map (λ x. x.now) words.now) ≡ Ok word.now)
        (λ kind. one_word (map (λ x. x.now) words.now) ≡ Err kind) }
{
    match words {
        [word] => Ok(word),
        _ => Err(FaultKind::Words),
    }
}

/// Two words.
pub fn two_words<'a>(words: &[&'a str]) -> Result<(&'a str, &'a str), FaultKind>
    ensures { MatchResult result
        (λ two. two_words (map (λ x. x.now) words.now) ≡ Ok (two.0.now, two.1.now))
        (λ kind. two_words (map (λ x. x.now) words.now) ≡ Err kind) }
{
    match words {
        [first, second] => Ok((first, second)),
        _ => Err(FaultKind::Words),
    }
}

/// Three words.
pub fn three_words<'a>(words: &[&'a str]) -> Result<(&'a str, &'a str, &'a str), FaultKind>
    ensures { MatchResult result
        (λ three. three_words (map (λ x. x.now) words.now)
        ≡ Ok (three.0.now, three.1.now, three.2.now))
        (λ kind. three_words (map (λ x. x.now) words.now) ≡ Err kind) }
{
    match words {
        [first, second, third] => Ok((first, second, third)),
        _ => Err(FaultKind::Words),
    }
}
