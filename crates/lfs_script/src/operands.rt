//! What stands behind a verb, word by word.

ghost use Rattle.std.specs.Prelude.{◌≡◌, ◌∷◌, [], codes, IfOk};
ghost use Rattle.std.specs.Result.{is_ok};
ghost use Rattle.lfs_words.specs.BytesText.{bytes_of};
ghost use Rattle.lfs_words.specs.Callers.{caller_said};
ghost use Rattle.lfs_words.specs.Infos.{infos_within};
ghost use Rattle.lfs_words.specs.PathText.{path_of};
ghost use Rattle.lfs_script.specs.declared.operands.Operand.TheVariants.{Fixed};
ghost use Rattle.lfs_script.specs.Operands.{fits, operand_at, operand_text, in_order, operands_of, operands_of_call, operands_of_cleaning, operands_of_write};

use crate::verb::{RequestKind, Verb};
use lfs_model::journal::CleanerKind;
use lfs_words::caller::caller;
use lfs_words::fault::FaultKind;
use lfs_words::hex::{flags, payload};
use lfs_words::info::infos;
use lfs_words::number::{decimal, level, mode, session, short_decimal};
use lfs_words::path::path_of;
use std::alloc::{AllocError, Global};

/// What a word behind a verb is read as.
#[derive(Clone, Copy, PartialEq, Eq, Debug)]
pub enum Operand {
    /// A path.
    Path,
    /// A mode.
    Mode,
    /// A number below 2^64.
    Long,
    /// A number below 2^32.
    Short,
    /// File flags.
    Flags,
    /// A securelevel.
    Level,
    /// A session.
    Session,
    /// Bytes.
    Payload,
    /// A list of groups.
    Groups,
    /// The mark of init, behind a user who may not be it.
    Init,
    /// A word that is fixed, and stands there.
    Fixed,
    /// A block info.
    Info,
}

/// What the words behind a verb are read as: the first three, and those that follow.
#[derive(Clone, Copy, PartialEq, Eq, Debug)]
pub struct Operands {
    first: Operand,
    second: Operand,
    third: Operand,
    rest: Operand,
}

/// These operands, in order.
fn in_order(first: Operand, second: Operand, third: Operand, rest: Operand) -> Operands
    ensures { result ≡ in_order first second third rest }
{
    Operands {
        first,
        second,
        third,
        rest,
    }
}

/// No operand: the words are fixed.
fn none() -> Operands
    ensures { result ≡ in_order Fixed Fixed Fixed Fixed }
{
    one(Operand::Fixed)
}

/// This operand, and fixed words behind it.
fn one(first: Operand) -> Operands
    ensures { result ≡ in_order first Fixed Fixed Fixed }
{
    two(first, Operand::Fixed)
}

/// These two, and fixed words behind them.
fn two(first: Operand, second: Operand) -> Operands
    ensures { result ≡ in_order first second Fixed Fixed }
{
    three(first, second, Operand::Fixed)
}

/// These three, and fixed words behind them.
fn three(first: Operand, second: Operand, third: Operand) -> Operands
    ensures { result ≡ in_order first second third Fixed }
{
    in_order(first, second, third, Operand::Fixed)
}

/// What the words behind a verb are read as, of which there are so many.
pub fn operands_of(verb: Verb, count: usize) -> Operands
    ensures { result ≡ operands_of verb count }
{
    match verb {
        Verb::Session => one(Operand::Session),
        Verb::As => three(Operand::Short, Operand::Groups, Operand::Init),
        Verb::User(kind) => operands_of_call(kind, count),
        Verb::Cleaner(kind) => operands_of_cleaning(kind),
        Verb::Pass => none(),
    }
}

/// The same of a user's call.
fn operands_of_call(kind: RequestKind, count: usize) -> Operands
    ensures { result ≡ operands_of_call kind count }
{
    match kind {
        RequestKind::Stat => one(Operand::Path),
        RequestKind::Read => three(Operand::Path, Operand::Long, Operand::Short),
        RequestKind::Write => operands_of_write(count),
        RequestKind::List => one(Operand::Path),
        RequestKind::SetLength => two(Operand::Path, Operand::Long),
        RequestKind::Create => two(Operand::Path, Operand::Mode),
        RequestKind::Mkdir => two(Operand::Path, Operand::Mode),
        RequestKind::Unlink => one(Operand::Path),
        RequestKind::Rmdir => one(Operand::Path),
        RequestKind::Rename => two(Operand::Path, Operand::Path),
        RequestKind::Chmod => two(Operand::Path, Operand::Mode),
        RequestKind::Chown => three(Operand::Path, Operand::Short, Operand::Short),
        RequestKind::Chflags => two(Operand::Path, Operand::Flags),
        RequestKind::SetLevel => one(Operand::Level),
        RequestKind::Sync => none(),
    }
}

/// The same of a Write, at the end or at a place.
fn operands_of_write(count: usize) -> Operands
    ensures { result ≡ operands_of_write count }
{
    if count == 3 {
        three(Operand::Path, Operand::Fixed, Operand::Payload)
    } else {
        in_order(
            Operand::Path,
            Operand::Fixed,
            Operand::Long,
            Operand::Payload,
        )
    }
}

/// The same of a call of the cleaner.
fn operands_of_cleaning(kind: CleanerKind) -> Operands
    ensures { result ≡ operands_of_cleaning kind }
{
    match kind {
        CleanerKind::Ifile | CleanerKind::Gain => none(),
        CleanerKind::Infos => one(Operand::Short),
        CleanerKind::Bmapv => in_order(Operand::Info, Operand::Info, Operand::Info, Operand::Info),
        CleanerKind::Markv => in_order(Operand::Info, Operand::Info, Operand::Info, Operand::Info),
        CleanerKind::Segclean => one(Operand::Short),
    }
}

/// What the word at this place behind a verb is read as, counted from 0.
pub fn operand_at(operands: Operands, place: usize) -> Operand
    ensures { result ≡ operand_at operands place }
{
    if place == 0 {
        operands.first
    } else if place == 1 {
        operands.second
    } else if place == 2 {
        operands.third
    } else {
        operands.rest
    }
}

/// Whether a word is read as this.
///
/// # Errors
///
/// Memory ran out.
pub fn fits(alloc: Global, operand: Operand, word: &str) -> Result<bool, AllocError>
    ensures { IfOk result (λ is. is ≡ fits operand word.now) }
{
    match operand {
        Operand::Path => is_path(alloc, word),
        Operand::Mode => Ok(mode(word).is_ok()),
        Operand::Long => Ok(decimal(word).is_ok()),
        Operand::Short => Ok(short_decimal(word).is_ok()),
        Operand::Flags => Ok(flags(word).is_ok()),
        Operand::Level => Ok(level(word).is_ok()),
        Operand::Session => Ok(session(word).is_ok()),
        Operand::Payload => is_payload(alloc, word),
        Operand::Groups => Ok(are_groups(word)),
        Operand::Init => Ok(false),
        Operand::Fixed => Ok(true),
        Operand::Info => is_info(alloc, word),
    }
}

/// Whether a word is a path.
fn is_path(alloc: Global, word: &str) -> Result<bool, AllocError>
    ensures { IfOk result (λ is. is ≡ is_ok (path_of word.now)) }
{
    match path_of(alloc, word) {
        Ok(_) => Ok(true),
        Err(FaultKind::Memory) => Err(AllocError),
        Err(_) => Ok(false),
    }
}

/// Whether a word spells bytes.
fn is_payload(alloc: Global, word: &str) -> Result<bool, AllocError>
    ensures { IfOk result (λ is. is ≡ is_ok (bytes_of word.now)) }
{
    match payload(alloc, word) {
        Ok(_) => Ok(true),
        Err(FaultKind::Memory) => Err(AllocError),
        Err(_) => Ok(false),
    }
}

/// Whether a word is the groups of a credential.
fn are_groups(word: &str) -> bool
    ensures { result ≡ is_ok (caller_said (codes "0" ∷ word.now ∷ [])) }
{
    caller(&["0", word]).is_ok()
}

/// Whether a word is an info.
fn is_info(alloc: Global, word: &str) -> Result<bool, AllocError>
    ensures { IfOk result (λ is. is ≡ is_ok (infos_within 1 (word.now ∷ []))) }
{
    match infos::<1>(alloc, &[word]) {
        Ok(_) => Ok(true),
        Err(FaultKind::Memory) => Err(AllocError),
        Err(_) => Ok(false),
    }
}

/// What a word is to be that is read as this.
pub fn operand_text(operand: Operand) -> &'static str
    ensures { result.now ≡ operand_text operand }
{
    match operand {
        Operand::Path =>
            "a path begins with a slash and has at most 1024 bytes, its names 1 to 255, and none is . or ..",
        Operand::Mode => "a mode is 1 to 6 octal digits, at most 7777, as 0644",
        Operand::Long => "a number is 1 to 20 decimal digits and below 2^64",
        Operand::Short => "a number is 1 to 20 decimal digits and below 2^32",
        Operand::Flags => "flags are 1 to 8 digits of 0-9 a-f, and set known flags alone",
        Operand::Level => "a level is -1, 0, 1 or 2",
        Operand::Session => "a session is 0 to 8",
        Operand::Payload =>
            "bytes are two digits of 0-9 a-f each, at most 4096 bytes, or - for none",
        Operand::Groups => "groups are at most 16 numbers below 2^32, with a comma between",
        Operand::Init => "init is user 0",
        Operand::Fixed => "",
        Operand::Info => "an info is NUMBER:VERSION:BLOCK:ADDRESS, each below 2^32",
    }
}
