//! Absolute paths.

ghost use Rattle.std.specs.Prelude.{◌≡◌, ◌≢◌, ◌≤◌, ℕ, length, option_copied, slice_index, true, IfOk, IfErr, OnOk, IsSome, IfSome, ◌↔◌, ◌<◌, ◌+◌, MatchOption, MatchResult, false, [], ◌∷◌, ◌++◌, position, ◌==◌};
ghost use Rattle.lfs_types.specs.Paths.{ParsesPath, ParsesNames, IsCut, RefusesName, TakesName, is_absolute, items_of, parts, path_text, rest_of, slashed};

use crate::name::{BadName, Name, ShortBytes, clone_names};
use std::alloc::{AllocError, Global};
use std::marker::Model;
use thiserror::Error;

/// The most bytes that a path may have (4.4BSD's `PATH_MAX`).
pub const PATH_MAX: usize = 1024;

/// Why a text is no path: the first of these that holds (this project's profile).
#[derive(Clone, Copy, PartialEq, Eq, Debug, Error)]
pub enum BadPath {
    /// The text does not begin with `/`.
    #[error("the path does not begin with a slash")]
    NotAbsolute,
    /// There are more than 1,024 bytes.
    #[error("the path has more than 1,024 bytes")]
    Long,
    /// The name of this component, counted from 1, is refused.
    #[error("component {0}: {1}")]
    Name(u32, BadName),
    /// A growth was refused.
    #[error("no memory")]
    Memory,
}

/// An absolute path of at most 1,024 bytes, as its names from the root; `/` has none.
#[derive(Drop, Debug)]
pub struct Path {
    names: Vec<Name>,
}

impl Model for Path {
    ghost use Rattle.std.specs.Prelude.{List, ℕ, ◌≤◌, length};
    ghost use Rattle.lfs_types.specs.Paths.{slashed};

    ghost Value = { List (List ℕ) };

    ghost view = { λ p. p.names.items };

    ghost invariant = { λ p. length (slashed p.names.items) ≤ 1024 };
}

impl Path {
    /// The path that this text spells, or the first fault in the order of `BadPath`.
    pub fn parse(alloc: Global, text: &str) -> Result<Path, BadPath>
        ensures parses { ParsesPath text.now result }
        ensures spelled { IfOk result (λ path. path_text path ≡ text.now) }
    {
        Path::parse_bytes(alloc, text.as_bytes())
    }

    /// The path that these bytes spell, of any encoding or of none, or the first fault in the order of `BadPath`.
    pub fn parse_bytes(alloc: Global, text: &[u8]) -> Result<Path, BadPath>
        ensures parses { ParsesPath text.now result }
        ensures spelled { IfOk result (λ path. path_text path ≡ text.now) }
    {
        let Some(behind) = behind_slash(text) else {
            return Err(BadPath::NotAbsolute);
        };
        if behind.len() >= PATH_MAX {
            return Err(BadPath::Long);
        }
        if behind.is_empty() {
            let names = Vec::new(alloc);
            return Ok(Path { names });
        }
        let names = names_of(alloc, behind)?;
        Ok(Path { names })
    }

    /// The path of these names from the root, where its text has at most 1,024 bytes.
    pub fn from_names(names: Vec<Name>) -> Option<Path>
        ensures fits { IsSome result ↔ (length (slashed names.items) ≤ 1024) }
        ensures names { IfSome result (λ path. path ≡ names.items) }
    {
        room_behind(names.as_slice(), PATH_MAX)?;
        Some(Path { names })
    }

    /// The names from the root, one for each component from 1.
    pub fn names(&self) -> &[Name]
        ensures value { result.now ≡ self.now }
        ensures bounded { length (slashed self.now) ≤ 1024 }
        ensures few { length self.now ≤ 1024 }
    {
        self.names.as_slice()
    }

    /// A path equal to this one.
    pub fn try_clone(&self, alloc: Global) -> Result<Path, AllocError>
        ensures { IfOk result (λ copy. copy ≡ self.now) }
    {
        let names = clone_names(alloc, self.names.as_slice())?;
        Ok(Path { names })
    }
}

impl PartialEq for Path {
    ghost use Rattle.std.specs.Prelude.{nat_eq};
    ghost use Rattle.std.specs.Cmp.Lexicographic.{pointwise};
    ghost use Rattle.std.proofs.Common.{rules};
    ghost use Rattle.std.specs.Cmp.Rules.{comparing};

    ghost eq = { pointwise (pointwise nat_eq) };

    ghost laws = { Prim.search (comparing, rules) };

    fn eq(&self, other: &Path) -> bool {
        self.names == other.names
    }
}

impl Eq for Path {
    ghost use Rattle.std.proofs.Common.{rules};
    ghost use Rattle.std.specs.Cmp.Rules.{comparing};

    ghost laws = { Prim.search (comparing, rules) };
}

/// What is left of so many bytes behind names, each with a slash before it, where they fit.
fn room_behind(names: &[Name], room: usize) -> Option<usize>
    ensures { MatchOption result (room < length (slashed names.now))
        (λ left. length (slashed names.now) + left ≡ room) }
{
    let mut left = room;
    let mut rest = names;
    while let Some((name, behind)) = rest.split_first() {
        left = left.checked_sub(name.as_bytes().len() + 1)?;
        rest = behind;
    }
    Some(left)
}

/// The bytes behind a slash at the front, where there is one.
fn behind_slash(text: &[u8]) -> Option<&[u8]>
    ensures { MatchOption result (is_absolute text.now ≡ false)
        (λ behind. text.now ≡ 47 ∷ behind.now) }
{
    match text.split_first() {
        Some((b'/', behind)) => Some(behind),
        _ => None,
    }
}

/// Where the first slash stands.
fn slash_at(text: &[u8]) -> Option<usize>
    ensures { result ≡ position (λ b. b == 47) text.now }
{
    text.iter().position(|b| *b == b'/')
}

/// The bytes up to the first slash, and those behind it where there is one.
fn cut_at_slash(text: &[u8]) -> (&[u8], Option<&[u8]>)
    ensures { IsCut text.now result.0.now (option_copied result.1) }
{
    match slash_at(text) {
        Some(at) => (&text[..at], Some(&text[at + 1..])),
        None => (text, None),
    }
}

/// How many names a text has, where each but the last ends at a slash. It looks at each byte, so that it is compiled to
/// steps of many bytes.
fn count_names(text: &[u8]) -> usize
    requires { length text.now ≤ 1024 }
{
    let mut count = 1;
    for byte in text {
        count += usize::from(*byte == b'/');
    }
    count
}

/// Adds a name behind others. The first takes room for itself and those to come, and no more.
#[inline(always)]
fn keep(names: &mut Vec<Name>, name: Name, room: usize) -> Result<(), BadPath>
    ensures kept { OnOk result (names.new.items ≡ names.old.items ++ name ∷ []) }
    ensures memory { IfErr result (λ fault. fault ≡ BadPath.Memory) }
{
    if names.is_empty() && names.reserve_exact(room).is_err() {
        return Err(BadPath::Memory);
    }
    match names.push(name) {
        Ok(()) => Ok(()),
        Err(_) => Err(BadPath::Memory),
    }
}

/// Whether a text ends behind so many bytes, or has a slash there.
#[inline(always)]
fn ends_part(text: &[u8], count: usize) -> bool
    requires { count ≤ length text.now }
    ensures { result ≡ true → count < length text.now → slice_index text.now count ≡ 47 }
{
    count == text.len() || text[count] == b'/'
}

/// The bytes behind the slash that stands behind so many bytes of a text, which ends there or has a slash there.
#[inline(always)]
fn behind_part(text: &[u8], count: usize) -> Option<&[u8]>
    requires { count ≤ length text.now }
    ensures { option_copied result ≡ rest_of text.now count }
{
    if count == text.len() {
        None
    } else {
        Some(&text[count + 1..])
    }
}

/// Puts the name at the front of a text behind others, where it has at most fourteen bytes, and says how many: none where
/// it has more, or a fault.
#[inline(always)]
fn keep_short(names: &mut Vec<Name>, text: &[u8], room: usize) -> Result<usize, BadPath>
    ensures within { IfOk result (λ count. count ≤ length text.now) }
    ensures kept { IfOk result (λ count. count ≢ 0
        → TakesName text.now names.old.items names.new.items (rest_of text.now count)) }
    ensures none { IfOk result (λ count. count ≡ 0 → names.new.items ≡ names.old.items) }
    ensures refused { IfErr result (λ fault. (k : ℕ) → RefusesName k text.now fault) }
{
    let short = ShortBytes::front_of(text);
    let count = short.as_slice().len();
    if !ends_part(text, count) {
        return Ok(0);
    }
    if !short.is_name() {
        return Ok(0);
    }
    keep(names, Name::of_short(short), room)?;
    Ok(count)
}

/// Puts the name at the front of a text behind others, of any length, as `take_name` does.
fn keep_any<'a>(
    alloc: Global,
    names: &mut Vec<Name>,
    text: &'a [u8],
    component: u32,
    room: usize,
) -> Result<Option<&'a [u8]>, BadPath>
    ensures { MatchResult result
        (λ behind. TakesName text.now names.old.items names.new.items (option_copied behind))
        (RefusesName component text.now) }
{
    let (part, behind) = cut_at_slash(text);
    let name = match Name::parse(alloc, part) {
        Ok(name) => name,
        Err(BadName::Memory) => return Err(BadPath::Memory),
        Err(fault) => return Err(BadPath::Name(component, fault)),
    };
    keep(names, name, room)?;
    Ok(behind)
}

/// Puts the name at the front of a text, component so-and-so, behind others, and gives the bytes behind its slash, where it
/// has one.
#[inline(always)]
fn take_name<'a>(
    alloc: Global,
    names: &mut Vec<Name>,
    text: &'a [u8],
    component: u32,
    room: usize,
) -> Result<Option<&'a [u8]>, BadPath>
    ensures { MatchResult result
        (λ behind. TakesName text.now names.old.items names.new.items (option_copied behind))
        (RefusesName component text.now) }
{
    let count = keep_short(names, text, room)?;
    if count == 0 {
        return keep_any(alloc, names, text, component, room);
    }
    Ok(behind_part(text, count))
}

/// The names between the slashes of a text, the first being component 1.
fn names_of(alloc: Global, text: &[u8]) -> Result<Vec<Name>, BadPath>
    requires { length text.now ≤ 1024 }
    ensures { ParsesNames 1 (parts text.now) (items_of result) }
{
    let room = count_names(text);
    let mut names = Vec::new(alloc);
    let mut rest = text;
    let mut component = 1u32;
    loop {
        match take_name(alloc, &mut names, rest, component, room)? {
            None => return Ok(names),
            Some(behind) => rest = behind,
        }
        component += 1;
    }
}
