//! Credentials in scripts.

ghost use Rattle.std.specs.Prelude.{◌≡◌, ◌++◌, ◌∷◌, [], None, Some, Ok, decimal, map, take, false, MatchResult, OnOk};
ghost use Rattle.std.specs.List.{flat_map, list_all};
ghost use Rattle.lfs_words.specs.CallerText.{AreShort, caller_words, groups_text};
ghost use Rattle.lfs_words.specs.Callers.{caller_fault, caller_said, decimal_value, decimals_fault, groups_of, is_decimal};
ghost use Rattle.lfs_words.specs.Wording.{spaced};

use crate::append::{push_decimal, push_number, push_word};
use crate::fault::FaultKind;
use crate::number::{is_decimal, short_decimal};
use lfs_types::cred::{Cred, NGROUPS_MAX};
use std::alloc::AllocError;
use std::marker::Model;

/// How many groups of a word are kept: one more than a credential may have, so that too many are told apart.
const KEPT: usize = NGROUPS_MAX + 1;

/// The credential that the words behind `as` spell: a user, groups, and the mark of init.
pub fn caller(words: &[&str]) -> Result<Cred, FaultKind>
    ensures { result ≡ caller_said (map (λ x. x.now) words.now) }
{
    match words {
        [user, groups] => caller_of(user, groups, false),
        [user, groups, mark] => {
            if *mark == "init" {
                caller_of(user, groups, true)
            } else {
                Err(FaultKind::Words)
            }
        }
        _ => Err(FaultKind::Words),
    }
}

/// The credential of a user, a list of groups with a comma between, and the mark of init.
fn caller_of(user: &str, groups: &str, init: bool) -> Result<Cred, FaultKind>
    ensures { MatchResult result
        (λ cred. (caller_fault user.now groups.now init ≡ None)
        × (cred ≡ record { uid = decimal_value user.now; groups = map decimal_value (groups_of groups.now); init = init }))
        (λ kind. caller_fault user.now groups.now init ≡ Some kind) }
{
    let uid = short_decimal(user)?;
    let groups = Groups::of(groups)?;
    match Cred::new(uid, groups.as_slice(), init) {
        Ok(cred) => Ok(cred),
        Err(fault) => Err(FaultKind::Cred(fault)),
    }
}

/// Appends the words of a credential, each behind a space, as they stand behind `as`: a user, groups with a comma between,
/// and the mark of init. They are read back.
pub fn spell_caller(out: &mut Vec<u8>, cred: &Cred) -> Result<(), AllocError>
    ensures spelled { OnOk result (out.new.items
        ≡ out.old.items ++ spaced (caller_words cred.now)) }
    ensures back { OnOk result (caller_said (caller_words cred.now) ≡ Ok cred.now) }
{
    push_number(out, u64::from(cred.uid()))?;
    out.push(b' ')?;
    push_groups(out, cred.groups())?;
    if cred.is_init() {
        push_word(out, "init")?;
    }
    Ok(())
}

/// Appends groups with a comma between.
fn push_groups(out: &mut Vec<u8>, groups: &[u32]) -> Result<(), AllocError>
    ensures spelled { OnOk result (out.new.items ≡ out.old.items ++ groups_text groups.now) }
    ensures short { AreShort groups.now }
{
    match groups {
        [] => Ok(()),
        [first, rest @ ..] => {
            push_decimal(out, u64::from(*first))?;
            push_more_groups(out, rest)
        }
    }
}

/// Appends groups, each behind a comma.
fn push_more_groups(out: &mut Vec<u8>, groups: &[u32]) -> Result<(), AllocError>
    ensures { OnOk result (out.new.items ≡ out.old.items
        ++ flat_map (λ group. 44 ∷ decimal group) groups.now) }
{
    for group in groups {
        out.push(b',')?;
        push_decimal(out, u64::from(*group))?;
    }
    Ok(())
}

/// The credential at the start: the superuser with group 0, who is not init.
pub fn first_caller() -> Cred
    ensures { result ≡ record { uid = 0; groups = 0 ∷ []; init = false } }
{
    Cred::new(0, &[0], false).unwrap()
}

/// The first seventeen groups of a word.
#[derive(Drop)]
struct Groups {
    kept: [u32; KEPT],
    count: usize,
}

impl Model for Groups {
    ghost use Rattle.std.specs.Prelude.{◌≡◌, ◌≤◌, ℕ, List, length, take};

    ghost Value = { List ℕ };

    ghost view = { λ g. take g.count g.kept };

    ghost invariant = { λ g. (g.count ≤ 17) × (length g.kept ≡ 17) };
}

impl Groups {
    /// No groups.
    fn new() -> Groups
        ensures { result ≡ [] }
    {
        Groups {
            kept: [0; KEPT],
            count: 0,
        }
    }

    /// Adds a group, where fewer than seventeen are kept.
    fn push(&mut self, group: u32)
        ensures { self.new ≡ take 17 (self.old ++ group ∷ []) }
    {
        if self.count < KEPT {
            self.kept[self.count] = group;
            self.count += 1;
        }
    }

    /// The groups of a word, as many as are kept.
    fn of(word: &str) -> Result<Groups, FaultKind>
        ensures { MatchResult result
            (λ groups. (decimals_fault (groups_of word.now) ≡ None)
            × (groups ≡ take 17 (map decimal_value (groups_of word.now))))
            (λ kind. decimals_fault (groups_of word.now) ≡ Some kind) }
    {
        if !are_decimals(word) {
            return Err(FaultKind::Number);
        }
        let mut groups = Groups::new();
        for group in word.split(',') {
            groups.push(short_decimal(group)?);
        }
        Ok(groups)
    }

    /// The groups.
    fn as_slice(&self) -> &[u32]
        ensures { result.now ≡ self.now }
    {
        &self.kept[..self.count]
    }
}

/// Whether every part of a word between commas is a decimal.
fn are_decimals(word: &str) -> bool
    ensures { result ≡ list_all is_decimal (groups_of word.now) }
{
    word.split(',').all(is_decimal)
}
