//! Who could act, as lines of text.

ghost use Rattle.std.specs.Prelude.{◌≡◌, ◌++◌, ◌∷◌, [], codes, decimal, IfOk, OnOk};
ghost use Rattle.std.specs.List.{flat_map};
ghost use Rattle.lfs_types.specs.Tree.{World};
ghost use Rattle.lfs_model.specs.World.{IsTree};
ghost use Rattle.lfs_calls.specs.Volumes.{HasWorld, InWorld};
ghost use Rattle.lfs_explain.specs.Trails.{IsTrail, first_names, second_names};
ghost use Rattle.lfs_who.specs.WhoText.{IsWhoTold, act_text, decision, groups_text, lines_text, named_text, told_text, who_text};

use crate::line::Line;
use crate::who::{Named, Who, paths_of, who_along};
use lfs_calls::cached_store::CachedStore;
use lfs_explain::explain::Explanation;
use lfs_print::print::push_answer;
use lfs_types::answer::{Answer, Served};
use lfs_types::level::Level;
use lfs_types::request::Request;
use lfs_types::rule::Denial;
use lfs_types::store::FileStore;
use lfs_words::append::{push_number, push_word};
use std::alloc::{AllocError, Global};

/// The lines of who could make a call, at this securelevel, over all callers, where its paths lead through what an
/// explanation of it has, as `who_along` tells: `user 7: ok`, `others in 20: ok`, `others not in 20: denied M1 EACCES 0
/// 2`. An error where memory runs out.
pub fn tell_who_along(
    alloc: Global,
    level: Level,
    request: &Request,
    explanation: &Explanation,
) -> Result<Vec<u8>, AllocError>
    ensures { IfOk result (λ text. (w : World) → IsTree w.rows → w.level ≡ level
        → IsTrail w.rows (first_names request.now) explanation.now.first
        → IsTrail w.rows (second_names request.now) explanation.now.second
        → IsWhoTold w request.now text.items) }
{
    let who = who_along(alloc, level, request, explanation)?;
    let mut text = Vec::new(alloc);
    push_who(&mut text, "", &who)?;
    Ok(text)
}

/// The lines of who could make a call now, by what its paths lead through now, as `tell_who_along`.
pub fn tell_who<F: FileStore>(
    alloc: Global,
    store: &mut CachedStore<F>,
    level: Level,
    request: &Request,
) -> Result<Vec<u8>, AllocError>
    requires { HasWorld (F.state store.old) }
    ensures told { IfOk result (λ text. InWorld (F.state store.old) (λ w. w.level ≡ level
        → IsWhoTold w request.now text.items)) }
    ensures state { F.state store.new ≡ F.state store.old }
{
    let paths = paths_of(alloc, store, level, request)?;
    let text = tell_who_along(alloc, level, request, &paths)?;
    Ok(text)
}

/// Appends a line for each class of callers: the word of what is done, the user or `others`, the groups that they are
/// in and those that they aren't in, and how the rules decide: `read user 7: ok`, `read others not in 20: denied M1
/// EACCES 0 2`.
pub fn push_who(out: &mut Vec<u8>, word: &str, who: &Who) -> Result<(), AllocError>
    ensures { OnOk result (out.new.items ≡ out.old.items ++ who_text word.now who.now) }
{
    push_named(out, word, &who.named)?;
    push_others(out, word, &who.others)
}

/// Appends the lines of users who are told by name.
fn push_named(out: &mut Vec<u8>, word: &str, named: &[Named]) -> Result<(), AllocError>
    ensures { OnOk result (out.new.items ≡ out.old.items
        ++ flat_map (named_text word.now) named.now) }
{
    for one in named {
        push_one(out, word, one)?;
    }
    Ok(())
}

/// Appends the lines of a user.
fn push_one(out: &mut Vec<u8>, word: &str, named: &Named) -> Result<(), AllocError>
    ensures { OnOk result (out.new.items ≡ out.old.items ++ named_text word.now named.now) }
{
    for line in &named.lines {
        push_user(out, word, named.uid)?;
        push_line(out, line)?;
    }
    Ok(())
}

/// Appends the lines of everybody else.
fn push_others(out: &mut Vec<u8>, word: &str, others: &[Line]) -> Result<(), AllocError>
    ensures { OnOk result (out.new.items
        ≡ out.old.items ++ lines_text (act_text word.now ++ codes "others") others.now) }
{
    for line in others {
        push_act(out, word)?;
        out.extend_from_slice(b"others")?;
        push_line(out, line)?;
    }
    Ok(())
}

/// Appends the word of what is done, and a space, if there is one.
fn push_act(out: &mut Vec<u8>, word: &str) -> Result<(), AllocError>
    ensures { OnOk result (out.new.items ≡ out.old.items ++ act_text word.now) }
{
    if word.is_empty() {
        return Ok(());
    }
    out.extend_from_slice(word.as_bytes())?;
    Ok(out.push(b' ')?)
}

/// Appends an act and a user.
fn push_user(out: &mut Vec<u8>, word: &str, uid: u32) -> Result<(), AllocError>
    ensures { OnOk result (out.new.items
        ≡ out.old.items ++ (act_text word.now ++ (codes "user" ++ 32 ∷ decimal uid))) }
{
    push_act(out, word)?;
    out.extend_from_slice(b"user")?;
    push_number(out, u64::from(uid))
}

/// Appends the groups of a line, and its decision.
fn push_line(out: &mut Vec<u8>, line: &Line) -> Result<(), AllocError>
    ensures { OnOk result (out.new.items ≡ out.old.items ++ told_text line.now) }
{
    push_groups(out, "in", line.inside())?;
    push_groups(out, "not in", line.outside())?;
    out.push(b':')?;
    push_answer(out, &answer_of(line.denial()))?;
    Ok(out.push(b'\n')?)
}

/// Appends groups, each behind a word.
fn push_groups(out: &mut Vec<u8>, word: &str, groups: &[u32]) -> Result<(), AllocError>
    ensures { OnOk result (out.new.items ≡ out.old.items ++ groups_text word.now groups.now) }
{
    for group in groups {
        push_word(out, word)?;
        push_number(out, u64::from(*group))?;
    }
    Ok(())
}

/// The answer by a decision.
fn answer_of(denial: Option<Denial>) -> Answer
    ensures { result ≡ decision denial }
{
    match denial {
        Some(denial) => Answer::Denied(denial),
        None => Answer::Served(Served::Done),
    }
}
