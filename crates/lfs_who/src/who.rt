//! Who could act by a path.

ghost use Rattle.std.specs.Prelude.{◌≡◌, ◌∷◌, [], ◌++◌, ◌==◌, ◌||◌, ◌≤◌, ℕ, List, IfOk, OnOk, false, length, true};
ghost use Rattle.lfs_types.specs.Caller.{Caller};
ghost use Rattle.lfs_types.specs.Tree.{World};
ghost use Rattle.lfs_types.specs.declared.path.TheConstants.{PATH_MAX};
ghost use Rattle.lfs_model.specs.Rules.{decide, first_failing};
ghost use Rattle.lfs_model.specs.World.{IsTree};
ghost use Rattle.lfs_calls.specs.Volumes.{HasWorld, InWorld};
ghost use Rattle.lfs_explain.specs.Trails.{IsTrail, first_names, second_names};
ghost use Rattle.lfs_who.specs.Conditions.{all_posed, has_part};
ghost use Rattle.lfs_who.specs.declared.condition.Question.{Question as Asked};
ghost use Rattle.lfs_who.specs.Who.{AreNamed, IsToldTo, IsWho, IsWhoCalls, SetsLevel, has_part_in, is_among, lines_for};

use crate::act::Act;
use crate::asking::{push_call, push_leaving, push_search};
use crate::condition::{Condition, Question};
use crate::line::Line;
use crate::lines::lines_of;
use lfs_calls::cached_store::CachedStore;
use lfs_explain::explain::{Explanation, explain, first_of, second_of};
use lfs_explain::trail::Trail;
use lfs_types::cred::Cred;
use lfs_types::level::Level;
use lfs_types::name::Name;
use lfs_types::path::Path;
use lfs_types::request::Request;
use lfs_types::store::FileStore;
use std::alloc::{AllocError, Global};

/// A user who is told apart from everybody else.
#[derive(Drop, Debug)]
pub struct Named {
    /// The user.
    pub uid: u32,
    /// The lines of those who are he.
    pub lines: Vec<Line>,
}

/// Who could act by a path, over all callers.
#[derive(Drop, Debug)]
pub struct Who {
    /// The users of whom it is told by name.
    pub named: Vec<Named>,
    /// The lines of everybody else.
    pub others: Vec<Line>,
}

/// Who could make a call, over all callers there can be, at this securelevel, where its paths lead through what an
/// explanation of it has: of the same call, by whatever caller, on the tree of now. Users and groups are told apart
/// only where the rules decide otherwise; of a SetLevel only callers who aren't init are told. An error where memory
/// runs out.
pub fn who_along(
    alloc: Global,
    level: Level,
    request: &Request,
    explanation: &Explanation,
) -> Result<Who, AllocError>
    ensures { IfOk result (λ who. (w : World) → IsTree w.rows → w.level ≡ level
        → IsTrail w.rows (first_names request.now) explanation.now.first
        → IsTrail w.rows (second_names request.now) explanation.now.second
        → IsWhoCalls w request.now who) }
{
    let mut questions = Vec::new(alloc);
    push_along(&mut questions, level, request, explanation)?;
    let who = who_of(alloc, &questions)?;
    Ok(who)
}

/// Puts what is asked of whoever makes a call, if its paths lead through what an explanation has, behind no questions.
fn push_along(
    questions: &mut Vec<Question>,
    level: Level,
    request: &Request,
    explanation: &Explanation,
) -> Result<(), AllocError>
    requires { questions.old.items ≡ [] }
    ensures { OnOk result ((w : World) → IsTree w.rows → w.level ≡ level
        → IsTrail w.rows (first_names request.now) explanation.now.first
        → IsTrail w.rows (second_names request.now) explanation.now.second
        → (c : Caller) → (SetsLevel request.now → c.init ≡ false)
        → first_failing (all_posed c questions.new.items) ≡ decide w c request.now) }
{
    let (first, second) = (&explanation.first, &explanation.second);
    if !is_of(first, first_of(request)) || !is_of(second, second_of(request)) {
        return Ok(());
    }
    push_call(questions, level, request, first, second)
}

/// Whether a trail has as many names as a path.
fn is_of(trail: &Trail, names: &[Name]) -> bool
    requires { length names.now ≤ PATH_MAX }
    ensures within { result ≡ true → trail.now.names ≤ PATH_MAX }
    ensures other { result ≡ false → trail.now.names ≡ length names.now → ⊥ }
{
    trail.names as usize == names.len()
}

/// Who could make a call now, as `who_along` tells, by what its paths lead through now.
pub fn who_calls<F: FileStore>(
    alloc: Global,
    store: &mut CachedStore<F>,
    level: Level,
    request: &Request,
) -> Result<Who, AllocError>
    requires { HasWorld (F.state store.old) }
    ensures who { IfOk result (λ who. InWorld (F.state store.old) (λ w. w.level ≡ level
        → IsWhoCalls w request.now who)) }
    ensures state { F.state store.new ≡ F.state store.old }
{
    let paths = paths_of(alloc, store, level, request)?;
    let who = who_along(alloc, level, request, &paths)?;
    Ok(who)
}

/// Who could do this by a path now, over all callers there can be, at this securelevel, as `who_calls` tells of a call.
pub fn who_could<F: FileStore>(
    alloc: Global,
    store: &mut CachedStore<F>,
    level: Level,
    act: Act,
    path: &Path,
) -> Result<Who, AllocError>
    requires { HasWorld (F.state store.old) }
    ensures who { IfOk result (λ who. InWorld (F.state store.old) (λ w. w.level ≡ level
        → IsWho w act path.now who)) }
    ensures state { F.state store.new ≡ F.state store.old }
{
    let request = act.request_of(alloc, path)?;
    match act {
        Act::Search => {
            let paths = paths_of(alloc, store, level, &request)?;
            who_searches(alloc, &paths.first)
        }
        Act::Move => {
            let paths = paths_of(alloc, store, level, &request)?;
            who_moves(alloc, &paths.first)
        }
        _ => who_calls(alloc, store, level, &request),
    }
}

/// What a call's paths lead through.
pub(crate) fn paths_of<F: FileStore>(
    alloc: Global,
    store: &mut CachedStore<F>,
    level: Level,
    request: &Request,
) -> Result<Explanation, AllocError>
    requires { HasWorld (F.state store.old) }
    ensures short { IfOk result (λ paths. paths.first.names ≤ PATH_MAX) }
    ensures short_second { IfOk result (λ paths. paths.second.names ≤ PATH_MAX) }
    ensures first { IfOk result (λ paths. InWorld (F.state store.old) (λ w.
        IsTrail w.rows (first_names request.now) paths.first)) }
    ensures second { IfOk result (λ paths. InWorld (F.state store.old) (λ w.
        IsTrail w.rows (second_names request.now) paths.second)) }
    ensures state { F.state store.new ≡ F.state store.old }
{
    let Ok(superuser) = Cred::new(0, &[0], false) else {
        // Never: one group is no more than 16.
        unreachable!()
    };
    // By their clauses each is a path.
    let _first = first_of(request);
    let _second = second_of(request);
    let paths = explain(alloc, store, level, &superuser, request)?;
    Ok(paths)
}

/// Who could go through the directory that a path leads to.
fn who_searches(alloc: Global, path: &Trail) -> Result<Who, AllocError>
    requires { path.now.names ≤ PATH_MAX }
    ensures { IfOk result (λ who. (w : World) (names : List (List ℕ)) → IsTree w.rows
        → IsTrail w.rows names path.now → IsWho w Act.Search names who) }
{
    let mut questions = Vec::new(alloc);
    push_search(&mut questions, path)?;
    let who = who_of(alloc, &questions)?;
    Ok(who)
}

/// Who could take what a path leads to away to another directory.
fn who_moves(alloc: Global, path: &Trail) -> Result<Who, AllocError>
    requires { path.now.names ≤ PATH_MAX }
    ensures { IfOk result (λ who. (w : World) (names : List (List ℕ)) → IsTree w.rows
        → IsTrail w.rows names path.now → IsWho w Act.Move names who) }
{
    let mut questions = Vec::new(alloc);
    push_leaving(&mut questions, path)?;
    let who = who_of(alloc, &questions)?;
    Ok(who)
}

/// Who passes all that is asked.
fn who_of(alloc: Global, questions: &[Question]) -> Result<Who, AllocError>
    ensures { IfOk result (λ who. (c : Caller) → IsToldTo questions.now c
        (lines_for who.named.items who.others.items c.uid)) }
{
    let users = users_of(alloc, questions)?;
    let others = lines_of(alloc, questions, None)?;
    let named = named_of(alloc, questions, &users, &others)?;
    Ok(Who { named, others })
}

/// The users who have a part in what is asked.
fn users_of(alloc: Global, questions: &[Question]) -> Result<Vec<u32>, AllocError>
    ensures { IfOk result (λ users. (u : ℕ)
        → is_among u users.items ≡ has_part_in u questions.now) }
{
    let mut users = Vec::new(alloc);
    for question in questions {
        push_users(&mut users, &question.condition)?;
    }
    Ok(users)
}

/// Puts those who have a part in a condition among users.
fn push_users(users: &mut Vec<u32>, condition: &Condition) -> Result<(), AllocError>
    ensures { OnOk result ((u : ℕ) → is_among u users.new.items
        ≡ (is_among u users.old.items || has_part u condition.now)) }
{
    match condition {
        Condition::Fixed(_) => Ok(()),
        Condition::Grants(attrs, _) => {
            push_user(users, 0)?;
            push_user(users, attrs.uid)
        }
        Condition::PassesSticky(dir, file) => {
            push_user(users, 0)?;
            push_user(users, dir.uid)?;
            push_user(users, file.uid)
        }
        Condition::IsSuperuser | Condition::MaySetFlags(..) => push_user(users, 0),
        Condition::IsOwner(attrs) | Condition::MaySetOwner(attrs, _, _) => {
            push_user(users, 0)?;
            push_user(users, attrs.uid)
        }
    }
}

/// Puts a user among users, if he isn't.
fn push_user(users: &mut Vec<u32>, uid: u32) -> Result<(), AllocError>
    ensures { OnOk result ((u : ℕ) → is_among u users.new.items
        ≡ (is_among u users.old.items || (u == uid))) }
{
    if users.contains(&uid) {
        return Ok(());
    }
    Ok(users.push(uid)?)
}

/// Those of users whose lines are not everybody else's.
fn named_of(
    alloc: Global,
    questions: &[Question],
    users: &[u32],
    others: &[Line],
) -> Result<Vec<Named>, AllocError>
    ensures { IfOk result (λ named. AreNamed questions.now named.items others.now users.now) }
{
    let mut named = Vec::new(alloc);
    for uid in users {
        let lines = lines_of(alloc, questions, Some(*uid))?;
        put(&mut named, others, *uid, lines)?;
    }
    Ok(named)
}

/// Names a user whose lines are not everybody else's.
fn put(
    named: &mut Vec<Named>,
    others: &[Line],
    uid: u32,
    lines: Vec<Line>,
) -> Result<(), AllocError>
    ensures { OnOk result ((questions : List Asked) (users : List ℕ)
        → ((c : Caller) → c.uid ≡ uid → IsToldTo questions c lines.items)
        → AreNamed questions named.old.items others.now users
        → AreNamed questions named.new.items others.now (users ++ uid ∷ [])) }
{
    if is_alike(&lines, others) {
        return Ok(());
    }
    Ok(named.push(Named { uid, lines })?)
}

/// Whether lines are the same as others.
fn is_alike(lines: &[Line], others: &[Line]) -> bool
    ensures { result ≡ true → lines.now ≡ others.now }
{
    if lines.len() != others.len() {
        return false;
    }
    for at in 0..lines.len() {
        if !lines[at].is_same(&others[at]) {
            return false;
        }
    }
    true
}
