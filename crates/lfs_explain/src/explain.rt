//! A call explained.

ghost use Rattle.std.specs.Prelude.{◌≡◌, ◌≤◌, IfOk, length, take};
ghost use Rattle.lfs_types.specs.declared.path.TheConstants.{PATH_MAX};
ghost use Rattle.lfs_model.specs.Rules.{decide, first_failing, rule_table};
ghost use Rattle.lfs_calls.specs.Volumes.{HasWorld, InWorld};
ghost use Rattle.lfs_explain.specs.Asked.{asked};
ghost use Rattle.lfs_explain.specs.Trails.{IsTrail, first_names, second_names};

use crate::check::Check;
use crate::looking::trail;
use crate::telling::{ToldCall, push_table};
use crate::trail::Trail;
use lfs_calls::cached_store::CachedStore;
use lfs_types::cred::Cred;
use lfs_types::level::Level;
use lfs_types::name::Name;
use lfs_types::request::Request;
use lfs_types::rule::Denial;
use lfs_types::store::FileStore;
use std::alloc::{AllocError, Global};

/// Why a call is allowed or denied.
#[derive(Drop, Debug)]
pub struct Explanation {
    /// The checks that the rules ask, in order, up to the first that isn't met, and that one.
    pub checks: Vec<Check>,
    /// What the call's first path leads through; the root alone where it has none.
    pub first: Trail,
    /// What its second path leads through.
    pub second: Trail,
}

impl Explanation {
    /// The denial of the call, or None where the rules allow it.
    pub fn verdict(&self) -> Option<Denial>
        ensures { result ≡ first_failing self.now.checks.items }
    {
        for check in &self.checks {
            if !check.is_met() {
                return Some(check.denial());
            }
        }
        None
    }
}

/// The checks that a call would be asked now by this caller at this securelevel, and the rows that its paths lead
/// through, without making the call. So the verdict is that by which the call is allowed or denied; whether it would
/// lack a resource is not asked. An error where memory runs out.
pub fn explain<F: FileStore>(
    alloc: Global,
    store: &mut CachedStore<F>,
    level: Level,
    cred: &Cred,
    request: &Request,
) -> Result<Explanation, AllocError>
    requires { HasWorld (F.state store.old) }
    ensures checks { IfOk result (λ explanation. InWorld (F.state store.old) (λ w. w.level ≡ level →
        explanation.checks.items ≡ asked (rule_table w cred.now request.now))) }
    ensures verdict { IfOk result (λ explanation. InWorld (F.state store.old) (λ w. w.level ≡ level →
        first_failing explanation.checks.items ≡ decide w cred.now request.now)) }
    ensures first { IfOk result (λ explanation. InWorld (F.state store.old) (λ w.
        IsTrail w.rows (first_names request.now) explanation.first)) }
    ensures second { IfOk result (λ explanation. InWorld (F.state store.old) (λ w.
        IsTrail w.rows (second_names request.now) explanation.second)) }
    ensures state { F.state store.new ≡ F.state store.old }
{
    let first = trail(alloc, store, first_of(request))?;
    let second = trail(alloc, store, second_of(request))?;
    let mut checks = Vec::new(alloc);
    let call = ToldCall {
        level,
        cred,
        request,
    };
    push_table(&mut checks, call, &first, &second)?;
    let count = asked_count(&checks);
    checks.truncate(count);
    Ok(Explanation {
        checks,
        first,
        second,
    })
}

/// How many checks are asked: those up to the first that isn't met, and that one.
fn asked_count(checks: &[Check]) -> usize
    ensures { take result checks.now ≡ asked checks.now }
{
    for (at, check) in checks.iter().enumerate() {
        if !check.is_met() {
            return at + 1;
        }
    }
    checks.len()
}

/// The names of a call's first path, none where it has none.
pub fn first_of(request: &Request) -> &[Name]
    ensures names { result.now ≡ first_names request.now }
    ensures short { length result.now ≤ PATH_MAX }
{
    match request {
        Request::Stat { path }
        | Request::Read { path, .. }
        | Request::Write { path, .. }
        | Request::List { path }
        | Request::SetLength { path, .. }
        | Request::Create { path, .. }
        | Request::Mkdir { path, .. }
        | Request::Unlink { path }
        | Request::Rmdir { path }
        | Request::Rename { from: path, .. }
        | Request::Chmod { path, .. }
        | Request::Chown { path, .. }
        | Request::Chflags { path, .. } => path.names(),
        Request::SetLevel { .. } | Request::Sync => &[],
    }
}

/// Those of its second path.
pub fn second_of(request: &Request) -> &[Name]
    ensures names { result.now ≡ second_names request.now }
    ensures short { length result.now ≤ PATH_MAX }
{
    match request {
        Request::Rename { to, .. } => to.names(),
        _ => &[],
    }
}
