//! Callers told apart by groups, as far as tests tell them apart.

ghost use Rattle.std.specs.Prelude.{◌≡◌, ◌∷◌, [], ◌++◌, true, IfOk, IfSome};
ghost use Rattle.std.specs.List.{All};
ghost use Rattle.lfs_types.specs.Caller.{Caller};
ghost use Rattle.lfs_rules.specs.Owners.{is_in_group};
ghost use Rattle.lfs_model.specs.Rules.{first_failing};
ghost use Rattle.lfs_who.specs.Conditions.{IsUser, all_posed, is_met};
ghost use Rattle.lfs_who.specs.Lines.{IsSplit, fits, told_to};
ghost use Rattle.lfs_who.specs.declared.condition.Question.{Question as Asked};

use crate::condition::{Outcome, Question, fixed};
use crate::line::Line;
use lfs_types::rule::Denial;
use std::alloc::{AllocError, Global};

/// What is known of the groups of callers of whom all tests so far are met.
#[derive(Drop)]
struct Groups {
    /// Those that they are in.
    inside: Vec<u32>,
    /// Those that they aren't in.
    outside: Vec<u32>,
}

/// The lines of the callers who are this user, or of all who have no part in what is asked: each such caller fits one.
pub(crate) fn lines_of(
    alloc: Global,
    questions: &[Question],
    user: Option<u32>,
) -> Result<Vec<Line>, AllocError>
    ensures { IfOk result (λ lines. (c : Caller)
        → All (λ (q : Asked). IsUser user c q.condition) questions.now
        → told_to c lines.items ≡ first_failing (all_posed c questions.now) ∷ []) }
{
    let mut lines = Vec::new(alloc);
    let mut groups = Groups {
        inside: Vec::new(alloc),
        outside: Vec::new(alloc),
    };
    for question in questions {
        let outcome = groups.known(question.condition.outcome(user));
        if groups.split(&mut lines, outcome, question.denial)? {
            return Ok(lines);
        }
    }
    lines.push(Line::new(groups.inside, groups.outside, None))?;
    Ok(lines)
}

impl Groups {
    /// Whether the callers are in a group, where that is known.
    fn is_known(&self, gid: u32) -> Option<bool>
        ensures { (c : Caller) → fits c self.now.inside.items self.now.outside.items ≡ true
            → IfSome result (λ inside. is_in_group c gid ≡ inside) }
    {
        if self.inside.contains(&gid) {
            return Some(true);
        }
        if self.outside.contains(&gid) {
            return Some(false);
        }
        None
    }

    /// The outcome for the callers.
    fn known(&self, outcome: Outcome) -> Outcome
        ensures { (c : Caller) → fits c self.now.inside.items self.now.outside.items ≡ true
            → is_met c result ≡ is_met c outcome }
    {
        match outcome {
            Outcome::Met | Outcome::Unmet => outcome,
            Outcome::Inside(gid) => match self.is_known(gid) {
                Some(inside) => fixed(inside),
                None => outcome,
            },
            Outcome::Outside(gid) => match self.is_known(gid) {
                Some(inside) => fixed(!inside),
                None => outcome,
            },
        }
    }

    /// Puts the line of the callers of whom a test isn't met, if there are some, and leaves those of whom it is met.
    /// Gives whether there are none of these.
    fn split(
        &mut self,
        lines: &mut Vec<Line>,
        outcome: Outcome,
        denial: Denial,
    ) -> Result<bool, AllocError>
        ensures { IfOk result (IsSplit outcome denial lines.old.items self.old.inside.items
            self.old.outside.items lines.new.items self.new.inside.items self.new.outside.items) }
    {
        match outcome {
            Outcome::Met => Ok(false),
            Outcome::Unmet => self.deny_all(lines, denial),
            Outcome::Inside(gid) => self.deny_outside(lines, gid, denial),
            Outcome::Outside(gid) => self.deny_inside(lines, gid, denial),
        }
    }

    /// Puts the line of all who are left.
    fn deny_all(&self, lines: &mut Vec<Line>, denial: Denial) -> Result<bool, AllocError>
        ensures { IfOk result (IsSplit Outcome.Unmet denial lines.old.items self.now.inside.items
            self.now.outside.items lines.new.items self.now.inside.items self.now.outside.items) }
    {
        let inside = copy(&self.inside)?;
        let outside = copy(&self.outside)?;
        lines.push(Line::new(inside, outside, Some(denial)))?;
        Ok(true)
    }

    /// Puts the line of those outside a group, and leaves those in it.
    fn deny_outside(
        &mut self,
        lines: &mut Vec<Line>,
        gid: u32,
        denial: Denial,
    ) -> Result<bool, AllocError>
        ensures { IfOk result
            (IsSplit (Outcome.Inside gid) denial lines.old.items self.old.inside.items
            self.old.outside.items lines.new.items self.new.inside.items self.new.outside.items) }
    {
        let inside = copy(&self.inside)?;
        let outside = and(&self.outside, gid)?;
        lines.push(Line::new(inside, outside, Some(denial)))?;
        self.inside.push(gid)?;
        Ok(false)
    }

    /// Puts the line of those in a group, and leaves those outside.
    fn deny_inside(
        &mut self,
        lines: &mut Vec<Line>,
        gid: u32,
        denial: Denial,
    ) -> Result<bool, AllocError>
        ensures { IfOk result
            (IsSplit (Outcome.Outside gid) denial lines.old.items self.old.inside.items
            self.old.outside.items lines.new.items self.new.inside.items self.new.outside.items) }
    {
        let inside = and(&self.inside, gid)?;
        let outside = copy(&self.outside)?;
        lines.push(Line::new(inside, outside, Some(denial)))?;
        self.outside.push(gid)?;
        Ok(false)
    }
}

/// The same groups.
fn copy(groups: &Vec<u32>) -> Result<Vec<u32>, AllocError>
    ensures { IfOk result (λ same. same.items ≡ groups.now.items) }
{
    groups.clone()
}

/// Groups, and one more.
fn and(groups: &Vec<u32>, gid: u32) -> Result<Vec<u32>, AllocError>
    ensures { IfOk result (λ more. more.items ≡ groups.now.items ++ gid ∷ []) }
{
    let mut more = copy(groups)?;
    more.push(gid)?;
    Ok(more)
}
