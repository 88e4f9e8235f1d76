//! Calls made one after another, and their answers counted.

ghost use Rattle.std.specs.Prelude.{◌≡◌, IfOk, length};
ghost use Rattle.std.specs.Global.{Vec};
ghost use Rattle.std.specs.List.{flat_map};
ghost use Rattle.lfs_types.specs.declared.answer.Answer.{Answer};
ghost use Rattle.lfs_bench.specs.Counting.{total};

use crate::counts::Counts;
use lfs_types::answer::Answer;
use lfs_workloads::calls::Call;
use std::alloc::{AllocError, Global};

/// What answers calls.
pub(crate) trait Server {
    /// Makes a call.
    fn answer(&mut self, call: Call) -> Answer;
}

/// Makes calls one after another, and counts their answers.
pub(crate) fn play<S: Server>(server: &mut S, calls: Vec<Call>) -> Counts
    ensures { total result ≡ length calls.items }
{
    let mut counts = Counts::default();
    for call in calls {
        counts.add(&server.answer(call));
    }
    counts
}

/// Makes calls of copies one after another, and gives the answers.
pub(crate) fn answers_to<S: Server>(
    alloc: Global,
    server: &mut S,
    calls: &[Call],
) -> Result<Vec<Answer>, AllocError> {
    let mut answers = Vec::with_capacity(alloc, calls.len())?;
    for call in calls {
        answers.push(answer_to(alloc, server, call)?)?;
    }
    Ok(answers)
}

/// Makes a call of a copy.
fn answer_to<S: Server>(alloc: Global, server: &mut S, call: &Call) -> Result<Answer, AllocError> {
    let (cred, request) = call;
    let copy = request.try_clone(alloc)?;
    Ok(server.answer((*cred, copy)))
}

/// The answers of all sessions as one list; an error where a growth was refused.
pub(crate) fn gathered(
    alloc: Global,
    transcripts: Vec<Vec<Answer>>,
) -> Result<Vec<Answer>, AllocError>
    ensures { IfOk result (λ all. all.items
        ≡ flat_map (λ (transcript : Vec Answer). transcript.items) transcripts.items) }
{
    let mut answers = Vec::new(alloc);
    for mut transcript in transcripts {
        answers.append(&mut transcript)?;
    }
    Ok(answers)
}

/// Counts answers.
pub(crate) fn counts_of(answers: Vec<Answer>) -> Counts
    ensures { total result ≡ length answers.items }
{
    count(answers.as_slice())
}

/// Counts answers.
fn count(answers: &[Answer]) -> Counts
    ensures { total result ≡ length answers.now }
{
    let mut counts = Counts::default();
    for answer in answers {
        counts.add(answer);
    }
    counts
}
