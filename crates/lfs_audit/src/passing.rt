//! What a line of a plan has done, and the lines of its answers.

ghost use Rattle.std.specs.Prelude.{◌≡◌, IfOk, OnOk};
ghost use Rattle.lfs_volume.specs.Cleanings.{cleaner_of};
ghost use Rattle.lfs_audit.specs.Runs.{CountsLine, TellsCleaning};

use crate::asker::Asker;
use lfs_model::journal::{CleanerAnswer, CleanerKind};
use lfs_print::print::{append_answer, append_cleaner};
use lfs_script::plan::{Act, HeldCall, Step};
use lfs_server::pass::Pass;
use lfs_sinks::refusals::Refusals;
use lfs_types::cleaned::CleanedStore;
use lfs_types::cleaner::CleanerCall;
use lfs_types::request::Request;
use lfs_volume::volume::Volume;
use std::alloc::AllocError;

/// Does what a line of a plan asks for, counts its answers, and appends their lines to a text.
pub fn run_step<F: CleanedStore + Drop>(
    volume: &mut Volume<F>,
    refusals: &mut Refusals,
    step: Step,
    text: &mut Vec<u8>,
) -> Result<(), AllocError>
    ensures { OnOk result (CountsLine
        (cleaner_of F.state F.is_flushed F.made F.cleaner)
        volume.old volume.new refusals.old refusals.new
        step.session step.cred step.act text.old.items text.new.items) }
{
    let Step { session, cred, act } = step;
    let asker = Asker { session, cred };
    match act {
        Act::User(request) => call(volume, refusals, asker, request, text),
        Act::Cleaner(call) => clean_line(volume, refusals, asker, call, text),
        Act::Pass => pass(volume, refusals, asker, text),
    }
}

/// Makes a user's call, and appends the line of its answer.
fn call<F: CleanedStore + Drop>(
    volume: &mut Volume<F>,
    refusals: &mut Refusals,
    asker: Asker,
    request: Request,
    text: &mut Vec<u8>,
) -> Result<(), AllocError>
    ensures { OnOk result (CountsLine
        (cleaner_of F.state F.is_flushed F.made F.cleaner)
        volume.old volume.new refusals.old refusals.new
        asker.session asker.cred (Act.User request) text.old.items text.new.items) }
{
    let answer = volume.call(asker.session, &asker.cred, request);
    refusals.add_answer(&answer);
    append_answer(text, asker.session, &answer)
}

/// Makes the call of the cleaner that a line asks for, and appends the line of its answer. A function pays at its entry
/// for the room of what it holds, and an answer may hold 248 infos: so this is no part of `run_step`.
fn clean_line<F: CleanedStore + Drop>(
    volume: &mut Volume<F>,
    refusals: &mut Refusals,
    asker: Asker,
    call: HeldCall,
    text: &mut Vec<u8>,
) -> Result<(), AllocError>
    ensures { OnOk result (CountsLine
        (cleaner_of F.state F.is_flushed F.made F.cleaner)
        volume.old volume.new refusals.old refusals.new
        asker.session asker.cred (Act.Cleaner call) text.old.items text.new.items) }
{
    clean(volume, refusals, asker, call.into_call(), text)?;
    Ok(())
}

/// Makes a call of the cleaner, appends the line of its answer, and gives the answer.
fn clean<F: CleanedStore + Drop>(
    volume: &mut Volume<F>,
    refusals: &mut Refusals,
    asker: Asker,
    call: CleanerCall,
    text: &mut Vec<u8>,
) -> Result<CleanerAnswer, AllocError>
    ensures { IfOk result (λ answer. TellsCleaning
        (cleaner_of F.state F.is_flushed F.made F.cleaner)
        volume.old volume.new refusals.old refusals.new
        asker.session asker.cred call answer text.old.items text.new.items) }
{
    let kind = CleanerKind::of(&call);
    let answer = volume.clean(asker.session, &asker.cred, call);
    refusals.add_cleaning(&answer);
    append_cleaner(text, asker.session, kind, &answer)?;
    Ok(answer)
}

/// Makes the calls of a pass of the cleaner, and appends the lines of their answers.
fn pass<F: CleanedStore + Drop>(
    volume: &mut Volume<F>,
    refusals: &mut Refusals,
    asker: Asker,
    text: &mut Vec<u8>,
) -> Result<(), AllocError>
    ensures { OnOk result (CountsLine
        (cleaner_of F.state F.is_flushed F.made F.cleaner)
        volume.old volume.new refusals.old refusals.new
        asker.session asker.cred Act.Pass text.old.items text.new.items) }
{
    let mut pass = Pass::new();
    let mut last = None;
    while let Some(call) = pass.next(last.as_ref()) {
        last = Some(clean(volume, refusals, asker, call, text)?);
    }
    Ok(())
}
