//! A run whose entries nobody asks for: they are counted and dropped by and by, and their room is used again.

ghost use Rattle.std.specs.Prelude.{◌≡◌, ◌<◌, ◌≤◌, ℕ, [], List, ◌++◌, length, IfErr, OnOk};
ghost use Rattle.std.specs.Io.KnownBytes.{Appends, append_known};
ghost use Rattle.lfs_model.specs.Steps.{IsLegal};
ghost use Rattle.lfs_model.specs.declared.steps.StepAnswer.{StepAnswer};
ghost use Rattle.lfs_sinks.specs.Refusals.{run_report, tally_of};
ghost use Rattle.lfs_volume.specs.Cleanings.{cleaner_of};
ghost use Rattle.lfs_volume.specs.Journals.{Begins, Since};
ghost use Rattle.lfs_audit.specs.Faults.{MayHaveWritten};
ghost use Rattle.lfs_audit.specs.Output.{IsRun};
ghost use Rattle.lfs_audit.specs.Windows.{HasLineRoom, IsDropped, IsWindowed, DropsEntries};

use crate::fault::RunFault;
use crate::passing::run_step;
use lfs_io::output::{flush, write_full, write_text};
use lfs_model::journal::Entry;
use lfs_script::plan::Steps;
use lfs_sinks::spare::SpareRoom;
use lfs_sinks::totals::{Tally, push_report};
use lfs_types::cleaned::CleanedStore;
use lfs_types::store::FileStore;
use lfs_volume::volume::Volume;
use std::alloc::Global;
use std::io::Write;

/// So many entries a journal has at most whose entries nobody asks for.
const WINDOW: u32 = 256;

/// The most entries that a line of a plan makes: those of a pass.
const MOST_OF_A_LINE: u32 = 105;

/// What is kept beside a journal whose entries nobody asks for.
#[derive(Drop)]
struct Window {
    /// How the calls of the entries that were dropped were answered, and how many had no entry.
    tally: Tally,
    /// How many entries may be entered besides those that were dropped.
    left: u32,
    /// Room for a journal.
    spare: SpareRoom,
}

/// How many entries a journal may have at a time, of so many that may be entered.
pub(crate) fn window_of(limit: u32) -> u32
    ensures { HasLineRoom 0 result limit }
{
    if limit <= WINDOW { limit } else { WINDOW }
}

/// Does what the lines of a plan ask for on a volume without entries, as with a journal that may have so many, and writes
/// the answer to each call and the report. What the volume's journal then has are the last entries.
pub(crate) fn run_windowed<F: CleanedStore + Drop, W: Write>(
    alloc: Global,
    volume: &mut Volume<F>,
    limit: u32,
    steps: Steps,
    writer: &mut W,
) -> Result<(), RunFault>
    requires empty { volume.old.journal ≡ [] }
    requires room { HasLineRoom 0 volume.old.limit limit }
    ensures written { OnOk result ((text : List ℕ)
        × IsRun
        (cleaner_of F.state F.is_flushed F.made F.cleaner)
        (Begins (F.state volume.old.since) volume.old.since_level)
        limit volume.old.store steps text
        × Appends (W.contents writer.old) (W.contents writer.new) text) }
    ensures fault { IfErr result MayHaveWritten }
{
    let mut window = Window {
        tally: Tally::none(),
        left: limit,
        spare: SpareRoom::none(alloc),
    };
    let mut text = Vec::new(alloc);
    print_steps(volume, &mut window, steps, &mut text, writer)?;
    print_report(volume, &window.tally, &mut text, writer)
}

/// Does what the lines of a plan ask for, counts the answers, and adds their lines to a text, which is written piece by
/// piece.
fn print_steps<F: CleanedStore + Drop, W: Write>(
    volume: &mut Volume<F>,
    window: &mut Window,
    steps: Steps,
    text: &mut Vec<u8>,
    writer: &mut W,
) -> Result<(), RunFault>
    requires empty { volume.old.journal ≡ [] }
    requires room { HasLineRoom 0 volume.old.limit window.old.left }
    requires untold { window.old.tally ≡ tally_of [] [] }
    ensures written { OnOk result (IsWindowed
        (cleaner_of F.state F.is_flushed F.made F.cleaner) window.old.left
        volume.old volume.new window.new.tally.totals window.new.tally.refusals window.new.left steps
        (append_known (W.contents writer.old) text.old.items)
        (append_known (W.contents writer.new) text.new.items)) }
    ensures fault { IfErr result MayHaveWritten }
{
    for step in steps {
        run_step(volume, &mut window.tally.refusals, step, text)?;
        move_on(volume, window)?;
        write_full(writer, text)?;
    }
    Ok(())
}

/// Drops the entries where the journal has no room for those of a further line, and more may be entered.
fn move_on<F: FileStore + Drop>(volume: &mut Volume<F>, window: &mut Window) -> Result<(), RunFault>
    requires room { HasLineRoom 0 volume.old.limit window.old.left }
    ensures moves { OnOk result (DropsEntries F.state volume.old volume.new
        window.old.tally.totals window.new.tally.totals window.old.left window.new.left) }
    ensures refusals { window.new.tally.refusals ≡ window.old.tally.refusals }
    ensures room { OnOk result
        (HasLineRoom (length volume.new.journal) volume.new.limit window.new.left) }
    ensures fault { IfErr result MayHaveWritten }
{
    let limit = volume.journal_limit();
    let entries = volume.journal().len() as u32;
    if limit == window.left || limit - entries >= MOST_OF_A_LINE {
        return Ok(());
    }
    drop_entries(volume, window)
}

/// Counts the entries and drops them: the journal goes on without them from the present tree. Then it may have as many as
/// before, or all that may still be entered.
fn drop_entries<F: FileStore + Drop>(
    volume: &mut Volume<F>,
    window: &mut Window,
) -> Result<(), RunFault>
    requires enough { 105 ≤ volume.old.limit }
    requires more { volume.old.limit < window.old.left }
    ensures dropped { OnOk result (IsDropped F.state volume.old volume.new
        window.old.tally.totals window.new.tally.totals window.old.left window.new.left) }
    ensures refusals { window.new.tally.refusals ≡ window.old.tally.refusals }
    ensures room { OnOk result (HasLineRoom 0 volume.new.limit window.new.left) }
    ensures fault { IfErr result MayHaveWritten }
{
    let limit = volume.journal_limit();
    let entries = volume.journal().len() as u32;
    let Some(totals) = window.tally.totals.with(volume.counts()) else {
        // Never: no number comes near 2^60, as fewer than 2^32 calls are entered. No contract is asked for that.
        return Err(RunFault::Memory);
    };
    let room = window.spare.take(limit)?;
    window.spare.keep(volume.drain(room));
    window.tally.totals = totals;
    window.left -= entries;
    if window.left < limit {
        volume.limit_journal(window.left);
    }
    Ok(())
}

/// Adds the report over all entries to a text, and writes the text whole.
fn print_report<F: FileStore + Drop, W: Write>(
    volume: &Volume<F>,
    tally: &Tally,
    text: &mut Vec<u8>,
    writer: &mut W,
) -> Result<(), RunFault>
    ensures written { OnOk result ((dropped : List Entry) (answers : List StepAnswer)
        → tally.now ≡ tally_of dropped answers
        → Appends (append_known (W.contents writer.old) text.old.items)
        (W.contents writer.new) (run_report (dropped ++ volume.now.journal) answers)) }
    ensures legal { let shape = (F.state volume.now.store).shape in
        Since (F.state volume.now.since) volume.now.since_level
        (λ from. IsLegal shape.numbers shape.segments volume.now.journal from) }
    ensures fault { IfErr result MayHaveWritten }
{
    push_report(text, tally, volume.counts())?;
    write_text(writer, text.as_slice())?;
    flush(writer)?;
    Ok(())
}
