//! Running a script, on a fresh volume over the log store or on one over any store.

ghost use Rattle.std.specs.Prelude.{◌≡◌, ◌<◌, ◌^◌, ◌++◌, ℕ, List, [], length, IfErr, IfOk, IfSome, OnOk};
ghost use Rattle.std.specs.Io.KnownBytes.{Appends, Keeps, append_known};
ghost use Rattle.lfs_model.specs.Steps.{IsLegal};
ghost use Rattle.lfs_server.specs.Serving.{IsInRange};
ghost use Rattle.lfs_print.specs.ReportText.{report_text};
ghost use Rattle.lfs_sinks.specs.Refusals.{refusals_text};
ghost use Rattle.lfs_volume.specs.Cleanings.{cleaner_of};
ghost use Rattle.lfs_volume.specs.Journals.{Begins, Since};
ghost use Rattle.lfs_audit.specs.Faults.{IsFaultOf, IsRead, IsReadingFault, MayHaveWritten};
ghost use Rattle.lfs_audit.specs.Output.{IsOutput, IsRun};
ghost use Rattle.lfs_audit.specs.Runs.{WritesLines};
ghost use Rattle.lfs_audit.specs.Scripts.{IsLogOutput, IsScriptFault};

use crate::fault::RunFault;
use crate::passing::run_step;
use crate::window::{run_windowed, window_of};
use lfs_io::output::{flush, write_full, write_text};
use lfs_io::pieces::Pieces;
use lfs_print::report::append_counts;
use lfs_script::parser::ScriptParser;
use lfs_script::plan::{Plan, Steps};
use lfs_server::fresh::fresh_volume;
use lfs_sinks::refusals::{Refusals, push_refusals};
use lfs_types::cleaned::CleanedStore;
use lfs_types::store::{FileStore, Params};
use lfs_volume::volume::Volume;
use std::alloc::Global;
use std::io::{Read, Write};

/// Reads a script whole, parses it whole, runs its lines in order on a fresh volume over the log store, and writes the
/// answer to each call and the report. Of the calls that are made, only a Read, a List or one for the ifile's bytes may
/// be refused with `NoMemory`: the store takes no memory for a change.
pub fn run_script<R: Read, W: Write>(
    alloc: Global,
    reader: &mut R,
    writer: &mut W,
    params: Params,
) -> Result<(), RunFault>
    ensures written { OnOk result (IfSome (R.remaining reader.old) (λ script. (text : List ℕ)
        × IsLogOutput script params.segments params.inodes params.frames params.journal text
        × Appends (W.contents writer.old) (W.contents writer.new) text)) }
    ensures ranges { OnOk result (IsInRange params.segments params.inodes params.frames) }
    ensures fault { IfErr result
        (IsScriptFault (R.remaining reader.old) params.segments params.inodes params.frames) }
    ensures unwritten { IfErr result (λ fault. (MayHaveWritten fault → ⊥)
        → Keeps (W.contents writer.old) (W.contents writer.new)) }
{
    let mut faulty = Vec::new(alloc);
    run_script_noting(alloc, reader, writer, params, &mut faulty)
}

/// Does what `run_script` does, and puts the first line that has a fault into `faulty`, as `read_plan` does.
pub fn run_script_noting<R: Read, W: Write>(
    alloc: Global,
    reader: &mut R,
    writer: &mut W,
    params: Params,
    faulty: &mut Vec<u8>,
) -> Result<(), RunFault>
    ensures written { OnOk result (IfSome (R.remaining reader.old) (λ script. (text : List ℕ)
        × IsLogOutput script params.segments params.inodes params.frames params.journal text
        × Appends (W.contents writer.old) (W.contents writer.new) text)) }
    ensures ranges { OnOk result (IsInRange params.segments params.inodes params.frames) }
    ensures fault { IfErr result
        (IsScriptFault (R.remaining reader.old) params.segments params.inodes params.frames) }
    ensures unwritten { IfErr result (λ fault. (MayHaveWritten fault → ⊥)
        → Keeps (W.contents writer.old) (W.contents writer.new)) }
{
    let plan = read_plan(alloc, reader, faulty)?;
    let windowed = Params {
        journal: window_of(params.journal),
        ..params
    };
    let mut volume = fresh_volume(alloc, windowed)?;
    run_windowed(
        alloc,
        &mut volume,
        params.journal,
        plan.into_steps(),
        writer,
    )
}

/// Reads a script whole, parses it whole, runs its lines in order on a volume without entries, and writes the answer to
/// each call and the report.
pub fn run_over<F: CleanedStore + Drop, R: Read, W: Write>(
    alloc: Global,
    reader: &mut R,
    writer: &mut W,
    volume: &mut Volume<F>,
) -> Result<(), RunFault>
    requires { volume.old.journal ≡ [] }
    ensures written { OnOk result (IfSome (R.remaining reader.old) (λ script. (text : List ℕ)
        × IsOutput
        (cleaner_of F.state F.is_flushed F.made F.cleaner)
        (Begins (F.state volume.old.since) volume.old.since_level)
        script volume.old.limit volume.old.store text
        × Appends (W.contents writer.old) (W.contents writer.new) text)) }
    ensures fault { IfErr result (IsFaultOf (R.remaining reader.old)) }
    ensures unwritten { IfErr result (λ fault. (MayHaveWritten fault → ⊥)
        → Keeps (W.contents writer.old) (W.contents writer.new)) }
{
    let mut faulty = Vec::new(alloc);
    let lines = read_plan(alloc, reader, &mut faulty)?;
    run_plan(alloc, volume, lines.into_steps(), writer)
}

/// Reads a script whole, and gives its plan. Its lines are parsed while it is read, and its text is never held whole; a
/// fault of reading comes before that of a line.
///
/// The first line that has a fault, without its line feed, is put behind what is in `faulty`: to tell where in it the
/// fault stands. Nothing is put there of a script without a fault or whose last line is cut off, nor where memory for
/// the line is wanting.
pub fn read_plan<R: Read>(
    alloc: Global,
    reader: &mut R,
    faulty: &mut Vec<u8>,
) -> Result<Plan, RunFault>
    ensures plan { IfSome (R.remaining reader.old) (λ script. IfOk result (IsRead script)) }
    ensures fault { IfErr result (IsReadingFault (R.remaining reader.old)) }
{
    let mut pieces = Pieces::new();
    let mut parser = ScriptParser::new(alloc);
    while pieces.advance(reader)? {
        parser.take(alloc, pieces.piece())?;
    }
    let _ = faulty.extend_from_slice(parser.faulty_line());
    match parser.finish() {
        Ok(plan) => Ok(plan),
        Err(fault) => Err(RunFault::Script(fault)),
    }
}

/// Does what the lines of a plan ask for on a volume without entries, and writes the answer to each call and the
/// report.
pub fn run_plan<F: CleanedStore + Drop, W: Write>(
    alloc: Global,
    volume: &mut Volume<F>,
    steps: Steps,
    writer: &mut W,
) -> Result<(), RunFault>
    requires { volume.old.journal ≡ [] }
    ensures written { OnOk result ((text : List ℕ)
        × IsRun
        (cleaner_of F.state F.is_flushed F.made F.cleaner)
        (Begins (F.state volume.old.since) volume.old.since_level)
        volume.old.limit volume.old.store steps text
        × Appends (W.contents writer.old) (W.contents writer.new) text) }
    ensures fault { IfErr result MayHaveWritten }
{
    let mut text = Vec::new(alloc);
    let mut refusals = Refusals::none();
    print_steps(volume, &mut refusals, steps, &mut text, writer)?;
    print_report(volume, &refusals, &mut text, writer)
}

/// Does what the lines of a plan ask for, counts the answers, and adds their lines to a text, which is written piece by
/// piece.
fn print_steps<F: CleanedStore + Drop, W: Write>(
    volume: &mut Volume<F>,
    refusals: &mut Refusals,
    steps: Steps,
    text: &mut Vec<u8>,
    writer: &mut W,
) -> Result<(), RunFault>
    ensures written { OnOk result (WritesLines
        (cleaner_of F.state F.is_flushed F.made F.cleaner)
        volume.old volume.new refusals.old refusals.new steps
        (append_known (W.contents writer.old) text.old.items)
        (append_known (W.contents writer.new) text.new.items)) }
    ensures fault { IfErr result MayHaveWritten }
{
    for step in steps {
        run_step(volume, refusals, step, text)?;
        write_full(writer, text)?;
    }
    Ok(())
}

/// Adds the report over a volume's journal, and of the calls that were refused without an entry, to a text, and writes
/// the text whole.
pub fn print_report<F: FileStore + Drop, W: Write>(
    volume: &Volume<F>,
    refusals: &Refusals,
    text: &mut Vec<u8>,
    writer: &mut W,
) -> Result<(), RunFault>
    ensures written { OnOk result (
        let shape = (F.state volume.now.store).shape in
        Since (F.state volume.now.since) volume.now.since_level
        (λ from. IsLegal shape.numbers shape.segments volume.now.journal from)
        × Appends (append_known (W.contents writer.old) text.old.items)
        (W.contents writer.new) (report_text volume.now.journal ++ refusals_text refusals.now)) }
    ensures fault { IfErr result MayHaveWritten }
{
    append_counts(text, volume.counts())?;
    push_refusals(text, refusals)?;
    write_text(writer, text.as_slice())?;
    flush(writer)?;
    Ok(())
}
