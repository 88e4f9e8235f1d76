//! What is told of the volume that is found in blocks, or of an image that is checked, and the image that is kept.

ghost use Rattle.std.specs.Prelude.{◌≡◌, ◌++◌, IfErr, IfOk, IfSome, OnOk};
ghost use Rattle.lfs_types.specs.declared.level.Level.TheVariants.{HighlySecure};
ghost use Rattle.lfs_parts.specs.Store.{IsFlushed};
ghost use Rattle.lfs_logstore.specs.States.{state_of};
ghost use Rattle.lfs_calls.specs.Volumes.{HasWorld};
ghost use Rattle.lfs_checking.specs.Files.{HasImage};
ghost use Rattle.lfs_rescue.specs.declared.fault.RecoverFault.TheVariants.{Memory};
ghost use Rattle.lfs_rescue.specs.Blocks.{IsBlocksFaultOf, IsFaultLine, IsLeftOfNoneIn, IsLost};
ghost use Rattle.lfs_rescue.specs.Placing.{IsFoundStore, IsFoundVerdict, IsJournalFault, IsPlacedByFile};
ghost use Rattle.lfs_rescue.specs.Placing.{IsRecoverVerdict, behind_text, nowhere_text, place_status, place_text};
ghost use Rattle.lfs_rescue.specs.Ends.{IsAnswered, IsAskedVerdict, IsFindingFault};
ghost use Rattle.lfs_rescue.specs.Ends.{IsRescueFaultOf};

use crate::blocks::recover_blocks;
use crate::fault::{RecoverFault, RescueFault};
use crate::options::Options;
use lfs_auditing::fault::AuditFault;
use lfs_auditing::placing::{Place, place_of};
use lfs_checking::fault::CheckFault;
use lfs_checking::keeping::save_file;
use lfs_checking::reading::read_image;
use lfs_checking::verdict::{Finding, verdict};
use lfs_checking::volume::well_text;
use lfs_io::output::{flush, write_text};
use lfs_logstore::LogStore;
use lfs_types::level::Level;
use lfs_types::limits::LEAST_FRAMES;
use std::alloc::{AllocError, Global};
use std::fs::File;
use std::io::{Read, Write};
use std::rt::Files;

/// Checks the image that a reader has, or finds the volume whose blocks it has, as was asked. Writes that it is well
/// and how full it is, or why there is none, in a line, and gives the status: 0 or 1. The image of what is found is
/// kept in a file, where one is asked for, at the highest securelevel, as the blocks don't tell theirs.
///
/// # Errors
///
/// The reader fails, or has more bytes than an image; the writer fails; the image is not kept; there is no memory.
pub(crate) fn answer<F: Files, R: Read, W: Write>(
    files: &F,
    alloc: Global,
    options: &Options<'_>,
    reader: &mut R,
    writer: &mut W,
) -> Result<u8, RescueFault>
    ensures answered { IfOk result (IsAnswered F.File.contents F.File.remaining options.now
        (R.remaining reader.old) (W.contents writer.old) (W.contents writer.new)) }
    ensures fault { IfErr result
        (IsRescueFaultOf options.now (R.remaining reader.old) writer.old writer.new) }
{
    let bytes = read_image(alloc, reader)?;
    let finding = asked_finding(files, alloc, &bytes, options)?;
    write_text(writer, finding.text.as_slice())?;
    flush(writer)?;
    Ok(finding.status)
}

/// What is told of some bytes, as was asked.
fn asked_finding<F: Files>(
    files: &F,
    alloc: Global,
    bytes: &[u8],
    options: &Options<'_>,
) -> Result<Finding, RescueFault>
    ensures told { IfOk result (λ told.
        IsAskedVerdict F.File.contents F.File.remaining
        options.now bytes.now told.status told.text.items) }
    ensures fault { IfErr result (IsFindingFault options.now) }
{
    if options.recovers {
        return finding(files, alloc, bytes, options);
    }
    match verdict(alloc, bytes) {
        Ok(finding) => Ok(finding),
        Err(_) => Err(RescueFault::Check(CheckFault::Memory)),
    }
}

/// What is told of the volume whose blocks some bytes are, whose image is kept.
fn finding<F: Files>(
    files: &F,
    alloc: Global,
    bytes: &[u8],
    options: &Options<'_>,
) -> Result<Finding, RescueFault>
    ensures told { IfOk result (λ told. IsRecoverVerdict F.File.contents F.File.remaining
        options.now bytes.now told.status told.text.items) }
    ensures fault { IfErr result (IsFindingFault options.now) }
{
    match recover_blocks(alloc, bytes, LEAST_FRAMES) {
        Ok(mut store) => found(files, alloc, bytes, &mut store, options),
        Err(RecoverFault::Memory) => Err(RescueFault::Check(CheckFault::Memory)),
        Err(fault) => Ok(Finding {
            status: 1,
            text: lost_line(alloc, bytes, fault)?,
        }),
    }
}

/// What is told of a volume that is found in some bytes: how full it is, and, where a journal is named, at which place of
/// it its tree stands. Its image is kept.
fn found<F: Files>(
    files: &F,
    alloc: Global,
    bytes: &[u8],
    store: &mut LogStore,
    options: &Options<'_>,
) -> Result<Finding, RescueFault>
    requires { IsFoundStore bytes.now store.old }
    ensures told { IfOk result (λ told. IsFoundVerdict F.File.contents F.File.remaining
        options.now bytes.now told.status told.text.items) }
    ensures fault { IfErr result (IsFindingFault options.now) }
{
    keep(files, alloc, store, options)?;
    let text = well_text(alloc, store)?;
    match options.journal {
        None => Ok(Finding { status: 0, text }),
        Some(path) => {
            let place = read_place(files, alloc, store, path)?;
            Ok(with_place(alloc, text, &place)?)
        }
    }
}

/// At which place of the journal of a file the tree of a store stands.
fn read_place<F: Files>(
    files: &F,
    alloc: Global,
    store: &mut LogStore,
    path: &str,
) -> Result<Place, RescueFault>
    requires { HasWorld (state_of store.old) }
    ensures placed { IfOk result (IsPlacedByFile F.File.remaining (state_of store.old)) }
    ensures fault { IfErr result IsJournalFault }
{
    match File::open(files, path) {
        Ok(mut file) => Ok(place_of(alloc, store, &mut file)?),
        Err(_) => Err(RescueFault::Journal(AuditFault::Open)),
    }
}

/// What is told of a volume and of the place of a journal at which its tree stands, behind a text.
fn with_place(alloc: Global, mut text: Vec<u8>, place: &Place) -> Result<Finding, AllocError>
    ensures { IfOk result (λ told. (told.status ≡ place_status place.now)
        × (told.text.items ≡ text.items ++ place_text place.now)) }
{
    let line = place_line(alloc, place)?;
    text.extend_from_slice(line.as_slice())?;
    Ok(Finding {
        status: place_status(place),
        text,
    })
}

/// The status behind a place: 0 where entries lead there.
fn place_status(place: &Place) -> u8
    ensures { result ≡ place_status place.now }
{
    match place {
        Place::Behind { .. } => 0,
        Place::Nowhere { .. } | Place::Stopped(_) => 1,
    }
}

/// The line of a place; where the journal isn't legal, the lines that tell where and why.
fn place_line(alloc: Global, place: &Place) -> Result<Vec<u8>, AllocError>
    ensures { IfOk result (λ text. text.items ≡ place_text place.now) }
{
    match place {
        Place::Behind { entries, of } => behind_line(alloc, *entries, *of),
        Place::Nowhere { of } => nowhere_line(alloc, *of),
        Place::Stopped(why) => {
            let mut text = Vec::from_slice(alloc, b"fault: ")?;
            text.extend_from_slice(why.as_slice())?;
            Ok(text)
        }
    }
}

/// The line that tells behind which entry a tree stands.
fn behind_line(alloc: Global, entries: u32, of: u32) -> Result<Vec<u8>, AllocError>
    ensures { IfOk result (λ text. text.items ≡ behind_text entries of) }
{
    if entries == 0 {
        let text = format!(in alloc;
            "journal: the tree is the fresh one, behind none of {of} entries\n"
        )?;
        return Ok(text.into_bytes());
    }
    let text = format!(in alloc; "journal: the tree is that behind entry {entries} of {of}\n")?;
    Ok(text.into_bytes())
}

/// The line that tells that no entries lead to a tree.
fn nowhere_line(alloc: Global, of: u32) -> Result<Vec<u8>, AllocError>
    ensures { IfOk result (λ text. text.items ≡ nowhere_text of) }
{
    let text = format!(in alloc; "fault: none of the journal's {of} entries leads to this tree\n")?;
    Ok(text.into_bytes())
}

/// Keeps the image of a store in a file, where one is named.
fn keep<F: Files>(
    files: &F,
    alloc: Global,
    store: &LogStore,
    options: &Options<'_>,
) -> Result<(), RescueFault>
    requires { IsFlushed store.now }
    ensures kept { OnOk result (IfSome options.now.save
        (λ _. HasImage F.File.contents store.now.log HighlySecure)) }
    ensures fault { IfErr result (IsFindingFault options.now) }
{
    let Some(path) = options.save else {
        return Ok(());
    };
    match save_file(files, alloc, store, Level::HighlySecure, path) {
        Ok(()) => Ok(()),
        Err(fault) => Err(RescueFault::Keep(fault)),
    }
}

/// The line of a fault, for which none was found in some bytes.
fn lost_line(alloc: Global, bytes: &[u8], fault: RecoverFault) -> Result<Vec<u8>, AllocError>
    requires is { IsBlocksFaultOf bytes.now fault }
    requires other { fault ≡ Memory → ⊥ }
    requires none { (fault ≡ Memory → ⊥) → IsLeftOfNoneIn bytes.now }
    ensures { IfOk result (λ text. IsLost bytes.now text.items) }
{
    let line = fault_line(alloc, fault)?;
    Ok(line)
}

/// The line of a fault.
fn fault_line(alloc: Global, fault: RecoverFault) -> Result<Vec<u8>, AllocError>
    ensures { IfOk result (λ text. IsFaultLine fault text.items) }
{
    let text = format!(in alloc; "fault: {fault}\n")?;
    Ok(text.into_bytes())
}
