//! A talk that a film watches, the file of its journal, and the film's page.

ghost use Rattle.std.specs.Prelude.{◌≡◌, true, false, IfErr, IfOk, IsSome, OnOk, is_some};
ghost use Rattle.lfs_audit.specs.declared.fault.RunFault.TheVariants.{Read as Failed};
ghost use Rattle.lfs_live.specs.Faults.{IsTalkFault};
ghost use Rattle.lfs_live.specs.Held.{HasBegun, sink_of};
ghost use Rattle.lfs_live.specs.Talking.{HasKeptSoFar};
ghost use Rattle.lfs_programs.specs.Talks.{Finishes, HasHeard, HasPage, HasTalked, HasTalkedSoFar};
ghost use Rattle.lfs_programs.specs.Talks.{IsFilmOf, IsToBeKept};
ghost use Rattle.lfs_live.specs.Talkers.{texts_of};
ghost use Rattle.lfs_programs.specs.Volumes.{IsBegun, kind_of};
ghost use Rattle.lfs_volume.specs.Cleanings.{cleaner_of};

use crate::fault::{FilmFault, ShellFault};
use crate::options::ShellOptions;
use crate::volume::keep;
use lfs_audit::fault::RunFault;
use lfs_checking::fault::KeepFault;
use lfs_checking::keeping::save_file;
use lfs_command::means::Means;
use lfs_film::film::Film;
use lfs_live::talk::{Setting, talk};
use lfs_live::tended::Tended;
use lfs_live::watch::{Watch, WatchFault};
use lfs_live::witnesses::{Teller, Witnesses};
use lfs_sinks::sink::{JournalSink, LineSink, Nowhere};
use lfs_stands::OnLog;
use lfs_types::level::Level;
use lfs_volume::volume::Volume;
use std::alloc::{AllocError, Global};
use std::fs::{self, File};
use std::io::{Read, Write};
use std::rt::Files;

/// The program's name.
pub(crate) const NAME: &str = "lfs_shell";

/// The name of a film's file while it is written, behind that of the film.
const PART: &str = ".part";

/// One who is shown each line that was answered, and keeps the volume where a line asks for that.
#[derive(Drop)]
pub(crate) struct Filming<'a, F: Files> {
    /// The film, where one is made.
    film: Option<Film>,
    /// The files.
    files: &'a F,
    /// The image's file, where one is asked for.
    image: Option<&'a str>,
}

impl<S: OnLog, F: Files> Watch<S> for Filming<'_, F> {
    ghost use Rattle.lfs_checking.specs.Files.{HasImage};

    ghost kept = { λ store level. HasImage F.File.contents (S.stand.parts store).log level };

    fn has_file(&self) -> bool {
        self.image.is_some()
    }

    fn keep(&self, alloc: Global, store: &S, level: Level) -> Result<(), WatchFault> {
        let Some(path) = self.image else {
            return Err(WatchFault::Unwritten);
        };
        match save_file(self.files, alloc, store.log_store(), level, path) {
            Ok(()) => Ok(()),
            Err(KeepFault::Memory) => Err(WatchFault::Memory),
            Err(_) => Err(WatchFault::Unwritten),
        }
    }

    fn watch(
        &mut self,
        alloc: Global,
        line: &[u8],
        told: &[u8],
        store: &S,
    ) -> Result<(), AllocError> {
        match &mut self.film {
            Some(film) => film.show(alloc, line, told, store.log_store()),
            None => Ok(()),
        }
    }
}

/// One who watches a talk as is asked for: with a film that was shown nothing, and with the image's file.
fn filming_of<'a, F: Files>(means: &Means<'a, F, ShellOptions<'a>>) -> Filming<'a, F>
    ensures film { is_some result.film ≡ is_some means.now.options.film }
    ensures image { result.image ≡ means.now.options.image }
{
    Filming {
        film: means.options.film.map(|_| Film::new(means.alloc)),
        files: means.files,
        image: means.options.image,
    }
}

/// What a talk begins with.
#[derive(Drop)]
pub(crate) struct Outset<S: OnLog + Drop, F: Drop> {
    /// The volume.
    pub(crate) volume: Volume<S>,
    /// The file of the journal, where one is asked for.
    pub(crate) journal: Option<F>,
}

/// How a talk came to its end.
#[derive(Clone, Copy, PartialEq, Eq, Debug)]
pub(crate) struct Ending {
    /// Whether the file of the journal, where there is one, has each entry.
    pub(crate) is_kept: bool,
    /// Whether the volume is kept in the image's file, where one is asked for, and on its disk, where it has one.
    pub(crate) is_saved: bool,
    /// Whether a line had a fault.
    pub(crate) has_fault: bool,
}

/// A talk that has its end.
#[derive(Drop)]
pub(crate) struct Heard {
    /// Its film, where one is made.
    film: Option<Film>,
    /// How it came to its end.
    ending: Ending,
}

/// Answers lines as they come, and keeps the volume behind them, where that is asked for. The journal's entries go to a
/// file, where there is one; why it takes no more, and why the volume is not kept, is told at once.
///
/// # Errors
///
/// The talk's fault.
pub(crate) fn hear<S: OnLog + Drop, F: Files, R: Read, W: Write, D: Write>(
    means: &Means<'_, F, ShellOptions<'_>>,
    outset: Outset<S, F::File>,
    reader: &mut R,
    writer: &mut W,
    teller: &mut D,
) -> Result<Heard, RunFault>
    requires begun { IsBegun S.state S.stand means.now.options outset.volume }
    requires filed { is_some outset.journal ≡ is_some means.now.options.journal_out }
    ensures talked { let kind = kind_of F.File.contents
        (cleaner_of S.state S.is_flushed S.made S.cleaner)
        (texts_of S.map_text S.segment_text S.space_text) S.checked S.stand in
        IfOk result (λ heard. HasTalked F.File.contents kind means.now.options heard.ending
        (R.remaining reader.old) (W.contents writer.old) (W.contents writer.new)) }
    ensures silent { IfOk result (λ heard. heard.ending.is_kept ≡ true
        → heard.ending.is_saved ≡ true → teller.new ≡ teller.old) }
    ensures kept { IfOk result (λ heard. heard.ending.is_kept ≡ false
        → IsSome means.now.options.journal_out) }
    ensures saved { IfOk result (λ heard. heard.ending.is_saved ≡ false
        → IsToBeKept means.now.options) }
    ensures so_far { let kind = kind_of F.File.contents
        (cleaner_of S.state S.is_flushed S.made S.cleaner)
        (texts_of S.map_text S.segment_text S.space_text) S.checked S.stand in
        IfErr result (λ fault. fault ≡ Failed
        → HasTalkedSoFar F.File.contents kind means.now.options
        (R.remaining reader.old) (W.contents writer.old) (W.contents writer.new)) }
    ensures fault { IfErr result IsTalkFault }
{
    let alloc = means.alloc;
    let cleans = means.options.cleans;
    let watch = filming_of(means);
    let Outset { volume, journal } = outset;
    let Some(file) = journal else {
        let witnesses = Witnesses {
            sink: Nowhere,
            is_open: false,
            program: Teller::Shell,
            watch,
        };
        let mut tended = Tended::new(alloc, volume, cleans, witnesses);
        let ending = hear_over(means, &mut tended, reader, writer, teller)?;
        let after = tended.into_witnesses();
        return Ok(Heard {
            film: after.watch.film,
            ending,
        });
    };
    let witnesses = Witnesses {
        sink: LineSink::new(alloc, file),
        is_open: true,
        program: Teller::Shell,
        watch,
    };
    let mut tended = Tended::new(alloc, volume, cleans, witnesses);
    let ending = hear_over(means, &mut tended, reader, writer, teller)?;
    let after = tended.into_witnesses();
    Ok(Heard {
        film: after.watch.film,
        ending: Ending {
            is_kept: after.is_open,
            ..ending
        },
    })
}

/// Answers lines as they come on a volume, and keeps it behind them, where that is asked for. It says nothing of the
/// file of the journal.
///
/// # Errors
///
/// The talk's fault.
fn hear_over<S: OnLog + Drop, F: Files, J: JournalSink + Drop, R: Read, W: Write, D: Write>(
    means: &Means<'_, F, ShellOptions<'_>>,
    tended: &mut Tended<S, J, Filming<'_, F>>,
    reader: &mut R,
    writer: &mut W,
    teller: &mut D,
) -> Result<Ending, RunFault>
    ensures heard { let kind = kind_of F.File.contents
        (cleaner_of S.state S.is_flushed S.made S.cleaner)
        (texts_of S.map_text S.segment_text S.space_text) S.checked S.stand in
        IfOk result (λ ending. HasBegun tended.old
        → HasHeard F.File.contents kind (sink_of J.contents J.next) means.now.options ending
        tended.old tended.new (R.remaining reader.old) (R.remaining reader.new)
        (W.contents writer.old) (W.contents writer.new)) }
    ensures silent { IfOk result (λ ending. tended.new.is_open ≡ tended.old.is_open
        → ending.is_saved ≡ true
        → teller.new ≡ teller.old) }
    ensures opened { OnOk result (tended.new.is_open ≡ true → tended.old.is_open ≡ true) }
    ensures kept { IfOk result (λ ending. ending.is_kept ≡ true) }
    ensures saved { IfOk result (λ ending. ending.is_saved ≡ false
        → IsToBeKept means.now.options) }
    ensures so_far { let kind = kind_of F.File.contents
        (cleaner_of S.state S.is_flushed S.made S.cleaner)
        (texts_of S.map_text S.segment_text S.space_text) S.checked S.stand in
        IfErr result (λ fault. fault ≡ Failed → HasBegun tended.old
        → HasKeptSoFar kind.talker means.now.options.framing (sink_of J.contents J.next)
        tended.old tended.new (R.remaining reader.old) (R.remaining reader.new)
        (W.contents writer.old) (W.contents writer.new)) }
    ensures fault { IfErr result IsTalkFault }
{
    let Means {
        files,
        alloc,
        options,
    } = *means;
    let setting = Setting {
        alloc,
        framing: options.framing,
    };
    // The one who watches is shown the store before the first line.
    if tended.show(alloc, &[], &[]).is_err() {
        return Err(RunFault::Memory);
    }
    let has_fault = talk(setting, reader, writer, teller, tended)?;
    let is_saved = keep(files, alloc, teller, tended, &options);
    Ok(Ending {
        is_kept: true,
        is_saved,
        has_fault,
    })
}

/// Writes the page of the film of a talk, where one is asked for.
///
/// # Errors
///
/// The talk's fault; `Film`: the page was not written; `Journal`: the file of the journal has not each entry;
/// `Unsaved`: the volume is not kept; `Line`: a line had a fault, where that is asked for.
pub(crate) fn finish<F: Files>(
    means: &Means<'_, F, ShellOptions<'_>>,
    heard: Result<Heard, RunFault>,
) -> Result<(), ShellFault>
    ensures { Finishes F.File.contents means.now.options heard result }
{
    let Means {
        files,
        alloc,
        options,
    } = *means;
    let Heard { film, ending } = match heard {
        Ok(heard) => heard,
        Err(fault) => return Err(ShellFault::Talk(fault)),
    };
    if let Some(path) = options.film {
        if let Err(fault) = write_film(files, alloc, path, film) {
            return Err(ShellFault::Film(fault));
        }
    }
    if !ending.is_kept {
        return Err(ShellFault::Journal);
    }
    if !ending.is_saved {
        return Err(ShellFault::Unsaved);
    }
    if options.strict && ending.has_fault {
        return Err(ShellFault::Line);
    }
    Ok(())
}

/// Writes the page of a film to a file beside that of this path, which then gets its name: so the file of this path is
/// a whole film, or as it was.
///
/// # Errors
///
/// What has this path is no file, as a device, which would be replaced; the file could not be made, written or named
/// so; there is no film; or memory ran out.
fn write_film<F: Files>(
    files: &F,
    alloc: Global,
    path: &str,
    film: Option<Film>,
) -> Result<(), FilmFault>
    ensures { OnOk result (IsFilmOf F.File.contents film) }
{
    let Some(film) = film else {
        return Err(FilmFault::Unwritten);
    };
    if is_special(files, path) {
        return Err(FilmFault::Special);
    }
    let Ok(part) = format!(in alloc; "{path}{PART}") else {
        return Err(FilmFault::Memory);
    };
    write_page(files, part.as_str(), &film)?;
    match fs::rename(files, part.as_str(), path) {
        Ok(()) => Ok(()),
        Err(error) => Err(FilmFault::Unnamed(error.kind())),
    }
}

/// Whether what has this path is known to be something else than a file.
fn is_special<F: Files>(files: &F, path: &str) -> bool {
    match fs::metadata(files, path) {
        Ok(found) => !found.is_file(),
        Err(_) => false,
    }
}

/// Writes the page of a film to the file of this path, which is made where there is none.
///
/// # Errors
///
/// The file could not be made, or not written.
fn write_page<F: Files>(files: &F, path: &str, film: &Film) -> Result<(), FilmFault>
    ensures { OnOk result (HasPage F.File.contents film.now) }
{
    let mut file = match File::create(files, path) {
        Ok(file) => file,
        Err(error) => return Err(FilmFault::Unmade(error.kind())),
    };
    match film.write_page(&mut file) {
        Ok(()) => Ok(()),
        Err(_) => Err(FilmFault::Unwritten),
    }
}
