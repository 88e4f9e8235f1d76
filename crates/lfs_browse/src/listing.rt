//! The names of a directory, with what they are.

ghost use Rattle.std.specs.Prelude.{◌≡◌, ◌≤◌, ◌∷◌, [], filter, length, take, None, Some, IfOk, MatchOption, OnOk};
ghost use Rattle.lfs_volume.specs.Cleanings.{cleaner_of};
ghost use Rattle.lfs_browse.specs.Listing.{has_path, names_served};
ghost use Rattle.lfs_browse.specs.Looks.{TellsLook};
ghost use Rattle.lfs_browse.specs.Steps.{TellsListed, TellsNames, TellsRows};
ghost use Rattle.lfs_hearing.specs.declared.look.Look.TheVariants.{Listing};

use crate::asking::ask;
use crate::entry::entry;
use crate::rows::{push_more, push_row};
use lfs_audit::asker::Asker;
use lfs_print::print::append_answer;
use lfs_types::answer::{Answer, Served};
use lfs_types::cleaned::CleanedStore;
use lfs_types::name::Name;
use lfs_types::path::Path;
use lfs_types::payload::Names;
use lfs_types::request::Request;
use lfs_volume::volume::Volume;
use std::alloc::AllocError;

/// Of so many names at most a Stat is made: with the List of the directory these are the calls that a line may ask for.
const MOST_STATS: usize = 106;

/// Lists a directory, and appends a row for each name, of a Stat of it.
///
/// # Errors
///
/// Memory ran out; some of the calls may have been made.
pub(crate) fn tell_listing<F: CleanedStore + Drop>(
    volume: &mut Volume<F>,
    asker: &Asker,
    path: &Path,
    text: &mut Vec<u8>,
) -> Result<(), AllocError>
    ensures { OnOk result (TellsLook (cleaner_of F.state F.is_flushed F.made F.cleaner)
        volume.old volume.new asker.now Listing path.now text.old.items text.new.items) }
{
    let alloc = *text.allocator();
    let path_asked = path.try_clone(alloc)?;
    let answer = ask(volume, asker, Request::List { path: path_asked });
    let told = tell_listed(volume, asker, path, &answer, text);
    drop(answer);
    told
}

/// Appends a row for each name that a List of a directory was answered, of a Stat of it, or why there are none.
fn tell_listed<F: CleanedStore + Drop>(
    volume: &mut Volume<F>,
    asker: &Asker,
    path: &Path,
    answer: &Answer,
    text: &mut Vec<u8>,
) -> Result<(), AllocError>
    ensures { OnOk result (TellsListed (cleaner_of F.state F.is_flushed F.made F.cleaner)
        volume.old volume.new asker.now path.now answer.now text.old.items text.new.items) }
{
    match names_served(answer) {
        Some(names) => tell_names(volume, asker, path, names.as_slice(), text),
        None => append_answer(text, asker.session, answer),
    }
}

/// The names that a List served.
pub(crate) fn names_served(answer: &Answer) -> Option<&Names>
    ensures { MatchOption result (names_served answer.now ≡ None)
        (λ names. names_served answer.now ≡ Some names.now) }
{
    match answer {
        Answer::Served(Served::Names(names)) => Some(names),
        _ => None,
    }
}

/// Appends a row for each of the first names of a directory, and how many have none.
fn tell_names<F: CleanedStore + Drop>(
    volume: &mut Volume<F>,
    asker: &Asker,
    directory: &Path,
    names: &[Name],
    text: &mut Vec<u8>,
) -> Result<(), AllocError>
    ensures { OnOk result (TellsNames (cleaner_of F.state F.is_flushed F.made F.cleaner)
        volume.old volume.new asker.now directory.now names.now text.old.items text.new.items) }
{
    let first = first_of(names);
    let rows = tell_rows(volume, asker, directory, first, text)?;
    push_more(text, names.len() - rows)
}

/// The names of which a Stat may be made.
pub(crate) fn first_of(names: &[Name]) -> &[Name]
    ensures first { result.now ≡ take 106 names.now }
    ensures few { length result.now ≤ length names.now }
{
    if names.len() > MOST_STATS {
        &names[..MOST_STATS]
    } else {
        names
    }
}

/// Appends a row for each name of a directory that has a path, and gives their number.
fn tell_rows<F: CleanedStore + Drop>(
    volume: &mut Volume<F>,
    asker: &Asker,
    directory: &Path,
    names: &[Name],
    text: &mut Vec<u8>,
) -> Result<usize, AllocError>
    ensures told { IfOk result (λ _. TellsRows (cleaner_of F.state F.is_flushed F.made F.cleaner)
        volume.old volume.new asker.now directory.now names.now text.old.items text.new.items) }
    ensures counted { IfOk result (λ rows.
        rows ≡ length (filter (has_path directory.now) names.now)) }
    ensures few { IfOk result (λ rows. rows ≤ length names.now) }
{
    let mut rows = 0;
    for name in names {
        rows += tell_row(volume, asker, directory, name, text)?;
    }
    Ok(rows)
}

/// Appends the row of a name of a directory, where it has a path, and gives how many rows these are.
fn tell_row<F: CleanedStore + Drop>(
    volume: &mut Volume<F>,
    asker: &Asker,
    directory: &Path,
    name: &Name,
    text: &mut Vec<u8>,
) -> Result<usize, AllocError>
    ensures told { IfOk result (λ _. TellsRows (cleaner_of F.state F.is_flushed F.made F.cleaner)
        volume.old volume.new asker.now directory.now (name.now ∷ [])
        text.old.items text.new.items) }
    ensures counted { IfOk result (λ rows. rows
        ≡ length (filter (has_path directory.now) (name.now ∷ []))) }
    ensures few { IfOk result (λ rows. rows ≤ 1) }
{
    let alloc = *text.allocator();
    let Some(path) = entry(alloc, directory, name)? else {
        return Ok(0);
    };
    let answer = ask(volume, asker, Request::Stat { path });
    let pushed = push_row(text, name, &answer);
    drop(answer);
    pushed?;
    Ok(1)
}
