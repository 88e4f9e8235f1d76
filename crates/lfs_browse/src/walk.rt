//! A walk through the tree below a path.

ghost use Rattle.std.specs.Prelude.{◌≡◌, ◌-◌, ◌≤◌, ◌∷◌, ◌++◌, [], filter, length, map, reverse, Some, IfOk, OnOk};
ghost use Rattle.lfs_volume.specs.Cleanings.{cleaner_of};
ghost use Rattle.lfs_browse.specs.Listing.{has_path, looked_of, names_served};
ghost use Rattle.lfs_browse.specs.Looks.{TellsLook};
ghost use Rattle.lfs_browse.specs.Trees.{count_text, entry_of, indent, rest_text, unlooked_text, unserved_text};
ghost use Rattle.lfs_browse.specs.Walking.{HasEnded, TakesIn, Visits};
ghost use Rattle.lfs_hearing.specs.declared.look.Look.TheVariants.{Tree};
ghost use Rattle.lfs_browse.specs.declared.visit.Visit.TheVariants as visits;

use crate::asking::ask;
use crate::entry::entry;
use crate::listing::{first_of, names_served};
use crate::rows::push_row;
use crate::visit::{Visit, shows_directory};
use lfs_audit::asker::Asker;
use lfs_print::print::push_answer;
use lfs_types::answer::Answer;
use lfs_types::cleaned::CleanedStore;
use lfs_types::name::Name;
use lfs_types::path::Path;
use lfs_volume::volume::Volume;
use lfs_words::append::push_number;
use std::alloc::{AllocError, Global};

/// So many calls of a walk are made at most: as many as a line may ask for.
const MOST_VISITS: usize = 107;

/// A walk through a tree.
#[derive(Drop)]
pub(crate) struct Walk {
    /// How many names lead to where it began.
    root: usize,
    /// The calls that are still to be made, the next one last.
    pending: Vec<Visit>,
    /// What is told so far.
    text: Vec<u8>,
}

/// Walks through the tree below a path, and appends a row for each name, with two spaces for each directory on the way.
///
/// # Errors
///
/// Memory ran out; some of the calls may have been made.
pub(crate) fn tell_tree<F: CleanedStore + Drop>(
    volume: &mut Volume<F>,
    asker: &Asker,
    path: &Path,
    text: &mut Vec<u8>,
) -> Result<(), AllocError>
    ensures { OnOk result (TellsLook (cleaner_of F.state F.is_flushed F.made F.cleaner)
        volume.old volume.new asker.now Tree path.now text.old.items text.new.items) }
{
    let mut walk = Walk::below(*text.allocator(), path)?;
    walk.go(volume, asker)?;
    text.extend_from_slice(walk.text.as_slice())?;
    push_rest(text, walk.pending.as_slice())
}

impl Walk {
    /// A walk that begins with a List of the directory at a path.
    fn below(alloc: Global, path: &Path) -> Result<Walk, AllocError>
        ensures root { IfOk result (λ walk. walk.root ≡ length path.now) }
        ensures pending { IfOk result (λ walk. walk.pending.items ≡ visits.Names path.now ∷ []) }
        ensures text { IfOk result (λ walk. walk.text.items ≡ []) }
    {
        let mut pending = Vec::new(alloc);
        pending.push(Visit::Names(path.try_clone(alloc)?))?;
        Ok(Walk {
            root: path.names().len(),
            pending,
            text: Vec::new(alloc),
        })
    }

    /// Makes the calls, one after another, up to the last or as many as a line may ask for.
    fn go<F: CleanedStore + Drop>(
        &mut self,
        volume: &mut Volume<F>,
        asker: &Asker,
    ) -> Result<(), AllocError>
        ensures { OnOk result (HasEnded (cleaner_of F.state F.is_flushed F.made F.cleaner)
            volume.old volume.new asker.now self.old self.new) }
    {
        for _ in 0..MOST_VISITS {
            let Some(visit) = self.pending.pop() else {
                return Ok(());
            };
            let made = self.visit(volume, asker, &visit);
            drop(visit);
            made?;
        }
        Ok(())
    }

    /// Makes a call, and takes its answer in.
    fn visit<F: CleanedStore + Drop>(
        &mut self,
        volume: &mut Volume<F>,
        asker: &Asker,
        visit: &Visit,
    ) -> Result<(), AllocError>
        ensures { OnOk result (Visits (cleaner_of F.state F.is_flushed F.made F.cleaner)
            volume.old volume.new asker.now self.old self.new visit.now) }
    {
        let request = visit.request(*self.text.allocator())?;
        let answer = ask(volume, asker, request);
        let taken = self.take(visit, &answer);
        drop(answer);
        taken
    }

    /// Takes an answer in: what is told of it, and the calls that it leads to.
    fn take(&mut self, visit: &Visit, answer: &Answer) -> Result<(), AllocError>
        ensures { OnOk result (TakesIn self.old self.new visit.now answer.now) }
    {
        match visit {
            Visit::Entry(path, name) => self.take_entry(path, name, answer),
            Visit::Names(path) => self.take_names(path, answer),
        }
    }

    /// Takes the answer to a Stat of a name in.
    fn take_entry(&mut self, path: &Path, name: &Name, answer: &Answer) -> Result<(), AllocError>
        ensures { OnOk result (TakesIn self.old self.new
            (visits.Entry path.now name.now) answer.now) }
    {
        let below = path.names().len().saturating_sub(self.root);
        push_indent(&mut self.text, below.saturating_sub(1))?;
        push_row(&mut self.text, name, answer)?;
        if shows_directory(answer) {
            let directory = path.try_clone(*self.text.allocator())?;
            self.pending.push(Visit::Names(directory))?;
        }
        Ok(())
    }

    /// Takes the answer to a List of a directory in.
    fn take_names(&mut self, path: &Path, answer: &Answer) -> Result<(), AllocError>
        ensures { OnOk result (TakesIn self.old self.new (visits.Names path.now) answer.now) }
    {
        let depth = path.names().len().saturating_sub(self.root);
        match names_served(answer) {
            Some(names) => self.take_served(path, depth, names.as_slice()),
            None => push_unserved(&mut self.text, depth, answer),
        }
    }

    /// Takes the names in that a List served, so deep below where the walk began.
    fn take_served(&mut self, path: &Path, depth: usize, names: &[Name]) -> Result<(), AllocError>
        ensures root { OnOk result (self.new.root ≡ self.old.root) }
        ensures pending { OnOk result (self.new.pending.items ≡ self.old.pending.items
            ++ reverse (map (entry_of path.now) (looked_of path.now (Some names.now)))) }
        ensures told { OnOk result (self.new.text.items ≡ self.old.text.items
            ++ unlooked_text depth
            (length names.now - length (looked_of path.now (Some names.now)))) }
    {
        let mut entries = entries_of(*self.text.allocator(), path, first_of(names))?;
        push_unlooked(&mut self.text, depth, names.len() - entries.len())?;
        entries.reverse();
        self.pending.append(&mut entries)
    }
}

/// A Stat of each name of a directory that has a path.
fn entries_of(alloc: Global, directory: &Path, names: &[Name]) -> Result<Vec<Visit>, AllocError>
    ensures entries { IfOk result (λ entries. entries.items
        ≡ map (entry_of directory.now) (filter (has_path directory.now) names.now)) }
    ensures few { IfOk result (λ entries. length entries.items ≤ length names.now) }
{
    let mut entries = Vec::new(alloc);
    for name in names {
        if let Some(path) = entry(alloc, directory, name)? {
            entries.push(Visit::Entry(path, name.try_clone(alloc)?))?;
        }
    }
    Ok(entries)
}

/// Appends two spaces for each directory on the way.
fn push_indent(out: &mut Vec<u8>, depth: usize) -> Result<(), AllocError>
    ensures { OnOk result (out.new.items ≡ out.old.items ++ indent depth) }
{
    for _ in 0..depth {
        out.extend_from_slice(b"  ")?;
    }
    Ok(())
}

/// Appends how many names are not looked at, where there are some.
fn push_unlooked(out: &mut Vec<u8>, depth: usize, count: usize) -> Result<(), AllocError>
    ensures { OnOk result (out.new.items ≡ out.old.items ++ unlooked_text depth count) }
{
    if count == 0 {
        return Ok(());
    }
    push_indent(out, depth)?;
    push_count(out, count)
}

/// Appends how many names are not looked at.
fn push_count(out: &mut Vec<u8>, count: usize) -> Result<(), AllocError>
    ensures { OnOk result (out.new.items ≡ out.old.items ++ count_text count) }
{
    push_number(out, count as u64)?;
    out.extend_from_slice(b" not looked at, which list tells\n")
}

/// Appends why a List served no names.
fn push_unserved(out: &mut Vec<u8>, depth: usize, answer: &Answer) -> Result<(), AllocError>
    ensures { OnOk result (out.new.items ≡ out.old.items ++ unserved_text depth answer.now) }
{
    push_indent(out, depth)?;
    push_answer(out, answer)?;
    out.extend_from_slice(b"\n")
}

/// Appends that there is more, where calls are still to be made.
fn push_rest(out: &mut Vec<u8>, pending: &[Visit]) -> Result<(), AllocError>
    ensures { OnOk result (out.new.items ≡ out.old.items ++ rest_text pending.now) }
{
    match pending {
        [] => Ok(()),
        [_, ..] => out.extend_from_slice(
            b" cut short behind 107 calls; .tree of a directory below tells more\n",
        ),
    }
}
