//! Room that the cleaner finds: dead segments become clean at once, others by passes.

ghost use Rattle.std.specs.Prelude.{◌≡◌};
ghost use Rattle.lfs_mount.specs.Runs.{GoesOn};

use crate::mount::Mount;
use crate::tending::CLEANER;
use lfs_cleaner::wanting::superuser;
use lfs_ifile::{SegState, usage_in};
use lfs_model::journal::CleanerAnswer;
use lfs_types::cleaned::CleanedStore;
use lfs_types::cleaner::CleanerCall;

/// So few clean segments call for the cleaner, however small a volume is.
const FEW: u32 = 3;

/// So many more call for it in a large volume: a message of 131,072 bytes takes up to six segments.
const MORE: u32 = 5;

/// So many segments of a volume for each of those.
const SHARE: u32 = 64;

/// The most segments that become clean without a pass.
const SWEPT: u32 = 128;

/// How few clean segments call for the cleaner, of so many.
pub(crate) fn few_of(segments: u32) -> u32 {
    FEW + (segments / SHARE).min(MORE)
}

/// Whether a segment is dirty and has no live bytes, by an ifile's bytes.
fn is_dead(bytes: &[u8], segment: u32) -> bool {
    match usage_in(bytes, segment) {
        Some(used) => used.state == SegState::Dirty && used.live == 0,
        None => false,
    }
}

impl<F: CleanedStore + Drop> Mount<F> {
    #[tactic(auto, using(crate::proofs::TendingLemmas::cleaned_goes, crate::proofs::TendingLemmas::goes_on_none))]
    /// Makes a segment clean that has no live bytes, by an ifile's bytes. Whether it was asked for.
    /// No file changes.
    fn reclaim(&mut self, bytes: &[u8], segment: u32) -> bool
        ensures content { (F.state self.new.tree.volume.store).content
            ≡ (F.state self.old.tree.volume.store).content }
        ensures level { self.new.tree.volume.level ≡ self.old.tree.volume.level }
        ensures journal { GoesOn F.state self.old.tree.volume self.new.tree.volume }
        ensures nodes { self.new.tree.nodes ≡ self.old.tree.nodes }
        ensures beside { self.new.beside ≡ self.old.beside }
        ensures sizes { self.new.sizes ≡ self.old.sizes }
    {
        if !is_dead(bytes, segment) {
            return false;
        }
        let _ = self.tree.volume.reclaim(CLEANER, &superuser(), segment);
        true
    }

    #[tactic(auto, using(crate::proofs::TendingLemmas::cleaned_goes, crate::proofs::TendingLemmas::goes_on_again))]
    /// Makes dirty segments clean that have no live bytes, at most 128. No file changes.
    fn sweep(&mut self)
        ensures content { (F.state self.new.tree.volume.store).content
            ≡ (F.state self.old.tree.volume.store).content }
        ensures level { self.new.tree.volume.level ≡ self.old.tree.volume.level }
        ensures journal { GoesOn F.state self.old.tree.volume self.new.tree.volume }
        ensures nodes { self.new.tree.nodes ≡ self.old.tree.nodes }
        ensures beside { self.new.beside ≡ self.old.beside }
        ensures sizes { self.new.sizes ≡ self.old.sizes }
    {
        let cleaner = superuser();
        let answer = self
            .tree
            .volume
            .clean(CLEANER, &cleaner, CleanerCall::Ifile);
        let CleanerAnswer::Ifile(bytes) = answer else {
            return;
        };
        let mut left = SWEPT;
        for segment in 0..self.sizes.segments {
            if left == 0 {
                return;
            }
            if self.reclaim(bytes.as_slice(), segment) {
                left -= 1;
            }
        }
    }

    #[tactic(auto, using(crate::proofs::TendingLemmas::cleaned_goes))]
    /// Has a segment cleaned where that gains room. No file changes.
    fn gain_room(&mut self)
        ensures content { (F.state self.new.tree.volume.store).content
            ≡ (F.state self.old.tree.volume.store).content }
        ensures level { self.new.tree.volume.level ≡ self.old.tree.volume.level }
        ensures journal { GoesOn F.state self.old.tree.volume self.new.tree.volume }
        ensures nodes { self.new.tree.nodes ≡ self.old.tree.nodes }
        ensures beside { self.new.beside ≡ self.old.beside }
        ensures sizes { self.new.sizes ≡ self.old.sizes }
    {
        let cleaner = superuser();
        let _ = self.tree.volume.clean(CLEANER, &cleaner, CleanerCall::Gain);
    }

    #[tactic(auto, using(crate::proofs::TendingLemmas::goes_on_again, crate::proofs::TendingLemmas::goes_on_none))]
    /// Makes a pass of the cleaner where few segments are clean; where no more are clean behind it,
    /// room is looked for by one more call. Whether more are clean then. No file changes.
    fn gain(&mut self) -> bool
        ensures content { (F.state self.new.tree.volume.store).content
            ≡ (F.state self.old.tree.volume.store).content }
        ensures level { self.new.tree.volume.level ≡ self.old.tree.volume.level }
        ensures journal { GoesOn F.state self.old.tree.volume self.new.tree.volume }
        ensures nodes { self.new.tree.nodes ≡ self.old.tree.nodes }
        ensures beside { self.new.beside ≡ self.old.beside }
        ensures sizes { self.new.sizes ≡ self.old.sizes }
    {
        let before = self.tree.volume.clean_segments();
        if before > few_of(self.sizes.segments) {
            return false;
        }
        self.pass();
        if self.tree.volume.clean_segments() > before {
            return true;
        }
        self.gain_room();
        self.tree.volume.clean_segments() > before
    }

    #[tactic(auto, using(crate::proofs::TendingLemmas::goes_on_again))]
    /// Has the cleaner look for room: first dead segments become clean, then a pass is made, and
    /// another one where that gained room and few are clean still. No file changes.
    pub(crate) fn find_room(&mut self)
        ensures content { (F.state self.new.tree.volume.store).content
            ≡ (F.state self.old.tree.volume.store).content }
        ensures level { self.new.tree.volume.level ≡ self.old.tree.volume.level }
        ensures journal { GoesOn F.state self.old.tree.volume self.new.tree.volume }
        ensures nodes { self.new.tree.nodes ≡ self.old.tree.nodes }
        ensures beside { self.new.beside ≡ self.old.beside }
        ensures sizes { self.new.sizes ≡ self.old.sizes }
    {
        self.sweep();
        if self.gain() {
            self.gain();
        }
    }
}
