//! A pass of the cleaner: what it calls, told the answer to its last call.

ghost use Rattle.std.specs.Prelude.{◌≡◌, ◌<◌, ◌≤◌, ◌/◌, ◌+◌, ℕ, List, length, IfSome, IfNone, option_map, Some};
ghost use Rattle.lfs_cleaner.specs.Passing.{Begins, Chooses, MakesCall, MayCall, MarksNext, Steps, calls_left, unchanged};
ghost use Rattle.lfs_types.specs.declared.cleaner.CleanerCall.{CleanerCall};

use crate::choosing::segment_to_clean;
use lfs_model::journal::CleanerAnswer;
use lfs_types::cleaner::{BlockInfo, CleanerCall, InfoList, MARK_LIMIT, MarkList};
use std::mem;

/// How often a pass looks for a segment to clean.
const ROUNDS: u8 = 3;

/// Where a pass stands.
#[derive(Drop, Debug)]
enum Stage {
    /// Nothing is called yet.
    Ready,
    /// The bytes of the ifile were asked for.
    Reading,
    /// The infos of this segment were asked for.
    Listing(u32),
    /// The present addresses of the infos of this segment were asked for.
    Locating(u32, InfoList),
    /// Blocks of this segment are being written again, and these are left.
    Moving(u32, InfoList),
    /// A segment is to become clean.
    Reclaiming,
    /// No call is made any more.
    Over,
}

/// A pass of the cleaner (after 4.4BSD's lfs_cleanerd(8); which segment it takes, how often and by how many blocks at once is
/// this project's profile). It looks at most three times for the dirty segment of least live bytes, of these that of the
/// lowest number, writes its blocks again, eight at a time, and makes it clean. It ends where no segment is dirty and
/// after any denial, refusal or fault, and takes no memory.
#[derive(Drop, Debug)]
pub struct Pass {
    rounds: u8,
    stage: Stage,
}

impl Pass {
    /// A pass that has made no call.
    #[tactic(auto, using(crate::proofs::PassLemmas::few_calls))]
    pub fn new() -> Pass
        ensures ready { result ≡ record { rounds = 3; stage = Stage.Ready } }
        ensures left { calls_left result ≡ 105 }
        ensures few { (calls : List CleanerCall) → MayCall result calls → length calls ≤ 105 }
    {
        Pass {
            rounds: ROUNDS,
            stage: Stage::Ready,
        }
    }

    /// The next call, given the answer to the last one; `None` once the pass is over. The answer to a call that was not
    /// made ends it.
    pub fn next(&mut self, last: Option<&CleanerAnswer>) -> Option<CleanerCall>
        ensures steps { Steps self.old
            (option_map (λ answer. answer.now) last.entry) result self.new }
        ensures fewer { IfSome result (λ _. calls_left self.new < calls_left self.old) }
        ensures over { IfNone result (self.new.stage ≡ Stage.Over) }
    {
        let stage = mem::replace(&mut self.stage, Stage::Over);
        if let Stage::Ready = stage {
            return self.begin_round();
        }
        let answer = last?;
        match (stage, answer) {
            (Stage::Reading, CleanerAnswer::Ifile(bytes)) => self.list_chosen(bytes.as_slice()),
            (Stage::Listing(segment), CleanerAnswer::Infos(infos)) => {
                self.locate(segment, infos.items())
            }
            (Stage::Locating(segment, infos), CleanerAnswer::Bmapv(present)) => {
                let left = unchanged(infos.items(), present.items());
                self.move_next(segment, left.items())
            }
            (Stage::Moving(segment, left), CleanerAnswer::Marked(_)) => {
                self.move_next(segment, left.items())
            }
            (Stage::Reclaiming, CleanerAnswer::Cleaned) => self.begin_round(),
            _ => None,
        }
    }

    /// Asks for the ifile, if a further round may begin.
    fn begin_round(&mut self) -> Option<CleanerCall>
        requires { self.old.stage ≡ Stage.Over }
        ensures { Begins self.old.rounds result self.new }
    {
        self.rounds = self.rounds.checked_sub(1)?;
        self.stage = Stage::Reading;
        Some(CleanerCall::Ifile)
    }

    /// Asks for the infos of the segment that is to be cleaned by an ifile's bytes, if there is one.
    fn list_chosen(&mut self, bytes: &[u8]) -> Option<CleanerCall>
        requires { self.old.stage ≡ Stage.Over }
        ensures { Chooses self.old.rounds bytes.now result self.new }
    {
        let segment = segment_to_clean(bytes)?;
        self.stage = Stage::Listing(segment);
        Some(CleanerCall::Infos(segment))
    }

    /// Asks for the present addresses of a segment's infos.
    fn locate(&mut self, segment: u32, infos: &[BlockInfo]) -> Option<CleanerCall>
        requires { length infos.now ≤ 248 }
        ensures { MakesCall (CleanerCall.Bmapv infos.now) self.old.rounds
            (Stage.Locating segment infos.now) result self.new }
    {
        self.stage = Stage::Locating(segment, InfoList::new(infos)?);
        Some(CleanerCall::Bmapv(InfoList::new(infos)?))
    }

    /// Has the next eight of the infos that are left written again; where none is left, has the segment become clean.
    fn move_next(&mut self, segment: u32, left: &[BlockInfo]) -> Option<CleanerCall>
        requires { length left.now ≤ 248 }
        ensures { MarksNext self.old.rounds segment left.now result self.new }
    {
        if left.is_empty() {
            self.stage = Stage::Reclaiming;
            return Some(CleanerCall::Segclean(segment));
        }
        let count = left.len().min(MARK_LIMIT);
        self.stage = Stage::Moving(segment, InfoList::new(&left[count..])?);
        Some(CleanerCall::Markv(MarkList::new(&left[..count])?))
    }
}

/// Of the infos that were asked for those whose address is unchanged.
fn unchanged(asked: &[BlockInfo], present: &[BlockInfo]) -> InfoList
    requires { length asked.now ≤ 248 }
    ensures { result ≡ unchanged asked.now present.now }
{
    let mut left = InfoList::empty();
    for (info, now) in asked.iter().zip(present) {
        if info.addr == now.addr {
            left.push(*info);
        }
    }
    left
}
