//! Which segment is to be cleaned.

ghost use Rattle.std.specs.Prelude.{◌≡◌, ◌+◌, ◌<◌, ◌≤◌, ℕ, length, MatchOption};
ghost use Rattle.lfs_ifile.specs.Layout.{number_at};
ghost use Rattle.lfs_cleaner.specs.Choosing.{HasNoDirty, IsBestBelow, IsChosen, IsDirty};

use lfs_ifile::{SegState, usage_in};

/// A dirty segment, and how many live bytes it has.
#[derive(Clone, Copy)]
struct Candidate {
    segment: u32,
    live: u32,
}

/// The dirty segment of least live bytes by an ifile's bytes, and of these that of the lowest number; `None` where none
/// is dirty. One without live bytes ends the search.
pub fn segment_to_clean(bytes: &[u8]) -> Option<u32>
    ensures { MatchOption result (HasNoDirty bytes.now) (λ segment. IsChosen bytes.now segment) }
{
    let mut best = None;
    for segment in 0..segment_bound(bytes) {
        best = better(bytes, best, segment);
        if let Some(found) = best
            && found.live == 0
        {
            return Some(found.segment);
        }
    }
    match best {
        Some(found) => Some(found.segment),
        None => None,
    }
}

/// How many segments an ifile's bytes say that there are, if they are laid out as one; each takes eight bytes.
#[tactic(auto, unfolding(lfs_ifile::specs::Layout::number_at))]
fn told_segments(bytes: &[u8]) -> u32
    ensures { 8 ≤ length bytes.now → result ≡ number_at bytes.now 4 }
{
    if bytes.len() < 8 {
        return 0;
    }
    u32::from_be_bytes([bytes[4], bytes[5], bytes[6], bytes[7]])
}

/// A number that those of the dirty segments are below.
fn segment_bound(bytes: &[u8]) -> u32
    ensures { (segment live : ℕ) → IsDirty bytes.now segment live → segment < result }
{
    let most = u32::try_from(bytes.len() / 8).unwrap_or(u32::MAX);
    let told = told_segments(bytes);
    if told < most { told } else { most }
}

/// The best of the dirty segments up to this one, given that of those below it.
fn better(bytes: &[u8], best: Option<Candidate>, segment: u32) -> Option<Candidate>
    requires { IsBestBelow bytes.now segment best }
    ensures { IsBestBelow bytes.now (segment + 1) result }
{
    let Some(live) = dirty_live(bytes, segment) else {
        return best;
    };
    match best {
        Some(found) if found.live <= live => best,
        _ => Some(Candidate { segment, live }),
    }
}

/// How many live bytes a segment has, if it is dirty.
fn dirty_live(bytes: &[u8], segment: u32) -> Option<u32>
    ensures { MatchOption result ((live : ℕ) → IsDirty bytes.now segment live → ⊥)
        (λ live. IsDirty bytes.now segment live) }
{
    match usage_in(bytes, segment) {
        Some(used) if used.state == SegState::Dirty => Some(used.live),
        _ => None,
    }
}
