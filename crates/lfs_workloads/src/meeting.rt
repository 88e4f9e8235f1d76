//! The calls of eight sessions on one tree.

ghost use Rattle.std.specs.Prelude.{◌≤◌};

use crate::calls::calls_of;
use crate::scale::Scale;
use crate::series::Series;
use crate::step::{Spot, Step, Verb};
use crate::timed::{SMALL, read, write};
use anyhow::Result;
use lfs_types::request::Place;
use lfs_types::script::Script;
use std::alloc::Global;

/// How many sessions there are.
pub const SESSIONS: u32 = 8;

/// How many calls a session makes before it begins anew: twelve that show something, and four that change something.
const KINDS: u32 = 16;

/// How many places of its own file a session writes before it begins anew.
const PLACES: u32 = 256;

/// How many calls each session makes.
pub fn each_of(scale: &Scale) -> u32
    ensures least { 1 ≤ result }
    ensures most { result ≤ 131072 }
{
    (scale.calls / SESSIONS).max(1)
}

/// The scripts of all sessions, the first session's first.
pub fn scripts_of(alloc: Global, scale: &Scale) -> Result<Vec<Script>> {
    let mut scripts = Vec::with_capacity(alloc, SESSIONS as usize)?;
    for session in 1..=SESSIONS {
        let calls = calls_of(alloc, scale, &[Series::Session(session)])?;
        scripts.push(Script::from(calls))?;
    }
    Ok(scripts)
}

/// The call of this index of a session, counted from 1. All sessions ask for each file of the tree, and read and write
/// its first one; another file of it and a name in the directory are the session's own.
pub fn session_step(scale: &Scale, session: u32, index: u32) -> Step {
    let (first, own, made) = (Spot::File(0), Spot::File(session), Spot::MadeBy(session));
    let (spot, verb) = match index % KINDS {
        0 | 6 | 12 => (Spot::File(index % scale.names), Verb::Stat),
        1 | 7 | 13 => (first, read(scale, index)),
        2 => (own, write_own(index)),
        3 | 14 => (own, Verb::Stat),
        4 | 10 | 15 => (own, Verb::Read(0, SMALL)),
        5 => (made, Verb::Create),
        8 => (first, write(scale, index, SMALL)),
        9 => (made, Verb::Stat),
        _ => (made, Verb::Unlink),
    };
    Step::new(spot, verb)
}

/// A Write into a session's own file, at the place whose turn it is.
fn write_own(index: u32) -> Verb {
    let place = u64::from(index / KINDS % PLACES) * u64::from(SMALL);
    Verb::Write(Place::At(place), SMALL)
}
