//! A run over a fresh volume on the log store.

ghost use Rattle.std.specs.Prelude.{◌≡◌, ◌≤◌, ◌<◌, IfErr, IfOk, OnOk, vec_len};
ghost use Rattle.lfs_types.specs.Tree.{opening_world};
ghost use Rattle.lfs_logstore.specs.States.{shape_of, state_of};
ghost use Rattle.lfs_settle.specs.Interleaving.{IsInterleaving, IsLowestToDiffer, run_of};
ghost use Rattle.lfs_server.specs.Fresh.{IsFreshLog};
ghost use Rattle.lfs_server.specs.Serving.{IsInRange, IsServeFault};
ghost use Rattle.lfs_server.specs.Unserved.{NamesUnsettled, OnLeft, fault_of};
ghost use Rattle.lfs_volume.specs.Journals.{IsJournal};

use crate::fresh::fresh_volume;
use crate::gate::Gate;
use crate::serving::{Closed, check_sessions, serve_over};
use crate::unserved::Unserved;
use lfs_logstore::LogStore;
use lfs_types::script::Script;
use lfs_types::store::Params;
use std::alloc::Global;
use std::sync::Wait;
use std::thread::Threads;

/// Runs the setup and then each script as a session on a thread of its own, with the cleaner beside them, on a fresh
/// volume over the log store, which has the segments, the inode numbers and the frames that are asked for. `Sessions`
/// comes exactly for none and for more than eight, before all others; `Format` for numbers out of their ranges alone,
/// and before anything is run.
pub fn serve<R, G>(
    rt: &R,
    alloc: Global,
    params: Params,
    setup: Script,
    sessions: Vec<Script>,
    gate: &G,
) -> Result<Closed<LogStore>, Unserved<Closed<LogStore>>>
where
    R: Threads + Wait + Sync,
    G: Gate,
    ensures settled { IfOk result (λ closed. IsInterleaving
        (run_of closed.volume.journal closed.volume.limit
        setup closed.setup.items sessions.items closed.transcripts.items)) }
    ensures unsettled { IfErr result (NamesUnsettled (λ session closed. IsLowestToDiffer
        (run_of closed.volume.journal closed.volume.limit
        setup closed.setup.items sessions.items closed.transcripts.items) session)) }
    ensures count { OnLeft result (λ closed. vec_len closed.transcripts ≡ vec_len sessions) }
    ensures limit { OnLeft result (λ closed. closed.volume.limit ≡ params.journal) }
    ensures shape { OnLeft result (λ closed. (state_of closed.volume.store).shape
        ≡ shape_of params.inodes params.segments) }
    // Its journal begins over the log as it was laid out, with so many frames.
    ensures fresh { OnLeft result (λ closed. IsFreshLog
        params.segments params.inodes params.frames closed.volume.since) }
    ensures ranges { OnOk result (IsInRange params.segments params.inodes params.frames) }
    ensures legal { OnLeft result (λ closed. IsJournal opening_world
        (state_of closed.volume.store) closed.volume.level
        closed.volume.journal closed.volume.limit) }
    ensures sessions { OnOk result ((0 < vec_len sessions) × (vec_len sessions ≤ 8)) }
    ensures fault { IfErr result (λ unserved. IsServeFault (vec_len sessions)
        params.segments params.inodes params.frames (fault_of unserved)) }
{
    check_sessions(sessions.len())?;
    let volume = fresh_volume(alloc, params)?;
    serve_over(rt, alloc, volume, setup, sessions, gate)
}
