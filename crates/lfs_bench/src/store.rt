//! Runs of users' calls on a fresh volume over a store.

use crate::cleaned::{Way, run_cleaned};
use crate::measure::Measure;
use crate::playing::Server;
use crate::timing::time_series;
use anyhow::{Result, bail};
use lfs_logstore::LogStore;
use lfs_types::answer::Answer;
use lfs_types::store::Params;
use lfs_volume::flat_files::FlatFiles;
use lfs_volume::volume::Volume;
use lfs_workloads::calls::Call;
use lfs_workloads::scale::Scale;
use lfs_workloads::series::Series;
use lfs_workloads::workload::UserLoad;
use std::alloc::Global;
use std::rt::Clock;

/// The session that makes all calls, where there is one.
pub(crate) const SESSION: u8 = 1;

/// How many entries of the journal there is room for over a log, for each call of a user.
const CLEANER_CALLS: u32 = 16;

/// A store that volumes are timed over.
#[derive(Clone, Copy)]
pub(crate) enum Store {
    /// The plain store.
    Plain,
    /// The log store, where the passes of its cleaner are not in the time.
    Log,
    /// The log store, where the passes of its cleaner are in the time.
    LogCleaned,
}

impl Store {
    /// All stores, in the order of the table.
    pub(crate) const ALL: [Store; 3] = [Store::Plain, Store::Log, Store::LogCleaned];

    /// The word of the table.
    pub(crate) fn name(self) -> &'static str {
        match self {
            Store::Plain => "plain",
            Store::Log => "log",
            Store::LogCleaned => "log cleaned",
        }
    }
}

impl Server for Volume<FlatFiles> {
    fn answer(&mut self, call: Call) -> Answer {
        let (cred, request) = call;
        self.call(SESSION, &cred, request)
    }
}

/// Runs a workload at a scale on a fresh volume over a store.
pub(crate) fn run_on<R: Clock + AllocGlobal>(
    rt: &R,
    store: Store,
    load: UserLoad,
    scale: &Scale,
) -> Result<Measure> {
    let series = Series::Timed(load);
    match store {
        Store::Plain => run_plain(rt, scale, series),
        Store::Log => run_cleaned(rt, scale, series, Way::Untimed),
        Store::LogCleaned => run_cleaned(rt, scale, series, Way::Timed),
    }
}

/// Runs a series of calls over the plain store.
fn run_plain<R: Clock + AllocGlobal>(rt: &R, scale: &Scale, series: Series) -> Result<Measure> {
    let journal = Series::tree_count(scale).saturating_add(series.count(scale));
    let mut volume = plain_volume(rt.alloc(), scale, journal)?;
    time_series(rt, &mut volume, scale, series)
}

/// A fresh volume over the plain store, with room for so many calls.
fn plain_volume(alloc: Global, scale: &Scale, journal: u32) -> Result<Volume<FlatFiles>> {
    let files = FlatFiles::new(alloc, scale.inodes)?;
    Ok(Volume::new(alloc, files, journal)?)
}

/// A fresh volume over a log, with room for the calls that make the tree and so many behind them.
pub(crate) fn log_volume(alloc: Global, scale: &Scale, calls: u32) -> Result<Volume<LogStore>> {
    let params = log_params(scale, calls);
    let Ok(store) = LogStore::format(alloc, params) else {
        bail!("the log isn't laid out");
    };
    Ok(Volume::new(alloc, store, params.journal)?)
}

/// The numbers of a volume over a log. Its journal has room for the calls that make the tree and so many behind them,
/// and for the cleaner's calls between.
pub(crate) fn log_params(scale: &Scale, calls: u32) -> Params {
    Params {
        segments: scale.segments,
        inodes: scale.inodes,
        frames: scale.frames,
        journal: Series::tree_count(scale)
            .saturating_add(calls)
            .saturating_mul(CLEANER_CALLS),
    }
}
