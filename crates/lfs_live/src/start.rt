//! A talk over a fresh volume.

ghost use Rattle.std.specs.Prelude.{◌≡◌, false, true, IfErr, IfOk, OnOk};
ghost use Rattle.lfs_server.specs.Serving.{IsInRange};
ghost use Rattle.lfs_audit.specs.declared.fault.RunFault.TheVariants.{Read as Failed};
ghost use Rattle.lfs_live.specs.Faults.{IsTalkFault};
ghost use Rattle.lfs_live.specs.Held.{HasBegun, sink_of};
ghost use Rattle.lfs_live.specs.Scripts.{HasHeardOfLog, IsKeptLogTalk, IsLogFault, IsLogTalk, log_talker, never_kept};
ghost use Rattle.lfs_live.specs.Talking.{HasKeptSoFar, IsKeptTalk};
ghost use Rattle.lfs_live.specs.declared.framing.Framing.TheVariants.{Plain};

use crate::framing::Framing;
use crate::talk::{Setting, talk};
use crate::tended::Tended;
use crate::watch::{Nobody, Watch};
use crate::witnesses::{Teller, Witnesses};
use lfs_audit::fault::RunFault;
use lfs_logstore::LogStore;
use lfs_server::fresh::fresh_volume;
use lfs_sinks::sink::{JournalSink, Nowhere};
use lfs_types::store::Params;
use std::alloc::{AllocError, Global};
use std::io::{self, Read, Write};

/// What a talk over a fresh volume is set up with.
#[derive(Drop)]
pub struct Setup<J: Drop, V: Drop> {
    /// The parameters of the volume.
    pub params: Params,
    /// How the answers are framed.
    pub framing: Framing,
    /// Whether the cleaner makes a pass unasked behind each line that leaves at most three segments clean.
    pub cleans: bool,
    /// Who stands beside.
    pub witnesses: Witnesses<J, V>,
}

/// What a talk without a sink is set up with.
#[derive(Drop)]
pub struct Watched<V: Drop> {
    /// The parameters of the volume.
    pub params: Params,
    /// Whether the cleaner makes a pass unasked behind each line that leaves at most three segments clean.
    pub cleans: bool,
    /// The one who watches.
    pub watch: V,
}

/// Reads lines up to the end of the input, or to one that quits; does what each says on a fresh volume over the log
/// store, and writes what is told of it, before it reads the next; and then writes the report. One who watches is shown
/// the fresh store, with an empty line of which nothing is told, and then each line that was answered. A sink that
/// still takes entries at the end, when the witnesses are handed back, has each.
///
/// # Errors
///
/// `Format` where the volume is not made; `Memory` where the one who watches finds none; else those of `talk`.
pub fn run_kept<J: JournalSink + Drop, V: Watch<LogStore> + Drop, R: Read, W: Write, D: Write>(
    alloc: Global,
    reader: &mut R,
    writer: &mut W,
    teller: &mut D,
    setup: Setup<J, V>,
) -> Result<Witnesses<J, V>, RunFault>
    ensures written { let p = setup.params in let before = setup.witnesses in IfOk result (λ after.
        IsKeptLogTalk V.kept p.segments p.inodes p.frames p.journal
        (record { is_open = before.is_open; cleans = setup.cleans; framing = setup.framing })
        after.is_open (J.next before.sink) (J.contents before.sink) (J.contents after.sink)
        (R.remaining reader.old) (R.remaining reader.new)
        (W.contents writer.old) (W.contents writer.new)) }
    ensures so_far { let p = setup.params in IfErr result (λ fault. fault ≡ Failed → HasHeardOfLog
        V.kept p.segments p.inodes p.frames p.journal
        (record {
          is_open = setup.witnesses.is_open;
          cleans = setup.cleans;
          framing = setup.framing;
        })
        (R.remaining reader.old) (R.remaining reader.new)
        (W.contents writer.old) (W.contents writer.new)) }
    ensures silent { IfOk result (λ after. after.is_open ≡ setup.witnesses.is_open
        → teller.new ≡ teller.old) }
    ensures ranges { let p = setup.params in OnOk result (IsInRange p.segments p.inodes p.frames) }
    ensures fault { let p = setup.params in IfErr result (IsLogFault p.segments p.inodes p.frames) }
{
    let volume = fresh_volume(alloc, setup.params)?;
    let setting = Setting {
        alloc,
        framing: setup.framing,
    };
    let mut tended = Tended::new(alloc, volume, setup.cleans, setup.witnesses);
    run_over(setting, reader, writer, teller, &mut tended)?;
    Ok(tended.into_witnesses())
}

/// A talk over a volume, whatever tree it begins at: one who watches is shown its store, with an empty line of which
/// nothing is told, before the first line. Whether a line had a fault.
///
/// # Errors
///
/// Those of `talk`.
pub fn run_over<J: JournalSink + Drop, V: Watch<LogStore> + Drop, R: Read, W: Write, D: Write>(
    setting: Setting,
    reader: &mut R,
    writer: &mut W,
    teller: &mut D,
    tended: &mut Tended<LogStore, J, V>,
) -> Result<bool, RunFault>
    ensures written { IfOk result (λ has_fault. HasBegun tended.old → IsKeptTalk
        (log_talker V.kept) setting.framing (sink_of J.contents J.next)
        tended.old tended.new has_fault (R.remaining reader.old) (R.remaining reader.new)
        (W.contents writer.old) (W.contents writer.new)) }
    ensures so_far { IfErr result (λ fault. fault ≡ Failed → HasBegun tended.old → HasKeptSoFar
        (log_talker V.kept) setting.framing (sink_of J.contents J.next)
        tended.old tended.new (R.remaining reader.old) (R.remaining reader.new)
        (W.contents writer.old) (W.contents writer.new)) }
    ensures opened { OnOk result (tended.new.is_open ≡ true → tended.old.is_open ≡ true) }
    ensures silent { OnOk result (tended.new.is_open ≡ tended.old.is_open
        → teller.new ≡ teller.old) }
    ensures fault { IfErr result IsTalkFault }
{
    match tended.show(setting.alloc, &[], &[]) {
        Ok(()) => talk(setting, reader, writer, teller, tended),
        Err(AllocError) => Err(RunFault::Memory),
    }
}

/// The same without a sink: the journal is kept, up to its limit. The one who watches is handed back.
///
/// # Errors
///
/// Those of `run_kept`.
pub fn run_watched<V: Watch<LogStore> + Drop, R: Read, W: Write>(
    alloc: Global,
    reader: &mut R,
    writer: &mut W,
    watched: Watched<V>,
) -> Result<V, RunFault>
    ensures written { let p = watched.params in OnOk result (IsLogTalk
        V.kept p.segments p.inodes p.frames p.journal
        (record { is_open = false; cleans = watched.cleans; framing = Plain })
        (R.remaining reader.old) (R.remaining reader.new)
        (W.contents writer.old) (W.contents writer.new)) }
    ensures so_far { let p = watched.params in IfErr result (λ fault. fault ≡ Failed → HasHeardOfLog
        V.kept p.segments p.inodes p.frames p.journal
        (record { is_open = false; cleans = watched.cleans; framing = Plain })
        (R.remaining reader.old) (R.remaining reader.new)
        (W.contents writer.old) (W.contents writer.new)) }
    ensures ranges { let p = watched.params in
        OnOk result (IsInRange p.segments p.inodes p.frames) }
    ensures fault { let p = watched.params in
        IfErr result (IsLogFault p.segments p.inodes p.frames) }
{
    let Watched {
        params,
        cleans,
        watch,
    } = watched;
    let witnesses = Witnesses {
        sink: Nowhere,
        is_open: false,
        program: Teller::Nameless,
        watch,
    };
    let setup = Setup {
        params,
        framing: Framing::Plain,
        cleans,
        witnesses,
    };
    let teller = &mut io::sink();
    match run_kept(alloc, reader, writer, teller, setup) {
        Ok(witnesses) => Ok(witnesses.watch),
        Err(fault) => Err(fault),
    }
}

/// The same without passes unasked, and nobody watches.
///
/// # Errors
///
/// Those of `run_kept`.
pub fn run_lines<R: Read, W: Write>(
    alloc: Global,
    reader: &mut R,
    writer: &mut W,
    params: Params,
) -> Result<(), RunFault>
    ensures written { OnOk result (IsLogTalk
        never_kept params.segments params.inodes params.frames params.journal
        (record { is_open = false; cleans = false; framing = Plain })
        (R.remaining reader.old) (R.remaining reader.new)
        (W.contents writer.old) (W.contents writer.new)) }
    ensures so_far { IfErr result (λ fault. fault ≡ Failed → HasHeardOfLog
        never_kept params.segments params.inodes params.frames params.journal
        (record { is_open = false; cleans = false; framing = Plain })
        (R.remaining reader.old) (R.remaining reader.new)
        (W.contents writer.old) (W.contents writer.new)) }
    ensures ranges { OnOk result (IsInRange params.segments params.inodes params.frames) }
    ensures fault { IfErr result (IsLogFault params.segments params.inodes params.frames) }
{
    let watched = Watched {
        params,
        cleans: false,
        watch: Nobody,
    };
    match run_watched(alloc, reader, writer, watched) {
        Ok(_) => Ok(()),
        Err(fault) => Err(fault),
    }
}
