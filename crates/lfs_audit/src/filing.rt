//! A run whose entries go to a sink.

ghost use Rattle.std.specs.Prelude.{◌≡◌, ℕ, [], List, ◌++◌, false, true, IfErr, IfOk, OnErr, OnOk};
ghost use Rattle.std.specs.Io.KnownBytes.{Appends, append_known};
ghost use Rattle.lfs_model.specs.Counts.{counts_of};
ghost use Rattle.lfs_model.specs.Steps.{IsLegal};
ghost use Rattle.lfs_model.specs.declared.steps.StepAnswer.{StepAnswer};
ghost use Rattle.lfs_sinks.specs.Refusals.{refusals_of, run_report};
ghost use Rattle.lfs_sinks.specs.Sums.{counts_sum};
ghost use Rattle.lfs_volume.specs.Cleanings.{cleaner_of};
ghost use Rattle.lfs_volume.specs.Journals.{Begins, Since};
ghost use Rattle.lfs_audit.specs.Faults.{MayHaveWritten};
ghost use Rattle.lfs_audit.specs.FiledRuns.{IsFiledRun};
ghost use Rattle.lfs_audit.specs.Filing.{FilesLine, IsBegun, IsHandedOut, LeadsOn, MovesOn, Takes, closed, drained};

use crate::fault::RunFault;
use crate::passing::run_step;
use lfs_io::output::{flush, write_full, write_text};
use lfs_io::tell::tell;
use lfs_model::journal::Entry;
use lfs_script::plan::{Step, Steps};
use lfs_sinks::sink::{JournalSink, SinkFault};
use lfs_sinks::spare::SpareRoom;
use lfs_sinks::totals::{Tally, push_report};
use lfs_types::cleaned::CleanedStore;
use lfs_types::store::FileStore;
use lfs_volume::volume::Volume;
use std::alloc::{AllocError, Global};
use std::io::Write;
use std::marker::Model;

/// A volume whose entries go to a sink while it takes them: behind each line of a plan they are handed out, and the
/// journal goes on from the present tree. Once the sink takes no more, no call is served.
#[derive(Drop)]
pub struct FiledVolume<F: FileStore + Drop, J: Drop> {
    volume: Volume<F>,
    sink: J,
    /// How the calls of the entries that were handed out were answered, and how many had no entry.
    tally: Tally,
    /// Whether the sink takes more.
    is_open: bool,
    /// Room for a journal.
    spare: SpareRoom,
    /// The program that tells why the sink takes no more.
    program: &'static str,
}

impl<F: FileStore + Drop, J: Drop> Model for FiledVolume<F, J> {
    ghost use Rattle.lfs_audit.specs.Filing.{Filed};

    ghost Value = { Filed F J };

    ghost view = { λ v. record {
      volume = v.volume;
      sink = v.sink;
      told = v.tally.totals;
      refusals = v.tally.refusals;
      is_open = v.is_open;
    } };
}

impl<F: FileStore + Drop, J: JournalSink + Drop> FiledVolume<F, J> {
    /// A volume whose entries go to this sink from now on.
    pub fn new(
        alloc: Global,
        volume: Volume<F>,
        sink: J,
        program: &'static str,
    ) -> FiledVolume<F, J>
        ensures { result ≡ record {
          volume = volume;
          sink = sink;
          told = counts_of [];
          refusals = refusals_of [];
          is_open = true;
        } }
    {
        FiledVolume {
            volume,
            sink,
            tally: Tally::none(),
            is_open: true,
            spare: SpareRoom::none(alloc),
            program,
        }
    }

    /// Gives the sink the entries, and hands them out. Where the sink doesn't take them, that is told once, and no call
    /// is served any more.
    fn move_on<D: Write>(&mut self, teller: &mut D)
        ensures moves { MovesOn F.state J.contents J.next self.old self.new }
        ensures silent { self.new.is_open ≡ self.old.is_open → teller.new ≡ teller.old }
    {
        if self.is_open {
            match self.hand_out() {
                Ok(()) => {}
                Err(fault) => self.close(teller, fault),
            }
        }
    }

    /// The sink takes no more, for this fault, which is told. From now on no call is served, as nobody would have its
    /// entry.
    fn close<D: Write>(&mut self, teller: &mut D, fault: SinkFault)
        ensures { self.new ≡ record self.old { volume = closed self.old.volume; is_open = false } }
    {
        self.is_open = false;
        self.volume.close_journal();
        let _ = tell(teller, self.program, &fault);
    }

    /// Gives the sink the entries, and hands them out.
    fn hand_out(&mut self) -> Result<(), SinkFault>
        ensures handed { OnOk result (IsHandedOut F.state J.contents J.next self.old self.new) }
        ensures failed { OnErr result (self.new ≡ record self.old { sink = self.new.sink }) }
    {
        self.give()?;
        self.drain()
    }

    /// Gives the sink the entries.
    fn give(&mut self) -> Result<(), SinkFault>
        ensures taken { OnOk result (Takes J.contents J.next
            self.old.sink self.new.sink self.old.volume.journal) }
        ensures same { self.new ≡ record self.old { sink = self.new.sink } }
    {
        self.sink.take(self.volume.journal())
    }

    /// Hands the entries out: the journal goes on without them from the present tree.
    fn drain(&mut self) -> Result<(), SinkFault>
        ensures drained { OnOk result (self.new ≡ record {
          volume = drained self.old.volume;
          sink = self.old.sink;
          told = counts_sum self.old.told (counts_of self.old.volume.journal);
          refusals = self.old.refusals;
          is_open = self.old.is_open;
        }) }
        ensures leads { OnOk result (LeadsOn F.state self.old.volume self.new.volume) }
        ensures failed { OnErr result (self.new ≡ self.old) }
    {
        let Some(totals) = self.tally.totals.with(self.volume.counts()) else {
            return Err(SinkFault::Numbers);
        };
        let room = self.spare.take(self.volume.journal_limit())?;
        self.spare.keep(self.volume.drain(room));
        self.tally.totals = totals;
        Ok(())
    }

    /// Whether the sink takes more.
    fn takes_more(&self) -> bool
        ensures { result ≡ self.now.is_open }
    {
        self.is_open
    }

    /// Adds the report over all entries to a text, and writes the text whole.
    fn report<W: Write>(&self, text: &mut Vec<u8>, writer: &mut W) -> Result<(), RunFault>
        ensures written { OnOk result ((handed : List Entry) (answers : List StepAnswer)
            → self.now.told ≡ counts_of handed → self.now.refusals ≡ refusals_of answers
            → Appends (append_known (W.contents writer.old) text.old.items)
            (W.contents writer.new) (run_report (handed ++ self.now.volume.journal) answers)) }
        ensures legal { let v = self.now.volume in
            let shape = (F.state v.store).shape in
            Since (F.state v.since) v.since_level
            (λ from. IsLegal shape.numbers shape.segments v.journal from) }
        ensures fault { IfErr result MayHaveWritten }
    {
        push_report(text, &self.tally, self.volume.counts())?;
        write_text(writer, text.as_slice())?;
        flush(writer)?;
        Ok(())
    }
}

impl<F: CleanedStore + Drop, J: JournalSink + Drop> FiledVolume<F, J> {
    /// Does what the lines of a plan ask for, and writes the answer to each call and the report over all entries. The
    /// sink gets the entries of each line before its answers are written; why it takes no more is told at once. Whether
    /// it took all.
    pub fn run_plan<W: Write, D: Write>(
        &mut self,
        alloc: Global,
        steps: Steps,
        writer: &mut W,
        teller: &mut D,
    ) -> Result<bool, RunFault>
        requires { IsBegun F.state self.old }
        ensures written { IfOk result (λ is_whole. (text : List ℕ) × (entries : List Entry)
            × IsFiledRun
            (cleaner_of F.state F.is_flushed F.made F.cleaner)
            (Begins (F.state self.old.volume.since) self.old.volume.since_level)
            self.old.volume.store steps is_whole entries text
            × Appends (W.contents writer.old) (W.contents writer.new) text
            × (is_whole ≡ true → Takes J.contents J.next self.old.sink self.new.sink entries)) }
        ensures silent { IfOk result (λ is_whole. is_whole ≡ true → teller.new ≡ teller.old) }
        ensures fault { IfErr result MayHaveWritten }
    {
        let mut text = Vec::new(alloc);
        for step in steps {
            self.run_line(step, &mut text, teller)?;
            write_full(writer, &mut text)?;
        }
        self.report(&mut text, writer)?;
        Ok(self.takes_more())
    }

    /// Does what a line of a plan asks for, and adds the lines of the answers to a text, whatever comes of the entries.
    fn run_line<D: Write>(
        &mut self,
        step: Step,
        text: &mut Vec<u8>,
        teller: &mut D,
    ) -> Result<(), AllocError>
        ensures done { OnOk result (FilesLine
            (cleaner_of F.state F.is_flushed F.made F.cleaner) J.contents J.next
            self.old self.new step.session step.cred step.act text.old.items text.new.items) }
        ensures silent { self.new.is_open ≡ self.old.is_open → teller.new ≡ teller.old }
    {
        let done = run_step(&mut self.volume, &mut self.tally.refusals, step, text);
        self.move_on(teller);
        done
    }
}
