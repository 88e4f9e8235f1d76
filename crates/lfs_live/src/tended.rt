//! A volume that is talked to, whose journal is given to a sink.

ghost use Rattle.std.specs.Prelude.{◌≡◌, ◌<◌, ◌≤◌, ℕ, [], List, drop, length, false, true, IfOk, OnErr, OnOk};
ghost use Rattle.lfs_model.specs.Counts.{counts_of};
ghost use Rattle.lfs_audit.specs.Filing.{LeadsOn, closed, drained};
ghost use Rattle.lfs_audit.specs.Runs.{TellsLine};
ghost use Rattle.lfs_script.specs.declared.plan.Act.TheVariants.{Pass};
ghost use Rattle.lfs_volume.specs.Cleanings.{cleaner_of};
ghost use Rattle.lfs_volume.specs.Journals.{AtPresent, Begins};
ghost use Rattle.lfs_volume.specs.Seen.{Seen};
ghost use Rattle.lfs_live.specs.Held.{HasRoom, IsLetGo, MayEnter, Moves, Takes, course_of, sink_of};
ghost use Rattle.lfs_live.specs.Flushing.{IsSyncRefused, is_done};
ghost use Rattle.lfs_live.specs.Steps.{HasTidied};
ghost use Rattle.lfs_live.specs.Talking.{first_speaker, is_due};
ghost use Rattle.lfs_sinks.specs.Refusals.{tally_of};
ghost use Rattle.lfs_sinks.specs.Sums.{counts_sum};

use crate::watch::Watch;
use crate::witnesses::{Teller, Witnesses};
use lfs_audit::passing::run_step;
use lfs_io::tell::tell;
use lfs_model::journal::Entry;
use lfs_script::plan::{Act, Step};
use lfs_settle::entries::CLEANER;
use lfs_sinks::refusals::Refusals;
use lfs_sinks::sink::{JournalSink, SinkFault};
use lfs_sinks::spare::SpareRoom;
use lfs_sinks::totals::Tally;
use lfs_types::answer::{Answer, Served};
use lfs_types::cleaned::CleanedStore;
use lfs_types::level::Level;
use lfs_types::request::Request;
use lfs_types::store::FileStore;
use lfs_volume::volume::Volume;
use lfs_words::caller::first_caller;
use std::alloc::{AllocError, Global};
use std::io::Write;
use std::marker::Model;

/// The most entries that a line may make before more room is made.
const LINE_ENTRIES: usize = 107;

/// With so many clean segments or fewer a pass is made unasked: a call is refused `NoSpace` only with fewer.
const FEW_CLEAN: u32 = 3;

/// A volume, and the sink that the entries of each line are given to while it takes them: when a window of them is full
/// they are handed out, and the journal goes on from the present tree. Once the sink takes no more, no call is served.
/// One who watches stands beside.
#[derive(Drop)]
pub struct Tended<F: FileStore + Drop, J: Drop, V: Drop> {
    pub(crate) volume: Volume<F>,
    sink: J,
    pub(crate) watch: V,
    /// What is counted of the entries that were handed out, and of the answers that were told.
    pub(crate) tally: Tally,
    /// Whether the sink takes more.
    is_open: bool,
    /// Whether the cleaner makes a pass unasked where few segments are clean.
    cleans: bool,
    /// Room for a journal.
    spare: SpareRoom,
    /// The program that tells why the sink takes no more.
    program: Teller,
}

impl<F: FileStore + Drop, J: Drop, V: Drop> Model for Tended<F, J, V> {
    ghost use Rattle.lfs_live.specs.Held.{Held};

    ghost Value = { Held F J };

    ghost view = { λ v. record {
      volume = v.volume;
      sink = v.sink;
      tally = v.tally;
      is_open = v.is_open;
      cleans = v.cleans;
    } };
}

impl<F: FileStore + Drop, J: JournalSink + Drop, V: Drop> Tended<F, J, V> {
    /// A volume that is talked to from now on. Where it cleans, the cleaner makes a pass unasked behind each line that
    /// leaves at most three segments clean.
    pub fn new(
        alloc: Global,
        volume: Volume<F>,
        cleans: bool,
        witnesses: Witnesses<J, V>,
    ) -> Tended<F, J, V>
        ensures { result ≡ record {
          volume = volume;
          sink = witnesses.sink;
          tally = tally_of [] [];
          is_open = witnesses.is_open;
          cleans = cleans;
        } }
    {
        let Witnesses {
            sink,
            is_open,
            program,
            watch,
        } = witnesses;
        Tended {
            volume,
            sink,
            watch,
            tally: Tally::none(),
            is_open,
            cleans,
            spare: SpareRoom::none(alloc),
            program,
        }
    }

    /// The sink and the one who watches, without the volume.
    pub fn into_witnesses(self) -> Witnesses<J, V>
        ensures sink { result.sink ≡ self.sink }
        ensures is_open { result.is_open ≡ self.is_open }
    {
        Witnesses {
            sink: self.sink,
            is_open: self.is_open,
            program: self.program,
            watch: self.watch,
        }
    }

    /// Gives the sink the entries behind the first so many, which a line made, and hands all out where there is no room
    /// for what the next line may ask for. Where the sink doesn't take them, that is told once, and no call is served
    /// any more.
    pub(crate) fn move_on<D: Write>(&mut self, teller: &mut D, before: usize)
        ensures moves { (more : List Entry)
            × Moves F.state (sink_of J.contents J.next) before self.old self.new more }
        ensures silent { self.new.is_open ≡ self.old.is_open → teller.new ≡ teller.old }
    {
        if self.is_open {
            if let Err(fault) = self.keep_up(before) {
                self.close(teller, fault);
            }
        }
    }

    /// The sink takes no more, for this fault, which is told. From now on no call is served, as nobody would have its
    /// entry.
    fn close<D: Write>(&mut self, teller: &mut D, fault: SinkFault)
        ensures { self.new ≡ record self.old { volume = closed self.old.volume; is_open = false } }
    {
        self.is_open = false;
        self.volume.close_journal();
        let _ = tell(teller, self.program.name(), &fault);
    }

    /// Gives the sink the entries behind the first so many, and hands all out where there is no room for what a line
    /// may ask for. Where there are none it doesn't fail.
    fn keep_up(&mut self, before: usize) -> Result<(), SinkFault>
        requires { self.old.is_open ≡ true }
        ensures moves { OnOk result ((more : List Entry)
            × Moves F.state (sink_of J.contents J.next) before self.old self.new more) }
        ensures failed { OnErr result (self.new ≡ record self.old { sink = self.new.sink }) }
        ensures some { OnErr result (1 ≤ length self.old.volume.journal) }
    {
        self.give(before)?;
        if self.is_full() {
            self.hand_out()
        } else {
            Ok(())
        }
    }

    /// Whether the journal has entries, and no room for what a line may ask for.
    fn is_full(&self) -> bool
        ensures room { result ≡ false → HasRoom self.now.volume }
        ensures some { result ≡ true → 1 ≤ length self.now.volume.journal }
    {
        let kept = self.volume.journal().len();
        let limit = self.volume.journal_limit() as usize;
        kept > 0 && kept + LINE_ENTRIES > limit
    }

    /// Gives the sink the entries behind the first so many, where there are some.
    fn give(&mut self, before: usize) -> Result<(), SinkFault>
        ensures taken { OnOk result (Takes (sink_of J.contents J.next)
            self.old.sink self.new.sink (drop before self.old.volume.journal)) }
        ensures same { self.new ≡ record self.old { sink = self.new.sink } }
        ensures some { OnErr result (1 ≤ length self.old.volume.journal) }
    {
        if self.volume.journal().len() > 0 {
            self.sink.take(behind(self.volume.journal(), before))
        } else {
            Ok(())
        }
    }

    /// Hands the entries out: the journal goes on without them from the present tree.
    fn hand_out(&mut self) -> Result<(), SinkFault>
        ensures drained { OnOk result (self.new ≡ record {
          volume = drained self.old.volume;
          sink = self.old.sink;
          tally = record self.old.tally {
            totals = counts_sum self.old.tally.totals (counts_of self.old.volume.journal);
          };
          is_open = self.old.is_open;
          cleans = self.old.cleans;
        }) }
        ensures legal { OnOk result (LeadsOn F.state self.old.volume self.new.volume) }
        ensures failed { OnErr result (self.new ≡ self.old) }
    {
        let Some(totals) = self.tally.totals.with(self.volume.counts()) else {
            return Err(SinkFault::Numbers);
        };
        let room = self.spare.take(self.volume.journal_limit())?;
        self.spare.keep(self.volume.drain(room));
        self.tally.totals = totals;
        Ok(())
    }
}

impl<F: CleanedStore + Drop, J: JournalSink + Drop, V: Drop> Tended<F, J, V> {
    /// Makes a pass of the cleaner, as session 255 and the superuser, where one is due; nothing is told of it.
    ///
    /// # Errors
    ///
    /// Memory ran out; some of its calls may have been made.
    pub(crate) fn tidy<D: Write>(&mut self, alloc: Global, teller: &mut D) -> Result<(), AllocError>
        ensures tidied { OnOk result ((more : List Entry) × HasTidied
            (cleaner_of F.state F.is_flushed F.made F.cleaner) (sink_of J.contents J.next)
            self.old self.new more) }
        ensures silent { OnOk result (self.new.is_open ≡ self.old.is_open
            → teller.new ≡ teller.old) }
    {
        if self.is_due() {
            self.pass(alloc, teller)
        } else {
            Ok(())
        }
    }

    /// Whether a pass of the cleaner is due.
    fn is_due(&self) -> bool
        ensures { result ≡ is_due F.state (course_of self.now [] []) }
    {
        self.cleans && self.volume.clean_segments() <= FEW_CLEAN
    }

    /// Makes a pass of the cleaner, whose answers are not told and not counted, and moves on.
    fn pass<D: Write>(&mut self, alloc: Global, teller: &mut D) -> Result<(), AllocError>
        ensures passed { OnOk result ((more : List Entry) × (passed : Seen F) × (untold : List ℕ)
            × TellsLine (cleaner_of F.state F.is_flushed F.made F.cleaner)
            self.old.volume passed 255 first_speaker.cred Pass [] untold
            × Moves F.state (sink_of J.contents J.next) (length self.old.volume.journal)
            (record self.old { volume = passed }) self.new more) }
        ensures silent { OnOk result (self.new.is_open ≡ self.old.is_open
            → teller.new ≡ teller.old) }
    {
        let before = self.volume.journal().len();
        let step = Step {
            session: CLEANER,
            cred: first_caller(),
            act: Act::Pass,
        };
        let mut untold = Vec::new(alloc);
        let mut uncounted = Refusals::none();
        run_step(&mut self.volume, &mut uncounted, step, &mut untold)?;
        self.move_on(teller, before);
        Ok(())
    }
}

impl<F: FileStore + Drop, J: JournalSink + Drop, V: Drop> Tended<F, J, V> {
    /// Writes what waits in the store behind a talk, by a Sync of the superuser as session 0. Where the journal is
    /// full, its entries are let go before; the sink doesn't get that of the Sync, which is no line's. Whether nothing
    /// waits any more. The tree and the securelevel stay. A Sync that isn't served is refused by the store, not for
    /// want of room in the journal.
    ///
    /// # Errors
    ///
    /// There was no memory for the room of a journal that is full. One whose entries were handed out before has it by
    /// then.
    pub fn flush(&mut self) -> Result<bool, AllocError>
        ensures flushed { IfOk result (λ done. done ≡ true → F.is_flushed self.new.volume.store) }
        ensures refused { IfOk result (λ done. done ≡ false → 1 ≤ self.old.volume.limit
            → IsSyncRefused F.state self.old.volume) }
        ensures shown { OnOk result (AtPresent F.state self.old.volume
            (Begins (F.state self.new.volume.store) self.new.volume.level)) }
        ensures same { self.new ≡ record self.old { volume = self.new.volume } }
    {
        self.make_room()?;
        Ok(self.sync())
    }

    /// Makes room in the journal for an entry: where it is full, its entries are let go. One that may have no entry has
    /// none.
    fn make_room(&mut self) -> Result<(), AllocError>
        ensures gone { OnOk result (IsLetGo F.state self.old.volume self.new.volume) }
        ensures room { OnOk result (MayEnter self.new.volume) }
        ensures same { self.new ≡ record self.old { volume = self.new.volume } }
    {
        if self.takes_more() {
            return Ok(());
        }
        self.let_go()
    }

    /// Whether the journal takes a further entry.
    fn takes_more(&self) -> bool
        ensures { result ≡ true → length self.now.volume.journal < self.now.volume.limit }
    {
        let kept = self.volume.journal().len();
        let limit = self.volume.journal_limit() as usize;
        kept < limit
    }

    /// Lets the entries of the journal go, whose room is the spare one. The volume goes on from the present tree.
    fn let_go(&mut self) -> Result<(), AllocError>
        ensures gone { OnOk result (self.new
            ≡ record self.old { volume = drained self.old.volume }) }
        ensures begins { OnOk result (AtPresent F.state self.old.volume
            (Begins (F.state self.new.volume.since) self.new.volume.since_level)) }
        ensures failed { OnErr result (self.new ≡ self.old) }
    {
        let room = self.spare.take(self.volume.journal_limit())?;
        self.spare.keep(self.volume.drain(room));
        Ok(())
    }

    /// Makes a Sync of the superuser as session 0. Whether it was served.
    fn sync(&mut self) -> bool
        ensures flushed { result ≡ true → F.is_flushed self.new.volume.store }
        ensures refused { result ≡ false → length self.old.volume.journal < self.old.volume.limit
            → IsSyncRefused F.state self.old.volume }
        ensures shown { AtPresent F.state self.old.volume
            (Begins (F.state self.new.volume.store) self.new.volume.level) }
        ensures same { self.new ≡ record self.old { volume = self.new.volume } }
    {
        let answer = self.volume.call(0, &first_caller(), Request::Sync);
        let done = is_done(&answer);
        drop(answer);
        done
    }

    /// The store, to be read.
    pub fn store(&self) -> &F
        ensures { result.now ≡ self.now.volume.store }
    {
        self.volume.store()
    }

    /// The securelevel.
    pub fn level(&self) -> Level
        ensures { result ≡ self.now.volume.level }
    {
        self.volume.level()
    }
}

impl<F: FileStore + Drop, J: JournalSink + Drop, V: Watch<F> + Drop> Tended<F, J, V> {
    /// Shows the one who watches the store, behind a line of which this was told.
    pub fn show(&mut self, alloc: Global, line: &[u8], told: &[u8]) -> Result<(), AllocError>
        ensures { self.new ≡ self.old }
    {
        self.watch.watch(alloc, line, told, self.volume.store())
    }
}

/// Whether an answer is that a call is done, and shows nothing.
fn is_done(answer: &Answer) -> bool
    ensures { result ≡ is_done answer.now }
{
    matches!(answer, Answer::Served(Served::Done))
}

/// The entries behind the first so many.
fn behind(entries: &[Entry], before: usize) -> &[Entry]
    ensures { result.now ≡ drop before entries.now }
{
    &entries[before.min(entries.len())..]
}
