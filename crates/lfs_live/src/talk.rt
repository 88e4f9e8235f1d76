//! Lines of a reader, each answered on a writer before the next is read.

ghost use Rattle.std.specs.Prelude.{◌≡◌, ◌++◌, ◌||◌, List, false, true, IfErr, IfOk, OnOk};
ghost use Rattle.std.specs.Io.KnownBytes.{Appends, Keeps};
ghost use Rattle.lfs_audit.specs.declared.fault.RunFault.TheVariants.{Read};
ghost use Rattle.lfs_model.specs.Steps.{IsLegal};
ghost use Rattle.lfs_model.specs.declared.steps.StepAnswer.{StepAnswer};
ghost use Rattle.lfs_sinks.specs.Refusals.{run_report, tally_of};
ghost use Rattle.lfs_volume.specs.Cleanings.{cleaner_of};
ghost use Rattle.lfs_volume.specs.Journals.{Since};
ghost use Rattle.lfs_live.specs.Held.{HasBegun, sink_of};
ghost use Rattle.lfs_live.specs.Steps.{FailsHere, HeardAll, HeardSoFar, HearsLast, HearsNext, IsTold};
ghost use Rattle.lfs_live.specs.Talkers.{talker_of};
ghost use Rattle.lfs_live.specs.Talking.{HasKeptSoFar, IsKeptTalk, first_speaker};
ghost use Rattle.lfs_live.specs.Telling.{cut_texts};
ghost use Rattle.lfs_live.specs.Faults.{IsLateFault, IsTalkFault};
ghost use Rattle.lfs_live.specs.Faulty.{is_told};
ghost use Rattle.lfs_live.specs.Frames.{framed, frames};
ghost use Rattle.lfs_hearing.specs.Hearing.{heard_of};
ghost use Rattle.lfs_hearing.specs.declared.hearing.Dot.TheVariants.{Quit};
ghost use Rattle.lfs_hearing.specs.declared.hearing.Heard.TheVariants as heard;

use crate::framing::Framing;
use crate::line::read_line;
use crate::telling::{NumberedLine, Said, answer, first_speaker, tell_cut, tell_report};
use crate::tended::Tended;
use crate::watch::Watch;
use lfs_audit::asker::Asker;
use lfs_audit::fault::RunFault;
use lfs_checking::standing::ChecksLog;
use lfs_model::journal::Entry;
use lfs_sinks::sink::JournalSink;
use lfs_types::cleaned::CleanedStore;
use lfs_types::store::FileStore;
use lfs_view::shows::ShowsLog;
use std::alloc::Global;
use std::io::{Read, Write};

/// How a talk is held.
#[derive(Clone, Copy, Debug)]
pub struct Setting {
    /// The memory of its lines and texts.
    pub alloc: Global,
    /// How its answers are framed.
    pub framing: Framing,
}

/// How a talk stands.
#[derive(Clone, Copy, Debug)]
pub(crate) struct Standing {
    /// How it is held.
    setting: Setting,
    /// Who speaks.
    speaker: Asker,
    /// The number of the line that is read next, from 1 on.
    number: u64,
    /// Whether a line had a fault.
    has_fault: bool,
}

/// Reads lines up to the end of the input, or to one that quits; does what each says on a volume, and writes what is
/// told of it, before it reads the next; and then writes the report. One who watches is shown each line that was
/// answered. The entries of each line are given to a sink before the line is answered, and handed out where there is no
/// room for what a line may ask for; why the sink takes no more is told at once, and no call is served from then on.
/// Whether a line had a fault, or there is one behind the last line feed. The clauses speak of a volume with an empty
/// journal.
///
/// # Errors
///
/// `Read` where a read fails: what is told of each line that was read by then is written. `Memory` and `Write`.
pub fn talk<
    F: CleanedStore + ShowsLog + ChecksLog + Drop,
    J: JournalSink + Drop,
    V: Watch<F> + Drop,
    R: Read,
    W: Write,
    D: Write,
>(
    setting: Setting,
    reader: &mut R,
    writer: &mut W,
    teller: &mut D,
    tended: &mut Tended<F, J, V>,
) -> Result<bool, RunFault>
    ensures written { IfOk result (λ has_fault. HasBegun tended.old → IsKeptTalk
        (talker_of (cleaner_of F.state F.is_flushed F.made F.cleaner)
        F.map_text F.segment_text F.space_text F.checked V.kept)
        setting.framing (sink_of J.contents J.next)
        tended.old tended.new has_fault (R.remaining reader.old) (R.remaining reader.new)
        (W.contents writer.old) (W.contents writer.new)) }
    ensures so_far { IfErr result (λ fault. fault ≡ Read → HasBegun tended.old → HasKeptSoFar
        (talker_of (cleaner_of F.state F.is_flushed F.made F.cleaner)
        F.map_text F.segment_text F.space_text F.checked V.kept)
        setting.framing (sink_of J.contents J.next)
        tended.old tended.new (R.remaining reader.old) (R.remaining reader.new)
        (W.contents writer.old) (W.contents writer.new)) }
    ensures opened { OnOk result (tended.new.is_open ≡ true → tended.old.is_open ≡ true) }
    ensures silent { OnOk result (tended.new.is_open ≡ tended.old.is_open
        → teller.new ≡ teller.old) }
    ensures fault { IfErr result IsTalkFault }
{
    let has_fault = hear_all(setting, reader, writer, teller, tended)?;
    report(setting, writer, tended)?;
    Ok(has_fault)
}

/// Writes the report over all entries, and of the answers that were told.
fn report<F: FileStore + Drop, J: JournalSink + Drop, V: Drop, W: Write>(
    setting: Setting,
    writer: &mut W,
    tended: &Tended<F, J, V>,
) -> Result<(), RunFault>
    ensures reported { OnOk result ((handed : List Entry) (answers : List StepAnswer)
        → tended.now.tally ≡ tally_of handed answers
        → Appends (W.contents writer.old) (W.contents writer.new)
        (framed setting.framing (run_report (handed ++ tended.now.volume.journal) answers))) }
    ensures legal { let v = tended.now.volume in
        let shape = (F.state v.store).shape in
        Since (F.state v.since) v.since_level
        (λ from. IsLegal shape.numbers shape.segments v.journal from) }
    ensures fault { IfErr result IsLateFault }
{
    let text = tell_report(setting.alloc, &tended.tally, tended.volume.counts())?;
    setting.framing.say(setting.alloc, writer, text.as_slice())
}

/// Reads lines up to the end of the input, or to one that quits, and answers each before it reads the next.
fn hear_all<
    F: CleanedStore + ShowsLog + ChecksLog + Drop,
    J: JournalSink + Drop,
    V: Watch<F> + Drop,
    R: Read,
    W: Write,
    D: Write,
>(
    setting: Setting,
    reader: &mut R,
    writer: &mut W,
    teller: &mut D,
    tended: &mut Tended<F, J, V>,
) -> Result<bool, RunFault>
    ensures heard { IfOk result (λ has_fault. HasBegun tended.old → HeardAll
        (talker_of (cleaner_of F.state F.is_flushed F.made F.cleaner)
        F.map_text F.segment_text F.space_text F.checked V.kept)
        setting.framing (sink_of J.contents J.next)
        tended.old tended.new has_fault (R.remaining reader.old) (R.remaining reader.new)
        (W.contents writer.old) (W.contents writer.new)) }
    ensures so_far { IfErr result (λ fault. fault ≡ Read → HasBegun tended.old → HeardSoFar
        (talker_of (cleaner_of F.state F.is_flushed F.made F.cleaner)
        F.map_text F.segment_text F.space_text F.checked V.kept)
        setting.framing (sink_of J.contents J.next)
        tended.old tended.new (R.remaining reader.old) (R.remaining reader.new)
        (W.contents writer.old) (W.contents writer.new)) }
    ensures opened { OnOk result (tended.new.is_open ≡ true → tended.old.is_open ≡ true) }
    ensures silent { OnOk result (tended.new.is_open ≡ tended.old.is_open
        → teller.new ≡ teller.old) }
    ensures fault { IfErr result IsTalkFault }
{
    let mut standing = Standing::first(setting);
    for before in 0..u64::MAX {
        standing.number = before + 1;
        if !standing.hear_next(reader, writer, teller, tended)? {
            return Ok(standing.has_fault);
        }
    }
    Err(RunFault::Read)
}

impl Standing {
    /// How a talk stands before its first line.
    fn first(setting: Setting) -> Standing
        ensures { result ≡ record {
          setting = setting;
          speaker = first_speaker;
          number = 1;
          has_fault = false;
        } }
    {
        Standing {
            setting,
            speaker: first_speaker(),
            number: 1,
            has_fault: false,
        }
    }

    /// Keeps in mind whether a line had a fault.
    fn note(&mut self, has_fault: bool)
        ensures { self.new ≡ record self.old { has_fault = (self.old.has_fault || has_fault) } }
    {
        self.has_fault = self.has_fault || has_fault;
    }

    /// Reads a line and answers it. Whether more is to be read.
    fn hear_next<
        F: CleanedStore + ShowsLog + ChecksLog + Drop,
        J: JournalSink + Drop,
        V: Watch<F> + Drop,
        R: Read,
        W: Write,
        D: Write,
    >(
        &mut self,
        reader: &mut R,
        writer: &mut W,
        teller: &mut D,
        tended: &mut Tended<F, J, V>,
    ) -> Result<bool, RunFault>
        ensures next { IfOk result (λ goes_on. goes_on ≡ true → HearsNext
            (talker_of (cleaner_of F.state F.is_flushed F.made F.cleaner)
            F.map_text F.segment_text F.space_text F.checked V.kept) (sink_of J.contents J.next)
            tended.old tended.new self.old self.new
            (R.remaining reader.old) (R.remaining reader.new)
            (W.contents writer.old) (W.contents writer.new)) }
        ensures last { IfOk result (λ goes_on. goes_on ≡ false → (tended.new ≡ tended.old)
            × HearsLast self.old self.new (R.remaining reader.old) (R.remaining reader.new)
            (W.contents writer.old) (W.contents writer.new)) }
        ensures failed { IfErr result (λ fault. fault ≡ Read → (tended.new ≡ tended.old) × FailsHere
            (R.remaining reader.old) (R.remaining reader.new)
            (W.contents writer.old) (W.contents writer.new)) }
        ensures same { self.new.setting ≡ self.old.setting }
        ensures silent { OnOk result (tended.new.is_open ≡ tended.old.is_open
            → teller.new ≡ teller.old) }
        ensures fault { IfErr result IsTalkFault }
    {
        let piece = read_line(self.setting.alloc, reader)?;
        if piece.is_ended {
            return self.hear_line(writer, teller, tended, piece.bytes.as_slice());
        }
        self.hear_cut(writer, piece.bytes.as_slice())?;
        Ok(false)
    }

    /// Tells of what is behind the last line feed, where there is something.
    fn hear_cut<W: Write>(&mut self, writer: &mut W, bytes: &[u8]) -> Result<(), RunFault>
        ensures told { OnOk result (Appends (W.contents writer.old) (W.contents writer.new)
            (frames self.old.setting.framing (cut_texts self.old.number bytes.now))) }
        ensures same { self.new.setting ≡ self.old.setting }
        ensures faulty { OnOk result (self.new.has_fault
            ≡ (self.old.has_fault || is_told (cut_texts self.old.number bytes.now))) }
        ensures fault { IfErr result IsLateFault }
    {
        if bytes.is_empty() {
            return Ok(());
        }
        let Setting { alloc, framing } = self.setting;
        let number = self.number;
        let text = tell_cut(alloc, NumberedLine { number, bytes })?;
        framing.say(alloc, writer, text.as_slice())?;
        self.note(true);
        Ok(())
    }

    /// Does what a line says, which is given without its line feed, gives the sink what it entered, and writes what is
    /// told of it; then the cleaner makes a pass where one is due. Whether more is to be read.
    fn hear_line<
        F: CleanedStore + ShowsLog + ChecksLog + Drop,
        J: JournalSink + Drop,
        V: Watch<F> + Drop,
        W: Write,
        D: Write,
    >(
        &mut self,
        writer: &mut W,
        teller: &mut D,
        tended: &mut Tended<F, J, V>,
        bytes: &[u8],
    ) -> Result<bool, RunFault>
        ensures told { IfOk result (λ goes_on. goes_on ≡ true → IsTold
            (talker_of (cleaner_of F.state F.is_flushed F.made F.cleaner)
            F.map_text F.segment_text F.space_text F.checked V.kept) (sink_of J.contents J.next)
            tended.old tended.new self.old self.new (heard_of bytes.now)
            (W.contents writer.old) (W.contents writer.new)) }
        ensures quits { IfOk result (λ goes_on. goes_on ≡ false → (tended.new ≡ tended.old)
            × (self.new.has_fault ≡ self.old.has_fault)
            × (heard_of bytes.now ≡ heard.Dot Quit)
            × Keeps (W.contents writer.old) (W.contents writer.new)) }
        ensures same { self.new.setting ≡ self.old.setting }
        ensures silent { OnOk result (tended.new.is_open ≡ tended.old.is_open
            → teller.new ≡ teller.old) }
        ensures fault { IfErr result IsLateFault }
    {
        let Setting { alloc, framing } = self.setting;
        let number = self.number;
        let before = tended.volume.journal().len();
        let said = Said {
            line: NumberedLine { number, bytes },
            watch: &tended.watch,
        };
        match answer(
            alloc,
            &mut tended.volume,
            &mut tended.tally,
            &mut self.speaker,
            said,
        )? {
            Some(told) => {
                let text = told.text.as_slice();
                tended.move_on(teller, before);
                framing.say(alloc, writer, text)?;
                tended.show(alloc, bytes, text)?;
                tended.tidy(alloc, teller)?;
                self.note(told.has_fault);
                Ok(true)
            }
            None => Ok(false),
        }
    }
}
