//! The lines of a script, parsed up to the first that has a fault.

ghost use Rattle.std.specs.Prelude.{◌≡◌, ◌≢◌, ◌≤◌, ◌<◌, ◌+◌, ◌^◌, ◌∷◌, ◌++◌, ℕ, List, length, true, Ok, Err, None, MatchResult, IsSome, IsTrue, is_some};
ghost use Rattle.lfs_words.specs.Lines.{HasNoLineFeed, is_printable};
ghost use Rattle.lfs_words.specs.declared.fault.FaultKind.TheVariants.{Memory};
ghost use Rattle.lfs_script.specs.Parsing.{ParsesScript};
ghost use Rattle.lfs_script.specs.Plans.{added, line_said};
ghost use Rattle.lfs_script.specs.Taking.{IsTaken};
ghost use Rattle.lfs_script.specs.declared.plan.Line.{Line};

use crate::fault::ScriptFault;
use crate::plan::{Draft, Plan};
use crate::script::parse_line;
use lfs_words::fault::FaultKind;
use lfs_words::line::cut_line;
use std::alloc::Global;

/// What was parsed of a script: its lines up to the first that has a fault.
#[derive(Drop)]
pub(crate) struct LineParser {
    draft: Draft,
    line: u32,
    fault: Option<FaultKind>,
    /// The line that has the fault; empty where none has one, and where memory for its copy is wanting.
    faulty: Vec<u8>,
}

impl LineParser {
    /// Nothing was parsed.
    pub(crate) fn new(alloc: Global) -> LineParser
        ensures taken { (text : List ℕ) → IsTaken text text result }
        ensures line { result.line ≡ 0 }
    {
        LineParser {
            draft: Draft::new(alloc),
            line: 0,
            fault: None,
            faulty: Vec::new(alloc),
        }
    }

    /// Whether a line has a fault.
    pub(crate) fn has_fault(&self) -> bool
        ensures { result ≡ is_some self.now.fault }
    {
        self.fault.is_some()
    }

    /// The line that has a fault, without its line feed: to tell where in it the fault stands. Empty where no line has
    /// one, and where memory for its copy is wanting.
    pub(crate) fn faulty(&self) -> &[u8] {
        self.faulty.as_slice()
    }

    /// Parses the lines of a text up to the first that has a fault, and gives what is left: what is behind the last line
    /// feed, where none has one.
    pub(crate) fn take_lines<'a>(&mut self, alloc: Global, text: &'a [u8]) -> &'a [u8]
        requires { self.old.line + length text.now < 2 ^ 32 }
        ensures taken { (whole : List ℕ) → IsTaken whole text.now self.old
            → IsTaken whole result.now self.new }
        ensures unended { self.new.fault ≡ None → HasNoLineFeed result.now }
        ensures counted { self.new.line + length result.now ≤ self.old.line + length text.now }
    {
        let mut rest = text;
        while !self.has_fault() {
            let Some((line, behind)) = cut_line(rest) else {
                return rest;
            };
            self.take_line(alloc, line);
            rest = behind;
        }
        rest
    }

    /// Parses a line, which is given without its line feed.
    pub(crate) fn take_line(&mut self, alloc: Global, line: &[u8])
        requires faultless { self.old.fault ≡ None }
        requires counted { self.old.line + 1 < 2 ^ 32 }
        ensures taken { (whole behind : List ℕ) → HasNoLineFeed line.now
            → IsTaken whole (line.now ++ 10 ∷ behind) self.old → IsTaken whole behind self.new }
        ensures counted { self.new.line ≡ self.old.line + 1 }
    {
        self.line += 1;
        if let Err(kind) = add_line(alloc, line, &mut self.draft) {
            self.fault = Some(kind);
            let _ = self.faulty.extend_from_slice(line);
        }
    }

    /// The plan of these lines, or the first fault, where nothing comes behind what is left.
    pub(crate) fn finish(self, left: &[u8]) -> Result<Plan, ScriptFault>
        requires { self.line + length left.now < 2 ^ 32 }
        ensures { (text : List ℕ) → IsTaken text left.now self
            → (self.fault ≡ None → HasNoLineFeed left.now) → ParsesScript text result }
    {
        let LineParser {
            draft,
            line,
            fault,
            faulty,
        } = self;
        drop(faulty);
        match fault {
            Some(kind) => Err(ScriptFault { line, kind }),
            None => {
                if left.is_empty() {
                    Ok(draft.finish())
                } else {
                    let line = line + 1;
                    let kind = FaultKind::Cut;
                    Err(ScriptFault { line, kind })
                }
            }
        }
    }
}

/// Adds a line to a draft.
fn add_line(alloc: Global, line: &[u8], draft: &mut Draft) -> Result<(), FaultKind>
    ensures { MatchResult result
        (λ _. (said : Line) × (line_said line.now ≡ Ok said) × (draft.new ≡ added draft.old said))
        (λ kind. (kind ≢ Memory → line_said line.now ≡ Err kind)
        × (kind ≡ Memory → is_printable line.now ≡ true)) }
{
    let said = parse_line(alloc, line)?;
    draft.add(said)?;
    Ok(())
}
