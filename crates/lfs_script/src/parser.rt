//! Parsing a script whose text comes piece by piece.

ghost use Rattle.std.specs.Prelude.{◌≡◌, ◌≤◌, ◌<◌, ◌+◌, ◌^◌, ◌++◌, ℕ, List, [], length, None, IfOk, OnOk, MatchOption};
ghost use Rattle.lfs_script.specs.Parsing.{ParsesScript};
ghost use Rattle.lfs_script.specs.Taking.{HasTaken, IsTaken, most_lines};

use crate::fault::ScriptFault;
use crate::lines::LineParser;
use crate::plan::Plan;
use lfs_words::line::cut_line;
use std::alloc::{AllocError, Global};

/// What was taken of a script: its lines, which are parsed, and what is behind the last line feed.
#[derive(Drop)]
pub struct ScriptParser {
    lines: LineParser,
    carry: Vec<u8>,
}

impl ScriptParser {
    /// Nothing was taken.
    pub fn new(alloc: Global) -> ScriptParser
        ensures taken { HasTaken [] result }
        ensures counted { most_lines result ≡ 0 }
    {
        ScriptParser {
            lines: LineParser::new(alloc),
            carry: Vec::new(alloc),
        }
    }

    /// Takes a piece of the text. Its lines are parsed where they lie, up to the first of the script that has a fault;
    /// what goes on in the next piece is copied. Behind an error, which is of that copy, nothing is known.
    pub fn take(&mut self, alloc: Global, piece: &[u8]) -> Result<(), AllocError>
        requires { most_lines self.old + length piece.now < 2 ^ 32 }
        ensures taken { OnOk result ((text : List ℕ) → HasTaken text self.old
            → HasTaken (text ++ piece.now) self.new) }
        ensures counted { OnOk result (most_lines self.new ≤ most_lines self.old + length piece.now) }
    {
        if self.lines.has_fault() {
            return Ok(());
        }
        let Some(rest) = self.end_carried(alloc, piece)? else {
            return Ok(());
        };
        let left = self.lines.take_lines(alloc, rest);
        if !self.lines.has_fault() {
            self.carry.extend_from_slice(left)?;
        }
        Ok(())
    }

    /// Ends the line that was carried over, where there is one, and gives the piece behind it: none where the line goes
    /// on behind this piece.
    fn end_carried<'a>(
        &mut self,
        alloc: Global,
        piece: &'a [u8],
    ) -> Result<Option<&'a [u8]>, AllocError>
        requires faultless { self.old.lines.fault ≡ None }
        requires counted { most_lines self.old + length piece.now < 2 ^ 32 }
        ensures taken { IfOk result (λ found. (text : List ℕ) → HasTaken text self.old
            → MatchOption found (HasTaken (text ++ piece.now) self.new)
            (λ rest. IsTaken (text ++ piece.now) rest.now self.new.lines)) }
        ensures carry { IfOk result (λ found. MatchOption found
            (most_lines self.new ≤ most_lines self.old + length piece.now)
            (λ rest. (self.new.carry.items ≡ [])
            × (self.new.lines.line + length rest.now ≤ most_lines self.old + length piece.now))) }
    {
        if self.carry.is_empty() {
            return Ok(Some(piece));
        }
        let Some((end, rest)) = cut_line(piece) else {
            self.carry.extend_from_slice(piece)?;
            return Ok(None);
        };
        self.carry.extend_from_slice(end)?;
        self.lines.take_line(alloc, self.carry.as_slice());
        self.carry.clear();
        Ok(Some(rest))
    }

    /// The line that has the first fault of the script, without its line feed: to tell where in it the fault stands
    /// (`push_place`). Empty where no line that was taken has a fault, and where memory for its copy is wanting.
    pub fn faulty_line(&self) -> &[u8] {
        self.lines.faulty()
    }

    /// What the script asks, or its first fault: that of the first line that has one.
    pub fn finish(self) -> Result<Plan, ScriptFault>
        requires { most_lines self < 2 ^ 32 }
        ensures { (text : List ℕ) → HasTaken text self → ParsesScript text result }
    {
        let ScriptParser { lines, carry } = self;
        lines.finish(carry.as_slice())
    }
}
