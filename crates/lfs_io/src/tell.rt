//! Telling how a run ended: a fault's line, and the status of the program.

ghost use Rattle.std.specs.Prelude.{◌≡◌, ◌∷◌, ◌++◌, [], IfOk, IfSome, MatchResult, OnOk};
ghost use Rattle.std.specs.Io.KnownBytes.{Appends};

use crate::output::WriteFault;
use std::fmt::Display;
use std::io::Write;

/// Writes a fault's line: the program's name, a colon, and what the fault says.
pub fn tell<W: Write, F: Display>(
    writer: &mut W,
    program: &str,
    fault: &F,
) -> Result<(), WriteFault>
    ensures { OnOk result (IfSome (F.output fault.now) (λ text.
        Appends (W.contents writer.old) (W.contents writer.new)
        (program.now ++ 58 ∷ 32 ∷ text ++ 10 ∷ []))) }
{
    match writeln!(writer, "{program}: {fault}") {
        Ok(()) => Ok(()),
        Err(_) => Err(WriteFault),
    }
}

/// Tells the fault of a run that has one, whatever the writer answers, and gives the status with which the program ends: 0
/// for a run that is done, of which nothing is told, 1 for a fault.
pub fn end<W: Write, F: Display + Drop>(writer: &mut W, program: &str, outcome: Result<(), F>) -> u8
    ensures status { MatchResult outcome (λ _. result ≡ 0) (λ _. result ≡ 1) }
    ensures silent { IfOk outcome (λ _. writer.new ≡ writer.old) }
{
    match outcome {
        Ok(()) => 0,
        Err(fault) => {
            let _ = tell(writer, program, &fault);
            1
        }
    }
}
