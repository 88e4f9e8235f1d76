//! Lines of a reader, one at a time.

ghost use Rattle.std.specs.Prelude.{◌≡◌, ℕ, ◌∷◌, List, [], IfOk, Option, MatchOption, MatchResult};
ghost use Rattle.std.specs.Io.KnownBytes.{Consumes, IsAtEnd, Keeps};
ghost use Rattle.lfs_auditing.specs.Lines.{IsPiece, IsPart};
ghost use Rattle.lfs_auditing.specs.declared.fault.AuditFault.TheVariants.{Read as Failed};

use crate::fault::AuditFault;
use std::io::Read;

/// The most bytes of a line. The names of a directory of 4,096 files have fewer.
pub const LINE_MAX: usize = 4_194_304;

/// What was read of a line.
#[derive(Clone, Copy, PartialEq, Eq, Debug)]
pub enum Piece {
    /// A line, which stands without its line feed.
    Line,
    /// Nothing: the input has ended.
    End,
    /// What is behind the last line feed.
    Cut,
    /// More bytes than a line may have.
    TooLong,
}

/// Reads the next line into a vector, in place of what it had, and not a byte behind its line feed.
///
/// # Errors
///
/// `Read` where the reader fails; `Memory`.
pub fn read_line<R: Read>(reader: &mut R, line: &mut Vec<u8>) -> Result<Piece, AuditFault>
    ensures { IfOk result (IsPiece (R.remaining reader.old) (R.remaining reader.new)
        line.new.items) }
{
    line.clear();
    while line.len() <= LINE_MAX {
        match next_byte(reader)? {
            None => return Ok(end_behind(line)),
            Some(b'\n') => return Ok(Piece::Line),
            Some(byte) => line.push(byte)?,
        }
    }
    Ok(Piece::TooLong)
}

/// What it is where the input ends behind these bytes of a line.
fn end_behind(line: &[u8]) -> Piece
    ensures { (known left : Option (List ℕ)) → IsPart known left line.now → IsAtEnd left
        → IsPiece known left line.now result }
{
    if line.is_empty() {
        Piece::End
    } else {
        Piece::Cut
    }
}

/// The next byte of a reader, or none at its end.
fn next_byte<R: Read>(reader: &mut R) -> Result<Option<u8>, AuditFault>
    ensures { MatchResult result
        (λ next. MatchOption next
        (Keeps (R.remaining reader.old) (R.remaining reader.new) × IsAtEnd (R.remaining reader.new))
        (λ byte. Consumes (R.remaining reader.old) (R.remaining reader.new) (byte ∷ [])))
        (λ fault. (fault ≡ Failed) × Keeps (R.remaining reader.old) (R.remaining reader.new)) }
{
    let mut buffer = [0];
    match reader.read(&mut buffer) {
        Ok(0) => Ok(None),
        Ok(_) => Ok(Some(buffer[0])),
        Err(_) => Err(AuditFault::Read),
    }
}
