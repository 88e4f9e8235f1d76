//! Lines of a reader.

ghost use Rattle.std.specs.Prelude.{◌≡◌, ◌≤◌, ◌∷◌, ◌++◌, [], length, take, IfErr, IfOk, MatchOption, MatchResult, OnErr, OnOk};
ghost use Rattle.std.specs.Io.KnownBytes.{Consumes, IsAtEnd, Keeps};
ghost use Rattle.lfs_audit.specs.declared.fault.RunFault.TheVariants.{Read};
ghost use Rattle.lfs_live.specs.Faults.{IsTalkFault};
ghost use Rattle.lfs_live.specs.Pieces.{IsPiece, IsUnended};

use lfs_audit::fault::RunFault;
use lfs_hearing::hearing::LINE_MAX;
use std::alloc::{AllocError, Global};
use std::io::Read;

/// What was read of a line.
#[derive(Drop)]
pub struct Piece {
    /// The first 65,537 of its bytes, without its line feed.
    pub bytes: Vec<u8>,
    /// Whether its line feed was read. Else the input ended.
    pub is_ended: bool,
}

/// Reads a line up to its line feed, or to the end of the input, and not a byte more. However long it is, 65,537 of its
/// bytes are kept.
///
/// # Errors
///
/// `Read` where the reader fails, or has no line feed in 2^64 - 1 bytes; `Memory`. No line feed was read by then.
pub fn read_line<R: Read>(alloc: Global, reader: &mut R) -> Result<Piece, RunFault>
    ensures read { IfOk result (λ piece. IsPiece
        (R.remaining reader.old) (R.remaining reader.new) piece.is_ended piece.bytes.items) }
    ensures failed { OnErr result (IsUnended (R.remaining reader.old) (R.remaining reader.new)) }
    ensures fault { IfErr result IsTalkFault }
{
    let mut bytes = Vec::new(alloc);
    for _ in 0..u64::MAX {
        let Some(byte) = next_byte(reader)? else {
            return Ok(Piece {
                bytes,
                is_ended: false,
            });
        };
        if byte == b'\n' {
            return Ok(Piece {
                bytes,
                is_ended: true,
            });
        }
        keep(&mut bytes, byte)?;
    }
    Err(RunFault::Read)
}

/// The next byte of a reader, or none at its end.
fn next_byte<R: Read>(reader: &mut R) -> Result<Option<u8>, RunFault>
    ensures { MatchResult result
        (λ next. MatchOption next
        (Keeps (R.remaining reader.old) (R.remaining reader.new) × IsAtEnd (R.remaining reader.new))
        (λ byte. Consumes (R.remaining reader.old) (R.remaining reader.new) (byte ∷ [])))
        (λ fault. (fault ≡ Read) × Keeps (R.remaining reader.old) (R.remaining reader.new)) }
{
    let mut buffer = [0];
    match reader.read(&mut buffer) {
        Ok(0) => Ok(None),
        Ok(_) => Ok(Some(buffer[0])),
        Err(_) => Err(RunFault::Read),
    }
}

/// Keeps a byte of a line, where it is one of the first 65,537.
fn keep(bytes: &mut Vec<u8>, byte: u8) -> Result<(), AllocError>
    requires { length bytes.old.items ≤ 65537 }
    ensures { OnOk result (bytes.new.items ≡ take 65537 (bytes.old.items ++ byte ∷ [])) }
{
    if bytes.len() <= LINE_MAX {
        bytes.push(byte)?;
    }
    Ok(())
}
