//! Reading a script.

ghost use Rattle.std.specs.Prelude.{◌≡◌, ◌≤◌, ◌<◌, length, IfErr, IfOk, IfSome, vec_len};
ghost use Rattle.lfs_io.specs.declared.read.ReadFault.TheVariants.{TooLong};

use crate::pieces::Pieces;
use std::alloc::Global;
use std::io::Read;
use thiserror::Error;

/// Why a script is not read to its end.
#[derive(Clone, Copy, PartialEq, Eq, Debug, Error)]
pub enum ReadFault {
    /// The reader failed.
    #[error("read failed")]
    Read,
    /// The script has more than 1,048,576 bytes.
    #[error("script too long")]
    TooLong,
    /// A growth was refused.
    #[error("no memory")]
    Memory,
}

/// The most bytes of a script.
pub const SCRIPT_MAX: usize = 1_048_576;

/// The bytes that a reader has left, at most 1,048,576.
///
/// An error of the reader ends it. A reader that never ends is given up after at most 1,048,577 reads.
pub fn read_script<R: Read>(alloc: Global, reader: &mut R) -> Result<Vec<u8>, ReadFault>
    ensures bounded { IfOk result (λ script. vec_len script ≤ 1048576) }
    ensures whole { IfSome (R.remaining reader.old)
        (λ bytes. IfOk result (λ script. script.items ≡ bytes)) }
    ensures fault { IfErr result (λ fault. fault ≡ TooLong
        → IfSome (R.remaining reader.old) (λ bytes. 1048576 < length bytes)) }
{
    let mut script = Vec::new(alloc);
    let mut pieces = Pieces::new();
    while pieces.advance(reader)? {
        if script.extend_from_slice(pieces.piece()).is_err() {
            return Err(ReadFault::Memory);
        }
    }
    Ok(script)
}
