//! How the answers of a talk are framed.

ghost use Rattle.std.specs.Prelude.{◌≡◌, IfErr, IfOk, OnOk};
ghost use Rattle.std.specs.Io.KnownBytes.{Appends};
ghost use Rattle.lfs_live.specs.Faults.{IsLateFault};
ghost use Rattle.lfs_live.specs.Frames.{frame_head, framed, line_count};

use lfs_audit::fault::RunFault;
use lfs_io::output::{flush, write_text};
use lfs_words::append::push_decimal;
use std::alloc::{AllocError, Global};
use std::io::Write;

/// How each answer of a talk is framed, the report at its end too.
#[derive(Clone, Copy, PartialEq, Eq, Debug)]
pub enum Framing {
    /// It stands as it is.
    Plain,
    /// It stands behind a line with the count of its lines, so that who reads it knows where it ends.
    Counted,
}

impl Framing {
    /// Writes an answer in its frame, and lets the writer hand it on.
    pub(crate) fn say<W: Write>(
        self,
        alloc: Global,
        writer: &mut W,
        text: &[u8],
    ) -> Result<(), RunFault>
        ensures written { OnOk result (Appends (W.contents writer.old) (W.contents writer.new)
            (framed self text.now)) }
        ensures fault { IfErr result IsLateFault }
    {
        let head = self.head(alloc, text)?;
        write_text(writer, head.as_slice())?;
        write_text(writer, text)?;
        flush(writer)?;
        Ok(())
    }

    /// What stands before an answer.
    fn head(self, alloc: Global, text: &[u8]) -> Result<Vec<u8>, AllocError>
        ensures { IfOk result (λ head. head.items ≡ frame_head self text.now) }
    {
        let mut head = Vec::new(alloc);
        match self {
            Framing::Plain => {}
            Framing::Counted => {
                push_decimal(&mut head, line_count(text))?;
                head.push(b'\n')?;
            }
        }
        Ok(head)
    }
}

/// How many lines an answer has: its line feeds.
fn line_count(text: &[u8]) -> u64
    ensures { result ≡ line_count text.now }
{
    text.iter().filter(|byte| **byte == b'\n').count() as u64
}
