//! A summary with a serial, by which a log tells the order of its partial segments.

ghost use Rattle.std.specs.Prelude.{◌≡◌, ◌<◌, ℕ, List, IfSome, None, Some, option_map};
ghost use Rattle.lfs_segments.specs.Bytes.{IsBlock};

use crate::bytes::{put_word, word};
use crate::summary::Summary;
use lfs_types::block::Block;

/// The place of the serial in the block of a summary. Without a serial there are zeros.
const SERIAL_PLACE: usize = 12;

/// A summary, and which partial segment of the volume it begins (this project's profile).
#[derive(Clone, Copy, PartialEq, Eq, Debug)]
pub struct SerialSummary {
    /// Counted from 1 over all segments, in the order in which they are written.
    pub serial: u32,
    /// Where the partial segment stands, and what its blocks are.
    pub summary: Summary,
    ghost told: { 0 < serial },
}

impl SerialSummary {
    ghost use Rattle.lfs_segments.specs.Reading.{summary_entries};
    ghost use Rattle.lfs_segments.specs.Serial.{IsSerialBlock, told_by, told_in, without_serial};

    /// The block that spells the summary with its serial. No other block does, and as a summary without a serial it is
    /// refused.
    pub fn encode(&self) -> Block
        ensures spelled { IsSerialBlock result self.now }
        ensures only { (bytes : List ℕ) → IsBlock bytes → IsSerialBlock bytes self.now
            → bytes ≡ result }
        ensures told { told_in result ≡ Some (told_by self.now) }
        ensures apart { summary_entries result ≡ None }
    {
        let mut block = self.summary.encode();
        put_word(&mut block, SERIAL_PLACE, self.serial);
        block
    }

    /// The summary with a serial that a block spells, or None where it spells none, as where it has no serial.
    pub fn decode(block: &Block) -> Option<SerialSummary>
        ensures found { IfSome result (λ summary. IsSerialBlock block.now summary) }
        ensures only { (summary : SerialSummary) → IsSerialBlock block.now summary
            → result ≡ Some summary }
        ensures told { option_map told_by result ≡ told_in block.now }
    {
        let serial = word(block, SERIAL_PLACE);
        if serial == 0 {
            return None;
        }
        match Summary::decode(&SerialSummary::without_serial(block)) {
            Some(summary) => Some(SerialSummary { serial, summary }),
            None => None,
        }
    }

    /// The block with zeros in the place of a serial.
    fn without_serial(block: &Block) -> Block
        ensures { result ≡ without_serial block.now }
    {
        let mut plain = *block;
        put_word(&mut plain, SERIAL_PLACE, 0);
        plain
    }
}
