//! A summary of a log: with a serial, where its summaries have serials, else without one.

ghost use Rattle.std.specs.Prelude.{◌≡◌, ℕ, Some, is_some, option_map};
ghost use Rattle.lfs_segments.specs.Memory.{IsNextSerial, next_serial, serial_after};
ghost use Rattle.lfs_segments.specs.Reading.{named_by};
ghost use Rattle.lfs_segments.specs.Serial.{IsSummaryWith, entries_in, told_in};

use crate::serial::SerialSummary;
use crate::summary::Summary;
use lfs_types::block::Block;

/// The summary that a block spells in a log whose summaries have serials, or in one whose summaries have none.
pub fn summary_in(block: &Block, has_serials: bool) -> Option<Summary>
    ensures { option_map named_by result ≡ entries_in has_serials block.now }
{
    if has_serials {
        plain_summary(SerialSummary::decode(block))
    } else {
        Summary::decode(block)
    }
}

/// The summary without its serial.
fn plain_summary(told: Option<SerialSummary>) -> Option<Summary>
    ensures { result ≡ option_map (λ s. s.summary) told }
{
    match told {
        Some(told) => Some(told.summary),
        None => None,
    }
}

/// The block that spells a summary with this serial, or without one where there is none.
pub(crate) fn summary_block(serial: Option<u32>, summary: &Summary) -> Block
    requires { IsNextSerial serial }
    ensures spelled { IsSummaryWith serial result
        summary.now.segment summary.now.offset (named_by summary.now) }
    ensures entries { entries_in (is_some serial) result ≡ Some (named_by summary.now) }
    ensures told { (known : ℕ) → serial ≡ Some known → told_in result ≡ Some (record {
      serial = known;
      segment = summary.now.segment;
      offset = summary.now.offset;
      entries = named_by summary.now;
    }) }
{
    match serial {
        Some(serial) => {
            let told = SerialSummary {
                serial,
                summary: *summary,
            };
            told.encode()
        }
        None => summary.encode(),
    }
}

/// The serial behind one; the last one stays.
fn serial_after(serial: u32) -> u32
    ensures { result ≡ serial_after serial }
{
    if serial < u32::MAX {
        serial + 1
    } else {
        serial
    }
}

/// The serial that the summary behind one with this serial gets, where there is one.
pub(crate) fn next_serial(serial: Option<u32>) -> Option<u32>
    ensures { result ≡ next_serial serial }
{
    match serial {
        Some(serial) => Some(serial_after(serial)),
        None => None,
    }
}
