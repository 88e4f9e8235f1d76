//! What the blocks of a volume tell whose summaries have serials: which partial segments are whole, and which record of
//! each number is the newest (this project's profile; after the roll-forward of 4.4BSD's log-structured file system).
#![tactic(auto)]

mod newest;
mod partials;
mod places;
mod reader;
mod whole;

pub use newest::newest_records;
pub use partials::partial_segments;
pub use places::{PartialSegment, RecordPlace};
