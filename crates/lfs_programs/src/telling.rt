//! The fault of a run of a script, told.

use crate::server::NAME;
use lfs_audit::fault::{RunFault, ThreadsFault};
use lfs_io::tell::tell;
use lfs_script::fault::ScriptFault;
use lfs_script::place::push_place;
use lfs_words::fault::FaultKind;
use std::alloc::{AllocError, Global};
use std::io::Write;
use std::str;
use thiserror::Error;

/// The fault of a run, and where it stands.
#[derive(Clone, Copy, Debug, Error)]
#[error("{fault}{place}")]
struct PlacedFault<'a> {
    /// The fault.
    fault: ThreadsFault,
    /// Where it stands in its line, and what was expected there; empty of one that is no line's.
    place: &'a str,
}

/// Tells the fault of a run of a script, of a fault of this line also where it stands and what was expected there, unless
/// memory is wanting.
pub(crate) fn tell_fault<D: Write>(
    alloc: Global,
    line: &[u8],
    fault: ThreadsFault,
    stderr: &mut D,
) {
    let mut text = Vec::new(alloc);
    let place = match push_fault_place(alloc, &mut text, line, fault) {
        Ok(()) => str::from_utf8(text.as_slice()).unwrap_or_default(),
        Err(AllocError) => "",
    };
    let _ = tell(stderr, NAME, &PlacedFault { fault, place });
}

/// Appends where the fault of a run stands in its line, and what was expected there.
fn push_fault_place(
    alloc: Global,
    text: &mut Vec<u8>,
    line: &[u8],
    fault: ThreadsFault,
) -> Result<(), AllocError> {
    match fault {
        ThreadsFault::Run(RunFault::Script(fault)) => push_line_place(alloc, text, line, fault),
        ThreadsFault::Run(
            RunFault::Read
            | RunFault::TooLong
            | RunFault::Format(_)
            | RunFault::Memory
            | RunFault::Write,
        )
        | ThreadsFault::CleanerLine
        | ThreadsFault::Serve(_) => Ok(()),
    }
}

/// Appends where the fault of a script stands in its line, and what was expected there.
fn push_line_place(
    alloc: Global,
    text: &mut Vec<u8>,
    line: &[u8],
    fault: ScriptFault,
) -> Result<(), AllocError> {
    match fault.kind {
        FaultKind::Cut => text.extend_from_slice(b" a line ends in a line feed"),
        FaultKind::Memory => Ok(()),
        _ => push_place(alloc, text, 0, line),
    }
}
