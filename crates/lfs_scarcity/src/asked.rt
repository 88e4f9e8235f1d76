//! What is asked of a volume: the calls of a script that stands in the program.

use crate::told::on_the_way;
use lfs_audit::fault::RunFault;
use lfs_audit::plan::{Act, Step};
use lfs_audit::script::parse_script;
use lfs_types::cred::Cred;
use lfs_types::request::Request;
use std::alloc::Global;
use std::io::Write;

/// A user's call: in which session, who asks, and what.
pub(crate) type Asked = (u8, Cred, Request);

/// The most bytes of a script that stands in the program.
const SCRIPT_MAX: usize = 4_096;

/// The users' calls of a script, in the order of its lines.
fn calls_in(alloc: Global, script: &str) -> Result<Vec<Asked>, RunFault> {
    if script.len() > SCRIPT_MAX {
        return Err(RunFault::TooLong);
    }
    let steps = match parse_script(alloc, script.as_bytes()) {
        Ok(plan) => plan.into_steps(),
        Err(fault) => return Err(RunFault::Script(fault)),
    };
    let mut calls = Vec::new(alloc);
    for Step { session, cred, act } in steps {
        if let Act::User(request) = act {
            calls.push((session, cred, request))?;
        }
    }
    Ok(calls)
}

/// The same, asked for once more where memory was refused; of which a line is written.
pub(crate) fn calls<W: Write>(alloc: Global, writer: &mut W, script: &str) -> Option<Vec<Asked>> {
    match on_the_way(writer, "calls", calls_in(alloc, script)) {
        Some(calls) => Some(calls),
        None => on_the_way(writer, "calls", calls_in(alloc, script)),
    }
}
