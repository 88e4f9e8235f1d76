//! The calls of series, with their paths and bytes.

use crate::scale::Scale;
use crate::series::Series;
use crate::step::{OWNER, Spot, Step, Verb};
use anyhow::{Result, bail};
use lfs_types::cred::Cred;
use lfs_types::mode::Mode;
use lfs_types::path::Path;
use lfs_types::payload::Payload;
use lfs_types::request::Request;
use std::alloc::Global;
use std::fmt;

/// A user's cred and what he asks for.
pub type Call = (Cred, Request);

/// The calls of some series, one series after another.
pub fn calls_of(alloc: Global, scale: &Scale, all: &[Series]) -> Result<Vec<Call>> {
    let mut calls = Vec::new(alloc);
    for series in all {
        push_all(alloc, scale, *series, &mut calls)?;
    }
    Ok(calls)
}

/// Adds the calls of a series.
fn push_all(alloc: Global, scale: &Scale, series: Series, calls: &mut Vec<Call>) -> Result<()> {
    for index in 0..series.count(scale) {
        let step = series.step(scale, index);
        let cred = Cred::new(step.user, &[step.user], false).unwrap();
        calls.push((cred, request_of(alloc, scale, step)?))?;
    }
    Ok(())
}

/// What a call asks, with its paths and bytes.
fn request_of(alloc: Global, scale: &Scale, step: Step) -> Result<Request> {
    let path = path_of(alloc, scale, step.spot)?;
    Ok(match step.verb {
        Verb::Stat => Request::Stat { path },
        Verb::Read(off, len) => Request::Read { path, off, len },
        Verb::Write(place, size) => Request::Write {
            path,
            place,
            bytes: payload_of(alloc, size)?,
        },
        Verb::SetLength(len) => Request::SetLength { path, len },
        Verb::List => Request::List { path },
        Verb::Create => Request::Create {
            path,
            mode: Mode::new(0o644).unwrap(),
        },
        Verb::Mkdir => Request::Mkdir {
            path,
            mode: Mode::new(0o755).unwrap(),
        },
        Verb::Unlink => Request::Unlink { path },
        Verb::Rename(to) => Request::Rename {
            from: path,
            to: path_of(alloc, scale, to)?,
        },
        Verb::Give => Request::Chown {
            path,
            uid: OWNER,
            gid: OWNER,
        },
        Verb::Sync => Request::Sync,
    })
}

/// So many bytes, at most 4,096.
fn payload_of(alloc: Global, size: u32) -> Result<Payload> {
    let bytes = vec![in alloc; 0x5a; size as usize]?;
    let Ok(payload) = Payload::new(bytes) else {
        bail!("too many bytes");
    };
    Ok(payload)
}

/// The path of what a call names.
fn path_of(alloc: Global, scale: &Scale, spot: Spot) -> Result<Path> {
    let depth = scale.components.saturating_sub(1);
    let text = format!(in alloc; "{}", Spelled { depth, spot })?;
    Ok(Path::parse(alloc, text.as_str())?)
}

/// The text of a path, below so many directories where it doesn't say how many itself.
#[derive(Clone, Copy)]
struct Spelled {
    depth: u32,
    spot: Spot,
}

impl fmt::Display for Spelled {
    fn fmt<W: fmt::Write>(&self, f: &mut fmt::Formatter<W>) -> fmt::Result {
        let depth = match self.spot {
            Spot::Root => return f.write_str("/"),
            Spot::Directory(depth) => depth,
            _ => self.depth,
        };
        write_directories(f, depth)?;
        match self.spot {
            Spot::Root | Spot::Directory(_) => Ok(()),
            Spot::File(number) => write!(f, "/file{number:03}"),
            Spot::Made => f.write_str("/made"),
            Spot::MadeBy(session) => write!(f, "/made{session}"),
            Spot::Moved => f.write_str("/moved"),
        }
    }
}

/// Writes the path of so many directories.
fn write_directories<W: fmt::Write>(f: &mut fmt::Formatter<W>, depth: u32) -> fmt::Result {
    for _ in 0..depth {
        f.write_str("/dir")?;
    }
    Ok(())
}
