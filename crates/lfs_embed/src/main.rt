//! A file server inside a program: two users on threads of their own, calls that are denied, and what the journal has.
#![tactic(auto)]

use lfs_model::journal::{Entry, Event};
use lfs_print::print::push_answer;
use lfs_script::spelling::push_request;
use lfs_server::fresh::fresh_volume;
use lfs_server::live::{Client, Live, serve_clients};
use lfs_server::live_session::Session;
use lfs_types::cred::Cred;
use lfs_types::mode::Mode;
use lfs_types::path::Path;
use lfs_types::request::Request;
use lfs_types::store::Params;
use std::alloc::{AllocError, Global};
use std::io::Write;

/// One who uses the server, and his number.
#[derive(Drop, Clone, Copy)]
struct User(Global, u32);

impl Client for User {
    fn run<L: Live + Sync>(self, server: &L) {
        let _ = make(self.0, server, self.1);
    }
}

/// Makes a file in a session. User 8 may not, as the root is the superuser's.
fn make<L: Live>(alloc: Global, server: &L, uid: u32) -> anyhow::Result<()> {
    let mut session = Session::begin(server, Cred::new(uid, &[uid], false)?)?;
    let path = Path::parse(alloc, if uid == 0 { "/a" } else { "/b" })?;
    let mode = Mode::new(0o644).unwrap();
    session.call(Request::Create { path, mode })?;
    session.end();
    Ok(())
}

/// Appends what the journal has of a user's calls, a line for each.
fn push_user(lines: &mut Vec<u8>, journal: &[Entry], uid: u32) -> Result<(), AllocError> {
    for entry in journal {
        if let (Event::User(request, answer), true) = (&entry.event, entry.cred.uid() == uid) {
            push_request(lines, request)?;
            lines.extend_from_slice(b" |")?;
            push_answer(lines, answer)?;
            lines.push(b'\n')?;
        }
    }
    Ok(())
}

fn main(rt: HostRuntime) -> anyhow::Result<()> {
    let params = Params {
        segments: 64,
        inodes: 256,
        frames: 64,
        journal: 4096,
    };
    let volume = fresh_volume(rt.alloc(), params)?;
    let users = Vec::from_slice(rt.alloc(), &[User(rt.alloc(), 0), User(rt.alloc(), 8)])?;
    let stopped = serve_clients(&rt, rt.alloc(), volume, users, &())?;
    let mut lines = Vec::new(rt.alloc());
    push_user(&mut lines, stopped.volume.journal(), 0)?;
    push_user(&mut lines, stopped.volume.journal(), 8)?;
    rt.stdout().write_all(lines.as_slice())?;
    Ok(())
}
