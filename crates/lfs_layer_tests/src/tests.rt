//! Worked cases of the rules, bytes that are written out by hand, ranges, a log that is written, opened and read
//! again, what is wrong with one, what is found in blocks alone, stores after some use, images, trees, the nodes of a
//! mount, and texts.

mod directories;
mod fsck;
mod ifile;
mod image;
mod inodes;
mod log;
mod nodes;
mod reach;
mod recovery;
mod rules;
mod segments;
mod stores;
mod texts;
mod trees;

ghost use Rattle.std.specs.Prelude.{◌≡◌, ◌<◌};
ghost use Rattle.lfs_logstore.specs.States.{opening_state};

use lfs_logstore::LogStore;
use lfs_types::block::{BLOCK_SIZE, Block};
use lfs_types::mode::Mode;
use lfs_types::store::{FileStore, Params};
use std::alloc::Global;
use std::fmt::Debug;
use std::process::Abort;

/// Asserts that what was found is what is wanted. An assertion takes the prover a second or more, a call of this less.
fn expect_eq<T: PartialEq + Debug + Drop>(rt: &impl Abort, found: T, wanted: T) {
    assert_eq!(rt; found, wanted);
}

/// Asserts that these bytes are those.
fn expect_bytes(rt: &impl Abort, found: &[u8], wanted: &[u8]) {
    expect_eq(rt, found, wanted);
}

/// The block that begins with these bytes, as far as they fit, and goes on with zeros.
fn block_of(bytes: &[u8]) -> Block {
    let mut block = [0; BLOCK_SIZE];
    let length = bytes.len().min(BLOCK_SIZE);
    block[..length].copy_from_slice(&bytes[..length]);
    block
}

/// The mode of these bits.
fn mode(bits: u16) -> Mode
    requires { bits < 4096 }
{
    let Some(mode) = Mode::new(bits) else {
        unreachable!()
    };
    mode
}

/// The store of a fresh volume of six segments and 16 inode numbers.
fn fresh_log(rt: &impl Abort, alloc: Global) -> LogStore
    ensures { ⟦<LogStore as FileStore>⟧.state result ≡ opening_state 6 16 }
{
    let small = Params {
        segments: 6,
        inodes: 16,
        frames: 32,
        journal: 1,
    };
    match LogStore::format(alloc, small) {
        Ok(store) => store,
        Err(_) => panic!(rt; "no store"),
    }
}
