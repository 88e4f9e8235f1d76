//! What the kernel is told of the mount itself.

ghost use Rattle.std.specs.Prelude.{◌≡◌};
ghost use Rattle.lfs_mount.specs.Room.{
  blocks_of,
  init_told,
  one_used,
  room_of,
  taken_below,
  used_below,
};

use crate::mount::Sizes;
use lfs_fuse_calls::attr::attr;
use lfs_fuse_reply::reply::{InitReply, Statfs};
use lfs_fuse_wire::init::{Init, InitFlags};
use lfs_opens::rewriting::MAX_WRITE;
use lfs_types::attrs::Attrs;
use lfs_types::store::FileStore;

/// What is taken up of the kernel's offer: larger writes, O_TRUNC in OPEN, control calls of
/// directories, set-id bits as the volume's matter, messages of 32 pages, mmap beside direct I/O.
const WANTED: u64 = 0x10_4048_0828;

/// The blocks of the last two segments, which are for what gives blocks back.
const KEPT_BACK: u64 = 128;

/// What the kernel is told at the beginning.
pub(crate) fn init_reply(init: &Init) -> InitReply
    ensures { result ≡ init_told init.now }
{
    InitReply {
        major: 7,
        minor: 38,
        max_readahead: init.max_readahead.min(MAX_WRITE),
        flags: InitFlags(init.flags.0 & WANTED),
        max_background: 12,
        congestion_threshold: 9,
        max_write: MAX_WRITE,
        time_granularity: 1,
        max_pages: 32,
    }
}

/// The blocks that the bytes of a file take, if there is one.
fn blocks_of(attrs: Option<Attrs>) -> u64
    ensures { result ≡ blocks_of attrs }
{
    match attrs {
        Some(attrs) => attr(0, &attrs).blocks,
        None => 0,
    }
}

/// 1 of a number in use, else 0.
fn one_used(attrs: Option<Attrs>) -> u64
    ensures { result ≡ one_used attrs }
{
    match attrs {
        Some(_) => 1,
        None => 0,
    }
}

/// How many blocks the files of the first numbers take.
fn taken<F: FileStore>(store: &F, numbers: u32) -> u64
    ensures { result ≡ taken_below (F.state store.now).content numbers }
{
    let mut count: u64 = 0;
    for number in 0..numbers {
        count = count.saturating_add(blocks_of(store.attrs(number)));
    }
    count
}

/// How many of the first numbers are in use.
fn used<F: FileStore>(store: &F, numbers: u32) -> u64
    ensures { result ≡ used_below (F.state store.now).content numbers }
{
    let mut count: u64 = 0;
    for number in 0..numbers {
        count = count.saturating_add(one_used(store.attrs(number)));
    }
    count
}

/// The room of a volume that was laid out so: a segment has 64 blocks of 512 bytes. Free are those
/// of the clean segments, or those that no file's bytes take, whichever are more.
pub(crate) fn room<F: FileStore>(store: &F, sizes: Sizes) -> Statfs
    ensures { result ≡ room_of sizes (F.state store.now) }
{
    let blocks = u64::from(sizes.segments) * 64;
    let clean = u64::from(store.clean_segments()) * 64;
    let free = clean.max(blocks.saturating_sub(taken(store, sizes.inodes)));
    let files = u64::from(sizes.inodes).saturating_sub(3);
    Statfs {
        blocks,
        free_blocks: free,
        available_blocks: free.saturating_sub(KEPT_BACK),
        files,
        free_files: files.saturating_sub(used(store, sizes.inodes)),
        block_size: 512,
        max_name: 255,
    }
}
