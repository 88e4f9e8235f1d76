//! Setting the address of a block in what holds it, which waits.

ghost use Rattle.std.specs.Prelude.{◌≡◌, ◌<◌, ◌∷◌, [], ℕ, List, Some, IsSome, All};
ghost use Rattle.lfs_inodes.specs.declared.inode.Inode.{Inode};
ghost use Rattle.lfs_inodes.specs.declared.inode.TheConstants.{ADDRESS_LIMIT};
ghost use Rattle.lfs_cache.specs.Changes.{IsContents};
ghost use Rattle.lfs_cache.specs.declared.key.Key.{Key};
ghost use Rattle.lfs_cache.specs.Contents.{block_in};
ghost use Rattle.lfs_bmap.specs.declared.blocks.TheConstants.{FIRST_DATA_CODE};
ghost use Rattle.lfs_bmap.specs.Blocks.{IsFileBlock, way_to};
ghost use Rattle.lfs_staging.specs.Addressing.{IsWaiting, Sets, SetsEntry, StaysWaiting};
ghost use Rattle.lfs_staging.specs.Frames.{KeepsFrames};
ghost use Rattle.lfs_parts.specs.Store.{HolderWaits, IsPresent, IsWithin};

use lfs_bmap::blocks::{Cell, FileBlock};
use lfs_cache::{Cache, Key};
use lfs_inodes::inode::Inode;
use lfs_parts::parts::{Parts, key_of};

/// Sets an address in an indirect block that waits, in its frame.
fn set_entry(cache: &mut Cache, key: Key, index: usize, address: u32)
    requires inside { index < 128 }
    requires table { key.lbn.0 < FIRST_DATA_CODE }
    requires waits { IsSome (block_in key cache.old.locked) }
    ensures set { (block : List ℕ) → block_in key cache.old.locked ≡ Some block
        → SetsEntry cache.old cache.new key index address block }
    ensures held { KeepsFrames cache.old cache.new }
{
    cache.overwrite(key, 4 * index, &address.to_be_bytes());
}

/// Sets the address of a block of a file in what holds it, which waits: in the record, or in an
/// indirect block.
pub fn set_address(parts: &mut Parts, inode: &Inode, block: FileBlock, address: u32)
    requires record { IsWaiting parts.old inode.now }
    requires block { IsFileBlock block }
    requires within { IsWithin block inode.now.size }
    requires in_volume { address < ADDRESS_LIMIT }
    requires cache { IsContents parts.old.cache }
    requires present { All (λ (w : Inode). IsPresent parts.old w.number w.version)
        parts.old.waiting }
    requires parent { (i : ℕ) (up : List ℕ) → way_to block ≡ i ∷ up
        → HolderWaits parts.old.cache inode.now.number inode.now.version up }
    ensures set { (i : ℕ) (up : List ℕ) → way_to block ≡ i ∷ up
        → Sets parts.old parts.new inode.now i up address }
    ensures waiting { StaysWaiting parts.old parts.new inode.now }
    ensures held { KeepsFrames parts.old.cache parts.new.cache }
{
    let Some(Cell { table, index }) = block.cell() else {
        return;
    };
    match table {
        FileBlock::Record => parts
            .waiting
            .replace(inode.with_root(index as usize, address)),
        FileBlock::Single | FileBlock::Double | FileBlock::Child(_) | FileBlock::Data(_) => {
            let key = key_of(inode, table);
            set_entry(&mut parts.cache, key, index as usize, address);
        }
    }
}
