//! What stands at each address of a segment.

ghost use Rattle.std.specs.Prelude.{◌≡◌, ◌+◌, ◌*◌, ◌-◌, ◌<◌, ◌≤◌, All, IfOk};
ghost use Rattle.lfs_types.specs.declared.limits.TheConstants.{SEGMENT_BLOCKS};
ghost use Rattle.lfs_segments.specs.Log.{expected, first_of, log_block};
ghost use Rattle.lfs_segments.specs.Memory.{has_serials};
ghost use Rattle.lfs_parts.specs.Store.{IsStore};
ghost use Rattle.lfs_view.specs.Cells.{IsIn, cell_at, cells_of, named_kind, standing_kind};

use crate::records::{counts_at, present};
use crate::walk::{Standing, Walk};
use lfs_logstore::LogStore;
use lfs_parts::parts::Parts;
use lfs_segments::entry::{LogicalBlock, SummaryEntry};
use lfs_types::limits::SEGMENT_BLOCKS;
use std::alloc::{AllocError, Global};

/// What stands at an address.
#[derive(Clone, Copy, PartialEq, Eq, Debug)]
pub enum Kind {
    /// The label of the volume.
    Label,
    /// The summary of so many blocks that follow it.
    Summary(u32),
    /// A block that was written for a file, as its summary names it, and the present address of that block of the file: 0
    /// where it has none.
    Block(SummaryEntry, u32),
    /// A block of so many records, of which so many are the present ones.
    Records(u32, u32),
    /// Nothing was written here since the segment was opened.
    Unwritten,
}

/// An address, and what stands there.
#[derive(Clone, Copy, PartialEq, Eq, Debug)]
pub struct Cell {
    /// The address.
    pub address: u32,
    /// What stands there.
    pub kind: Kind,
}

/// The 64 blocks of a segment, by one walk over its log.
///
/// # Errors
///
/// Memory ran out.
pub fn cells(alloc: Global, store: &LogStore, segment: u32) -> Result<Vec<Cell>, AllocError>
    requires { segment < store.now.log.memory.segments }
    ensures { IfOk result (λ cells. cells.items ≡ cells_of store.now segment) }
{
    walked(alloc, store.parts(), segment)
}

/// The 64 blocks of a segment.
pub(crate) fn walked(alloc: Global, parts: &Parts, segment: u32) -> Result<Vec<Cell>, AllocError>
    requires store { IsStore parts.now }
    requires inside { segment < parts.now.log.memory.segments }
    ensures cells { IfOk result (λ cells. cells.items ≡ cells_of parts.now segment) }
    ensures within { IfOk result (λ cells. All (IsIn parts.now) cells.items) }
{
    let mut cells = Vec::new(alloc);
    let mut walk = Walk::start();
    let first = segment * SEGMENT_BLOCKS;
    for address in first..first + SEGMENT_BLOCKS {
        cells.push(next_cell(parts, &mut walk, segment, address))?;
    }
    Ok(cells)
}

/// What stands at the next address of a segment.
fn next_cell(parts: &Parts, walk: &mut Walk, segment: u32, address: u32) -> Cell
    requires store { IsStore parts.now }
    requires inside { segment < parts.now.log.memory.segments }
    requires from { segment * SEGMENT_BLOCKS ≤ address }
    requires to { address < segment * SEGMENT_BLOCKS + SEGMENT_BLOCKS }
    requires walked { walk.old ≡ expected (has_serials parts.now.log.memory)
        (log_block parts.now.log.memory segment) (address - first_of segment) }
    ensures cell { result ≡ cell_at parts.now address }
    ensures walked { walk.new ≡ expected (has_serials parts.now.log.memory)
        (log_block parts.now.log.memory segment) (address + 1 - first_of segment) }
{
    if address == 0 {
        return Cell {
            address,
            kind: Kind::Label,
        };
    }
    let standing = walk.pass(parts.log.block(address), parts.log.has_serials());
    Cell {
        address,
        kind: standing_kind(parts, address, standing),
    }
}

/// What is seen of what stands at an address.
fn standing_kind(parts: &Parts, address: u32, standing: Standing) -> Kind
    requires store { IsStore parts.now }
    requires inside { address < parts.now.log.memory.segments * SEGMENT_BLOCKS }
    ensures { result ≡ standing_kind parts.now address standing }
{
    match standing {
        Standing::Unwritten => Kind::Unwritten,
        Standing::Summary(count) => Kind::Summary(count),
        Standing::Named(entry) => named_kind(parts, address, entry),
    }
}

/// What is seen of a block that an entry names.
fn named_kind(parts: &Parts, address: u32, entry: SummaryEntry) -> Kind
    requires store { IsStore parts.now }
    requires inside { address < parts.now.log.memory.segments * SEGMENT_BLOCKS }
    ensures { result ≡ named_kind parts.now address entry entry.block }
{
    match entry.block {
        LogicalBlock::Inodes => {
            let (found, live) = counts_at(parts, address);
            Kind::Records(found, live)
        }
        LogicalBlock::Data(_)
        | LogicalBlock::Single
        | LogicalBlock::Double
        | LogicalBlock::Child(_) => {
            let present = present(parts, entry.number, entry.version, entry.block);
            Kind::Block(entry, present)
        }
    }
}
