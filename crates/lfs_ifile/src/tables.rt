//! The ifile of a volume.

ghost use Rattle.std.specs.Prelude.{◌≡◌, ◌+◌, ◌-◌, ◌*◌, ◌<◌, ◌≤◌, ◌↔◌, ℕ, length, slice_index, slice_index_or, true, false, IfErr, IfOk, IfNone, IfSome, IsErrOf, vec_len};
ghost use Rattle.lfs_ifile.specs.declared.segment.SegState.TheVariants.{Clean};
ghost use Rattle.lfs_ifile.specs.declared.fault.IfileFault.TheVariants.{Memory};
ghost use Rattle.lfs_ifile.specs.Inode.{raised_version, given_row, placed_row, released_row, IsPlace};
ghost use Rattle.lfs_ifile.specs.Tables.{Tables, blocks_of, usage_of, place_of, row_at, row_of, with_live, with_state, with_row, KeepsButLive, KeepsButState, KeepsButRow, AreUnclean, AreUsed, IsFirstClean, IsLeastFree, IsIfile, IsTooFew, IsTooMany, fresh_tables};
ghost use Rattle.lfs_ifile.specs.Layout.{ifile_bytes, IsIfileFaultOf, ReadsUse};

use crate::fault::IfileFault;
use crate::inode::{InodePlace, InodeRow, raised_version};
use crate::loading::{is_head, read_live, read_rows, read_states};
use crate::reading::{MAGIC, number_at};
use crate::segment::{SEGMENT_BYTES, SegState, SegUse};
use crate::writing::{push_rows, push_segments, push_u32};
use lfs_types::fault::FormatFault;
use lfs_types::limits::{FIRST_INODE, LEAST_INODES, LEAST_SEGMENTS, MOST_INODES, MOST_SEGMENTS};
use std::alloc::{AllocError, Global};
use std::marker::Model;

/// The least inode number that `least_free` gives, as an index of the rows.
const FIRST_FREE: usize = FIRST_INODE as usize;

/// How each segment is used, and where the record of each inode number stands. The numbers of
/// segments and of inode numbers never change.
#[derive(Debug, Drop)]
pub struct Ifile {
    live: Vec<u32>,
    states: Vec<SegState>,
    rows: Vec<InodeRow>,
    /// Every number from `FIRST_FREE` up and below this one is used.
    used_below: usize,
    /// No segment below this one is clean.
    unclean_below: usize,
}

impl Model for Ifile {
    ghost use Rattle.std.specs.Prelude.{◌≤◌, length};
    ghost use Rattle.lfs_types.specs.declared.limits.TheConstants.{FIRST_INODE};
    ghost use Rattle.lfs_ifile.specs.Tables.{Tables, IsIfile, AreUnclean, AreUsed};

    ghost Value = { Tables };

    ghost view = { λ file.
        record { live = file.live.items; states = file.states.items; rows = file.rows.items } };

    ghost invariant = { λ file.
        IsIfile
        (record { live = file.live.items; states = file.states.items; rows = file.rows.items })
        × (FIRST_INODE ≤ file.used_below) × (file.used_below ≤ length file.rows.items)
        × AreUsed file.rows.items FIRST_INODE file.used_below
        × (file.unclean_below ≤ length file.states.items)
        × AreUnclean file.states.items 0 file.unclean_below };
}

/// The least unused number from `from` up, or the number of rows.
fn first_unused(rows: &[InodeRow], from: usize) -> usize
    requires { from ≤ length rows.now }
    ensures low { from ≤ result }
    ensures high { result ≤ length rows.now }
    ensures used { AreUsed rows.now from result }
    ensures unused { result < length rows.now → (row_at rows.now result).used ≡ false }
{
    for ino in from..rows.len() {
        if !rows[ino].used {
            return ino;
        }
    }
    rows.len()
}

/// The first clean segment from `from` up, or the number of segments.
fn first_clean_from(states: &[SegState], from: usize) -> usize
    requires { from ≤ length states.now }
    ensures low { from ≤ result }
    ensures high { result ≤ length states.now }
    ensures unclean { AreUnclean states.now from result }
    ensures clean { result < length states.now
        → slice_index_or states.now result Clean ≡ Clean }
{
    for seg in from..states.len() {
        if let SegState::Clean = states[seg] {
            return seg;
        }
    }
    states.len()
}

impl Ifile {
    /// A new ifile, of 6 to 1,024 segments and 16 to 4,096 inode numbers: every segment is clean
    /// with no live bytes, and no number is used. `TooFew` and `TooMany` are answered outside these
    /// ranges, `Memory` where a growth was refused.
    pub fn format(alloc: Global, segments: u32, inodes: u32) -> Result<Ifile, FormatFault>
        ensures ok { IfOk result (λ file. file ≡ fresh_tables segments inodes) }
        ensures formed { IfOk result IsIfile }

        // The segments' range is judged before that of the inode numbers.
        ensures too_few { IsErrOf result FormatFault.TooFew ↔ IsTooFew segments inodes }
        ensures too_many { IsErrOf result FormatFault.TooMany ↔ IsTooMany segments inodes }
    {
        if segments < LEAST_SEGMENTS {
            return Err(FormatFault::TooFew);
        }
        if segments > MOST_SEGMENTS {
            return Err(FormatFault::TooMany);
        }
        if inodes < LEAST_INODES {
            return Err(FormatFault::TooFew);
        }
        if inodes > MOST_INODES {
            return Err(FormatFault::TooMany);
        }
        let row = InodeRow {
            used: false,
            address: 0,
            slot: 0,
            version: 0,
        };
        Ok(Ifile {
            live: vec![in alloc; 0; segments as usize]?,
            states: vec![in alloc; SegState::Clean; segments as usize]?,
            rows: vec![in alloc; row; inodes as usize]?,
            used_below: FIRST_FREE,
            unclean_below: 0,
        })
    }

    /// The ifile whose bytes these are, whoever made them: else what is wrong with them, or `Memory`.
    pub fn read(alloc: Global, bytes: &[u8]) -> Result<Ifile, IfileFault>
        ensures spelled { IfOk result (λ file. ifile_bytes file ≡ bytes.now) }
        // No other ifile has these bytes.
        ensures only { IfOk result (λ file. (other : Tables)
            → IsIfile other → ifile_bytes other ≡ bytes.now → other ≡ file) }
        ensures formed { IfOk result IsIfile }
        ensures fault { IfErr result (IsIfileFaultOf bytes.now) }
        // Where there is a fault, but for want of memory, no ifile has these bytes.
        ensures none { IfErr result (λ fault. (fault ≡ Memory → ⊥) → (file : Tables)
            → IsIfile file → ifile_bytes file ≡ bytes.now → ⊥) }
    {
        Ifile::parse(alloc, bytes)
    }

    /// What `read` gives.
    fn parse(alloc: Global, bytes: &[u8]) -> Result<Ifile, IfileFault>
        ensures spelled { IfOk result (λ file. ifile_bytes file ≡ bytes.now) }
        // No other ifile has these bytes.
        ensures only { IfOk result (λ file. (other : Tables)
            → IsIfile other → ifile_bytes other ≡ bytes.now → other ≡ file) }
        ensures formed { IfOk result IsIfile }
        ensures fault { IfErr result (IsIfileFaultOf bytes.now) }
    {
        if !is_head(bytes) {
            return Err(IfileFault::Head);
        }
        let segments = number_at(bytes, 4);
        let inodes = number_at(bytes, 8);
        let live = read_live(alloc, bytes, segments)?;
        let states = read_states(alloc, bytes, segments)?;
        let rows = read_rows(alloc, bytes, segments, inodes)?;
        Ok(Ifile {
            live,
            states,
            rows,
            used_below: FIRST_FREE,
            unclean_below: 0,
        })
    }

    /// The number of segments, 6 to 1,024.
    pub fn segments(&self) -> u32
        ensures value { result ≡ length self.now.live }
        ensures formed { IsIfile self.now }
    {
        self.live.len() as u32
    }

    /// The number of inode numbers, 16 to 4,096.
    pub fn inodes(&self) -> u32
        ensures value { result ≡ length self.now.rows }
        ensures formed { IsIfile self.now }
    {
        self.rows.len() as u32
    }

    /// How a segment is used.
    pub fn usage(&self, seg: u32) -> SegUse
        requires { seg < length self.now.live }
        ensures value { result ≡ usage_of self.now seg }
        ensures formed { IsIfile self.now }
    {
        SegUse {
            live: self.live[seg as usize],
            state: self.states[seg as usize],
        }
    }

    /// The first clean segment; `None` where none is clean.
    pub fn first_clean(&self) -> Option<u32>
        ensures some { IfSome result (IsFirstClean self.now) }
        ensures none { IfNone result (AreUnclean self.now.states 0 (length self.now.live)) }
        ensures formed { IsIfile self.now }
    {
        let clean = first_clean_from(&self.states, self.unclean_below);
        if clean < self.states.len() {
            Some(clean as u32)
        } else {
            None
        }
    }

    /// Where the record of an inode number stands; `None` where the number is unused.
    pub fn place(&self, ino: u32) -> Option<InodePlace>
        requires { ino < length self.now.rows }
        ensures value { result ≡ place_of self.now ino }
        ensures bounds { IfSome result (IsPlace (blocks_of self.now)) }
        ensures formed { IsIfile self.now }
    {
        self.rows[ino as usize].place()
    }

    /// The least unused number from 4 up; `None` where all of them are used.
    pub fn least_free(&self) -> Option<u32>
        ensures some { IfSome result (IsLeastFree self.now.rows) }
        ensures none { IfNone result (AreUsed self.now.rows FIRST_INODE (length self.now.rows)) }
        ensures formed { IsIfile self.now }
    {
        let free = first_unused(&self.rows, self.used_below);
        if free < self.rows.len() {
            Some(free as u32)
        } else {
            None
        }
    }

    /// Gives out an unused number: it is now used, its record is not in the log yet, and its version,
    /// which is returned, is raised.
    pub fn give_out(&mut self, ino: u32) -> u32
        requires in_range { ino < length self.old.rows }
        requires unused { (row_of self.old ino).used ≡ false }
        ensures version { result ≡ raised_version (row_of self.old ino).version }
        ensures after { self.new ≡ with_row self.old ino (given_row result) }
        ensures row { row_of self.new ino ≡ given_row result }
        ensures kept { KeepsButRow ino self.old self.new }
        ensures formed { IsIfile self.new }
    {
        let at = ino as usize;
        let free = first_unused(&self.rows, self.used_below);
        let version = raised_version(self.rows[at].version);
        self.rows[at] = InodeRow {
            used: true,
            address: 0,
            slot: 0,
            version,
        };
        // The used numbers that `free` lies above need not be passed again.
        self.used_below = if at == free { free + 1 } else { free };
        version
    }

    /// Sets where the record of a used number stands: the address of its inode block, and the slot
    /// in that block, 0 to 3.
    pub fn set_place(&mut self, ino: u32, addr: u32, slot: u16)
        requires in_range { ino < length self.old.rows }
        requires used { (row_of self.old ino).used ≡ true }
        requires addr_in_volume { addr < blocks_of self.old }
        requires slot_in_block { slot < 4 }
        ensures after { self.new ≡ with_row self.old ino
            (placed_row addr slot (row_of self.old ino)) }
        ensures row { row_of self.new ino ≡ placed_row addr slot (row_of self.old ino) }
        ensures kept { KeepsButRow ino self.old self.new }
        ensures formed { IsIfile self.new }
    {
        let at = ino as usize;
        self.rows[at] = InodeRow {
            address: addr,
            slot,
            ..self.rows[at]
        };
    }

    /// Takes a used number back: it is unused, and keeps its version.
    pub fn release(&mut self, ino: u32)
        requires in_range { ino < length self.old.rows }
        requires used { (row_of self.old ino).used ≡ true }
        ensures after { self.new ≡ with_row self.old ino (released_row (row_of self.old ino)) }
        ensures row { row_of self.new ino ≡ released_row (row_of self.old ino) }
        ensures kept { KeepsButRow ino self.old self.new }
        ensures formed { IsIfile self.new }
    {
        let at = ino as usize;
        self.rows[at] = InodeRow {
            used: false,
            address: 0,
            slot: 0,
            version: self.rows[at].version,
        };
        if FIRST_FREE <= at && at < self.used_below {
            self.used_below = at;
        }
    }

    /// Raises a segment's live bytes by `n`, to at most 32,768.
    pub fn add_live(&mut self, seg: u32, n: u32)
        requires in_range { seg < length self.old.live }
        requires fits { slice_index self.old.live seg + n ≤ SEGMENT_BYTES }
        ensures after { self.new ≡ with_live self.old seg (slice_index self.old.live seg + n) }
        ensures live { slice_index self.new.live seg ≡ slice_index self.old.live seg + n }
        ensures kept { KeepsButLive seg self.old self.new }
        ensures formed { IsIfile self.new }
    {
        self.live[seg as usize] += n;
    }

    /// Lowers a segment's live bytes by `n`, which they are at least.
    pub fn drop_live(&mut self, seg: u32, n: u32)
        requires in_range { seg < length self.old.live }
        requires fits { n ≤ slice_index self.old.live seg }
        ensures after { self.new ≡ with_live self.old seg (slice_index self.old.live seg - n) }
        ensures live { slice_index self.new.live seg ≡ slice_index self.old.live seg - n }
        ensures kept { KeepsButLive seg self.old self.new }
        ensures formed { IsIfile self.new }
    {
        self.live[seg as usize] -= n;
    }

    /// Sets a segment's state.
    pub fn set_state(&mut self, seg: u32, state: SegState)
        requires { seg < length self.old.live }
        ensures after { self.new ≡ with_state self.old seg state }
        ensures state { (usage_of self.new seg).state ≡ state }
        ensures kept { KeepsButState seg self.old self.new }
        ensures formed { IsIfile self.new }
    {
        let at = seg as usize;
        let clean = first_clean_from(&self.states, self.unclean_below);
        self.states[at] = state;
        // The segments that `clean` lies above need not be passed again.
        self.unclean_below = match state {
            SegState::Clean if at < clean => at,
            _ => clean,
        };
    }

    /// The ifile as bytes: `LFIF`, the numbers of segments and of inode numbers, then 8 bytes for
    /// each segment and 12 for each inode number.
    pub fn bytes(&self) -> Result<Vec<u8>, AllocError>
        ensures layout { IfOk result (λ bytes. bytes.items ≡ ifile_bytes self.now) }
        ensures len { IfOk result (λ bytes. vec_len bytes
            ≡ 12 + 8 * length self.now.live + 12 * length self.now.rows) }
        ensures read_back { IfOk result (λ bytes. (seg : ℕ) → seg < length self.now.live
            → ReadsUse bytes.items seg (usage_of self.now seg)) }
    {
        let segments = self.live.len();
        let inodes = self.rows.len();
        let mut bytes = Vec::with_capacity(
            *self.live.allocator(),
            12 + 8 * segments + 12 * inodes,
        )?;
        push_u32(&mut bytes, MAGIC)?;
        push_u32(&mut bytes, segments as u32)?;
        push_u32(&mut bytes, inodes as u32)?;
        push_segments(&mut bytes, &self.live, &self.states)?;
        push_rows(&mut bytes, &self.rows)?;
        Ok(bytes)
    }
}
